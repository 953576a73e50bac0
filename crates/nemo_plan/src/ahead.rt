ghost use Rattle.std.specs.Prelude.{◌≡◌, ◌<◌, ◌==◌, ℕ, Some, length, not, true, false, filter, replicate, slice_get, IfOk};
ghost use Rattle.std.specs.List.{list_any};
ghost use Rattle.nemo_plan.specs.Graph.{vertices_of};
ghost use Rattle.nemo_plan.specs.Making as making;
ghost use Rattle.nemo_plan.specs.Order.{parted};
ghost use Rattle.nemo_plan.specs.Stages as spec;

use crate::cut::Making;
use crate::joins::is_marked;
use nemo_ir::{DagIndex, IrEdge};
use nemo_value::{List, NoMemory};
use std::alloc::Global;

/// The stages from which in-edges of the next vertex come, as a table of all stages.
pub(crate) fn sources(
    alloc: Global,
    index: &DagIndex<'_>,
    stages: &[u32],
    count: usize,
    v: usize,
) -> Result<Vec<bool>, NoMemory>
    requires within { v < length index.now.vertices }
    requires count { count ≡ spec.count_stages stages.now }
    ensures { IfOk result (λ table. table.items ≡ making.sources_of index.now stages.now v) }
{
    let mut table = unmarked(alloc, count)?;
    for e in index.in_edges(v) {
        mark(&mut table, stages, e);
    }
    Ok(table)
}

/// Marks the stage from which an edge comes.
fn mark(table: &mut Vec<bool>, stages: &[u32], e: &IrEdge)
    ensures { table.new.items ≡ making.marked table.old.items (spec.stage_at stages.now e.now.from) }
{
    if let Some(stage) = stages.get(e.from as usize) {
        if let Some(marked) = table.get_mut(*stage as usize) {
            *marked = true;
        }
    }
}

/// A table of so many stages with none marked.
fn unmarked(alloc: Global, count: usize) -> Result<Vec<bool>, NoMemory>
    ensures { IfOk result (λ table. table.items ≡ replicate count false) }
{
    let mut table = Vec::with_capacity(alloc, count)?;
    for _ in 0..count {
        table.push(false)?;
    }
    Ok(table)
}

/// Whether the stage stands last in the order of all from which the next vertex has in-edges.
pub(crate) fn is_last(order: &[u32], sources: &[bool], stage: u32) -> bool
    ensures { result ≡ true → making.IsLast order.now sources.now stage }
{
    let mut passed = false;
    for other in order {
        if *other == stage {
            passed = true;
        } else if passed && is_marked(sources, *other) {
            return false;
        }
    }
    true
}

/// The stages from which another one of those can be reached from which the next vertex has in-edges: to join one of
/// them would close a circle. They are found backwards along the order, each once.
pub(crate) fn closed(
    alloc: Global,
    index: &DagIndex<'_>,
    made: &Making,
    sources: &[bool],
    v: usize,
) -> Result<Vec<bool>, NoMemory>
    requires making { making.IsMaking index.now made.now }
    requires sources { sources.now ≡ making.sources_of index.now made.now.stages v }
    ensures { IfOk result (λ table. table.items ≡ making.closed_to index.now made.now.stages v) }
{
    let count = made.order.len();
    let mut table = unmarked(alloc, count)?;
    for behind in 0..count {
        let stage = made.order[count - 1 - behind];
        let leads = leads_on(index, made, sources, table.as_slice(), stage);
        table[stage as usize] = leads;
    }
    Ok(table)
}

/// Whether an edge leads from the stage to another that is a source or leads to one.
fn leads_on(
    index: &DagIndex<'_>,
    made: &Making,
    sources: &[bool],
    closed: &[bool],
    stage: u32,
) -> bool
    requires making { making.IsMaking index.now made.now }
    requires within { stage < spec.count_stages made.now.stages }
    ensures { result ≡ making.leads_on index.now made.now.stages sources.now closed.now stage (vertices_of made.now.stages stage) }
{
    let stages = made.stages.as_slice();
    let members = made.members[stage as usize].as_slice();
    members_lead(index, stages, sources, closed, stage, members)
}

/// Whether an edge leads from one of these vertices of the stage to another stage that is a source or leads to one.
fn members_lead(
    index: &DagIndex<'_>,
    stages: &[u32],
    sources: &[bool],
    closed: &[bool],
    stage: u32,
    members: &[u32],
) -> bool
    requires { (i v : ℕ) → slice_get members.now i ≡ Some v → v < length index.now.vertices }
    ensures { result ≡ making.leads_on index.now stages.now sources.now closed.now stage members.now }
{
    for v in members {
        let edges = index.out_edges(*v as usize);
        if any_leads(stages, sources, closed, stage, edges) {
            return true;
        }
    }
    false
}

fn any_leads(
    stages: &[u32],
    sources: &[bool],
    closed: &[bool],
    stage: u32,
    edges: &[IrEdge],
) -> bool
    ensures { result ≡ list_any (making.leads_by stages.now sources.now closed.now stage) edges.now }
{
    edges
        .iter()
        .any(|e| leads_by(stages, sources, closed, stage, e))
}

/// Whether an edge leads from the stage to another that is a source or leads to one.
fn leads_by(stages: &[u32], sources: &[bool], closed: &[bool], stage: u32, e: &IrEdge) -> bool
    ensures { result ≡ making.leads_by stages.now sources.now closed.now stage e.now }
{
    match stages.get(e.to as usize) {
        Some(other) => {
            *other != stage && (is_marked(sources, *other) || is_marked(closed, *other))
        }
        None => false,
    }
}

/// The order in which the stages stand once the next vertex joins one: first those that lead to the vertex from
/// elsewhere, and then the others.
pub(crate) fn turned(
    alloc: Global,
    order: &[u32],
    sources: &[bool],
    closed: &[bool],
    stage: u32,
) -> Result<List<u32>, NoMemory>
    ensures { IfOk result (λ turned. turned ≡ parted (making.stays_behind sources.now closed.now stage) order.now) }
{
    let (mut turned, behind) = split(alloc, order, sources, closed, stage)?;
    for other in behind.as_slice() {
        turned.push(*other)?;
    }
    Ok(turned)
}

/// The stages that lead to the vertex from elsewhere, and the others.
fn split(
    alloc: Global,
    order: &[u32],
    sources: &[bool],
    closed: &[bool],
    stage: u32,
) -> Result<(List<u32>, List<u32>), NoMemory>
    ensures { IfOk result (λ both. (both.0 ≡ filter (λ m. not (making.stays_behind sources.now closed.now stage m)) order.now) × (both.1 ≡ filter (making.stays_behind sources.now closed.now stage) order.now)) }
{
    let mut before = List::with_capacity(alloc, order.len())?;
    let mut behind = List::with_capacity(alloc, order.len())?;
    for other in order {
        if stays_behind(sources, closed, stage, *other) {
            behind.push(*other)?;
        } else {
            before.push(*other)?;
        }
    }
    Ok((before, behind))
}

fn stays_behind(sources: &[bool], closed: &[bool], stage: u32, other: u32) -> bool
    ensures { result ≡ making.stays_behind sources.now closed.now stage other }
{
    !((is_marked(sources, other) && other != stage) || is_marked(closed, other))
}
