ghost use Rattle.std.specs.Prelude.{◌≡◌, ◌==◌, ◌<◌, length, slice_get};
ghost use Rattle.std.specs.List.{list_all};
ghost use Rattle.nemo_ir.specs.Along.{below, passes};
ghost use Rattle.nemo_ir.specs.Valid.{is_one_to_one as is_task_by_task};
ghost use Rattle.nemo_plan.specs.Making as making;
ghost use Rattle.nemo_plan.specs.Stages as spec;

use nemo_base::{Class, Flow, Pattern};
use nemo_ir::{DagIndex, IrEdge};
use nemo_value::List;

/// Where the next vertex goes.
#[derive(Drop)]
pub(crate) enum Choice {
    /// It begins a stage.
    Begins,
    /// It joins this stage.
    Joins(u32),
    /// It joins this stage, and the stages stand in this order from now on.
    Turns(u32, List<u32>),
}

/// The stage that a vertex joins by the first of its ports that lets it, where these stages are closed to it.
pub(crate) fn first_open(
    index: &DagIndex<'_>,
    stages: &[u32],
    v: usize,
    class: Class,
    ports: u32,
    closed: &[bool],
) -> Option<u32>
    requires { v < length index.now.vertices }
    ensures { result ≡ spec.first_joined (making.open_at index.now stages.now v class closed.now) (below ports) }
{
    for port in 0..ports {
        if let Some(stage) = open_at(index, stages, v, class, closed, port as usize) {
            return Some(stage);
        }
    }
    None
}

/// The stage that the vertex may join by a port.
fn open_at(
    index: &DagIndex<'_>,
    stages: &[u32],
    v: usize,
    class: Class,
    closed: &[bool],
    port: usize,
) -> Option<u32>
    requires { v < length index.now.vertices }
    ensures { result ≡ making.open_at index.now stages.now v class closed.now port }
{
    let e = index.in_edge(v, port)?;
    let stage = *stages.get(e.from as usize)?;
    if may_join(index, stages, v, class, stage, &e) && !is_marked(closed, stage) {
        Some(stage)
    } else {
        None
    }
}

/// Whether the vertex joins a stage by this in-edge, unless that closes a circle.
fn may_join(
    index: &DagIndex<'_>,
    stages: &[u32],
    v: usize,
    class: Class,
    stage: u32,
    e: &IrEdge,
) -> bool
    requires { v < length index.now.vertices }
    ensures { result ≡ making.may_join index.now stages.now v class stage e.now }
{
    is_narrow_pull(e)
        && has_class(index, e.from, class)
        && all_go_on(stages, stage, index.in_edges(v))
}

/// Whether the vertex there has the class.
fn has_class(index: &DagIndex<'_>, v: u32, class: Class) -> bool
    ensures { result ≡ passes (λ u. spec.same_class u.class class) (slice_get index.now.vertices v) }
{
    match index.dag().vertices.get(v as usize) {
        Some(u) => same_class(u.class, class),
        None => false,
    }
}

fn same_class(a: Class, b: Class) -> bool
    ensures { result ≡ spec.same_class a b }
{
    match a {
        Class::Reserved => matches!(b, Class::Reserved),
        Class::Transient => matches!(b, Class::Transient),
    }
}

fn all_go_on(stages: &[u32], stage: u32, edges: &[IrEdge]) -> bool
    ensures { result ≡ list_all (spec.goes_on stages.now stage) edges.now }
{
    edges.iter().all(|e| goes_on(stages, stage, e))
}

/// Whether an in-edge that comes from the stage is OneToOne and Pull.
fn goes_on(stages: &[u32], stage: u32, e: &IrEdge) -> bool
    ensures { result ≡ spec.goes_on stages.now stage e.now }
{
    is_narrow_pull(e) || !is_of(stages, e.from, stage)
}

/// Whether the vertex is of the stage.
pub(crate) fn is_of(stages: &[u32], v: u32, stage: u32) -> bool
    ensures { result ≡ passes (λ a. a == stage) (spec.stage_at stages.now v) }
{
    match stages.get(v as usize) {
        Some(other) => *other == stage,
        None => false,
    }
}

/// Whether the stage is marked in a table.
pub(crate) fn is_marked(table: &[bool], stage: u32) -> bool
    ensures { result ≡ making.is_marked table.now stage }
{
    match table.get(stage as usize) {
        Some(marked) => *marked,
        None => false,
    }
}

/// Whether a stage may go on along the edge.
fn is_narrow_pull(e: &IrEdge) -> bool
    ensures { result ≡ spec.is_narrow_pull e.now }
{
    match e.flow {
        Flow::Push => false,
        Flow::Pull => is_one_to_one(e.pattern),
    }
}

pub(crate) fn is_one_to_one(pattern: Pattern) -> bool
    ensures { result ≡ is_task_by_task pattern }
{
    match pattern {
        Pattern::OneToOne => true,
        Pattern::Broadcast | Pattern::Hash | Pattern::Spread => false,
    }
}
