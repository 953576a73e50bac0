ghost use Rattle.std.specs.Prelude.{◌≡◌, ◌<◌, ◌≤◌, ◌&&◌, ◌==◌, ℕ, Some, filter, length, map, slice_get, IfOk};
ghost use Rattle.nemo_base.specs.Places.{map_at};
ghost use Rattle.nemo_ir.specs.Along.{below, passes};
ghost use Rattle.nemo_ir.specs.Valid.{Valid};
ghost use Rattle.nemo_plan.specs.Graph as spec;
ghost use Rattle.nemo_plan.specs.Making.{IsMaking};
ghost use Rattle.nemo_plan.specs.Stages.{count_stages, stages_of};

use crate::cut::Making;
use crate::ranking::ranks;
use crate::reading::reads;
use crate::rows::{has_blocks, vertex_row};
use nemo_base::{Class, Read, StageRow, TaskGraph, VertexRow};
use nemo_ir::{DagIndex, FlatJob};
use nemo_value::{List, NoMemory, TryCopy};
use std::alloc::Global;

/// The graph of the tasks of the stages.
pub(crate) fn graph(
    alloc: Global,
    flat: &FlatJob,
    index: &DagIndex<'_>,
    made: &Making,
) -> Result<TaskGraph, NoMemory>
    requires valid { Valid flat.now index.now }
    requires stages { made.now.stages ≡ stages_of flat.now index.now }
    requires making { IsMaking index.now made.now }
    ensures { IfOk result (λ graph. graph ≡ spec.graph_of flat.now index.now) }
{
    let reads = all_reads(alloc, flat, index, made)?;
    let ranks = ranks(
        alloc,
        flat,
        index.dag(),
        made.stages.as_slice(),
        made.order.as_slice(),
        reads.as_slice(),
    )?;
    let stages = stage_rows(alloc, flat, index, made, ranks.as_slice(), reads.as_slice())?;
    let vertices = vertex_rows(alloc, flat, index, made.stages.as_slice())?;
    Ok(TaskGraph { stages, vertices })
}

/// What each stage reads.
fn all_reads(
    alloc: Global,
    flat: &FlatJob,
    index: &DagIndex<'_>,
    made: &Making,
) -> Result<List<List<Read>>, NoMemory>
    requires making { IsMaking index.now made.now }
    ensures { IfOk result (λ all. all ≡ map (spec.reads_of flat.now index.now made.now.stages) (below (count_stages made.now.stages))) }
{
    let mut all = List::with_capacity(alloc, made.members.len())?;
    for members in made.members.as_slice() {
        all.push(reads(
            alloc,
            flat,
            index,
            made.stages.as_slice(),
            members.as_slice(),
        )?)?;
    }
    Ok(all)
}

/// The row of each stage.
fn stage_rows(
    alloc: Global,
    flat: &FlatJob,
    index: &DagIndex<'_>,
    made: &Making,
    ranks: &[u32],
    reads: &[List<Read>],
) -> Result<List<StageRow>, NoMemory>
    requires making { IsMaking index.now made.now }
    requires ranks { ranks.now ≡ map (spec.rank_of flat.now index.now made.now.stages) (below (count_stages made.now.stages)) }
    requires reads { reads.now ≡ map (spec.reads_of flat.now index.now made.now.stages) (below (count_stages made.now.stages)) }
    ensures { IfOk result (λ all. all ≡ map (spec.stage_row flat.now index.now made.now.stages) (below (count_stages made.now.stages))) }
{
    let mut all = List::with_capacity(alloc, made.members.len())?;
    for (stage, members) in made.members.as_slice().iter().enumerate() {
        let row = stage_row(
            alloc,
            flat,
            index,
            made.stages.as_slice(),
            members.as_slice(),
            ranks[stage],
            &reads[stage],
        )?;
        all.push(row)?;
    }
    Ok(all)
}

/// The row of a stage of these vertices. They have the class and the parallelism of the first.
fn stage_row(
    alloc: Global,
    flat: &FlatJob,
    index: &DagIndex<'_>,
    stages: &[u32],
    members: &[u32],
    rank: u32,
    reads: &List<Read>,
) -> Result<StageRow, NoMemory>
    requires { (i v : ℕ) → slice_get members.now i ≡ Some v → v < length index.now.vertices }
    ensures { IfOk result (λ row. row ≡ record { class = spec.class_of (spec.first_vertex index.now members.now); parallelism = spec.tasks_of (spec.first_vertex index.now members.now); rank = rank; blocks = filter (λ v. passes (spec.has_blocks flat.now index.now stages.now v) (slice_get index.now.vertices v)) members.now; reads = reads.now }) }
{
    let (class, parallelism) = first_of(index, members);
    let blocks = blocks(alloc, flat, index, stages, members)?;
    let reads = reads.copy(alloc)?;
    Ok(StageRow {
        class,
        parallelism,
        rank,
        blocks,
        reads,
    })
}

/// The class and the parallelism of the first of some vertices.
fn first_of(index: &DagIndex<'_>, members: &[u32]) -> (Class, u32)
    ensures class { result.0 ≡ spec.class_of (spec.first_vertex index.now members.now) }
    ensures parallelism { result.1 ≡ spec.tasks_of (spec.first_vertex index.now members.now) }
{
    match members.first() {
        Some(v) => match index.dag().vertices.get(*v as usize) {
            Some(u) => (u.class, u.parallelism),
            None => (Class::Transient, 0),
        },
        None => (Class::Transient, 0),
    }
}

/// Those of some vertices that have blocks.
fn blocks(
    alloc: Global,
    flat: &FlatJob,
    index: &DagIndex<'_>,
    stages: &[u32],
    members: &[u32],
) -> Result<List<u32>, NoMemory>
    requires { (i v : ℕ) → slice_get members.now i ≡ Some v → v < length index.now.vertices }
    ensures { IfOk result (λ all. all ≡ filter (λ v. passes (spec.has_blocks flat.now index.now stages.now v) (slice_get index.now.vertices v)) members.now) }
{
    let mut all = List::new(alloc);
    for v in members {
        if keeps_blocks(flat, index, stages, *v) {
            all.push(*v)?;
        }
    }
    Ok(all)
}

/// Whether the vertex there has blocks.
#[tactic(auto, using(crate::proofs::Walks::both_filtered))]
fn keeps_blocks(flat: &FlatJob, index: &DagIndex<'_>, stages: &[u32], v: u32) -> bool
    requires { v < length index.now.vertices }
    ensures { result ≡ passes (spec.has_blocks flat.now index.now stages.now v) (slice_get index.now.vertices v) }
{
    match index.dag().vertices.get(v as usize) {
        Some(u) => has_blocks(flat, stages, u, index.out_edges(v as usize)),
        None => false,
    }
}

/// The row of each vertex.
fn vertex_rows(
    alloc: Global,
    flat: &FlatJob,
    index: &DagIndex<'_>,
    stages: &[u32],
) -> Result<List<VertexRow>, NoMemory>
    requires { length stages.now ≡ length index.now.vertices }
    ensures { IfOk result (λ all. all ≡ map_at (spec.vertex_row flat.now index.now stages.now) 0 index.now.vertices) }
{
    let vertices = index.dag().vertices.as_slice();
    let mut all = List::with_capacity(alloc, vertices.len())?;
    for (v, u) in vertices.iter().enumerate() {
        let row = vertex_row(alloc, flat, index, stages, v, u)?;
        all.push(row)?;
    }
    Ok(all)
}
