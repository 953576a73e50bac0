ghost use Rattle.std.specs.Prelude.{◌≡◌, ◌++◌, ◌<◌, slice_get, length, Some, ℕ, IfOk, OnOk};
ghost use Rattle.std.specs.List.{filter_map, flat_map};
ghost use Rattle.nemo_ir.specs.Along.{below};
ghost use Rattle.nemo_ir.specs.Nodes.{edge_at};
ghost use Rattle.nemo_ir.specs.Valid.{kinds_at};
ghost use Rattle.nemo_plan.specs.Graph as spec;
ghost use Rattle.nemo_plan.specs.Making as making;

use crate::joins::is_one_to_one;
use nemo_base::Read;
use nemo_ir::{DagIndex, FlatJob, IrEdge};
use nemo_value::{List, NoMemory};
use std::alloc::Global;

/// What the stage of these vertices reads, in the order of the vertices and their ports.
pub(crate) fn reads(
    alloc: Global,
    flat: &FlatJob,
    index: &DagIndex<'_>,
    stages: &[u32],
    members: &[u32],
) -> Result<List<Read>, NoMemory>
    requires { (i v : ℕ) → slice_get members.now i ≡ Some v → v < length index.now.vertices }
    ensures { IfOk result (λ reads. reads ≡ flat_map (λ v. spec.reads_into flat.now index.now stages.now v (slice_get index.now.vertices v)) members.now) }
{
    let mut all = List::new(alloc);
    for v in members {
        push_reads(&mut all, flat, index, stages, *v)?;
    }
    Ok(all)
}

/// Puts to the end what a vertex reads.
fn push_reads(
    all: &mut List<Read>,
    flat: &FlatJob,
    index: &DagIndex<'_>,
    stages: &[u32],
    v: u32,
) -> Result<(), NoMemory>
    requires { v < length index.now.vertices }
    ensures { OnOk result (all.new ≡ all.old ++ spec.reads_into flat.now index.now stages.now v (slice_get index.now.vertices v)) }
{
    for port in 0..ports_at(flat, index, v) {
        if let Some(read) = read_at(index, stages, v, port) {
            all.push(read)?;
        }
    }
    Ok(())
}

/// How many ports the vertex there has.
fn ports_at(flat: &FlatJob, index: &DagIndex<'_>, v: u32) -> u32
    ensures { result ≡ making.ports_at flat.now (slice_get index.now.vertices v) }
{
    match index.dag().vertices.get(v as usize) {
        Some(u) => u.port_count(flat.transforms.as_slice()),
        None => 0,
    }
}

/// What a vertex reads by a port, where its in-edge comes from another stage.
fn read_at(index: &DagIndex<'_>, stages: &[u32], v: u32, port: u32) -> Option<Read>
    requires { v < length index.now.vertices }
    ensures { result ≡ spec.read_along stages.now (edge_at index.now.edges v port) }
{
    let e = index.in_edge(v as usize, port as usize)?;
    if leaves(stages, &e) {
        Some(Read {
            vertex: e.from,
            wide: !is_one_to_one(e.pattern),
        })
    } else {
        None
    }
}

/// Whether the edge leaves its producer's stage.
pub(crate) fn leaves(stages: &[u32], e: &IrEdge) -> bool
    ensures { result ≡ spec.leaves stages.now e.now }
{
    match stages.get(e.from as usize) {
        Some(from) => match stages.get(e.to as usize) {
            Some(to) => *from != *to,
            None => false,
        },
        None => false,
    }
}
