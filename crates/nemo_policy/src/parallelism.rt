ghost use Rattle.std.specs.Prelude.{◌≡◌, ◌<◌, ◌≤◌, [], length, IfOk};
ghost use Rattle.nemo_ir.specs.Along.{along};
ghost use Rattle.nemo_ir.specs.Nodes.{deed_of, edge_at, producer};
ghost use Rattle.nemo_policy.specs.Passes as spec;

use nemo_ir::{DagIndex, FlatJob, IrDag, IrVertex, VertexKind};
use nemo_transform::Transform;
use nemo_value::{List, NoMemory};
use std::alloc::Global;

/// The DAG with a parallelism for each vertex: a source gets no more tasks than it has rows, but at least 1, a vertex
/// with a Keyed port gets `p`, and any other gets that of the producer on its port 0.
pub(crate) fn set_parallelism(
    alloc: Global,
    flat: &FlatJob,
    dag: IrDag,
    p: u32,
) -> Result<IrDag, NoMemory>
    requires { p ≤ 64 }
    ensures { IfOk result (λ new. new ≡ spec.set_parallelism flat.now p dag) }
{
    let vertices = with_tasks(alloc, flat, &dag, p)?;
    let IrDag { edges, rep, .. } = dag;
    Ok(IrDag {
        vertices,
        edges,
        rep,
    })
}

fn with_tasks(
    alloc: Global,
    flat: &FlatJob,
    dag: &IrDag,
    p: u32,
) -> Result<List<IrVertex>, NoMemory>
    requires { p ≤ 64 }
    ensures { IfOk result (λ all. all ≡ along (spec.set_tasks flat.now p dag.now.edges) [] dag.now.vertices) }
{
    let index = DagIndex::new(alloc, dag)?;
    let mut all = List::with_capacity(alloc, dag.vertices.len())?;
    for u in dag.vertices.as_slice() {
        let parallelism = parallelism_of(flat, u.kind, before(all.as_slice(), &index), p);
        all.push(IrVertex { parallelism, ..*u })?;
    }
    Ok(all)
}

/// The parallelism of the producer on port 0 of the vertex that comes after these.
fn before(done: &[IrVertex], index: &DagIndex<'_>) -> u32
    requires { length done.now < length index.now.vertices }
    ensures { result ≡ spec.parallelism_at done.now (producer (edge_at index.now.edges (length done.now) 0)) }
{
    let producer = match index.in_edge(done.len(), 0) {
        Some(e) => e.from,
        None => 0,
    };
    parallelism_at(done, producer)
}

/// The parallelism of a vertex, and 1 where there is none.
pub(crate) fn parallelism_at(vertices: &[IrVertex], number: u32) -> u32
    ensures { result ≡ spec.parallelism_at vertices.now number }
{
    match vertices.get(number as usize) {
        Some(u) => u.parallelism,
        None => 1,
    }
}

fn parallelism_of(flat: &FlatJob, kind: VertexKind, before: u32, p: u32) -> u32
    requires { p ≤ 64 }
    ensures { result ≡ spec.parallelism_of p before (deed_of flat.now.transforms kind) }
{
    match kind {
        VertexKind::Op(number) => match flat.transforms.get(number as usize) {
            Some(transform) => parallelism_for(transform, before, p),
            None => before,
        },
        VertexKind::Relay | VertexKind::Trigger => before,
    }
}

#[tactic(auto, using(crate::proofs::Keyless::no_keyed))]
fn parallelism_for(transform: &Transform, before: u32, p: u32) -> u32
    requires { p ≤ 64 }
    ensures { result ≡ spec.parallelism_for p before transform.now }
{
    match transform {
        Transform::Source { rows } => rows.len().min(p as usize).max(1) as u32,
        Transform::Reduce { .. } | Transform::Distinct | Transform::Join => p,
        Transform::Map { .. }
        | Transform::Filter { .. }
        | Transform::Emit { .. }
        | Transform::Words { .. }
        | Transform::Union { .. }
        | Transform::SideJoin
        | Transform::Sink { .. } => before,
    }
}
