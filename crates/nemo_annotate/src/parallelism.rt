ghost use Rattle.std.specs.Prelude.{◌≡◌, ◌<◌, ◌≤◌, ℕ, [], length, unwrap_or};
ghost use Rattle.nemo_ir.specs.Along.{along};
ghost use Rattle.nemo_ir.specs.Nodes.{deed_of, edge_at, producer};
ghost use Rattle.nemo_ir.specs.Valid.{Holds, IsFirst};
ghost use Rattle.nemo_ir.specs.declared.clause.Clause.{Clause};
ghost use Rattle.nemo_annotate.specs.Ops.{IsOfOps};
ghost use Rattle.nemo_annotate.specs.Passes as spec;

use nemo_ir::{FlatJob, IrDag, IrEdge, IrVertex, VertexKind};
use nemo_transform::Transform;
use nemo_value::List;

/// Sets the parallelism of each vertex: a source gets the lesser of `p` and its number of rows, but at least 1, a vertex
/// with a Keyed port gets `p`, and any other gets that of the producer on its port 0. It is meant for a DAG of Ops alone
/// that meets the first six clauses. Its time is linear where the edges are in the order of vertices and ports.
pub fn set_parallelism(flat: &FlatJob, dag: &mut IrDag, p: u32)
    requires some { 1 ≤ p }
    requires few { p ≤ 64 }
    ensures dag { dag.new ≡ spec.set_parallelism flat.now p dag.old }
    ensures first { IsFirst flat.now dag.old → IsFirst flat.now dag.new }
    ensures ops { IsOfOps dag.old → IsOfOps dag.new }
    ensures within { length dag.old.vertices ≤ 4096 → Holds flat.now dag.new Clause.V9 }
{
    set_tasks(flat, &mut dag.vertices, dag.edges.as_slice(), p);
}

fn set_tasks(flat: &FlatJob, vertices: &mut List<IrVertex>, edges: &[IrEdge], p: u32)
    ensures { vertices.new ≡ along (spec.with_tasks flat.now p edges.now) [] vertices.old }
{
    let mut rest = edges;
    for v in 0..vertices.len() {
        rest = later_edges(rest, v);
        let u = with_tasks(
            flat,
            &vertices.as_slice()[..v],
            rest,
            vertices.as_slice()[v],
            p,
        );
        vertices.set(v, u);
    }
}

/// The edges without those at the front that lead to vertices before this one.
fn later_edges(edges: &[IrEdge], v: usize) -> &[IrEdge]
    ensures { (w port : ℕ) → v ≤ w → edge_at result.now w port ≡ edge_at edges.now w port }
{
    for (i, e) in edges.iter().enumerate() {
        if v <= e.to as usize {
            return &edges[i..];
        }
    }
    &edges[edges.len()..]
}

/// The vertex with its parallelism, after these.
fn with_tasks(flat: &FlatJob, done: &[IrVertex], rest: &[IrEdge], u: IrVertex, p: u32) -> IrVertex
    ensures { result ≡ spec.with_tasks flat.now p rest.now done.now u }
{
    let parallelism = match own_parallelism(flat, u.kind, p) {
        Some(own) => own,
        None => tasks_before(rest, done),
    };
    IrVertex { parallelism, ..u }
}

/// How many tasks the producer on port 0 of the vertex after these has.
fn tasks_before(edges: &[IrEdge], done: &[IrVertex]) -> u32
    ensures { result ≡ spec.tasks_before edges.now done.now }
{
    parallelism_at(done, producer_of(edges, done.len()))
}

/// The producer on port 0 of a vertex, and 0 where there is none.
fn producer_of(edges: &[IrEdge], v: usize) -> u32
    ensures { result ≡ producer (edge_at edges.now v 0) }
{
    for e in edges {
        if e.to as usize == v && e.port == 0 {
            return e.from;
        }
    }
    0
}

/// The parallelism of a vertex, and 1 where there is none.
pub(crate) fn parallelism_at(vertices: &[IrVertex], number: u32) -> u32
    ensures { result ≡ spec.parallelism_at vertices.now number }
{
    match vertices.get(number as usize) {
        Some(u) => u.parallelism,
        None => 1,
    }
}

/// The parallelism of a vertex that doesn't go by that of another one.
fn own_parallelism(flat: &FlatJob, kind: VertexKind, p: u32) -> Option<u32>
    ensures { (before : ℕ) → unwrap_or result before ≡ spec.parallelism_of p before (deed_of flat.now.transforms kind) }
{
    match kind {
        VertexKind::Op(number) => own_of(flat.transforms.get(number as usize)?, p),
        VertexKind::Relay | VertexKind::Trigger => None,
    }
}

#[tactic(auto, using(crate::proofs::Keyless::no_keyed))]
fn own_of(transform: &Transform, p: u32) -> Option<u32>
    ensures { (before : ℕ) → unwrap_or result before ≡ spec.parallelism_for p before transform.now }
{
    match transform {
        Transform::Source { rows } => Some(rows.len().min(p as usize).max(1) as u32),
        Transform::Reduce { .. } | Transform::Distinct | Transform::Join => Some(p),
        Transform::Map { .. }
        | Transform::Filter { .. }
        | Transform::Emit { .. }
        | Transform::Words { .. }
        | Transform::Union { .. }
        | Transform::SideJoin
        | Transform::Sink { .. } => None,
    }
}
