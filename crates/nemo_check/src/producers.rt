ghost use Rattle.std.specs.Prelude.{◌≡◌, ◌<◌, length, slice_index_or, IfOk};
ghost use Rattle.nemo_ir.specs.Nodes as nodes;

use nemo_ir::{DagIndex, IrVertex};
use nemo_value::NoMemory;
use std::alloc::Global;

/// For each vertex the Op behind it: itself, or, for a utility vertex, that of its producer.
pub(crate) fn ops_behind(alloc: Global, index: &DagIndex<'_>) -> Result<Vec<usize>, NoMemory>
    ensures { IfOk result (λ ops. ops.items ≡ nodes.resolved index.now) }
{
    let vertices = index.dag().vertices.as_slice();
    let mut ops = Vec::with_capacity(alloc, vertices.len())?;
    for (v, u) in vertices.iter().enumerate() {
        let op = op_behind(index, ops.as_slice(), v, u);
        ops.push(op)?;
    }
    Ok(ops)
}

fn op_behind(index: &DagIndex<'_>, ops: &[usize], v: usize, u: &IrVertex) -> usize
    requires within { v < length index.now.vertices }
    requires so_far { length ops.now ≡ v }
    ensures { result ≡ nodes.resolve_step index.now.edges ops.now u.now }
{
    if u.kind.is_utility() {
        op_at(ops, producer(index, v, 0))
    } else {
        v
    }
}

/// The Op behind a vertex, or 0.
pub(crate) fn op_at(ops: &[usize], v: u32) -> usize
    ensures { result ≡ slice_index_or ops.now v 0 }
{
    match ops.get(v as usize) {
        Some(op) => *op,
        None => 0,
    }
}

/// The producer at a port of a vertex, or 0.
pub(crate) fn producer(index: &DagIndex<'_>, v: usize, port: usize) -> u32
    requires { v < length index.now.vertices }
    ensures { result ≡ nodes.producer (nodes.edge_at index.now.edges v port) }
{
    match index.in_edge(v, port) {
        Some(e) => e.from,
        None => 0,
    }
}
