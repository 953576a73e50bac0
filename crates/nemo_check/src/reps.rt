ghost use Rattle.std.specs.Prelude.{◌≡◌, ◌↔◌, ◌<◌, length, map, slice_get, slice_index_or, IsTrue};
ghost use Rattle.nemo_check.specs.Tables as table;
ghost use Rattle.nemo_ir.specs.Flat.{transform_of};
ghost use Rattle.nemo_ir.specs.Nodes as nodes;
ghost use Rattle.nemo_ir.specs.Valid.{Meets, StandsFor, kinds_at};
ghost use Rattle.nemo_ir.specs.declared.clause.Clause.TheVariants.{V4};

use crate::candidate::Candidate;
use crate::producers::{op_at, producer};
use nemo_ir::{FlatJob, FlatVertex, IrDag, IrVertex, VertexKind};
use nemo_value::Same;

/// Whether the flat vertex at a place has a vertex that stands for it, or there is neither a flat vertex nor an entry of
/// `rep`.
pub(crate) fn has_rep(candidate: &Candidate<'_>, place: usize) -> bool
    ensures { IsTrue result ↔ Meets candidate.now.flat.now candidate.now.index V4 place }
{
    let flat = candidate.flat;
    match (
        flat.vertices.get(place),
        candidate.index.dag().rep.get(place),
    ) {
        (Some(x), Some(v)) => stands_for(candidate, x, *v),
        (None, None) => true,
        (Some(_), None) | (None, Some(_)) => false,
    }
}

/// Whether a vertex stands for the flat vertex.
fn stands_for(candidate: &Candidate<'_>, x: &FlatVertex, v: u32) -> bool
    ensures { IsTrue result ↔ StandsFor candidate.now.flat.now candidate.now.index x.now (slice_get (nodes.nodes candidate.now.flat.now.transforms candidate.now.index) v) }
{
    match candidate.index.dag().vertices.get(v as usize) {
        Some(u) => does_same(candidate.flat, x, u) && takes_same(candidate, x, v as usize, u),
        None => false,
    }
}

/// Whether the vertex is an Op with the transform of the flat vertex.
fn does_same(flat: &FlatJob, x: &FlatVertex, u: &IrVertex) -> bool
    ensures { IsTrue result ↔ (nodes.deed_of flat.now.transforms u.now.kind ≡ nodes.deed_or (transform_of flat.now x.now)) }
{
    match u.kind {
        VertexKind::Op(k) => are_same(flat, k, x.transform),
        VertexKind::Relay | VertexKind::Trigger => false,
    }
}

/// Whether equal transforms stand at two places of the table, or none at both.
fn are_same(flat: &FlatJob, k: u32, l: u32) -> bool
    ensures { IsTrue result ↔ (nodes.deed_or (slice_get flat.now.transforms k) ≡ nodes.deed_or (slice_get flat.now.transforms l)) }
{
    match (
        flat.transforms.get(k as usize),
        flat.transforms.get(l as usize),
    ) {
        (Some(a), Some(b)) => a.same(b),
        (None, None) => true,
        (Some(_), None) | (None, Some(_)) => false,
    }
}

/// Whether, port by port, the Ops behind the vertex are those that stand for the inputs of the flat vertex.
fn takes_same(candidate: &Candidate<'_>, x: &FlatVertex, v: usize, u: &IrVertex) -> bool
    requires { v < length candidate.now.index.vertices }
    ensures { IsTrue result ↔ (map (λ f. nodes.resolve candidate.now.index f.from) (nodes.feeds_from candidate.now.index.edges v 0 (kinds_at candidate.now.flat.now u.now)) ≡ map (nodes.rep_of candidate.now.index) x.now.inputs) }
{
    let flat = candidate.flat;
    if u.port_count(flat.transforms.as_slice()) as usize != x.inputs.len() {
        return false;
    }
    ports_match(candidate, v, x.inputs.as_slice())
}

/// Whether the Ops behind the ports of a vertex are those that stand for these flat vertices.
fn ports_match(candidate: &Candidate<'_>, v: usize, inputs: &[u32]) -> bool
    requires { v < length candidate.now.index.vertices }
    ensures { result ≡ table.ports_match candidate.now.index v 0 inputs.now }
{
    for (port, x) in inputs.iter().enumerate() {
        if behind(candidate, v, port) != rep_of(candidate.index.dag(), *x) as usize {
            return false;
        }
    }
    true
}

/// The Op behind a port of a vertex.
fn behind(candidate: &Candidate<'_>, v: usize, port: usize) -> usize
    requires { v < length candidate.now.index.vertices }
    ensures { result ≡ nodes.resolve candidate.now.index (nodes.producer (nodes.edge_at candidate.now.index.edges v port)) }
{
    op_at(
        candidate.lookups.ops.as_slice(),
        producer(&candidate.index, v, port),
    )
}

/// The vertex that stands for a flat vertex, or 0.
fn rep_of(dag: &IrDag, x: u32) -> u32
    ensures { result ≡ nodes.rep_of dag.now x }
{
    number_at(dag.rep.as_slice(), x)
}

/// The number at a place, or 0.
fn number_at(numbers: &[u32], place: u32) -> u32
    ensures { result ≡ slice_index_or numbers.now place 0 }
{
    match numbers.get(place as usize) {
        Some(number) => *number,
        None => 0,
    }
}
