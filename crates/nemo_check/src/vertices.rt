ghost use Rattle.std.specs.Prelude.{◌≡◌, ◌==◌, ◌<◌, nat_lt, length, map, count_by, slice_get};
ghost use Rattle.std.specs.List.{list_all, list_any};
ghost use Rattle.nemo_ir.specs.Along.{below, passes};
ghost use Rattle.nemo_ir.specs.Valid as spec;

use crate::candidate::Candidate;
use nemo_ir::{DagIndex, FlatJob, IrDag, IrEdge};

/// Whether the vertex at a place has an out-edge, where it is a utility vertex.
pub(crate) fn is_used(index: &DagIndex<'_>, place: usize) -> bool
    ensures { result ≡ passes (spec.is_used index.now place) (slice_get index.now.vertices place) }
{
    match index.dag().vertices.get(place) {
        Some(u) => !u.kind.is_utility() || has_out_edge(index, place),
        None => false,
    }
}

fn has_out_edge(index: &DagIndex<'_>, v: usize) -> bool
    requires { v < length index.now.vertices }
    ensures { result ≡ list_any (λ e. e.from == v) index.now.edges }
{
    !index.out_edges(v).is_empty()
}

/// Whether each port of the vertex at a place has exactly one in-edge, and no in-edge names another port.
pub(crate) fn is_fed(flat: &FlatJob, index: &DagIndex<'_>, place: usize) -> bool
    ensures { result ≡ passes (spec.is_fed flat.now index.now place) (slice_get index.now.vertices place) }
{
    match index.dag().vertices.get(place) {
        Some(u) => names_each(
            u.port_count(flat.transforms.as_slice()),
            index.in_edges(place),
        ),
        None => false,
    }
}

/// Whether each port is named by exactly one of the edges, and no other port is.
fn names_each(ports: u32, edges: &[IrEdge]) -> bool
    ensures { result ≡ spec.names_each ports (map (λ e. e.port) edges.now) }
{
    all_once(ports, edges) && all_below(ports, edges)
}

#[tactic(auto, using(crate::proofs::Numbered::one_less))]
fn all_once(ports: u32, edges: &[IrEdge]) -> bool
    ensures { result ≡ list_all (λ p. count_by (λ q. q == p) (map (λ e. e.port) edges.now) == 1) (below ports) }
{
    for port in 0..ports {
        if !is_once(port, edges) {
            return false;
        }
    }
    true
}

fn all_below(ports: u32, edges: &[IrEdge]) -> bool
    ensures { result ≡ list_all (λ q. nat_lt q ports) (map (λ e. e.port) edges.now) }
{
    for e in edges {
        if e.port >= ports {
            return false;
        }
    }
    true
}

fn is_once(port: u32, edges: &[IrEdge]) -> bool
    ensures { result ≡ (count_by (λ q. q == port) (map (λ e. e.port) edges.now) == 1) }
{
    edges.iter().filter(|e| e.port == port).count() == 1
}

/// Whether the vertex at a place stands for a flat vertex, where it is an Op.
pub(crate) fn is_rep(candidate: &Candidate<'_>, place: usize) -> bool
    ensures { result ≡ passes (spec.is_rep candidate.now.index place) (slice_get candidate.now.index.vertices place) }
{
    match candidate.index.dag().vertices.get(place) {
        Some(u) => u.kind.is_utility() || is_standing(candidate, place),
        None => false,
    }
}

#[tactic(auto, using(crate::proofs::Numbered::standing_long, crate::proofs::Numbered::standing_at))]
fn is_standing(candidate: &Candidate<'_>, v: usize) -> bool
    requires { v < length candidate.now.index.vertices }
    ensures { result ≡ list_any (λ r. r == v) candidate.now.index.rep }
{
    candidate.lookups.standing[v]
}

/// The most vertices of a DAG.
const MAX_VERTICES: usize = 4096;

/// Whether the number and the parallelism of the vertex at a place are in their ranges.
pub(crate) fn is_within(dag: &IrDag, place: usize) -> bool
    ensures { result ≡ passes (spec.is_within place) (slice_get dag.now.vertices place) }
{
    match dag.vertices.get(place) {
        Some(u) => place < MAX_VERTICES && 1 <= u.parallelism && u.parallelism <= 64,
        None => false,
    }
}
