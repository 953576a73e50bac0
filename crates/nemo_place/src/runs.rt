ghost use Rattle.std.specs.Prelude.{◌≡◌, ◌<◌, ◌==◌, ℕ, filter, nat_le, true};
ghost use Rattle.std.specs.List.{prefix_len};
ghost use Rattle.nemo_place.specs.Runs.{rises_from};

use nemo_ir::IrEdge;

/// Whether no edge leads to a vertex before that of the edge in front of it.
pub(crate) fn are_in_order(edges: &[IrEdge]) -> bool
    ensures { result ≡ rises_from 0 edges.now }
{
    let mut last = 0;
    for e in edges {
        if e.to < last {
            return false;
        }
        last = e.to;
    }
    true
}

/// Of the edges that are left at vertex `v`, some that have all those into `v` among them, and some that have all those
/// into later vertices. Where they are in order, no edge is in both.
pub(crate) fn split(edges: &[IrEdge], v: usize, in_order: bool) -> (&[IrEdge], &[IrEdge])
    requires { in_order ≡ true → rises_from 0 edges.now ≡ true }
    ensures into { filter (λ e. e.to == v) result.0.now ≡ filter (λ e. e.to == v) edges.now }
    ensures later { (w : ℕ) → v < w → filter (λ e. e.to == w) result.1.now ≡ filter (λ e. e.to == w) edges.now }
    ensures order { in_order ≡ true → rises_from 0 result.1.now ≡ true }
{
    if in_order {
        edges.split_at(run(edges, v))
    } else {
        (edges, edges)
    }
}

/// How many edges at the front lead to `v` or a vertex before it.
fn run(edges: &[IrEdge], v: usize) -> usize
    ensures { result ≡ prefix_len (λ e. nat_le e.to v) edges.now }
{
    for (i, e) in edges.iter().enumerate() {
        if v < e.to as usize {
            return i;
        }
    }
    edges.len()
}
