ghost use Rattle.std.specs.Prelude.{◌≡◌, ◌<◌, ℕ, Some, length, map, slice_get, IfOk};
ghost use Rattle.nemo_job.specs.Held.{IsLast, IsLower, node_of};
ghost use Rattle.nemo_job.specs.Readers.{IsMarked, end_of};

use crate::copies::Node;
use nemo_transform::Transform;
use nemo_value::NoMemory;
use std::alloc::Global;

/// For each copy that reaches a sink the place of the last copy that takes what it gives, and for a sink the number of
/// copies; nothing for a copy that reaches no sink.
pub fn last_readers(alloc: Global, nodes: &[Node<'_>]) -> Result<Vec<Option<usize>>, NoMemory>
    requires { IsLower (map node_of nodes.now) }
    ensures { IfOk result (λ last. IsLast (map node_of nodes.now) last.items) }
{
    let mut last = sinks_last(alloc, nodes)?;
    for place in (0..nodes.len()).rev() {
        if last[place].is_some() {
            mark(&mut last, nodes[place].inputs.as_slice(), place);
        }
    }
    Ok(last)
}

/// The number of vertices for a sink, and nothing for another vertex.
fn sinks_last(alloc: Global, nodes: &[Node<'_>]) -> Result<Vec<Option<usize>>, NoMemory>
    ensures { IfOk result (λ last. last.items ≡ map (λ n. end_of (length nodes.now) (node_of n)) nodes.now) }
{
    let count = nodes.len();
    let mut last = Vec::with_capacity(alloc, count)?;
    for node in nodes {
        last.push(match node.transform {
            Transform::Sink { .. } => Some(count),
            _ => None,
        })?;
    }
    Ok(last)
}

/// Notes that the vertex of a place takes these, where no later one does.
fn mark(last: &mut Vec<Option<usize>>, inputs: &[usize], place: usize)
    requires { (k j : ℕ) → slice_get inputs.now k ≡ Some j → j < length last.old.items }
    ensures { IsMarked inputs.now place last.old.items last.new.items }
{
    for input in inputs {
        last[*input] = last[*input].or(Some(place));
    }
}
