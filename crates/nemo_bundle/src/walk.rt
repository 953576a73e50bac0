ghost use Rattle.std.specs.Prelude.{◌≡◌};
ghost use Rattle.serde_json.specs.View.{view, items_view};
ghost use Rattle.nemo_bundle.specs.Answers.{Walks};
ghost use Rattle.nemo_bundle.specs.Ends.{vertex_read};
ghost use Rattle.nemo_bundle.specs.Vertices as spec;
ghost use Rattle.nemo_read.specs.Heads.{form_view, head_view};
ghost use Rattle.nemo_read.specs.Vertices.{head_of};

use crate::end::{WalkEnd, placed};
use nemo_job::{JobVertex, Ref, Work};
use nemo_read::{Form, Head, LoopForm, read_head};
use nemo_value::{Items, List, Name};
use serde_json::Value;
use std::alloc::Global;

// The walk over vertices, which are counted in list order, a loop before its body. `count` is the number of the next
// vertex. A number that a `u64` can't hold is taken as more vertices than memory holds, and so are loops that are deeper
// in one another than the walk goes down.

/// The most loops that are one in the other. JSON text has no room for more than 63.
pub(crate) const MAX_DEPTH: u32 = 64;

/// The vertices of a list, with at most `depth` loops one in the other.
#[cycle(walk)]
pub(crate) fn read_vertices(
    alloc: Global,
    items: Vec<Value>,
    count: &mut u64,
    depth: u32,
) -> Result<List<JobVertex>, WalkEnd>
    ensures { Walks (λ vs. record { made = vs; next = count.new }) result (spec.walk spec.vertex_at count.old (items_view items.items)) }
{
    let mut list = List::with_capacity(alloc, items.len())?;
    for value in items {
        list.push(read_vertex(alloc, value, count, depth)?)?;
    }
    Ok(list)
}

/// A vertex, with its body.
#[cycle(walk)]
fn read_vertex(
    alloc: Global,
    value: Value,
    count: &mut u64,
    depth: u32,
) -> Result<JobVertex, WalkEnd>
    ensures { Walks (λ v. record { made = v; next = count.new }) result (spec.vertex_at count.old (view value)) }
{
    let Head { name, inputs, form } = next_head(alloc, value, count)?;
    let work = read_work(alloc, form, count, depth);
    with_work(name, inputs, work)
}

/// The vertex of this name and these inputs, where what it does was read.
fn with_work(
    name: Name,
    inputs: List<Ref>,
    work: Result<Work, WalkEnd>,
) -> Result<JobVertex, WalkEnd>
    ensures { result ≡ vertex_read name inputs work }
{
    match work {
        Ok(work) => Ok(JobVertex { name, work, inputs }),
        Err(end) => Err(end),
    }
}

/// What a vertex does, with the vertices of the body if it is a loop.
#[cycle(walk)]
fn read_work(alloc: Global, form: Form, count: &mut u64, depth: u32) -> Result<Work, WalkEnd>
    ensures { Walks (λ w. record { made = w; next = count.new }) result (spec.work_by spec.vertex_at count.old (form_view form)) }
{
    match form {
        Form::Does(transform) => Ok(Work::Op(transform)),
        Form::Loops(
            LoopForm {
                turns,
                carry,
                body,
                next,
            },
        ) => {
            if depth == 0 {
                return Err(WalkEnd::NoMemory);
            }
            let body = read_vertices(alloc, body, count, depth - 1)?;
            Ok(Work::Loop {
                turns,
                carry,
                body: Items::from_vec(body.into_vec()),
                next,
            })
        }
    }
}

/// The head of the next vertex.
fn next_head(alloc: Global, value: Value, count: &mut u64) -> Result<Head, WalkEnd>
    ensures { Walks (λ h. record { made = head_view h; next = count.new }) result (spec.numbered count.old (head_of (view value))) }
{
    let head = placed(*count, read_head(alloc, value))?;
    *count = count.checked_add(1).ok_or(WalkEnd::NoMemory)?;
    Ok(head)
}
