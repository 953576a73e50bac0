ghost use Rattle.std.specs.Prelude.{◌≡◌, ◌≤◌, ◌<◌, [], true, IfOk, IsTrue};
ghost use Rattle.std.specs.List.{AllPass};
ghost use Rattle.nemo_ir.specs.Flat.{transform_of};
ghost use Rattle.nemo_ir.specs.Part.{dealt_to};
ghost use Rattle.nemo_transform.specs.Gives.{answers, rows_in};
ghost use Rattle.nemo_transform.specs.Soundness.{is_sound};
ghost use Rattle.nemo_replay.specs.StageRun.{is_served, rows_by, task_rows};

use nemo_ir::{FlatJob, FlatVertex, source_part};
use nemo_transform::{Transform, apply};
use nemo_value::{NoMemory, Record};
use std::alloc::Global;

/// The rows of a task after all vertices of a line, one after another. The first is a source, of which the task has its
/// part.
pub(crate) fn run_task(
    alloc: Global,
    flat: &FlatJob,
    task: u32,
    tasks: u32,
) -> Result<Vec<Record>, NoMemory>
    requires served { AllPass (is_served flat.now) flat.now.vertices }
    requires some { 1 ≤ tasks }
    requires few { tasks ≤ 64 }
    requires within { task < tasks }
    ensures { IfOk result (λ rows. rows.items ≡ task_rows flat.now tasks task flat.now.vertices []) }
{
    let mut rows = Vec::new(alloc);
    for vertex in flat.vertices.as_slice() {
        rows = run_vertex(alloc, flat, vertex, rows, task, tasks)?;
    }
    Ok(rows)
}

/// What a vertex gives to a task on the rows before it.
fn run_vertex(
    alloc: Global,
    flat: &FlatJob,
    vertex: &FlatVertex,
    rows: Vec<Record>,
    task: u32,
    tasks: u32,
) -> Result<Vec<Record>, NoMemory>
    requires served { IsTrue (is_served flat.now vertex.now) }
    requires some { 1 ≤ tasks }
    requires few { tasks ≤ 64 }
    requires within { task < tasks }
    ensures { IfOk result (λ given. given.items ≡ rows_by tasks task (transform_of flat.now vertex.now) rows.items) }
{
    let Some(transform) = flat.transforms.get(vertex.transform as usize) else {
        unreachable!();
    };
    apply_part(alloc, transform, rows, task, tasks)
}

/// What a transform gives to a task: a source its part of the rows, any other what comes of the rows before it.
#[tactic(auto, using(nemo_transform::proofs::MapSteps::passing))]
fn apply_part(
    alloc: Global,
    transform: &Transform,
    rows: Vec<Record>,
    task: u32,
    tasks: u32,
) -> Result<Vec<Record>, NoMemory>
    requires sound { IsTrue (is_sound transform.now) }
    requires some { 1 ≤ tasks }
    requires few { tasks ≤ 64 }
    requires within { task < tasks }
    ensures { IfOk result (λ given. given.items ≡ rows_in (answers (dealt_to tasks task transform.now) rows.items [])) }
{
    match transform {
        Transform::Source { rows: all } => source_part(alloc, all.as_slice(), task, tasks),
        Transform::Map { .. }
        | Transform::Filter { .. }
        | Transform::Emit { .. }
        | Transform::Words { .. }
        | Transform::Union { .. }
        | Transform::Reduce { .. }
        | Transform::Distinct
        | Transform::Join
        | Transform::SideJoin
        | Transform::Sink { .. } => {
            let applied = apply(alloc, transform, &rows, &[])?;
            Ok(applied.rows.into_vec())
        }
    }
}
