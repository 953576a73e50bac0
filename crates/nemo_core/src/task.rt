ghost use Rattle.std.specs.Prelude.{◌≡◌, IfSome, None, false, is_some, map, slice_get, true};
ghost use Rattle.std.specs.List.{list_any};
ghost use Rattle.nemo_base.specs.Places.{item_at, map_rows, passes};
ghost use Rattle.nemo_core.specs.State.{runs};
ghost use Rattle.nemo_core.specs.Step as spec;
ghost use Rattle.nemo_core.specs.Within.{RunsOnly, runs_at};

use crate::grid::Grid;
use crate::row::{Attempt, TaskRow};
use nemo_base::TaskId;
use nemo_value::List;

/// A task by its places in a grid.
#[derive(Clone, Copy)]
pub(crate) struct Place {
    pub(crate) stage: usize,
    pub(crate) index: usize,
}

pub(crate) fn task_at(tasks: &Grid<TaskRow>, place: Place) -> Option<TaskRow>
    ensures { result ≡ item_at tasks.now place.stage place.index }
{
    tasks.get(place.stage, place.index)
}

pub(crate) fn running_of(row: Option<TaskRow>) -> Option<Attempt>
    ensures { result ≡ spec.running_of row }
{
    match row {
        Some(row) => row.running,
        None => None,
    }
}

fn runs(row: &TaskRow, attempt: u64) -> bool
    ensures { result ≡ runs attempt row.now }
{
    match row.running {
        Some(a) => a.number == attempt,
        None => false,
    }
}

fn stage_runs(rows: &[TaskRow], attempt: u64) -> bool
    ensures { result ≡ list_any (runs attempt) rows.now }
{
    rows.iter().any(|row| runs(row, attempt))
}

/// Whether a task runs the attempt.
pub(crate) fn is_running(tasks: &Grid<TaskRow>, attempt: u64) -> bool
    ensures { result ≡ list_any (list_any (runs attempt)) tasks.now }
{
    tasks
        .rows()
        .iter()
        .any(|rows| stage_runs(rows.as_slice(), attempt))
}

fn find_in(rows: &[TaskRow], attempt: u64) -> Option<usize>
    ensures there { IfSome result (λ i. passes (runs attempt) (slice_get rows.now i) ≡ true) }
    ensures none { result ≡ None → list_any (runs attempt) rows.now ≡ false }
{
    for (i, row) in rows.iter().enumerate() {
        if runs(row, attempt) {
            return Some(i);
        }
    }
    None
}

/// The task that runs the attempt.
pub(crate) fn find(tasks: &Grid<TaskRow>, attempt: u64) -> Option<Place>
    ensures there { IfSome result (λ p. runs_at tasks.now attempt p.stage p.index ≡ true) }
    ensures none { result ≡ None → list_any (list_any (runs attempt)) tasks.now ≡ false }
{
    for (stage, rows) in tasks.rows().iter().enumerate() {
        if let Some(index) = find_in(rows.as_slice(), attempt) {
            return Some(Place { stage, index });
        }
    }
    None
}

/// The task runs the attempt on the slot.
pub(crate) fn launch(tasks: &mut Grid<TaskRow>, attempt: u64, task: TaskId, slot: u32)
    requires { is_some (item_at tasks.old task.stage task.index) ≡ true }
    ensures { tasks.new ≡ map_rows (spec.launched attempt task slot) tasks.old }
{
    let (stage, index) = (task.stage as usize, task.index as usize);
    let Some(row) = tasks.get(stage, index) else {
        unreachable!();
    };
    let running = TaskRow {
        running: Some(Attempt {
            number: attempt,
            slot,
        }),
        losses: row.losses,
    };
    tasks.set(stage, index, running);
}

/// The one task that runs the attempt becomes idle.
pub(crate) fn end(tasks: &mut Grid<TaskRow>, place: Place, attempt: u64)
    requires { RunsOnly tasks.old attempt place.stage place.index }
    ensures { tasks.new ≡ map (map (spec.ended attempt)) tasks.old }
{
    let Some(row) = task_at(tasks, place) else {
        unreachable!();
    };
    tasks.set(place.stage, place.index, idle(row));
}

fn idle(row: TaskRow) -> TaskRow
    ensures { result ≡ spec.idle row }
{
    TaskRow {
        running: None,
        losses: row.losses,
    }
}

/// All tasks become idle.
pub(crate) fn end_all(tasks: &mut Grid<TaskRow>)
    ensures { tasks.new ≡ map (map spec.idle) tasks.old }
{
    end_rows(&mut tasks.rows);
}

fn end_rows(rows: &mut Vec<List<TaskRow>>)
    ensures { rows.new.items ≡ map (map spec.idle) rows.old.items }
{
    for stage in 0..rows.len() {
        end_in(&mut rows[stage]);
    }
}

fn end_in(rows: &mut List<TaskRow>)
    ensures { rows.new ≡ map spec.idle rows.old }
{
    for i in 0..rows.len() {
        let row = idle(rows.as_slice()[i]);
        rows.set(i, row);
    }
}
