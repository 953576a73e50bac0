ghost use Rattle.std.specs.Prelude.{◌≡◌, ◌≤◌, ◌<◌, ◌==◌, IfOk, filter};
ghost use Rattle.nemo_ir.specs.Part.{dealt, task_of};

use nemo_base::Cuts;
use nemo_value::{NoMemory, Record, TryCopy};
use std::alloc::Global;

/// The rows of a source that go to a task: row k goes to the task whose number is k modulo the number of tasks, which
/// is 1 to 64.
pub fn source_part(
    alloc: Global,
    rows: &[Record],
    task: u32,
    tasks: u32,
) -> Result<Vec<Record>, NoMemory>
    requires some { 1 ≤ tasks }
    requires few { tasks ≤ 64 }
    requires within { task < tasks }
    ensures { IfOk result (λ part. part.items ≡ dealt tasks task 0 rows.now) }
{
    let mut part = Vec::new(alloc);
    for (k, row) in rows.iter().enumerate() {
        if k % tasks as usize == task as usize {
            part.push(row.copy(alloc)?)?;
        }
    }
    Ok(part)
}

/// The rows that go to a task by their keys: those whose bucket the cuts deal to it.
pub fn hash_part(
    alloc: Global,
    rows: &[Record],
    cuts: &Cuts,
    task: u32,
) -> Result<Vec<Record>, NoMemory>
    ensures { IfOk result (λ part. part.items ≡ filter (λ r. task_of cuts.now r == task) rows.now) }
{
    let mut part = Vec::new(alloc);
    for row in rows {
        if cuts.task_of(row.bucket()) == task {
            part.push(row.copy(alloc)?)?;
        }
    }
    Ok(part)
}

/// The rows of a producer's task that go to a task where they are spread: row k of task `producer` goes to the task whose
/// number is `producer` + k modulo the number of tasks, which is 1 to 64.
pub fn spread_part(
    alloc: Global,
    rows: &[Record],
    producer: u32,
    task: u32,
    tasks: u32,
) -> Result<Vec<Record>, NoMemory>
    requires some { 1 ≤ tasks }
    requires few { tasks ≤ 64 }
    requires within { task < tasks }
    ensures { IfOk result (λ part. part.items ≡ dealt tasks task producer rows.now) }
{
    let mut part = Vec::new(alloc);
    for (k, row) in rows.iter().enumerate() {
        if (producer as usize + k) % tasks as usize == task as usize {
            part.push(row.copy(alloc)?)?;
        }
    }
    Ok(part)
}
