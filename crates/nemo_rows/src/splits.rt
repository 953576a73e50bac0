use crate::parts::number;
use crate::values::field_of;
use nemo_base::Cuts;
use nemo_ir::{hash_part, source_part, spread_part};
use nemo_value::{List, NoMemory, Record};
use serde_json::Value;
use std::alloc::Global;

/// Whether a task gets the rows that are expected. A row has the `call`, the `rows` that are split, the `task`, and the
/// number of `tasks`, the `cuts` or the `producer` that the call wants; `wanted` are the rows of the task.
pub(crate) fn is_expected(alloc: Global, call: &str, row: &Value) -> bool {
    let wanted = records_of(alloc, row.get("wanted"));
    match (part_of(alloc, call, row), wanted) {
        (Ok(part), Ok(wanted)) => are_same(part.as_slice(), wanted.as_slice()),
        _ => false,
    }
}

fn part_of(alloc: Global, call: &str, row: &Value) -> Result<Vec<Record>, NoMemory> {
    let rows = records_of(alloc, row.get("rows"))?;
    let rows = rows.as_slice();
    let tasks = small(row, "tasks").max(1).min(64);
    let task = small(row, "task");
    if call == "hash_part" {
        let Ok(cuts) = Cuts::new(numbers_of(alloc, row.get("cuts"))?.as_slice()) else {
            return Ok(Vec::new(alloc));
        };
        return hash_part(alloc, rows, &cuts, task.min(cuts.tasks() - 1));
    }
    let task = task.min(tasks - 1);
    if call == "spread_part" {
        spread_part(alloc, rows, small(row, "producer"), task, tasks)
    } else {
        source_part(alloc, rows, task, tasks)
    }
}

fn small(row: &Value, name: &str) -> u32 {
    u32::try_from(number(row, name)).unwrap_or(u32::MAX)
}

/// The numbers of an array; one beyond 16 bits is their last.
pub(crate) fn numbers_of(alloc: Global, value: Option<&Value>) -> Result<Vec<u16>, NoMemory> {
    let mut numbers = Vec::new(alloc);
    if let Some(items) = value.and_then(Value::as_array) {
        for item in items {
            let n = item.as_u64().unwrap_or(0);
            numbers.push(u16::try_from(n).unwrap_or(u16::MAX))?;
        }
    }
    Ok(numbers)
}

/// The records of an array; one that is none is left out.
fn records_of(alloc: Global, value: Option<&Value>) -> Result<Vec<Record>, NoMemory> {
    let mut records = Vec::new(alloc);
    if let Some(items) = value.and_then(Value::as_array) {
        for item in items {
            if let Some(record) = record_of(alloc, item)? {
                records.push(record)?;
            }
        }
    }
    Ok(records)
}

fn record_of(alloc: Global, value: &Value) -> Result<Option<Record>, NoMemory> {
    let mut fields = List::new(alloc);
    if let Some(items) = value.as_array() {
        for item in items {
            fields.push(field_of(alloc, Some(item))?)?;
        }
    }
    Ok(Record::new(fields).ok())
}

fn are_same(a: &[Record], b: &[Record]) -> bool {
    a.len() == b.len() && a.iter().zip(b).all(|(x, y)| x.cmp(y).is_eq())
}
