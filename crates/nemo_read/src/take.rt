ghost use Rattle.std.specs.Prelude.{◌≡◌, ◌≤◌, ◌++◌, ◌∷◌, [], List as Sequence, IfErr, OnOk, Some, length, option_map};
ghost use Rattle.nemo_value.specs.declared.field.Field.{Field};
ghost use Rattle.serde_json.specs.Find.{as_array, get};
ghost use Rattle.serde_json.specs.View.{view, items_view};
ghost use Rattle.nemo_read.specs.Answers.{Reads, ReadsAs};
ghost use Rattle.nemo_read.specs.Parts.{KeepsOthers, each, field_of, member_of, record_of};

use crate::end::PartEnd;
use nemo_value::{Field, List, NoMemory, Record, Text};
use serde_json::Value;
use std::alloc::Global;

// A value is taken apart here: what is large in it goes while it is read, and texts are moved.

/// Takes the member of a name out of a value; nothing where there is none. The others stay.
pub fn take_member(value: &mut Value, name: &str) -> Option<Value>
    ensures member { option_map view result ≡ get name.now (view value.old) }
    ensures others { KeepsOthers name.now (view value.old) (view value.new) }
{
    match value.as_object_mut() {
        Some(members) => members.remove(name),
        None => None,
    }
}

/// The items of the array that is the member of a name, which is taken out.
pub(crate) fn take_array(value: &mut Value, name: &str) -> Result<Vec<Value>, PartEnd>
    ensures { ReadsAs (λ v. items_view v.items) result (member_of name.now as_array (view value.old)) }
{
    match take_member(value, name) {
        Some(Value::Array(items)) => Ok(items),
        _ => Err(PartEnd::Malformed),
    }
}

/// The records of rows, which go while they are read.
#[tactic(auto, using(crate::proofs::Fronts::with_front_more))]
pub(crate) fn take_rows(alloc: Global, rows: Vec<Value>) -> Result<List<Record>, PartEnd>
    ensures { Reads result (each record_of (items_view rows.items)) }
{
    let mut records = List::with_capacity(alloc, rows.len())?;
    let mut read = List::new(alloc);
    for row in rows {
        take_row(alloc, &mut records, &mut read, row)?;
    }
    Ok(records)
}

/// Puts the record of a row to the others, and the row to those that are read.
fn take_row(
    alloc: Global,
    records: &mut List<Record>,
    read: &mut List<Value>,
    mut row: Value,
) -> Result<(), PartEnd>
    ensures ok { OnOk result ((made : Sequence Field) × (record_of (view row) ≡ Some made) × (records.new ≡ records.old ++ made ∷ [])) }
    ensures malformed { IfErr result (λ e. e ≡ PartEnd.Malformed → record_of (view row) ≡ None) }
{
    records.push(take_record(alloc, &mut row)?)?;
    set_aside(alloc, read, row)?;
    Ok(())
}

/// The record of a row, which is an array of 1 to 16 fields.
fn take_record(alloc: Global, row: &mut Value) -> Result<Record, PartEnd>
    ensures { Reads result (record_of (view row.old)) }
{
    match row.as_array_mut() {
        Some(items) => Record::new(take_fields(alloc, items.as_mut_slice())?).map_err(
            |_| PartEnd::Malformed,
        ),
        None => Err(PartEnd::Malformed),
    }
}

/// The fields of a row.
#[tactic(auto, using(crate::proofs::Fronts::with_front_more))]
fn take_fields(alloc: Global, items: &mut [Value]) -> Result<List<Field>, PartEnd>
    ensures { Reads result (each field_of (items_view items.old)) }
{
    let mut fields = List::with_capacity(alloc, items.len())?;
    for item in items.iter_mut() {
        fields.push(take_field(item)?)?;
    }
    Ok(fields)
}

/// A whole number of 64 bits, or a text of at most 65,535 bytes.
fn take_field(value: &mut Value) -> Result<Field, PartEnd>
    ensures { Reads result (field_of (view value.old)) }
{
    match value.take() {
        Value::Number(n) => Ok(Field::Int(n.as_i64().ok_or(PartEnd::Malformed)?)),
        Value::String(s) => match Text::new(s) {
            Ok(text) => Ok(Field::Text(text)),
            Err(_) => Err(PartEnd::Malformed),
        },
        _ => Err(PartEnd::Malformed),
    }
}

/// How many rows go at a time. One by one they would leave holes between the records, into which little fits.
const TOGETHER: usize = 1_024;

/// Puts a row to those that are read, which go where they are many.
fn set_aside(alloc: Global, read: &mut List<Value>, row: Value) -> Result<(), NoMemory>
    ensures { OnOk result (length read.new ≤ TOGETHER) }
{
    if read.len() >= TOGETHER {
        *read = List::with_capacity(alloc, TOGETHER)?;
    }
    read.push(row)
}
