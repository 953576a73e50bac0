ghost use Rattle.std.specs.Prelude.{◌≡◌, ◌∷◌, [], ◌++◌, ◌≤◌, length, map, filter, IfOk, OnOk, IsTrue};
ghost use Rattle.std.specs.List.{flat_map, list_all};
ghost use Rattle.std.specs.Option.{option_copied};
ghost use Rattle.nemo_value.specs.Answers.{Gives};
ghost use Rattle.nemo_value.specs.Val.{val};
ghost use Rattle.nemo_value.specs.declared.field.Field.TheVariants as field;
ghost use Rattle.nemo_transform.specs.Gives.{alone, emitted, row_of, rows_or, rows_in, own_faults, words_in, pieces, is_filled};
ghost use Rattle.nemo_transform.specs.Passing.{passes};
ghost use Rattle.nemo_transform.specs.RowByRow.{rows_for, Adds, Fills, Puts};
ghost use Rattle.nemo_transform.specs.Soundness.{is_few, is_sound};

use crate::applying::Given;
use crate::fault::Fault;
use crate::transform::{Output, Transform};
use nemo_value::{EvalFault, Expr, Field, Kind, NoMemory, Row, Table, Text, value_of};
use std::alloc::Global;

/// What a transform that goes row by row gives: of each row its rows, or its first fault.
pub(crate) fn row_by_row(
    alloc: Global,
    transform: &Transform,
    rows: &[Row<'_>],
) -> Result<Given, NoMemory>
    requires { IsTrue (is_sound transform.now) }
    ensures rows { IfOk result (λ g. g.rows ≡ rows_in (flat_map (λ r. rows_or r (rows_for transform.now r)) rows.now)) }
    ensures faults { IfOk result (λ g. g.faults ≡ own_faults (flat_map (λ r. rows_or r (rows_for transform.now r)) rows.now)) }
{
    let mut given = Table::new(alloc);
    let mut fields = Vec::new(alloc);
    let mut faults = Vec::new(alloc);
    for row in rows {
        match add_rows(alloc, transform, row, &mut given, &mut fields) {
            Ok(()) => {}
            Err(EvalFault::Fault(kind)) => faults.push(Fault {
                kind,
                rec: row.to_record(alloc)?,
            })?,
            Err(EvalFault::NoMemory) => return Err(NoMemory),
        }
    }
    Given::new(alloc, given, faults)
}

/// Puts the rows that a transform gives of a row at the end, which are made in a buffer of fields. On a fault the others
/// stay as they were.
fn add_rows(
    alloc: Global,
    transform: &Transform,
    row: &Row<'_>,
    given: &mut Table,
    fields: &mut Vec<Field>,
) -> Result<(), EvalFault>
    requires { IsTrue (is_sound transform.now) }
    ensures { Adds result (rows_for transform.now row.now) given.old given.new }
{
    match transform {
        Transform::Map { out } => add_row(alloc, out, row, given, fields),
        Transform::Filter { cond } => {
            if is_so(alloc, cond, row)? {
                given.push_copy(alloc, row, fields)?;
            }
            Ok(())
        }
        Transform::Emit { outs } => add_outputs(alloc, outs, row, given, fields),
        Transform::Words { field } => add_field_words(alloc, row.get(*field), given, fields),
        Transform::Source { .. }
        | Transform::Union { .. }
        | Transform::Reduce { .. }
        | Transform::Distinct
        | Transform::Join
        | Transform::SideJoin
        | Transform::Sink { .. } => Ok(given.push_copy(alloc, row, fields)?),
    }
}

/// Puts the row of the values of `out` on a row at the end. On a fault the others stay as they were.
fn add_row(
    alloc: Global,
    out: &[Expr],
    row: &Row<'_>,
    given: &mut Table,
    fields: &mut Vec<Field>,
) -> Result<(), EvalFault>
    requires some { 1 ≤ length out.now }
    requires few { length out.now ≤ 16 }
    ensures { Adds result (alone (row_of out.now row.now)) given.old given.new }
{
    make_row(alloc, out, row, fields)?;
    Ok(given.push(fields)?)
}

/// Makes the row of the values of `out` on a row in a buffer of fields, or answers the first fault.
#[tactic(auto, using(crate::proofs::Rows::more))]
fn make_row(
    alloc: Global,
    out: &[Expr],
    row: &Row<'_>,
    fields: &mut Vec<Field>,
) -> Result<(), EvalFault>
    ensures made { Fills result (row_of out.now row.now) fields.new.items }
    ensures count { OnOk result (length fields.new.items ≡ length out.now) }
{
    fields.clear();
    for expr in out {
        fields.push(value_on(alloc, expr, row)?)?;
    }
    Ok(())
}

/// The value of an expression on a row, or its first fault.
fn value_on(alloc: Global, expr: &Expr, row: &Row<'_>) -> Result<Field, EvalFault>
    ensures { Gives result (val expr.now row.now) }
{
    value_of(alloc, expr, row.fields())
}

/// Whether a test isn't 0 on a row, or its fault.
fn is_so(alloc: Global, cond: &Expr, row: &Row<'_>) -> Result<bool, EvalFault>
    ensures { Gives result (passes (val cond.now row.now)) }
{
    match value_on(alloc, cond, row)? {
        Field::Int(n) => Ok(n != 0),
        Field::Text(_) => Err(EvalFault::Fault(Kind::Typed)),
    }
}

/// Puts the rows of the outputs on a row at the end. On a fault the others stay as they were.
fn add_outputs(
    alloc: Global,
    outs: &[Output],
    row: &Row<'_>,
    given: &mut Table,
    fields: &mut Vec<Field>,
) -> Result<(), EvalFault>
    requires { IsTrue (list_all (λ o. is_few (length o.out)) outs.now) }
    ensures { Adds result (emitted outs.now row.now) given.old given.new }
{
    let count = given.len();
    match push_outputs(alloc, outs, row, given, fields) {
        Ok(()) => Ok(()),
        Err(fault) => {
            given.truncate(count);
            Err(fault)
        }
    }
}

/// Puts the rows of the outputs on a row at the end, up to the first fault.
fn push_outputs(
    alloc: Global,
    outs: &[Output],
    row: &Row<'_>,
    given: &mut Table,
    fields: &mut Vec<Field>,
) -> Result<(), EvalFault>
    requires { IsTrue (list_all (λ o. is_few (length o.out)) outs.now) }
    ensures { Puts result (emitted outs.now row.now) given.old given.new }
{
    for output in outs {
        if is_so(alloc, &output.cond, row)? {
            add_row(alloc, &output.out, row, given, fields)?;
        }
    }
    Ok(())
}

/// Puts the words of a text field at the end, or answers the fault that there is none.
fn add_field_words(
    alloc: Global,
    field: Option<&Field>,
    given: &mut Table,
    fields: &mut Vec<Field>,
) -> Result<(), EvalFault>
    ensures { Adds result (words_in (option_copied field.entry)) given.old given.new }
{
    match field {
        Some(Field::Text(text)) => Ok(add_words(alloc, text, given, fields)?),
        Some(Field::Int(_)) => Err(EvalFault::Fault(Kind::Typed)),
        None => Err(EvalFault::Fault(Kind::NoField)),
    }
}

/// Puts the non-empty pieces of a text between bytes 0x20 at the end, each as a row of one field.
fn add_words(
    alloc: Global,
    text: &Text,
    given: &mut Table,
    fields: &mut Vec<Field>,
) -> Result<(), NoMemory>
    ensures { OnOk result (given.new ≡ given.old ++ map (λ w. field.Text w ∷ []) (filter is_filled (pieces text.now))) }
{
    for piece in text.as_str().split(' ') {
        if !piece.is_empty() {
            add_word(alloc, piece, given, fields)?;
        }
    }
    Ok(())
}

/// Puts a row of one text at the end.
fn add_word(
    alloc: Global,
    word: &str,
    given: &mut Table,
    fields: &mut Vec<Field>,
) -> Result<(), NoMemory>
    requires { length word.now ≤ 65535 }
    ensures { OnOk result (given.new ≡ given.old ++ (field.Text word.now ∷ []) ∷ []) }
{
    let Some(text) = Text::from_str(alloc, word)? else {
        unreachable!()
    };
    fields.clear();
    fields.push(Field::Text(text))?;
    given.push(fields)
}
