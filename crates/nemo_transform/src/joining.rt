ghost use Rattle.std.specs.Prelude.{◌≡◌, ◌≤◌, ◌++◌, ◌∷◌, [], map, drop, length, IfOk, OnOk};
ghost use Rattle.std.specs.List.{filter_map};
ghost use Rattle.std.specs.Option.{option_map_or};
ghost use Rattle.std.specs.HashMap.{get_by};
ghost use Rattle.std.specs.Ordering.{is_eq};
ghost use Rattle.nemo_value.specs.Order.{field_cmp};
ghost use Rattle.nemo_value.specs.declared.field.Field.{Field};
ghost use Rattle.nemo_transform.specs.FirstField.{side_by_side, wide_once, with_first};
ghost use Rattle.nemo_transform.specs.Gives.{join, keyless, rows_in, fault_in, own_faults, is_filled};
ghost use Rattle.nemo_value.specs.Key.{first_key};

use crate::applying::Given;
use crate::fault::Fault;
use nemo_value::{Field, Kind, MAX_FIELDS, NoMemory, Row, Table, push_copies};
use std::alloc::Global;
use std::collections::HashMap;

/// Of each left row the rows with the right rows of its key, in their order, and a fault where these are too wide.
pub(crate) fn joined(alloc: Global, left: &[Row<'_>], right: &[Row<'_>]) -> Result<Given, NoMemory>
    ensures rows { IfOk result (λ g. g.rows ≡ rows_in (join first_key first_key left.now right.now)) }
    ensures faults { IfOk result (λ g. g.faults ≡ own_faults (join first_key first_key left.now right.now)) }
{
    let by_key = rows_by_key(alloc, right)?;
    let mut rows = Table::new(alloc);
    let mut fields = Vec::new(alloc);
    let mut faults = Vec::new(alloc);
    for row in left {
        let key = row.key();
        let Some(others) = by_key.get(&key) else {
            continue;
        };
        push_joined(alloc, row, others, &mut rows, &mut fields, &mut faults)?;
    }
    Given::new(alloc, rows, faults)
}

/// For each key the rows that have it, in their order.
fn rows_by_key<'a>(
    alloc: Global,
    rows: &'a [Row<'a>],
) -> Result<HashMap<&'a Field, Vec<&'a Row<'a>>>, NoMemory>
    ensures rows { IfOk result (λ m. (q : Field) → option_map_or (λ g. map (λ r. r.now) g.items) (get_by (λ k. is_eq (field_cmp q k.now)) m) [] ≡ with_first q rows.now) }
    ensures keyed { OnOk result (keyless first_key rows.now ≡ []) }
{
    let mut by_key: HashMap<&'a Field, Vec<&'a Row<'a>>> = HashMap::new(alloc);
    for row in rows {
        by_key.entry(row.key())?.or_default().push(row)?;
    }
    Ok(by_key)
}

/// Puts the rows of a left row with some right ones behind others, and one fault where some of these are too wide.
fn push_joined(
    alloc: Global,
    left: &Row<'_>,
    right: &[&Row<'_>],
    rows: &mut Table,
    fields: &mut Vec<Field>,
    faults: &mut Vec<Fault>,
) -> Result<(), NoMemory>
    ensures rows { OnOk result (rows.new ≡ rows.old ++ rows_in (map (side_by_side left.now) (map (λ r. r.now) right.now))) }
    ensures faults { OnOk result (faults.new.items ≡ faults.old.items ++ wide_once left.now (map (side_by_side left.now) (map (λ r. r.now) right.now))) }
{
    if push_pairs(alloc, left, right, rows, fields)? {
        faults.push(Fault {
            kind: Kind::Wide,
            rec: left.to_record(alloc)?,
        })?;
    }
    Ok(())
}

/// Puts the rows of a left row with some right ones behind others; whether some of these are too wide.
fn push_pairs(
    alloc: Global,
    left: &Row<'_>,
    right: &[&Row<'_>],
    rows: &mut Table,
    fields: &mut Vec<Field>,
) -> Result<bool, NoMemory>
    ensures rows { IfOk result (λ wide. rows.new ≡ rows.old ++ rows_in (map (side_by_side left.now) (map (λ r. r.now) right.now))) }
    ensures wide { IfOk result (λ wide. wide ≡ is_filled (filter_map fault_in (map (side_by_side left.now) (map (λ r. r.now) right.now)))) }
{
    let mut wide = false;
    for other in right {
        if left.fields().len() + other.fields().len() - 1 <= MAX_FIELDS {
            push_pair(alloc, left, other, rows, fields)?;
        } else {
            wide = true;
        }
    }
    Ok(wide)
}

/// Puts the row of the left fields, and then of the right ones from field 1, behind others.
fn push_pair(
    alloc: Global,
    left: &Row<'_>,
    right: &Row<'_>,
    rows: &mut Table,
    fields: &mut Vec<Field>,
) -> Result<(), NoMemory>
    requires { length (left.now ++ drop 1 right.now) ≤ 16 }
    ensures { OnOk result (rows.new ≡ rows.old ++ (left.now ++ drop 1 right.now) ∷ []) }
{
    fields.clear();
    push_copies(alloc, fields, left.fields())?;
    push_copies(alloc, fields, &right.fields()[1..])?;
    rows.push(fields)
}
