ghost use Rattle.std.specs.Prelude.{◌≡◌, ◌+◌, ◌^◌, ◌<◌, ◌≤◌, [], ◌∷◌, ◌++◌, map, IfOk, OnOk};
ghost use Rattle.std.specs.HashMap.{get_by};
ghost use Rattle.std.specs.List.{filter_map, flat_map};
ghost use Rattle.std.specs.List.Sorted.{IsStrictlySortedBy};
ghost use Rattle.std.specs.Map.{lookup};
ghost use Rattle.std.specs.Option.{option_copied, option_map};
ghost use Rattle.nemo_value.specs.Answers.{Gives};
ghost use Rattle.nemo_value.specs.Ascending.{ascending};
ghost use Rattle.nemo_value.specs.Order.{field_cmp, record_cmp};
ghost use Rattle.nemo_value.specs.Sorting.{sorted};
ghost use Rattle.nemo_value.specs.declared.field.Field.{Field};
ghost use Rattle.nemo_transform.specs.Folds.{known, known_or, known_group, start_of, folding_of, folded_with, with_read, why, value_in, lesser, greater, size};
ghost use Rattle.nemo_transform.specs.FirstField.{with_first};
ghost use Rattle.nemo_transform.specs.Gives.{answers, keyless, rows_in, fault_in, own_faults, read};
ghost use Rattle.nemo_value.specs.Key.{first_key};
ghost use Rattle.nemo_transform.specs.Groups.{group_of, fault_of, at_key, key_of, seen, answer_at};
ghost use Rattle.nemo_transform.specs.declared.transform.Transform.TheVariants.{Reduce, Distinct};

use crate::applying::Given;
use crate::fault::Fault;
use crate::transform::Folding;
use nemo_value::{
    EvalFault, Field, Kind, List, NoMemory, Record, Row, Table, TryCopy, sorted_rows,
};
use std::alloc::Global;
use std::cmp::Ordering;
use std::collections::{HashMap, HashSet};

/// Each different row once, in ascending order.
#[tactic(auto, using(crate::proofs::MapSteps::passing))]
pub(crate) fn distinct(alloc: Global, rows: &[Row<'_>]) -> Result<Given, NoMemory>
    ensures rows { IfOk result (λ g. g.rows ≡ rows_in (answers Distinct rows.now [])) }
    ensures faults { IfOk result (λ g. g.faults ≡ own_faults (answers Distinct rows.now [])) }
{
    let different = different_rows(alloc, rows)?;
    let ordered = sorted_rows(alloc, different)?;
    Ok(Given {
        rows: Table::of(alloc, ordered.as_slice())?,
        faults: List::new(alloc),
    })
}

/// Each different row once, by its first place.
fn different_rows<'a>(alloc: Global, rows: &[Row<'a>]) -> Result<Vec<Row<'a>>, NoMemory>
    ensures { IfOk result (λ different. sorted record_cmp different.items ≡ ascending record_cmp rows.now) }
{
    let mut seen: HashSet<&[Field]> = HashSet::new(alloc);
    let mut different = Vec::new(alloc);
    for row in rows {
        if seen.insert(row.fields())? {
            different.push(row.again())?;
        }
    }
    Ok(different)
}

/// Of each key in ascending order the key and the fold of its rows' fields, or the faults of its bad rows.
pub(crate) fn reduced(
    alloc: Global,
    by: Folding,
    field: u32,
    rows: &[Row<'_>],
) -> Result<Given, NoMemory>
    ensures rows { IfOk result (λ g. g.rows ≡ rows_in (answers (Reduce by field) rows.now [])) }
    ensures faults { IfOk result (λ g. g.faults ≡ own_faults (answers (Reduce by field) rows.now [])) }
{
    let mut faults = Vec::new(alloc);
    let groups = groups_of(alloc, by, field, rows, &mut faults)?;
    let entries = in_key_order(alloc, groups)?;
    let given = rows_of(alloc, &entries, &mut faults)?;
    Given::new(alloc, given, faults)
}

/// The group of the rows of each key. The faults of bad rows go behind others.
fn groups_of<'a>(
    alloc: Global,
    by: Folding,
    field: u32,
    rows: &[Row<'a>],
    faults: &mut Vec<Fault>,
) -> Result<HashMap<&'a Field, Group<'a>>, NoMemory>
    ensures groups { IfOk result (λ m. (k : Field) → option_map known_group (get_by (at_key k) m) ≡ group_of by field (with_first k rows.now)) }
    ensures faults { OnOk result (faults.new.items ≡ faults.old.items ++ filter_map (fault_of by field) rows.now) }
    ensures keyed { OnOk result (keyless first_key rows.now ≡ []) }
{
    let empty = start(by);
    let mut groups: HashMap<&'a Field, Group<'a>> = HashMap::new(alloc);
    for row in rows {
        let group = groups.entry(row.key())?.or_insert(empty);
        let (more, why) = with_row(*group, row.get(field));
        *group = more;
        if let Some(kind) = why {
            faults.push(Fault {
                kind,
                rec: row.to_record(alloc)?,
            })?;
        }
    }
    Ok(groups)
}

/// The keys with their groups, in ascending order.
fn in_key_order<'a>(
    alloc: Global,
    groups: HashMap<&'a Field, Group<'a>>,
) -> Result<Vec<(&'a Field, Group<'a>)>, NoMemory>
    ensures order { IfOk result (λ entries. IsStrictlySortedBy field_cmp (map key_of entries.items)) }
    ensures same { IfOk result (λ entries. (k : Field) → lookup (at_key k) entries.items ≡ get_by (at_key k) groups.entry) }
{
    let mut entries: Vec<(&'a Field, Group<'a>)> = groups.into_iter().collect(alloc)?;
    entries.sort_unstable_by_key(|entry| entry.0);
    Ok(entries)
}

/// Of each key without bad rows the key and the value of its fold. The faults of sums go behind others.
fn rows_of(
    alloc: Global,
    entries: &[(&Field, Group<'_>)],
    faults: &mut Vec<Fault>,
) -> Result<Table, NoMemory>
    ensures rows { IfOk result (λ rows. rows ≡ rows_in (flat_map answer_at (map seen entries.now))) }
    ensures faults { OnOk result (faults.new.items ≡ faults.old.items ++ filter_map fault_in (flat_map answer_at (map seen entries.now))) }
{
    let mut given = Table::new(alloc);
    let mut fields = Vec::new(alloc);
    for entry in entries {
        push_answer(alloc, entry.0, entry.1, &mut given, &mut fields, faults)?;
    }
    Ok(given)
}

/// Puts the row, which is made in a buffer of fields, or the fault of a key behind others.
fn push_answer(
    alloc: Global,
    key: &Field,
    group: Group<'_>,
    rows: &mut Table,
    fields: &mut Vec<Field>,
    faults: &mut Vec<Fault>,
) -> Result<(), NoMemory>
    ensures rows { OnOk result (rows.new ≡ rows.old ++ rows_in (answer_at (key.now, known_group group.entry))) }
    ensures faults { OnOk result (faults.new.items ≡ faults.old.items ++ filter_map fault_in (answer_at (key.now, known_group group.entry))) }
{
    if group.is_bad {
        return Ok(());
    }
    match value_of(alloc, group.fold) {
        Ok(Some(value)) => push_pair(alloc, key, value, rows, fields),
        Ok(None) => Ok(()),
        Err(EvalFault::Fault(kind)) => push_fault(alloc, kind, key, faults),
        Err(EvalFault::NoMemory) => Err(NoMemory),
    }
}

/// Puts the row of a key and a value behind others.
fn push_pair(
    alloc: Global,
    key: &Field,
    value: Field,
    rows: &mut Table,
    fields: &mut Vec<Field>,
) -> Result<(), NoMemory>
    ensures { OnOk result (rows.new ≡ rows.old ++ (key.now ∷ value ∷ []) ∷ []) }
{
    fields.clear();
    fields.push(key.copy(alloc)?)?;
    fields.push(value)?;
    rows.push(fields)
}

/// Puts the fault of a key, which is its record, behind others.
fn push_fault(
    alloc: Global,
    kind: Kind,
    key: &Field,
    faults: &mut Vec<Fault>,
) -> Result<(), NoMemory>
    ensures { OnOk result (faults.new.items ≡ faults.old.items ++ record { kind = kind; rec = key.now ∷ [] } ∷ []) }
{
    let rec = key_record(alloc, key)?;
    Ok(faults.push(Fault { kind, rec })?)
}

/// The record of a key alone.
fn key_record(alloc: Global, key: &Field) -> Result<Record, NoMemory>
    ensures { IfOk result (λ made. made ≡ key.now ∷ []) }
{
    let mut fields = List::with_capacity(alloc, 1)?;
    fields.push(key.copy(alloc)?)?;
    Ok(Record::of(fields))
}

/// What a reduce made of the rows of a key so far. The least and the greatest field are borrowed.
#[derive(Clone, Copy)]
enum Fold<'a> {
    Sum(i128),
    Count(i128),
    Min(Option<&'a Field>),
    Max(Option<&'a Field>),
}

/// A fold of the rows of a key, and whether one of them is bad.
#[derive(Clone, Copy)]
struct Group<'a> {
    fold: Fold<'a>,
    is_bad: bool,
}

/// The fold of no rows.
fn start<'a>(by: Folding) -> Group<'a>
    ensures known { known_group result ≡ start_of by }
    ensures size { size result.fold ≡ 0 }
{
    let fold = match by {
        Folding::Sum => Fold::Sum(0),
        Folding::Count => Fold::Count(0),
        Folding::Min => Fold::Min(None),
        Folding::Max => Fold::Max(None),
    };
    Group {
        fold,
        is_bad: false,
    }
}

/// The group with a row more, where `value` is the row's field; and why the row is bad, if it is.
fn with_row<'a>(group: Group<'a>, value: Option<&'a Field>) -> (Group<'a>, Option<Kind>)
    requires { size group.fold + 2 ^ 64 < 2 ^ 127 }
    ensures known { known_group result.0 ≡ with_read (known_group group.entry) (read (folding_of (known group.entry.fold)) (option_copied value.entry)) }
    ensures why { result.1 ≡ why (read (folding_of (known group.entry.fold)) (option_copied value.entry)) }
    ensures size { size result.0.fold ≤ size group.entry.fold + 2 ^ 63 }
{
    let is_bad = group.is_bad;
    match folded(group.fold, value) {
        Ok(fold) => (Group { fold, is_bad }, None),
        Err(kind) => (
            Group {
                fold: group.fold,
                is_bad: true,
            },
            Some(kind),
        ),
    }
}

/// The fold with the field of a row more, or why there is none to fold.
fn folded<'a>(fold: Fold<'a>, value: Option<&'a Field>) -> Result<Fold<'a>, Kind>
    requires { size fold + 2 ^ 64 < 2 ^ 127 }
    ensures known { known_or result ≡ folded_with (known fold.entry) (read (folding_of (known fold.entry)) (option_copied value.entry)) }
    ensures size { IfOk result (λ more. size more ≤ size fold.entry + 2 ^ 63) }
{
    match fold {
        Fold::Count(count) => Ok(Fold::Count(count + 1)),
        Fold::Sum(sum) => match value {
            Some(Field::Int(n)) => Ok(Fold::Sum(sum + i128::from(*n))),
            Some(Field::Text(_)) => Err(Kind::Typed),
            None => Err(Kind::NoField),
        },
        Fold::Min(best) => match (best, value) {
            (Some(best), Some(field)) => Ok(Fold::Min(Some(lesser(best, field)))),
            (None, Some(field)) => Ok(Fold::Min(Some(field))),
            (_, None) => Err(Kind::NoField),
        },
        Fold::Max(best) => match (best, value) {
            (Some(best), Some(field)) => Ok(Fold::Max(Some(greater(best, field)))),
            (None, Some(field)) => Ok(Fold::Max(Some(field))),
            (_, None) => Err(Kind::NoField),
        },
    }
}

fn lesser<'a>(best: &'a Field, field: &'a Field) -> &'a Field
    ensures { result.now ≡ lesser best.now field.now }
{
    match field.cmp(best) {
        Ordering::Less => field,
        Ordering::Equal | Ordering::Greater => best,
    }
}

fn greater<'a>(best: &'a Field, field: &'a Field) -> &'a Field
    ensures { result.now ≡ greater best.now field.now }
{
    match field.cmp(best) {
        Ordering::Greater => field,
        Ordering::Less | Ordering::Equal => best,
    }
}

/// The value of a fold, if it has one; a sum that doesn't fit 64 bits is a fault.
fn value_of(alloc: Global, fold: Fold<'_>) -> Result<Option<Field>, EvalFault>
    ensures { Gives result (value_in (known fold.entry)) }
{
    match fold {
        Fold::Sum(n) | Fold::Count(n) => match i64::try_from(n) {
            Ok(n) => Ok(Some(Field::Int(n))),
            Err(_) => Err(EvalFault::Fault(Kind::Overflow)),
        },
        Fold::Min(best) | Fold::Max(best) => match best {
            Some(field) => Ok(Some(field.copy(alloc)?)),
            None => Ok(None),
        },
    }
}
