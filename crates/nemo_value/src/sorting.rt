ghost use Rattle.std.specs.Prelude.{◌≡◌, IfOk, List as Sequence};
ghost use Rattle.std.specs.List.Sorted.{IsSorted, IsPermutation};
ghost use Rattle.nemo_value.specs.Order.{record_cmp};
ghost use Rattle.std.specs.declared.cmp.Ordering.{Ordering};
ghost use Rattle.nemo_value.specs.Ascending.{ascending, Rises};
ghost use Rattle.nemo_value.specs.Members.{SameMembers};
ghost use Rattle.nemo_value.specs.Sorting.{IsStrict, sorted};
ghost use Rattle.nemo_value.specs.declared.field.Field.{Field};

use crate::keyed::Keyed;
use crate::list::List;
use crate::memory::NoMemory;
use crate::record::Record;
use crate::row::Row;
use crate::table::{records_of, rows_of};
use std::alloc::Global;

/// The rows in ascending order, each as often as it comes. Rows that tie are equal, so the sort need not be stable.
pub fn sorted_rows<'a>(alloc: Global, rows: Vec<Row<'a>>) -> Result<Vec<Row<'a>>, NoMemory>
    ensures { IfOk result (λ all. all.items ≡ sorted record_cmp rows.entry.items) }
{
    let mut keyed = with_numbers(alloc, rows)?;
    keyed.sort_unstable();
    without_numbers(alloc, keyed)
}

fn with_numbers<'a>(alloc: Global, rows: Vec<Row<'a>>) -> Result<Vec<Keyed<'a>>, NoMemory>
    ensures { IfOk result (λ keyed. keyed.items ≡ rows.entry.items) }
{
    let mut keyed = Vec::with_capacity(alloc, rows.len())?;
    for row in rows {
        keyed.push(Keyed::new(row))?;
    }
    Ok(keyed)
}

fn without_numbers<'a>(alloc: Global, keyed: Vec<Keyed<'a>>) -> Result<Vec<Row<'a>>, NoMemory>
    ensures { IfOk result (λ rows. rows.items ≡ keyed.entry.items) }
{
    let mut rows = Vec::with_capacity(alloc, keyed.len())?;
    for row in keyed {
        rows.push(row.into_row())?;
    }
    Ok(rows)
}

/// The records in ascending order, as `sorted_rows`.
pub fn sort_records(alloc: Global, records: List<Record>) -> Result<List<Record>, NoMemory>
    ensures { IfOk result (λ all. all ≡ sorted record_cmp records) }
{
    let rows = rows_of(alloc, records.as_slice())?;
    let ordered = sorted_rows(alloc, rows)?;
    records_of(alloc, ordered.as_slice())
}

/// What `sorted` means for records: it has the same records, in order, and no other list has.
pub fn sort_law()
    ensures same { (rows : Sequence (Sequence Field)) → IsPermutation rows (sorted record_cmp rows) }
    ensures order { (rows : Sequence (Sequence Field)) → IsSorted record_cmp (sorted record_cmp rows) }
    ensures only { (rows others : Sequence (Sequence Field)) → IsPermutation rows others → IsSorted record_cmp others → others ≡ sorted record_cmp rows }
{}

/// What `ascending` means under every total order whose ties are equal: it has the same members, each below all that
/// come after it, and no other list has.
pub fn ascending_law<T>()
    ensures same { (R : T → T → Ordering) → IsStrict R → (xs : Sequence T) → SameMembers xs (ascending R xs) }
    ensures order { (R : T → T → Ordering) → IsStrict R → (xs : Sequence T) → Rises R (ascending R xs) }
    ensures only { (R : T → T → Ordering) → IsStrict R → (xs others : Sequence T) → SameMembers xs others → Rises R others → others ≡ ascending R xs }
{}
