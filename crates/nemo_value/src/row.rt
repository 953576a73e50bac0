ghost use Rattle.std.specs.Prelude.{◌≡◌, ◌≤◌, length, slice_get, Some, IfOk};
ghost use Rattle.std.specs.Option.{option_copied};

use crate::field::Field;
use crate::list::List;
use crate::memory::NoMemory;
use crate::record::Record;
use std::alloc::Global;
use std::marker::Model;

/// The fields of a record, 1 to 16, lent by who holds them. Contracts see the list of the fields.
#[derive(Drop)]
pub struct Row<'a> {
    fields: &'a [Field],
}

impl<'a> Model for Row<'a> {
    ghost use Rattle.std.specs.Prelude.{List, length, ◌≤◌};
    ghost use Rattle.nemo_value.specs.declared.field.Field.{Field};

    ghost Value = { List Field };

    ghost view = { λ r. r.fields.now };

    ghost invariant = { λ r. (1 ≤ length r.fields.now) × (length r.fields.now ≤ 16) };
}

impl<'a> Row<'a> {
    /// As many fields as a record has, as a row.
    pub fn of(fields: &'a [Field]) -> Row<'a>
        requires some { 1 ≤ length fields.now }
        requires few { length fields.now ≤ 16 }
        ensures { result ≡ fields.now }
    {
        Row { fields }
    }

    pub fn fields(&self) -> &'a [Field]
        ensures fields { result.now ≡ self.now }
        ensures some { 1 ≤ length self.now }
        ensures few { length self.now ≤ 16 }
    {
        self.fields
    }

    /// The field at a place, counted from 0.
    pub fn get(&self, place: u32) -> Option<&'a Field>
        ensures { option_copied result ≡ slice_get self.now place }
    {
        self.fields.get(place as usize)
    }

    /// The key of the row: its first field.
    pub fn key(&self) -> &'a Field
        ensures { slice_get self.now 0 ≡ Some result.now }
    {
        &self.fields[0]
    }

    /// A copy of the row as a record.
    pub fn to_record(&self, alloc: Global) -> Result<Record, NoMemory>
        ensures { IfOk result (λ made. made ≡ self.now) }
    {
        Ok(Record::of(List::from_slice(alloc, self.fields)?))
    }

    /// The same row once more, lent by the same holder.
    pub fn again(&self) -> Row<'a>
        ensures { result ≡ self.now }
    {
        Row {
            fields: self.fields,
        }
    }
}
