ghost use Rattle.std.specs.Prelude.{◌≡◌, ◌≤◌, ◌↔◌, length, IsOk, IfOk, IfErr, slice_get, Some};
ghost use Rattle.std.specs.Option.{option_copied};
ghost use Rattle.nemo_value.specs.Key.{first_key, row_bucket};

use crate::bucket::bucket_of;
use crate::field::Field;
use crate::list::List;
use crate::memory::NoMemory;
use crate::name::Name;
use crate::row::Row;
use crate::same::Same;
use crate::try_copy::TryCopy;
use std::alloc::Global;
use std::cmp::Ordering;
use std::marker::Model;

/// The most fields of a record.
pub const MAX_FIELDS: usize = 16;

/// A record of 1 to 16 fields. Contracts see the list of its fields.
#[derive(PartialEq, Eq, PartialOrd, Hash, Drop)]
pub struct Record {
    inner: List<Field>,
}

impl Model for Record {
    ghost use Rattle.std.specs.Prelude.{List, length, ◌≤◌};
    ghost use Rattle.nemo_value.specs.declared.field.Field.{Field};

    ghost Value = { List Field };

    ghost view = { λ r. r.inner };

    ghost invariant = { λ r. (1 ≤ length r.inner) × (length r.inner ≤ 16) };

    ghost inverse = { λ fields. record { inner = fields } };
}

/// A record can't have `count` fields.
#[derive(Clone, Copy)]
pub struct BadWidth {
    pub count: u64,
}

impl Record {
    /// The fields as a record; refused exactly where there are none or more than 16.
    pub fn new(fields: List<Field>) -> Result<Record, BadWidth>
        ensures ok { IfOk result (λ r. r ≡ fields) }
        ensures fits { IsOk result ↔ ((1 ≤ length fields) × (length fields ≤ 16)) }
        ensures err { IfErr result (λ e. e.count ≡ length fields) }
    {
        let count = fields.len();
        if count < 1 || count > MAX_FIELDS {
            return Err(BadWidth {
                count: count as u64,
            });
        }
        Ok(Record::of(fields))
    }

    /// As many fields as a record has, as a record.
    pub fn of(fields: List<Field>) -> Record
        requires some { 1 ≤ length fields }
        requires few { length fields ≤ 16 }
        ensures { result ≡ fields }
    {
        Record { inner: fields }
    }

    pub fn fields(&self) -> &List<Field>
        ensures fields { result.now ≡ self.now }
        ensures some { 1 ≤ length self.now }
        ensures few { length self.now ≤ 16 }
    {
        &self.inner
    }

    /// The record as a row.
    pub fn row(&self) -> Row<'_>
        ensures { result ≡ self.now }
    {
        Row::of(self.inner.as_slice())
    }

    /// The field at a place, counted from 0.
    pub fn get(&self, place: u32) -> Option<&Field>
        ensures { option_copied result ≡ slice_get self.now place }
    {
        self.inner.get(place as usize)
    }

    /// The key of the record: its first field.
    pub fn key(&self) -> &Field
        ensures { slice_get self.now 0 ≡ Some result.now }
    {
        &self.inner.as_slice()[0]
    }

    /// The bucket of the record's key, from 0 to 255.
    #[tactic(auto, using(crate::proofs::FirstKey::row_bucket_first))]
    pub fn bucket(&self) -> u8
        ensures { result ≡ row_bucket first_key self.now }
    {
        bucket_of(self.key())
    }
}

impl TryCopy for Record {
    fn copy(&self, alloc: Global) -> Result<Record, NoMemory> {
        Ok(Record {
            inner: self.inner.copy(alloc)?,
        })
    }
}

impl Same for Record {
    fn same(&self, other: &Record) -> bool {
        self.inner.same(&other.inner)
    }
}

/// By the fields from the first, a proper prefix first.
impl Ord for Record {
    ghost use Rattle.std.specs.Prelude.{refl};
    ghost use Rattle.std.specs.Cmp.Lexicographic.{lists_total, lists_agrees, lists_ties};
    ghost use Rattle.nemo_value.specs.Order.{field_cmp, record_cmp};
    ghost use Rattle.nemo_value.specs.FieldOrder.{field_total};

    ghost cmp = { record_cmp };

    ghost total = { lists_total field_total };

    ghost matches_partial_cmp = { lists_agrees (λ a b. refl) };

    ghost matches_eq = { lists_ties field_cmp (λ a b. refl) };

    fn cmp(&self, other: &Record) -> Ordering {
        self.inner.cmp(&other.inner)
    }
}

/// The rows of a sink, by its name.
#[derive(Drop)]
pub struct SinkRows {
    pub name: Name,
    pub rows: List<Record>,
}
