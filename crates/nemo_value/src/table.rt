ghost use Rattle.std.specs.Prelude.{◌≡◌, ◌-◌, ◌<◌, ◌≤◌, [], ◌∷◌, ◌++◌, length, take, IfOk, OnOk, OnErr};
ghost use Rattle.nemo_value.specs.Cuts.{AreWidths, parted};

use crate::field::Field;
use crate::list::List;
use crate::memory::NoMemory;
use crate::record::Record;
use crate::row::Row;
use crate::try_copy::TryCopy;
use std::alloc::Global;
use std::marker::Model;

/// Rows of 1 to 16 fields each, in one buffer of fields and with the width of each row. Contracts see the list of its
/// rows.
#[derive(Drop)]
pub struct Table {
    fields: Vec<Field>,
    widths: Vec<u8>,
}

impl Model for Table {
    ghost use Rattle.std.specs.Prelude.{List};
    ghost use Rattle.nemo_value.specs.Cuts.{AreWidths, parted};
    ghost use Rattle.nemo_value.specs.declared.field.Field.{Field};

    ghost Value = { List (List Field) };

    ghost view = { λ t. parted t.widths.items t.fields.items };

    ghost invariant = { λ t. AreWidths t.widths.items t.fields.items };
}

impl Table {
    pub fn new(alloc: Global) -> Table
        ensures { result ≡ [] }
    {
        Table {
            fields: Vec::new(alloc),
            widths: Vec::new(alloc),
        }
    }

    /// An empty table with room for `rows` rows of `fields` fields in all.
    pub fn with_capacity(alloc: Global, rows: usize, fields: usize) -> Result<Table, NoMemory>
        ensures { IfOk result (λ table. table ≡ []) }
    {
        let widths = Vec::with_capacity(alloc, rows)?;
        let fields = Vec::with_capacity(alloc, fields)?;
        Ok(Table { fields, widths })
    }

    /// How many rows it has.
    #[tactic(auto, using(crate::proofs::Cuts::parted_length))]
    pub fn len(&self) -> usize
        ensures { result ≡ length self.now }
    {
        self.widths.len()
    }

    /// Puts as many fields as a row has at the end, as a row, and leaves none of them behind. Where no memory is left,
    /// all stays as it was.
    #[tactic(auto, using(crate::proofs::Cuts::widths_more, crate::proofs::Cuts::parted_more))]
    pub fn push(&mut self, row: &mut Vec<Field>) -> Result<(), NoMemory>
        requires some { 1 ≤ length row.old.items }
        requires few { length row.old.items ≤ 16 }
        ensures ok { OnOk result (self.new ≡ self.old ++ row.old.items ∷ []) }
        ensures moved { OnOk result (row.new.items ≡ []) }
        ensures err { OnErr result (self.new ≡ self.old) }
        ensures kept { OnErr result (row.new.items ≡ row.old.items) }
    {
        let width = row.len() as u8;
        self.widths.push(width)?;
        match self.fields.append(row) {
            Ok(()) => Ok(()),
            Err(_) => {
                self.widths.pop();
                Err(NoMemory)
            }
        }
    }

    /// Copies of these rows.
    pub fn of(alloc: Global, rows: &[Row<'_>]) -> Result<Table, NoMemory>
        ensures { IfOk result (λ table. table ≡ rows.now) }
    {
        let mut table = Table::new(alloc);
        let mut fields = Vec::new(alloc);
        for row in rows {
            table.push_copy(alloc, row, &mut fields)?;
        }
        Ok(table)
    }

    /// Puts a copy of a row at the end, which is made in a buffer that is left empty.
    pub fn push_copy(
        &mut self,
        alloc: Global,
        row: &Row<'_>,
        fields: &mut Vec<Field>,
    ) -> Result<(), NoMemory>
        ensures { OnOk result (self.new ≡ self.old ++ row.now ∷ []) }
    {
        fields.clear();
        push_copies(alloc, fields, row.fields())?;
        self.push(fields)
    }

    /// Puts the rows of another table at the end. Where no memory is left, the rows stay as they were.
    #[tactic(auto, using(crate::proofs::Cuts::widths_joined, crate::proofs::Cuts::parted_joined))]
    pub fn append(&mut self, other: Table) -> Result<(), NoMemory>
        ensures ok { OnOk result (self.new ≡ self.old ++ other) }
        ensures err { OnErr result (self.new ≡ self.old) }
    {
        let Table {
            mut fields,
            mut widths,
        } = other;
        let count = self.widths.len();
        self.widths.append(&mut widths)?;
        match self.fields.append(&mut fields) {
            Ok(()) => Ok(()),
            Err(_) => {
                self.widths.truncate(count);
                Err(NoMemory)
            }
        }
    }

    /// Keeps the first `count` rows.
    pub fn truncate(&mut self, count: usize)
        ensures { self.new ≡ take count self.old }
    {
        while count < self.len() {
            self.pop();
        }
    }

    /// Takes the last row off.
    #[tactic(auto, using(crate::proofs::Cuts::widths_cut, crate::proofs::Cuts::parted_cut))]
    fn pop(&mut self)
        requires { 0 < length self.old }
        ensures { self.new ≡ take (length self.old - 1) self.old }
    {
        if let Some(width) = self.widths.pop() {
            self.fields.truncate(self.fields.len() - width as usize);
        }
    }

    /// The rows, lent by the table.
    pub fn rows(&self, alloc: Global) -> Result<Vec<Row<'_>>, NoMemory>
        ensures { IfOk result (λ rows. rows.items ≡ self.now) }
    {
        rows_in(alloc, self.widths.as_slice(), self.fields.as_slice())
    }

    /// Copies of the rows, as records.
    pub fn records(&self, alloc: Global) -> Result<List<Record>, NoMemory>
        ensures { IfOk result (λ records. records ≡ self.now) }
    {
        let rows = self.rows(alloc)?;
        records_of(alloc, rows.as_slice())
    }
}

/// The rows of some widths that lie one after another in some fields.
fn rows_in<'a>(alloc: Global, widths: &[u8], fields: &'a [Field]) -> Result<Vec<Row<'a>>, NoMemory>
    requires { AreWidths widths.now fields.now }
    ensures { IfOk result (λ rows. rows.items ≡ parted widths.now fields.now) }
{
    let mut rows = Vec::with_capacity(alloc, widths.len())?;
    let mut rest = fields;
    for width in widths {
        let (row, others) = rest.split_at(*width as usize);
        rows.push(Row::of(row))?;
        rest = others;
    }
    Ok(rows)
}

/// Puts copies of some fields behind others.
pub fn push_copies(alloc: Global, fields: &mut Vec<Field>, more: &[Field]) -> Result<(), NoMemory>
    ensures { OnOk result (fields.new.items ≡ fields.old.items ++ more.now) }
{
    for field in more {
        fields.push(field.copy(alloc)?)?;
    }
    Ok(())
}

/// The rows of records, lent by these.
pub fn rows_of(alloc: Global, records: &[Record]) -> Result<Vec<Row<'_>>, NoMemory>
    ensures { IfOk result (λ rows. rows.items ≡ records.now) }
{
    let mut rows = Vec::with_capacity(alloc, records.len())?;
    for record in records {
        rows.push(record.row())?;
    }
    Ok(rows)
}

/// Copies of the rows, as records.
pub fn records_of(alloc: Global, rows: &[Row<'_>]) -> Result<List<Record>, NoMemory>
    ensures { IfOk result (λ records. records ≡ rows.now) }
{
    let mut records = List::with_capacity(alloc, rows.len())?;
    for row in rows {
        records.push(row.to_record(alloc)?)?;
    }
    Ok(records)
}
