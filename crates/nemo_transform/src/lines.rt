ghost use Rattle.std.specs.Prelude.{◌≡◌, ◌+◌, ◌<◌, ◌≤◌, ◌^◌, All, IsTrue, IfOk, OnOk, length, map, true};
ghost use Rattle.nemo_transform.specs.RowByRow.{goes_by_row};
ghost use Rattle.nemo_transform.specs.Soundness.{is_sound};
ghost use Rattle.nemo_transform.specs.Through as spec;
ghost use Rattle.nemo_transform.specs.Through.{both, clean, passed, through};

use crate::applying::{Given, transformed};
use crate::fault::{Located, earlier, first_own};
use crate::transform::Transform;
use nemo_value::{NoMemory, Row, Table};
use std::alloc::Global;

/// How many rows go through at a time: so many that they stay near the processor.
const PART: usize = 1024;

/// What vertices that go row by row, one after another, made of rows, and the first fault that arose in them.
#[derive(Drop)]
pub struct Passed {
    pub rows: Table,
    pub first: Option<Located>,
}

impl Passed {
    /// What was made of more rows comes behind.
    fn add(&mut self, more: Passed) -> Result<(), NoMemory>
        ensures { OnOk result (passed self.new ≡ both (passed self.old) (passed more)) }
    {
        let Passed { rows, first: later } = more;
        self.rows.append(rows)?;
        self.first = earlier(self.first.take(), later);
        Ok(())
    }

    /// The rows go through one more vertex, that of a place.
    fn go_on(&mut self, alloc: Global, place: usize, transform: &Transform) -> Result<(), NoMemory>
        requires { IsTrue (is_sound transform.now) }
        ensures { OnOk result (passed self.new ≡ through place transform.now (passed self.old)) }
    {
        let Passed { rows, first } = made_of_table(alloc, place, transform, &self.rows)?;
        self.rows = rows;
        self.first = earlier(self.first.take(), first);
        Ok(())
    }
}

/// What the vertices of a line, which go row by row and of which the first has that place, make of rows: these go through
/// all of them a part at a time, so that what lies between two vertices is small.
pub fn all_through(
    alloc: Global,
    line: &[&Transform],
    place: usize,
    rows: &[Row<'_>],
) -> Result<Passed, NoMemory>
    requires some { 1 ≤ length line.now }
    requires fits { place + length line.now < 2 ^ 64 }
    requires sound { All (λ t. IsTrue (is_sound t.now)) line.now }
    requires by_row { All (λ t. goes_by_row t.now ≡ true) line.now }
    ensures { IfOk result (λ p. passed p ≡ spec.all_through place (map (λ t. t.now) line.now) (clean rows.now)) }
{
    let mut all = Passed {
        rows: Table::new(alloc),
        first: None,
    };
    let mut start = 0;
    while start < rows.len() {
        let end = start + (rows.len() - start).min(PART);
        add_part(alloc, line, place, &rows[start..end], &mut all)?;
        start = end;
    }
    Ok(all)
}

/// What the vertices make of some rows more comes behind.
fn add_part(
    alloc: Global,
    line: &[&Transform],
    place: usize,
    part: &[Row<'_>],
    all: &mut Passed,
) -> Result<(), NoMemory>
    requires some { 1 ≤ length line.now }
    requires fits { place + length line.now < 2 ^ 64 }
    requires sound { All (λ t. IsTrue (is_sound t.now)) line.now }
    ensures { OnOk result (passed all.new ≡ both (passed all.old) (spec.all_through place (map (λ t. t.now) line.now) (clean part.now))) }
{
    let more = part_through(alloc, line, place, part)?;
    all.add(more)
}

/// What the vertices make of some rows, which go through one vertex after another.
fn part_through(
    alloc: Global,
    line: &[&Transform],
    place: usize,
    part: &[Row<'_>],
) -> Result<Passed, NoMemory>
    requires some { 1 ≤ length line.now }
    requires fits { place + length line.now < 2 ^ 64 }
    requires sound { All (λ t. IsTrue (is_sound t.now)) line.now }
    ensures { IfOk result (λ p. passed p ≡ spec.all_through place (map (λ t. t.now) line.now) (clean part.now)) }
{
    let mut made = made_of(alloc, place, line[0], part)?;
    for k in 1..line.len() {
        made.go_on(alloc, place + k, line[k])?;
    }
    Ok(made)
}

/// What the vertex of a place makes of the rows of a table.
fn made_of_table(
    alloc: Global,
    place: usize,
    transform: &Transform,
    table: &Table,
) -> Result<Passed, NoMemory>
    requires { IsTrue (is_sound transform.now) }
    ensures { IfOk result (λ p. passed p ≡ through place transform.now (clean table.now)) }
{
    let rows = table.rows(alloc)?;
    made_of(alloc, place, transform, rows.as_slice())
}

/// What the vertex of a place makes of rows.
#[tactic(auto, using(crate::proofs::PartsThrough::own_first))]
fn made_of(
    alloc: Global,
    place: usize,
    transform: &Transform,
    rows: &[Row<'_>],
) -> Result<Passed, NoMemory>
    requires { IsTrue (is_sound transform.now) }
    ensures { IfOk result (λ p. passed p ≡ through place transform.now (clean rows.now)) }
{
    let Given { rows, faults } = transformed(alloc, transform, rows, &[])?;
    Ok(Passed {
        rows,
        first: first_own(place, faults),
    })
}
