ghost use Rattle.std.specs.Prelude.{◌≡◌, ◌+◌, ◌<◌, ◌≤◌, ◌^◌, ℕ, List as Sequence, [], ◌∷◌, All, Option, length, map, option_map, slice_get, Some, None, IfOk, OnOk, IsTrue, true};
ghost use Rattle.nemo_transform.specs.ArisenOrder.{place_cmp};
ghost use Rattle.nemo_transform.specs.Brought.{all_faults, all_rows, arisen, blocking, port};
ghost use Rattle.nemo_transform.specs.FirstFault.{arisen_at, first_fault, lesser_by};
ghost use Rattle.nemo_transform.specs.Gives.{answers, is_filled, own_faults, rows_in};
ghost use Rattle.nemo_transform.specs.Ports.{kinds_of};
ghost use Rattle.nemo_transform.specs.RowByRow.{goes_by_row};
ghost use Rattle.nemo_transform.specs.Soundness.{is_sound};
ghost use Rattle.nemo_transform.specs.Through as spec;
ghost use Rattle.nemo_transform.specs.Through.{Batch, clean, passed};
ghost use Rattle.nemo_job.specs.ByPlace.{ByPlace};
ghost use Rattle.nemo_job.specs.Held.{Feeds, IsReleased, answers_at, answers_on, known, known_value, node_of, transform_of, value_at};
ghost use Rattle.nemo_job.specs.HeldRows.{rows_held};

use crate::copies::Node;
use nemo_transform::{
    Given, Located, Passed, Transform, all_through, earlier, first_own, ports, transformed,
};
use nemo_value::{NoMemory, Record, Row, Table, TryCopy, rows_of};
use std::alloc::Global;

/// The rows that a vertex gave: records that are lent by the job, or rows that were made.
#[derive(Drop)]
pub(crate) enum Rows<'a> {
    Lent(&'a [Record]),
    Made(Table),
}

impl<'a> Rows<'a> {
    pub(crate) fn none() -> Rows<'a>
        ensures { rows_held result ≡ [] }
    {
        Rows::Lent(&[])
    }

    /// The rows, lent.
    pub(crate) fn lend(&self, alloc: Global) -> Result<Vec<Row<'_>>, NoMemory>
        ensures { IfOk result (λ rows. rows.items ≡ rows_held self.now) }
    {
        match self {
            Rows::Lent(records) => rows_of(alloc, *records),
            Rows::Made(table) => table.rows(alloc),
        }
    }

    /// A copy of the rows.
    fn copied(&self, alloc: Global) -> Result<Rows<'a>, NoMemory>
        ensures { IfOk result (λ copy. rows_held copy ≡ rows_held self.now) }
    {
        let rows = self.lend(alloc)?;
        Ok(Rows::Made(Table::of(alloc, rows.as_slice())?))
    }
}

/// What a vertex gave: its rows, and the first of the faults that come with them.
#[derive(Drop)]
pub(crate) struct Held<'a> {
    pub(crate) rows: Rows<'a>,
    pub(crate) first: Option<Located>,
}

/// No rows and no faults.
pub(crate) fn nothing<'a>() -> Held<'a>
    ensures rows { rows_held result.rows ≡ [] }
    ensures first { result.first ≡ None }
{
    Held {
        rows: Rows::none(),
        first: None,
    }
}

/// What the vertex of a place gives on what is held of its inputs. Rows that it is the last to take are let go.
pub(crate) fn step<'a>(
    alloc: Global,
    place: usize,
    node: &Node<'a>,
    last: &[Option<usize>],
    held: &mut Vec<Held<'a>>,
) -> Result<Held<'a>, NoMemory>
    requires within { All (λ j. j < length held.old.items) node.now.inputs }
    requires noted { length held.old.items ≤ length last.now }
    requires sound { IsTrue (is_sound node.now.transform.now) }
    requires ports { length node.now.inputs ≡ length (kinds_of node.now.transform.now) }
    ensures given { IfOk result (λ h. (vals : Sequence ByPlace) → Feeds vals (map known held.old.items) node.now.inputs → known h ≡ known_value (value_at vals place (node_of node.now))) }
    ensures released { OnOk result (IsReleased last.now place (map known held.old.items) (map known held.new.items)) }
{
    let inputs = node.inputs.as_slice();
    match node.transform {
        Transform::Sink { .. } => handed(alloc, place, inputs[0], last, held),
        _ => {
            let given = given_at(alloc, place, node, held.as_slice())?;
            release(held, place, inputs, last);
            Ok(given)
        }
    }
}

/// What the last vertex of a line gives, of which the first has that place and takes that input, where these go row by
/// row and each takes what the one before it gives. Rows that the first is the last to take are let go.
pub(crate) fn line_given<'a>(
    alloc: Global,
    line: &[Node<'_>],
    place: usize,
    input: usize,
    last: &[Option<usize>],
    held: &mut Vec<Held<'a>>,
) -> Result<Held<'a>, NoMemory>
    requires some { 1 ≤ length line.now }
    requires fits { place + length line.now < 2 ^ 64 }
    requires sound { All (λ n. IsTrue (is_sound n.transform.now)) line.now }
    requires by_row { All (λ n. goes_by_row n.transform.now ≡ true) line.now }
    requires within { input < length held.old.items }
    requires noted { length held.old.items ≤ length last.now }
    ensures given { IfOk result (λ h. (k : Batch) → slice_get (map known held.old.items) input ≡ Some k → known h ≡ spec.all_through place (map transform_of line.now) k) }
    ensures released { OnOk result (IsReleased last.now place (map known held.old.items) (map known held.new.items)) }
{
    let source = &held[input];
    let passed = copied(alloc, &source.first)?;
    let made = through_held(alloc, line, place, &source.rows)?;
    release(held, place, &[input], last);
    Ok(Held {
        rows: Rows::Made(made.rows),
        first: earlier(passed, made.first),
    })
}

/// What the vertices of a line make of rows that are held.
fn through_held(
    alloc: Global,
    line: &[Node<'_>],
    place: usize,
    rows: &Rows<'_>,
) -> Result<Passed, NoMemory>
    requires some { 1 ≤ length line.now }
    requires fits { place + length line.now < 2 ^ 64 }
    requires sound { All (λ n. IsTrue (is_sound n.transform.now)) line.now }
    requires by_row { All (λ n. goes_by_row n.transform.now ≡ true) line.now }
    ensures { IfOk result (λ p. passed p ≡ spec.all_through place (map transform_of line.now) (clean (rows_held rows.now))) }
{
    let rows = rows.lend(alloc)?;
    let transforms = transforms_of(alloc, line)?;
    all_through(alloc, transforms.as_slice(), place, rows.as_slice())
}

/// The transforms of the vertices of a line.
fn transforms_of<'a>(alloc: Global, line: &[Node<'a>]) -> Result<Vec<&'a Transform>, NoMemory>
    ensures { IfOk result (λ ts. map (λ t. t.now) ts.items ≡ map transform_of line.now) }
{
    let mut transforms = Vec::with_capacity(alloc, line.len())?;
    for node in line {
        transforms.push(node.transform)?;
    }
    Ok(transforms)
}

/// What a sink gives: what its input gave. Rows that no later vertex takes are moved.
fn handed<'a>(
    alloc: Global,
    place: usize,
    input: usize,
    last: &[Option<usize>],
    held: &mut Vec<Held<'a>>,
) -> Result<Held<'a>, NoMemory>
    requires within { input < length held.old.items }
    requires noted { length held.old.items ≤ length last.now }
    ensures given { IfOk result (λ h. slice_get (map known held.old.items) input ≡ Some (known h)) }
    ensures released { OnOk result (IsReleased last.now place (map known held.old.items) (map known held.new.items)) }
{
    let first = copied(alloc, &held[input].first)?;
    let rows = if last[input] == Some(place) {
        taken(held, input)
    } else {
        held[input].rows.copied(alloc)?
    };
    Ok(Held { rows, first })
}

/// The rows of an input, of which none are left there.
fn taken<'a>(held: &mut Vec<Held<'a>>, input: usize) -> Rows<'a>
    requires { input < length held.old.items }
    ensures rows { option_map (λ h. h.rows) (slice_get (map known held.old.items) input) ≡ Some (rows_held result) }
    ensures released { (last : Sequence (Option ℕ)) (place : ℕ) → slice_get last input ≡ Some (Some place) → IsReleased last place (map known held.old.items) (map known held.new.items) }
{
    std::mem::replace(&mut held[input].rows, Rows::none())
}

/// Lets the rows of some inputs go where the vertex of this place is the last that takes them.
fn release(held: &mut Vec<Held<'_>>, place: usize, inputs: &[usize], last: &[Option<usize>])
    requires within { All (λ j. j < length held.old.items) inputs.now }
    requires noted { length held.old.items ≤ length last.now }
    ensures { IsReleased last.now place (map known held.old.items) (map known held.new.items) }
{
    for input in inputs {
        if last[*input] == Some(place) {
            held[*input].rows = Rows::none();
        }
    }
}

/// What a vertex that is no sink gives.
fn given_at<'a>(
    alloc: Global,
    place: usize,
    node: &Node<'a>,
    held: &[Held<'_>],
) -> Result<Held<'a>, NoMemory>
    requires within { All (λ j. j < length held.now) node.now.inputs }
    requires sound { IsTrue (is_sound node.now.transform.now) }
    requires ports { length node.now.inputs ≡ length (kinds_of node.now.transform.now) }
    ensures { IfOk result (λ h. (vals : Sequence ByPlace) → Feeds vals (map known held.now) node.now.inputs → known h ≡ known_value (value_at vals place (node_of node.now))) }
{
    let inputs = node.inputs.as_slice();
    let passed = passed_on(alloc, inputs, held)?;
    if is_blocked(node.transform, inputs, held) {
        return Ok(Held {
            rows: Rows::none(),
            first: passed,
        });
    }
    let (rows, own) = applied_at(alloc, place, node, held)?;
    Ok(Held {
        rows,
        first: earlier(passed, own),
    })
}

/// The rows of a vertex that isn't blocked, and its first own fault.
fn applied_at<'a>(
    alloc: Global,
    place: usize,
    node: &Node<'a>,
    held: &[Held<'_>],
) -> Result<(Rows<'a>, Option<Located>), NoMemory>
    requires within { All (λ j. j < length held.now) node.now.inputs }
    requires sound { IsTrue (is_sound node.now.transform.now) }
    ensures rows { IfOk result (λ given. (vals : Sequence ByPlace) → Feeds vals (map known held.now) node.now.inputs → rows_held given.0 ≡ rows_in (answers_at vals (node_of node.now))) }
    ensures first { IfOk result (λ given. (vals : Sequence ByPlace) → Feeds vals (map known held.now) node.now.inputs → option_map arisen_at given.1 ≡ first_fault (map (arisen place) (own_faults (answers_at vals (node_of node.now))))) }
{
    let inputs = node.inputs.as_slice();
    match node.transform {
        Transform::Source { rows } => Ok((Rows::Lent(rows.as_slice()), None)),
        Transform::Union { .. } => {
            let rows = joined(alloc, inputs, held)?;
            Ok((Rows::Made(Table::of(alloc, rows.as_slice())?), None))
        }
        transform => {
            let Given { rows, faults } = given_on(alloc, transform, inputs, held)?;
            Ok((Rows::Made(rows), first_own(place, faults)))
        }
    }
}

/// What a transform gives on the rows of its first and its second port.
fn given_on(
    alloc: Global,
    transform: &Transform,
    inputs: &[usize],
    held: &[Held<'_>],
) -> Result<Given, NoMemory>
    requires within { All (λ j. j < length held.now) inputs.now }
    requires sound { IsTrue (is_sound transform.now) }
    ensures rows { IfOk result (λ g. (vals : Sequence ByPlace) → Feeds vals (map known held.now) inputs.now → g.rows ≡ rows_in (answers_on vals inputs.now transform.now)) }
    ensures faults { IfOk result (λ g. (vals : Sequence ByPlace) → Feeds vals (map known held.now) inputs.now → g.faults ≡ own_faults (answers_on vals inputs.now transform.now)) }
{
    let first = rows_at(alloc, inputs, 0, held)?;
    let second = rows_at(alloc, inputs, 1, held)?;
    transformed(alloc, transform, first.as_slice(), second.as_slice())
}

/// The rows of a port, and none where there is no such port.
fn rows_at<'b>(
    alloc: Global,
    inputs: &[usize],
    number: usize,
    held: &'b [Held<'_>],
) -> Result<Vec<Row<'b>>, NoMemory>
    requires within { All (λ j. j < length held.now) inputs.now }
    ensures { IfOk result (λ rows. (vals : Sequence ByPlace) → Feeds vals (map known held.now) inputs.now → rows.items ≡ (port (map (port vals) inputs.now) number).rows) }
{
    match inputs.get(number) {
        Some(input) => held[*input].rows.lend(alloc),
        None => Ok(Vec::new(alloc)),
    }
}

/// The rows of all ports, port by port.
fn joined<'b>(
    alloc: Global,
    inputs: &[usize],
    held: &'b [Held<'_>],
) -> Result<Vec<Row<'b>>, NoMemory>
    requires within { All (λ j. j < length held.now) inputs.now }
    ensures { IfOk result (λ rows. (vals : Sequence ByPlace) → Feeds vals (map known held.now) inputs.now → rows.items ≡ all_rows (map (port vals) inputs.now)) }
{
    let mut all = Vec::new(alloc);
    for input in inputs {
        let mut rows = held[*input].rows.lend(alloc)?;
        all.append(&mut rows)?;
    }
    Ok(all)
}

/// The first of the faults that some inputs bring.
fn passed_on(
    alloc: Global,
    inputs: &[usize],
    held: &[Held<'_>],
) -> Result<Option<Located>, NoMemory>
    requires within { All (λ j. j < length held.now) inputs.now }
    ensures { IfOk result (λ first. (vals : Sequence ByPlace) → Feeds vals (map known held.now) inputs.now → option_map arisen_at first ≡ first_fault (all_faults (map (port vals) inputs.now))) }
{
    let mut first: Option<Located> = None;
    for input in inputs {
        first = earlier(first, copied(alloc, &held[*input].first)?);
    }
    Ok(first)
}

/// Whether a Keyed or Side port brings a fault.
fn is_blocked(transform: &Transform, inputs: &[usize], held: &[Held<'_>]) -> bool
    requires within { All (λ j. j < length held.now) inputs.now }
    requires ports { length inputs.now ≡ length (kinds_of transform.now) }
    ensures { (vals : Sequence ByPlace) → Feeds vals (map known held.now) inputs.now → result ≡ is_filled (blocking (kinds_of transform.now) (map (port vals) inputs.now)) }
{
    let main = ports(transform).main as usize;
    for input in &inputs[main..] {
        if held[*input].first.is_some() {
            return true;
        }
    }
    false
}

fn copied(alloc: Global, fault: &Option<Located>) -> Result<Option<Located>, NoMemory>
    ensures { IfOk result (λ copy. copy ≡ fault.now) }
{
    match fault {
        Some(located) => Ok(Some(Located {
            place: located.place,
            kind: located.kind,
            rec: located.rec.copy(alloc)?,
        })),
        None => Ok(None),
    }
}
