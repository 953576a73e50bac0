ghost use Rattle.std.specs.Prelude.{◌≡◌, [], IfOk, IsTrue};
ghost use Rattle.nemo_value.specs.Ascending.{ascending};
ghost use Rattle.nemo_transform.specs.FaultOrder.{fault_cmp};
ghost use Rattle.nemo_transform.specs.Gives.{answers, rows_in, own_faults};
ghost use Rattle.nemo_transform.specs.Soundness.{is_sound};

use crate::fault::{Fault, in_order};
use crate::grouping::{distinct, reduced};
use crate::joining::joined;
use crate::rowwise::row_by_row;
use crate::transform::Transform;
use nemo_value::{List, NoMemory, Record, Row, Table, rows_of};
use std::alloc::Global;

/// The rows that a transform gives, and its own faults by kind and record, each once.
#[derive(Drop)]
pub struct Given {
    pub rows: Table,
    pub faults: List<Fault>,
}

impl Given {
    /// These rows, with the different faults in order.
    pub(crate) fn new(alloc: Global, rows: Table, faults: Vec<Fault>) -> Result<Given, NoMemory>
        ensures rows { IfOk result (λ g. g.rows ≡ rows) }
        ensures faults { IfOk result (λ g. g.faults ≡ ascending fault_cmp faults.items) }
    {
        Ok(Given {
            rows,
            faults: in_order(alloc, faults)?,
        })
    }
}

/// What the transform gives. `first` has the rows of all Main ports, port by port, or those of the left port, and
/// `second` those of the right port or of the Side port.
#[tactic(auto, using(crate::proofs::MapSteps::passing))]
pub fn transformed(
    alloc: Global,
    transform: &Transform,
    first: &[Row<'_>],
    second: &[Row<'_>],
) -> Result<Given, NoMemory>
    requires { IsTrue (is_sound transform.now) }
    ensures rows { IfOk result (λ g. g.rows ≡ rows_in (answers transform.now first.now second.now)) }
    ensures faults { IfOk result (λ g. g.faults ≡ own_faults (answers transform.now first.now second.now)) }
{
    match transform {
        Transform::Source { rows } => passed_records(alloc, rows),
        Transform::Union { .. } | Transform::Sink { .. } => passed(alloc, first),
        Transform::Map { .. }
        | Transform::Filter { .. }
        | Transform::Emit { .. }
        | Transform::Words { .. } => row_by_row(alloc, transform, first),
        Transform::Reduce { by, field } => reduced(alloc, *by, *field, first),
        Transform::Distinct => distinct(alloc, first),
        Transform::Join | Transform::SideJoin => joined(alloc, first, second),
    }
}

/// The rows as they are.
fn passed(alloc: Global, rows: &[Row<'_>]) -> Result<Given, NoMemory>
    ensures rows { IfOk result (λ g. g.rows ≡ rows.now) }
    ensures faults { IfOk result (λ g. g.faults ≡ []) }
{
    Ok(Given {
        rows: Table::of(alloc, rows)?,
        faults: List::new(alloc),
    })
}

/// The records as they are.
fn passed_records(alloc: Global, records: &[Record]) -> Result<Given, NoMemory>
    ensures rows { IfOk result (λ g. g.rows ≡ records.now) }
    ensures faults { IfOk result (λ g. g.faults ≡ []) }
{
    let rows = rows_of(alloc, records)?;
    passed(alloc, rows.as_slice())
}

/// The rows that a transform gives, as records, and its own faults by kind and record, each once.
#[derive(Drop)]
pub struct Applied {
    pub rows: List<Record>,
    pub faults: List<Fault>,
}

/// What the transform gives on records, as `transformed`.
pub fn apply(
    alloc: Global,
    transform: &Transform,
    first: &[Record],
    second: &[Record],
) -> Result<Applied, NoMemory>
    requires { IsTrue (is_sound transform.now) }
    ensures rows { IfOk result (λ a. a.rows ≡ rows_in (answers transform.now first.now second.now)) }
    ensures faults { IfOk result (λ a. a.faults ≡ own_faults (answers transform.now first.now second.now)) }
{
    let first = rows_of(alloc, first)?;
    let second = rows_of(alloc, second)?;
    in_records(
        alloc,
        transformed(alloc, transform, first.as_slice(), second.as_slice())?,
    )
}

/// The same rows, as records.
fn in_records(alloc: Global, given: Given) -> Result<Applied, NoMemory>
    ensures rows { IfOk result (λ a. a.rows ≡ given.rows) }
    ensures faults { IfOk result (λ a. a.faults ≡ given.faults) }
{
    let Given { rows, faults } = given;
    Ok(Applied {
        rows: rows.records(alloc)?,
        faults,
    })
}
