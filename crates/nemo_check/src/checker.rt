ghost use Rattle.std.specs.Prelude.{IfErr, IfOk};
ghost use Rattle.nemo_check.specs.Finds.{IsEnd};
ghost use Rattle.nemo_ir.specs.Rewrites.{Computes, IsLocal};
ghost use Rattle.nemo_ir.specs.Valid.{Valid};

use crate::candidate::Candidate;
use nemo_ir::{Clause, FlatJob, IrDag};
use nemo_value::NoMemory;
use std::alloc::Global;

/// Why a DAG isn't accepted: the first clause that fails, with its least index, or want of memory.
#[derive(Drop)]
pub enum CheckEnd {
    Refused { clause: u32, index: u64 },
    NoMemory,
}

impl From<NoMemory> for CheckEnd {
    ghost use Rattle.std.specs.Prelude.{◌≡◌};
    ghost use Rattle.nemo_check.specs.declared.checker.CheckEnd.TheVariants.{NoMemory};

    ghost from_gives = { λ _ e. e ≡ NoMemory };

    fn from(_e: NoMemory) -> CheckEnd {
        CheckEnd::NoMemory
    }
}

/// The clauses in the order in which they are looked at.
const CLAUSES: [Clause; 9] = [
    Clause::V1,
    Clause::V2,
    Clause::V3,
    Clause::V4,
    Clause::V5,
    Clause::V6,
    Clause::V7,
    Clause::V8,
    Clause::V9,
];

/// Accepts a DAG for a flat job exactly where the nine clauses hold, and otherwise, where memory is left, names the first
/// that fails by its number, with its least index. An edge has the index of its place, and so has a vertex.
///
/// A DAG that it accepts computes the flat job however the keys are split among the tasks, and what a task of it gives
/// depends on the cuts of its vertex and of those above it alone.
pub fn check(alloc: Global, flat: &FlatJob, dag: &IrDag) -> Result<(), CheckEnd>
    ensures ok { IfOk result (λ _. Valid flat.now dag.now) }
    ensures err { IfErr result (IsEnd flat.now dag.now) }
    ensures computes { IfOk result (λ _. Computes flat.now dag.now) }
    ensures local { IfOk result (λ _. IsLocal flat.now dag.now) }
{
    let candidate = Candidate::new(alloc, flat, dag)?;
    match candidate.first_failure(&CLAUSES) {
        Some((clause, place)) => Err(CheckEnd::Refused {
            clause: clause.number(),
            index: place as u64,
        }),
        None => Ok(()),
    }
}
