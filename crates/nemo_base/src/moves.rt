use crate::cuts::Cuts;
use crate::id::{BlockId, TaskId};

/// A move of a schedule, by which a run is played.
#[derive(Clone, Copy)]
pub enum Move {
    /// The task begins on the slot.
    Launch { task: TaskId, slot: u32 },
    /// The attempt reads its blocks and computes.
    Compute { attempt: u32 },
    /// The next piece of the attempt's block of the vertex goes to the block's home.
    Push { attempt: u32, vertex: u32 },
    /// The attempt is reported as done, perhaps again.
    Report { attempt: u32 },
    /// What is left of the attempt is done, and it is reported.
    End { attempt: u32 },
    /// The attempt is given back.
    GiveBack { attempt: u32 },
    /// The slot goes, and comes back empty.
    Evict { slot: u32 },
    /// The cuts of the vertex change, where that is allowed.
    Repartition { vertex: u32, cuts: Cuts },
    /// The cuts of the vertex are decided.
    Decide { vertex: u32 },
    /// The block is dropped.
    Drop { block: BlockId },
    /// The task has no losses left.
    Spent { task: TaskId },
    /// The run is finished.
    Finish,
}
