/// Why an event or a move is refused.
#[derive(Clone, Copy)]
pub enum Why {
    /// The run has ended.
    Over,
    UnknownTask,
    UnknownSlot,
    /// No block of the task is both gone and wanted.
    NotNeeded,
    /// The task runs already.
    Busy,
    /// A block isn't held.
    Missing,
    /// The slot doesn't fit the class of the task's stage.
    WrongClass,
    /// The task's losses have reached the bound.
    LossesFull,
    /// A skewed vertex of the stage has no decided cuts yet.
    Undecided,
    /// The number of the attempt or the attempts that it reads aren't the right ones.
    BadName,
    UnknownAttempt,
    NotRunning,
    StillRunning,
    /// The slot is never evicted.
    ReservedSlot,
    UnknownVertex,
    /// No Hash edge feeds the vertex.
    NotHashed,
    /// The cuts don't fit the vertex.
    BadCuts,
    /// A task of the stage has committed.
    Sealed,
    /// The repartitioning is allowed, so it isn't ignored.
    Allowed,
    /// No Trigger feeds the vertex.
    NotSkewed,
    Decided,
    /// The task's losses haven't reached the bound.
    LossesLeft,
    UnknownBlock,
    /// The blocks of the vertex stay.
    Kept,
    /// The block is wanted.
    Wanted,
    /// The attempt was computed already.
    Computed,
    NotComputed,
    /// All pieces of the block were pushed.
    AllPushed,
    /// Pieces are left to push.
    PiecesLeft,
}
