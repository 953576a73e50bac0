use nemo_base::{BlockId, Cuts, TaskId, Why};
use nemo_value::{Kind, List, Record};

/// What happens in a run. Attempts are numbered from 0, in the order of their launches.
#[derive(Drop)]
pub enum Event {
    /// A task starts on a slot. `reads` has the attempts that made the blocks it reads, in order.
    Launch {
        attempt: u64,
        task: TaskId,
        slot: u32,
        reads: List<u64>,
    },
    /// A running attempt is done, and its blocks are held.
    Commit {
        attempt: u64,
    },
    /// An attempt that no longer runs is reported.
    Repeat {
        attempt: u64,
    },
    /// An attempt gives up, without a loss.
    GiveBack {
        attempt: u64,
    },
    /// A slot goes, with what runs and lies there, and comes back empty.
    Evict {
        slot: u32,
    },
    /// The cuts of a vertex change before its stage is sealed.
    Repartition {
        vertex: u32,
        cuts: Cuts,
    },
    /// A repartitioning that isn't allowed.
    Ignored {
        vertex: u32,
        cuts: Cuts,
    },
    /// The cuts of a skewed vertex are decided.
    Decide {
        vertex: u32,
        cuts: Cuts,
    },
    /// A flat vertex of an attempt's task has a fault, which ends the run.
    Fault {
        attempt: u64,
        vertex: u32,
        kind: Kind,
        rec: Record,
    },
    /// A task has lost too often, which ends the run.
    Spent {
        task: TaskId,
    },
    /// Memory is wanting, which ends the run.
    Starved,
    /// A block that nobody wants goes.
    Drop {
        block: BlockId,
    },
    /// Every sink block is held, and the run is done.
    Finish,
}

/// Whether a run goes on, or how it ended.
#[derive(Clone, Copy)]
pub enum Outcome {
    Going,
    Done,
    Faulted,
    Spent,
    Starved,
}

/// Who holds a block: the attempt that made it, and its home with the incarnation that this had. The master is no
/// slot, and has incarnation 0.
#[derive(Clone, Copy)]
pub struct HeldBy {
    pub slot: Option<u32>,
    pub inc: u64,
    pub attempt: u64,
}

/// Where an attempt runs: its task, and its slot with the slot's incarnation.
#[derive(Clone, Copy)]
pub struct RunningAt {
    pub task: TaskId,
    pub slot: u32,
    pub inc: u64,
}

/// Why there is no event for a launch.
#[derive(Clone, Copy)]
pub enum LaunchRefused {
    /// The launch isn't allowed.
    Refused(Why),
    NoMemory,
}
