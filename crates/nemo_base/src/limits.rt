//! The limits of jobs, plans and runs, each once, and what stands where nothing is said. Those of names, texts,
//! records and expressions are with their types.

/// The numbers that a member of a bundle may be, and the one that stands for it where it is absent.
#[derive(Clone, Copy)]
pub struct Range {
    pub least: u32,
    pub usual: u32,
    pub most: u32,
}

/// The tasks of a vertex.
pub const PARALLELISM: Range = Range {
    least: 1,
    usual: 4,
    most: MAX_PARALLELISM,
};

/// The losses of a task that end a run.
pub const LOSS_BOUND: Range = Range {
    least: 1,
    usual: 8,
    most: 1_000,
};

/// The bytes of a piece.
pub const PIECE: Range = Range {
    least: 1,
    usual: 65_536,
    most: 1_048_576,
};

/// Of how many rows one is looked at.
pub const SAMPLE: Range = Range {
    least: 1,
    usual: 8,
    most: 1_000,
};

/// The bytes of decoded blocks that a store keeps.
pub const DECODED: Range = Range {
    least: 0,
    usual: 16_777_216,
    most: 1_073_741_824,
};

/// The most tasks of a vertex.
pub const MAX_PARALLELISM: u32 = 64;

/// The buckets to which keys go by their hash.
pub const BUCKETS: u32 = 256;

/// The most cuts of a vertex: one less than the most tasks.
pub const MAX_CUTS: usize = 63;

/// The most slots of a run, reserved and transient ones together.
pub const MAX_SLOTS: u32 = 64;

/// The reserved slots where nothing is said of slots.
pub const DEFAULT_RESERVED: u32 = 1;

/// The transient slots where nothing is said of slots.
pub const DEFAULT_TRANSIENT: u32 = 0;

/// The most lines of a script.
pub const MAX_SCRIPT_LINES: usize = 4_096;

/// The most commits that a line of a script waits for.
pub const MAX_SCRIPT_AT: u32 = 1_000_000;

/// The most moves of a schedule.
pub const MAX_SCHEDULE_MOVES: usize = 65_536;

/// The most turns of a loop.
pub const MAX_TURNS: u32 = 64;

/// How deep loops nest at most.
pub const MAX_NESTING: u32 = 3;

/// The most ports that a loop carries.
pub const MAX_CARRIED: usize = 16;

/// The most ports of a union.
pub const MAX_UNION_PORTS: u32 = 16;

/// The most copies of a job's vertices after its loops are unrolled.
pub const MAX_COPIES: usize = 512;

/// The most vertices of a DAG.
pub const MAX_DAG_VERTICES: usize = 4_096;
