use nemo_base::Cuts;

/// A running attempt: its number, and the slot that it runs on.
#[derive(Clone, Copy)]
pub struct Attempt {
    pub number: u64,
    pub slot: u32,
}

/// What is known of a task: its running attempt, if any, and how often it lost.
#[derive(Clone, Copy)]
pub struct TaskRow {
    pub running: Option<Attempt>,
    pub losses: u64,
}

/// The cuts of a vertex, and whether they are decided.
#[derive(Clone, Copy)]
pub struct CutsRow {
    pub cuts: Cuts,
    pub decided: bool,
}
