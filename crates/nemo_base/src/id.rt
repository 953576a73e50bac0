/// A task: its stage, and its place in the stage.
#[derive(Clone, Copy)]
pub struct TaskId {
    pub stage: u32,
    pub index: u32,
}

/// A block: the rows that a task of a vertex gives.
#[derive(Clone, Copy)]
pub struct BlockId {
    pub vertex: u32,
    pub task: u32,
}
