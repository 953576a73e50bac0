use crate::annotation::Class;
use nemo_value::{List, NoMemory, TryCopy};
use std::alloc::Global;

/// The stages of a plan and their vertices, as far as a run has to know them.
#[derive(Drop)]
pub struct TaskGraph {
    pub stages: List<StageRow>,
    pub vertices: List<VertexRow>,
}

/// A stage. It has a task for each number below its parallelism.
#[derive(Drop)]
pub struct StageRow {
    pub class: Class,
    pub parallelism: u32,
    /// In the graph of a plan 0 where it reads nothing, else one more than the greatest rank that it reads.
    pub rank: u32,
    /// Its vertices that have blocks.
    pub blocks: List<u32>,
    /// What each of its tasks reads, in order.
    pub reads: List<Read>,
}

/// What a task reads of a vertex of another stage: the block of its own number, or, where it is wide, all blocks.
#[derive(Clone, Copy)]
pub struct Read {
    pub vertex: u32,
    pub wide: bool,
}

/// A vertex of a stage.
#[derive(Drop)]
pub struct VertexRow {
    pub stage: u32,
    pub parallelism: u32,
    /// Whether a Hash edge feeds it, so that it has cuts that may change.
    pub hashed: bool,
    /// The Triggers that feed it, one for each edge. Where there is one, its cuts are decided before its stage runs.
    pub triggers: List<u32>,
    pub home: Home,
    /// Whether its blocks may go once nobody wants them.
    pub discard: bool,
}

/// Where the blocks of a vertex lie.
#[derive(Clone, Copy)]
pub enum Home {
    /// With the master, as those of a sink.
    Master,
    /// On the reserved slot `task` modulo the number of reserved slots.
    Pushed,
    /// On the slot of the attempt that made them.
    Local,
}

impl TryCopy for Read {
    fn copy(&self, _alloc: Global) -> Result<Read, NoMemory> {
        Ok(*self)
    }
}

impl TryCopy for StageRow {
    fn copy(&self, alloc: Global) -> Result<StageRow, NoMemory> {
        Ok(StageRow {
            class: self.class,
            parallelism: self.parallelism,
            rank: self.rank,
            blocks: self.blocks.copy(alloc)?,
            reads: self.reads.copy(alloc)?,
        })
    }
}

impl TryCopy for VertexRow {
    fn copy(&self, alloc: Global) -> Result<VertexRow, NoMemory> {
        Ok(VertexRow {
            stage: self.stage,
            parallelism: self.parallelism,
            hashed: self.hashed,
            triggers: self.triggers.copy(alloc)?,
            home: self.home,
            discard: self.discard,
        })
    }
}

impl TryCopy for TaskGraph {
    fn copy(&self, alloc: Global) -> Result<TaskGraph, NoMemory> {
        Ok(TaskGraph {
            stages: self.stages.copy(alloc)?,
            vertices: self.vertices.copy(alloc)?,
        })
    }
}
