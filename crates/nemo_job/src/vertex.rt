use nemo_transform::Transform;
use nemo_value::{Items, List, Name};

/// A port of a vertex, named by the vertex: port 0 of all but a loop.
#[derive(Drop)]
pub struct Ref {
    pub name: Name,
    pub port: u32,
}

/// A vertex of a job: its name, what it does, and what its ports take.
#[cycle(job)]
#[derive(Drop)]
pub struct JobVertex {
    pub name: Name,
    pub work: Work,
    pub inputs: List<Ref>,
}

/// What a vertex does: an operation, or a loop that evaluates its body `turns` times. The ports of a turn have the
/// names of `carry`; those of the next turn, and of the loop after the last, are what `next` names in the body.
#[cycle(job)]
#[derive(Drop)]
pub enum Work {
    Op(Transform),
    Loop {
        turns: u32,
        carry: List<Name>,
        body: Items<JobVertex>,
        next: List<Ref>,
    },
}
