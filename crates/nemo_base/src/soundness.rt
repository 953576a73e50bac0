ghost use Rattle.std.specs.Prelude.{◌≡◌};
ghost use Rattle.std.specs.List.{list_all};
ghost use Rattle.nemo_base.specs.Sound as spec;

use crate::graph::{Read, StageRow, TaskGraph, VertexRow};
use crate::limits::MAX_PARALLELISM;

impl TaskGraph {
    /// Whether each number names something, each parallelism is 1 to 64, each stage names at least one vertex in
    /// `blocks`, all its own and none twice, each vertex has the parallelism of its stage, each read names a vertex
    /// that stands in `blocks` of a stage of lower rank, narrow reads join equal parallelism, and the triggers of a
    /// vertex are wide reads of its stage. It takes no memory.
    pub fn sound(&self) -> bool
        ensures { result ≡ spec.is_sound self.now }
    {
        are_stages(self) && are_vertices(self)
    }
}

fn are_stages(graph: &TaskGraph) -> bool
    ensures { result ≡ spec.all_at (spec.is_stage graph.now) 0 graph.now.stages }
{
    for (number, stage) in graph.stages.as_slice().iter().enumerate() {
        if !is_stage(graph, number, stage) {
            return false;
        }
    }
    true
}

fn is_stage(graph: &TaskGraph, number: usize, stage: &StageRow) -> bool
    ensures { result ≡ spec.is_stage graph.now number stage.now }
{
    is_parallelism(stage.parallelism)
        && 1 <= stage.blocks.len()
        && differ(stage.blocks.as_slice())
        && all_lie_in(graph, number, stage.blocks.as_slice())
        && are_reads(graph, stage, stage.reads.as_slice())
}

fn is_parallelism(n: u32) -> bool
    ensures { result ≡ spec.is_parallelism n }
{
    1 <= n && n <= MAX_PARALLELISM
}

fn is_in(number: u32, numbers: &[u32]) -> bool
    ensures { result ≡ spec.is_in number numbers.now }
{
    numbers.iter().any(|other| *other == number)
}

/// Whether no number comes twice.
fn differ(numbers: &[u32]) -> bool
    ensures { result ≡ spec.differ numbers.now }
{
    match numbers.split_first() {
        Some((first, others)) => !is_in(*first, others) && differ(others),
        None => true,
    }
}

/// Whether the vertex of this number lies in the stage.
fn lies_in(graph: &TaskGraph, stage: usize, number: u32) -> bool
    ensures { result ≡ spec.lies_in graph.now stage number }
{
    match graph.vertices.get(number as usize) {
        Some(v) => v.stage as usize == stage,
        None => false,
    }
}

fn all_lie_in(graph: &TaskGraph, stage: usize, numbers: &[u32]) -> bool
    ensures { result ≡ list_all (spec.lies_in graph.now stage) numbers.now }
{
    numbers.iter().all(|v| lies_in(graph, stage, *v))
}

/// Whether a stage of lower rank has blocks of the vertex.
fn stands_below(graph: &TaskGraph, rank: u32, number: u32, v: &VertexRow) -> bool
    ensures { result ≡ spec.stands_below graph.now rank number v.now }
{
    match graph.stages.get(v.stage as usize) {
        Some(stage) => is_in(number, stage.blocks.as_slice()) && stage.rank < rank,
        None => false,
    }
}

fn is_read(graph: &TaskGraph, stage: &StageRow, read: &Read) -> bool
    ensures { result ≡ spec.is_read graph.now stage.now read.now }
{
    match graph.vertices.get(read.vertex as usize) {
        Some(v) => {
            stands_below(graph, stage.rank, read.vertex, v)
                && (read.wide || v.parallelism == stage.parallelism)
        }
        None => false,
    }
}

fn are_reads(graph: &TaskGraph, stage: &StageRow, reads: &[Read]) -> bool
    ensures { result ≡ list_all (spec.is_read graph.now stage.now) reads.now }
{
    reads.iter().all(|r| is_read(graph, stage, r))
}

/// Whether the stage has a wide read of the vertex.
fn reads_all(stage: &StageRow, number: u32) -> bool
    ensures { result ≡ spec.reads_all stage.now number }
{
    stage
        .reads
        .as_slice()
        .iter()
        .any(|r| r.wide && r.vertex == number)
}

fn all_read(stage: &StageRow, triggers: &[u32]) -> bool
    ensures { result ≡ list_all (spec.reads_all stage.now) triggers.now }
{
    triggers.iter().all(|t| reads_all(stage, *t))
}

fn is_vertex(graph: &TaskGraph, v: &VertexRow) -> bool
    ensures { result ≡ spec.is_vertex graph.now v.now }
{
    match graph.stages.get(v.stage as usize) {
        Some(stage) => {
            v.parallelism == stage.parallelism && all_read(stage, v.triggers.as_slice())
        }
        None => false,
    }
}

fn are_vertices(graph: &TaskGraph) -> bool
    ensures { result ≡ list_all (spec.is_vertex graph.now) graph.now.vertices }
{
    graph
        .vertices
        .as_slice()
        .iter()
        .all(|v| is_vertex(graph, v))
}
