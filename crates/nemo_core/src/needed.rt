ghost use Rattle.std.specs.Prelude.{◌≡◌, ◌&&◌, ◌≤◌, ◌^◌};
ghost use Rattle.std.specs.List.{list_any};
ghost use Rattle.nemo_base.specs.Needed as spec;
ghost use Rattle.nemo_core.specs.State.{held_in, gone_in};

use crate::event::HeldBy;
use crate::grid::Grid;
use nemo_base::{Home, Read, StageRow, TaskGraph};

/// Who holds block `i` of a vertex.
pub(crate) fn held_in(blocks: &Grid<Option<HeldBy>>, vertex: usize, i: usize) -> Option<HeldBy>
    ensures { result ≡ held_in blocks.now vertex i }
{
    match blocks.get(vertex, i) {
        Some(held) => held,
        None => None,
    }
}

fn gone_in(blocks: &Grid<Option<HeldBy>>, vertex: usize, i: usize) -> bool
    ensures { result ≡ gone_in blocks.now vertex i }
{
    held_in(blocks, vertex, i).is_none()
}

/// Whether the master keeps the blocks of a vertex.
pub(crate) fn is_sink(graph: &TaskGraph, vertex: usize) -> bool
    ensures { result ≡ spec.is_sink graph.now vertex }
{
    match graph.vertices.get(vertex) {
        Some(row) => is_master(row.home),
        None => false,
    }
}

fn is_master(home: Home) -> bool
    ensures { result ≡ spec.is_master home }
{
    match home {
        Home::Master => true,
        Home::Pushed | Home::Local => false,
    }
}

/// The vertices whose blocks the tasks of a stage make.
pub(crate) fn blocks_of(graph: &TaskGraph, stage: usize) -> &[u32]
    ensures { result.now ≡ spec.blocks_of graph.now stage }
{
    match graph.stages.get(stage) {
        Some(row) => row.blocks.as_slice(),
        None => &[],
    }
}

/// How many ranks the stages have.
fn ranks(stages: &[StageRow]) -> u64
    ensures ranks { result ≡ spec.ranks stages.now }
    ensures few { result ≤ 2 ^ 32 }
{
    match stages.split_first() {
        Some((row, rows)) => {
            let own = u64::from(row.rank) + 1;
            own.max(ranks(rows))
        }
        None => 0,
    }
}

/// Whether a block of the task is gone and wanted.
pub(crate) fn is_needed(
    graph: &TaskGraph,
    blocks: &Grid<Option<HeldBy>>,
    stage: usize,
    i: usize,
) -> bool
    ensures { result ≡ spec.needed graph.now (gone_in blocks.now) stage i }
{
    let gaps = Gaps { graph, blocks };
    gaps.needed_in(ranks(graph.stages.as_slice()), stage, i)
}

/// The gone blocks of a graph, by which tasks are needed and blocks wanted.
#[derive(Clone, Copy)]
struct Gaps<'a> {
    graph: &'a TaskGraph,
    blocks: &'a Grid<Option<HeldBy>>,
}

// Each of these answers for the tasks that `turns` turns reach.
impl Gaps<'_> {
    #[cycle(needed)]
    fn needed_in(&self, turns: u64, stage: usize, i: usize) -> bool
        ensures { result ≡ spec.needed_in self.now.graph.now (gone_in self.now.blocks.now) turns stage i }
    {
        if turns == 0 {
            return false;
        }
        self.any_wanted(turns - 1, blocks_of(self.graph, stage), i)
    }

    #[cycle(needed)]
    fn any_wanted(&self, turns: u64, vertices: &[u32], i: usize) -> bool
        ensures { result ≡ list_any (λ v. gone_in self.now.blocks.now v i && spec.is_wanted_by self.now.graph.now (spec.needed_in self.now.graph.now (gone_in self.now.blocks.now) turns) v i) vertices.now }
    {
        for v in vertices {
            let vertex = *v as usize;
            if gone_in(self.blocks, vertex, i) && self.is_wanted_by(turns, vertex, i) {
                return true;
            }
        }
        false
    }

    #[cycle(needed)]
    fn is_wanted_by(&self, turns: u64, vertex: usize, i: usize) -> bool
        ensures { result ≡ spec.is_wanted_by self.now.graph.now (spec.needed_in self.now.graph.now (gone_in self.now.blocks.now) turns) vertex i }
    {
        is_sink(self.graph, vertex) || self.is_read_by(turns, vertex, i)
    }

    #[cycle(needed)]
    fn is_read_by(&self, turns: u64, vertex: usize, i: usize) -> bool
        ensures { result ≡ spec.is_read_by self.now.graph.now (spec.needed_in self.now.graph.now (gone_in self.now.blocks.now) turns) vertex i }
    {
        for (stage, row) in self.graph.stages.as_slice().iter().enumerate() {
            if self.stage_reads(turns, stage, row, vertex, i) {
                return true;
            }
        }
        false
    }

    #[cycle(needed)]
    fn stage_reads(&self, turns: u64, stage: usize, row: &StageRow, vertex: usize, i: usize) -> bool
        ensures { result ≡ list_any (spec.needs_read (spec.needed_in self.now.graph.now (gone_in self.now.blocks.now) turns stage) row.now vertex i) row.now.reads }
    {
        for read in row.reads.as_slice() {
            if read.vertex as usize == vertex && self.read_needs(turns, stage, row, i, *read) {
                return true;
            }
        }
        false
    }

    #[cycle(needed)]
    fn read_needs(&self, turns: u64, stage: usize, row: &StageRow, i: usize, read: Read) -> bool
        ensures { result ≡ spec.readers_need (spec.needed_in self.now.graph.now (gone_in self.now.blocks.now) turns stage) row.now i read }
    {
        if read.wide {
            self.any_needed(turns, stage, row.parallelism as usize)
        } else {
            self.needed_in(turns, stage, i)
        }
    }

    #[cycle(needed)]
    fn any_needed(&self, turns: u64, stage: usize, count: usize) -> bool
        ensures { result ≡ list_any (spec.needed_in self.now.graph.now (gone_in self.now.blocks.now) turns stage) (spec.below count) }
    {
        for i in 0..count {
            if self.needed_in(turns, stage, i) {
                return true;
            }
        }
        false
    }
}
