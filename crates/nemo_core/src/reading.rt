ghost use Rattle.std.specs.Prelude.{◌≡◌};
ghost use Rattle.nemo_value.specs.Counted.{below};
ghost use Rattle.nemo_core.specs.Reading.{first_of, running_at, running_in, runs_there};
ghost use Rattle.nemo_core.specs.State.{held_at};

use crate::event::{HeldBy, Outcome, RunningAt};
use crate::machine::Core;
use crate::needed::held_in;
use crate::row::Attempt;
use crate::task::{Place, running_of, task_at};
use nemo_base::{BlockId, TaskId};

impl Core {
    pub fn outcome(&self) -> Outcome
        ensures { result ≡ self.now.state.outcome }
    {
        self.outcome
    }

    /// How many attempts there were.
    pub fn launches(&self) -> u64
        ensures { result ≡ self.now.state.launches }
    {
        self.launches
    }

    /// How many attempts committed.
    pub fn commits(&self) -> u64
        ensures { result ≡ self.now.state.commits }
    {
        self.commits
    }

    /// Who holds a block, none where it is gone.
    pub fn held(&self, block: BlockId) -> Option<HeldBy>
        ensures { result ≡ held_at self.now.state block.vertex block.task }
    {
        held_in(&self.blocks, block.vertex as usize, block.task as usize)
    }

    /// Where an attempt runs, none exactly where it isn't running. It takes no memory.
    pub fn running(&self, attempt: u64) -> Option<RunningAt>
        ensures { result ≡ running_at self.now attempt }
    {
        for (stage, row) in self.graph.stages.as_slice().iter().enumerate() {
            if let Some(at) = self.running_among(stage as u32, row.parallelism, attempt) {
                return Some(at);
            }
        }
        None
    }

    fn running_among(&self, stage: u32, count: u32, attempt: u64) -> Option<RunningAt>
        ensures { result ≡ first_of (runs_there self.now.state attempt stage) (below count) }
    {
        for index in 0..count {
            if let Some(at) = self.runs_there(TaskId { stage, index }, attempt) {
                return Some(at);
            }
        }
        None
    }

    fn runs_there(&self, task: TaskId, attempt: u64) -> Option<RunningAt>
        ensures { result ≡ runs_there self.now.state attempt task.stage task.index }
    {
        let place = Place {
            stage: task.stage as usize,
            index: task.index as usize,
        };
        let row = task_at(&self.tasks, place);
        running_in(self.incs.as_slice(), attempt, task, running_of(row))
    }
}

fn running_in(
    incs: &[u64],
    attempt: u64,
    task: TaskId,
    running: Option<Attempt>,
) -> Option<RunningAt>
    ensures { result ≡ running_in incs.now attempt task running }
{
    match running {
        Some(a) if a.number == attempt => Some(RunningAt {
            task,
            slot: a.slot,
            inc: incs.get(a.slot as usize).copied().unwrap_or(0),
        }),
        _ => None,
    }
}
