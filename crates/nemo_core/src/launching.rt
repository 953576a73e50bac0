ghost use Rattle.std.specs.Prelude.{◌≡◌, ◌++◌, map, None, IfOk, IfErr, IfSome, OnOk};
ghost use Rattle.std.specs.List.{flat_map};
ghost use Rattle.nemo_value.specs.Counted.{below};
ghost use Rattle.nemo_core.specs.Reading.{Tells, first_of, launch_of, launchable, may_launch};
ghost use Rattle.nemo_core.specs.Run.{refusal_in};
ghost use Rattle.nemo_core.specs.State.{blocks_read, holder, read_in};

use crate::event::{Event, HeldBy, LaunchRefused};
use crate::grid::Grid;
use crate::machine::Core;
use crate::needed::held_in;
use crate::refusal::{holder, is_going, reads_of};
use nemo_base::{Read, TaskId, Why};
use nemo_value::{List, NoMemory};
use std::alloc::Global;

impl Core {
    /// The launch of a task on a slot, with the right number and names, or the answer that `step` would refuse it
    /// with.
    pub fn launch_event(&self, task: TaskId, slot: u32) -> Result<Event, LaunchRefused>
        ensures event { IfOk result (λ event. event ≡ launch_of self.now task slot) }
        ensures allowed { OnOk result (refusal_in self.now (launch_of self.now task slot) ≡ None) }
        ensures refused { IfErr result (λ told. Tells (refusal_in self.now (launch_of self.now task slot)) told) }
    {
        if let Some(why) = self.launch_refused(task, slot) {
            return Err(LaunchRefused::Refused(why));
        }
        let Ok(reads) = self.names(task) else {
            return Err(LaunchRefused::NoMemory);
        };
        Ok(Event::Launch {
            attempt: self.launches,
            task,
            slot,
            reads,
        })
    }

    /// The least task, by stage and place, that may be launched on the slot; none exactly where there is none. It
    /// takes no memory.
    pub fn launchable(&self, slot: u32) -> Option<TaskId>
        ensures least { result ≡ launchable self.now slot }
        ensures allowed { IfSome result (λ task. refusal_in self.now (launch_of self.now task slot) ≡ None) }
    {
        for (stage, row) in self.graph.stages.as_slice().iter().enumerate() {
            if let Some(task) = self.launchable_in(stage as u32, row.parallelism, slot) {
                return Some(task);
            }
        }
        None
    }

    fn launchable_in(&self, stage: u32, count: u32, slot: u32) -> Option<TaskId>
        ensures least { result ≡ first_of (may_launch self.now slot stage) (below count) }
        ensures allowed { IfSome result (λ task. refusal_in self.now (launch_of self.now task slot) ≡ None) }
    {
        for index in 0..count {
            if let Some(task) = self.may_launch(TaskId { stage, index }, slot) {
                return Some(task);
            }
        }
        None
    }

    fn may_launch(&self, task: TaskId, slot: u32) -> Option<TaskId>
        ensures least { result ≡ may_launch self.now slot task.stage task.index }
        ensures allowed { IfSome result (λ task. refusal_in self.now (launch_of self.now task slot) ≡ None) }
    {
        if self.launch_refused(task, slot).is_some() {
            return None;
        }
        Some(task)
    }

    /// The answer that the launch with the right number and names would be refused with.
    fn launch_refused(&self, task: TaskId, slot: u32) -> Option<Why>
        ensures { result ≡ refusal_in self.now (launch_of self.now task slot) }
    {
        if !is_going(self.outcome) {
            return Some(Why::Over);
        }
        self.ready_refusal(task, slot)
    }

    /// The attempts that hold the blocks which a task reads, in order.
    fn names(&self, task: TaskId) -> Result<List<u64>, NoMemory>
        ensures { IfOk result (λ names. names ≡ map holder (blocks_read self.now.graph self.now.state task)) }
    {
        let i = task.index as usize;
        let reads = reads_of(&self.graph, task.stage as usize);
        names_of(self.alloc, &self.blocks, i, reads)
    }
}

fn names_of(
    alloc: Global,
    blocks: &Grid<Option<HeldBy>>,
    i: usize,
    reads: &[Read],
) -> Result<List<u64>, NoMemory>
    ensures { IfOk result (λ names. names ≡ map holder (flat_map (read_in blocks.now i) reads.now)) }
{
    let mut names = List::new(alloc);
    for read in reads {
        push_read(&mut names, blocks, i, *read)?;
    }
    Ok(names)
}

fn push_read(
    names: &mut List<u64>,
    blocks: &Grid<Option<HeldBy>>,
    i: usize,
    read: Read,
) -> Result<(), NoMemory>
    ensures { OnOk result (names.new ≡ names.old ++ map holder (read_in blocks.now i read)) }
{
    let vertex = read.vertex as usize;
    if read.wide {
        push_all(names, blocks.row(vertex))
    } else {
        names.push(holder(held_in(blocks, vertex, i)))
    }
}

fn push_all(names: &mut List<u64>, blocks: &[Option<HeldBy>]) -> Result<(), NoMemory>
    ensures { OnOk result (names.new ≡ names.old ++ map holder blocks.now) }
{
    for held in blocks {
        names.push(holder(*held))?;
    }
    Ok(())
}
