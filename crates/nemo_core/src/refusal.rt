ghost use Rattle.std.specs.Prelude.{◌≡◌, ◌≤◌, ◌+◌, ◌&&◌, ◌==◌, true, nat_lt, length, take, drop, slice_get};
ghost use Rattle.std.specs.List.{list_all, flat_map};
ghost use Rattle.nemo_base.specs.Places.{any_at, passes};
ghost use Rattle.nemo_core.specs.Run.{refusal_in};
ghost use Rattle.nemo_core.specs.State as state;
ghost use Rattle.nemo_core.specs.Step as spec;

use crate::event::{Event, HeldBy, Outcome};
use crate::grid::Grid;
use crate::machine::Core;
use crate::needed::{held_in, is_needed, is_sink};
use crate::row::CutsRow;
use crate::task::{Place, is_running, task_at};
use nemo_base::{Class, Read, Settings, TaskGraph, TaskId, VertexRow, Why};
use nemo_value::List;

impl Core {
    /// The answer that `step` would refuse the event with, none exactly where it would take it. It takes no memory.
    pub fn refusal(&self, event: &Event) -> Option<Why>
        requires { spec.is_built event.now ≡ true }
        ensures { result ≡ refusal_in self.now event.now }
    {
        if !is_going(self.outcome) {
            return Some(Why::Over);
        }
        match event {
            Event::Launch {
                attempt,
                task,
                slot,
                reads,
            } => self.launch_refusal(*attempt, *task, *slot, reads.as_slice()),
            Event::Commit { attempt } => self.running_refusal(*attempt),
            Event::Finish => self.finish_refusal(),
            _ => unreachable!(),
        }
    }

    fn launch_refusal(&self, attempt: u64, task: TaskId, slot: u32, reads: &[u64]) -> Option<Why>
        ensures { result ≡ spec.first_failing (spec.own_conditions self.now.graph self.now.settings self.now.state (Event.Launch attempt task slot reads.now)) }
    {
        if let Some(why) = self.ready_refusal(task, slot) {
            return Some(why);
        }
        if !self.is_right_name(attempt, task, reads) {
            return Some(Why::BadName);
        }
        None
    }

    fn is_right_name(&self, attempt: u64, task: TaskId, names: &[u64]) -> bool
        ensures { result ≡ ((attempt == self.now.state.launches) && spec.are_holders (state.blocks_read self.now.graph self.now.state task) names.now) }
    {
        attempt == self.launches && self.is_named(task, names)
    }

    /// As `launch_refusal`, but for the number and the names.
    pub(crate) fn ready_refusal(&self, task: TaskId, slot: u32) -> Option<Why>
        ensures { result ≡ spec.first_failing (spec.launch_conditions self.now.graph self.now.settings self.now.state task slot) }
    {
        let (stage, i) = (task.stage as usize, task.index as usize);
        let Some(row) = task_at(&self.tasks, Place { stage, index: i }) else {
            return Some(Why::UnknownTask);
        };
        if slot as usize >= self.incs.len() {
            return Some(Why::UnknownSlot);
        }
        if !is_needed(&self.graph, &self.blocks, stage, i) {
            return Some(Why::NotNeeded);
        }
        if row.running.is_some() {
            return Some(Why::Busy);
        }
        if !all_reads_held(&self.blocks, i, reads_of(&self.graph, stage)) {
            return Some(Why::Missing);
        }
        if !fits_stage(&self.graph, self.settings, stage, slot) {
            return Some(Why::WrongClass);
        }
        if !has_losses_left(self.settings, row.losses) {
            return Some(Why::LossesFull);
        }
        if has_open(
            self.cuts.as_slice(),
            task.stage,
            self.graph.vertices.as_slice(),
        ) {
            return Some(Why::Undecided);
        }
        None
    }

    fn is_named(&self, task: TaskId, names: &[u64]) -> bool
        ensures { result ≡ spec.are_holders (state.blocks_read self.now.graph self.now.state task) names.now }
    {
        let reads = reads_of(&self.graph, task.stage as usize);
        are_named(&self.blocks, task.index as usize, reads, names)
    }

    fn running_refusal(&self, attempt: u64) -> Option<Why>
        ensures { result ≡ spec.first_failing (spec.running_conditions self.now.state attempt) }
    {
        if attempt >= self.launches {
            return Some(Why::UnknownAttempt);
        }
        if !is_running(&self.tasks, attempt) {
            return Some(Why::NotRunning);
        }
        None
    }

    fn finish_refusal(&self) -> Option<Why>
        ensures { result ≡ spec.first_failing (spec.own_conditions self.now.graph self.now.settings self.now.state Event.Finish) }
    {
        if lacks_any(&self.graph, self.blocks.rows()) {
            return Some(Why::Missing);
        }
        None
    }
}

pub(crate) fn is_going(outcome: Outcome) -> bool
    ensures { result ≡ spec.is_going outcome }
{
    match outcome {
        Outcome::Going => true,
        Outcome::Done | Outcome::Faulted | Outcome::Spent | Outcome::Starved => false,
    }
}

/// What a task of the stage reads.
pub(crate) fn reads_of(graph: &TaskGraph, stage: usize) -> &[Read]
    ensures { result.now ≡ state.reads_of graph.now stage }
{
    match graph.stages.get(stage) {
        Some(row) => row.reads.as_slice(),
        None => &[],
    }
}

fn all_held(blocks: &[Option<HeldBy>]) -> bool
    ensures { result ≡ state.all_held blocks.now }
{
    blocks.iter().all(|held| held.is_some())
}

fn read_held(blocks: &Grid<Option<HeldBy>>, i: usize, read: Read) -> bool
    ensures { result ≡ state.read_held blocks.now i read }
{
    let vertex = read.vertex as usize;
    if read.wide {
        all_held(blocks.row(vertex))
    } else {
        held_in(blocks, vertex, i).is_some()
    }
}

fn all_reads_held(blocks: &Grid<Option<HeldBy>>, i: usize, reads: &[Read]) -> bool
    ensures { result ≡ list_all (state.read_held blocks.now i) reads.now }
{
    reads.iter().all(|read| read_held(blocks, i, *read))
}

fn fits(settings: Settings, slot: u32, class: Class) -> bool
    ensures { result ≡ spec.fits settings slot class }
{
    match class {
        Class::Reserved => slot < settings.reserved,
        Class::Transient if settings.transient == 0 => slot < settings.reserved,
        Class::Transient => settings.reserved <= slot,
    }
}

fn fits_stage(graph: &TaskGraph, settings: Settings, stage: usize, slot: u32) -> bool
    ensures { result ≡ passes (λ row. spec.fits settings slot row.class) (slice_get graph.now.stages stage) }
{
    match graph.stages.get(stage) {
        Some(row) => fits(settings, slot, row.class),
        None => false,
    }
}

/// Whether a task may lose more often.
fn has_losses_left(settings: Settings, losses: u64) -> bool
    ensures { result ≡ nat_lt losses settings.loss_bound }
{
    losses < u64::from(settings.loss_bound)
}

fn is_decided(cuts: &[CutsRow], v: usize) -> bool
    ensures { result ≡ spec.is_decided cuts.now v }
{
    match cuts.get(v) {
        Some(row) => row.decided,
        None => false,
    }
}

fn is_open(cuts: &[CutsRow], stage: u32, v: usize, row: &VertexRow) -> bool
    ensures { result ≡ spec.is_open cuts.now stage v row.now }
{
    row.stage == stage && !row.triggers.is_empty() && !is_decided(cuts, v)
}

/// Whether a skewed vertex of the stage isn't decided.
fn has_open(cuts: &[CutsRow], stage: u32, vertices: &[VertexRow]) -> bool
    ensures { result ≡ any_at (spec.is_open cuts.now stage) 0 vertices.now }
{
    for (v, row) in vertices.iter().enumerate() {
        if is_open(cuts, stage, v, row) {
            return true;
        }
    }
    false
}

/// Whether a sink block is gone.
fn lacks_any(graph: &TaskGraph, blocks: &[List<Option<HeldBy>>]) -> bool
    ensures { result ≡ any_at (spec.lacks_sink graph.now) 0 blocks.now }
{
    for (v, row) in blocks.iter().enumerate() {
        if is_sink(graph, v) && !all_held(row.as_slice()) {
            return true;
        }
    }
    false
}

// The names of a launch are compared read by read.

/// The attempt that holds a block, or 0.
pub(crate) fn holder(held: Option<HeldBy>) -> u64
    ensures { result ≡ state.holder held }
{
    match held {
        Some(held) => held.attempt,
        None => 0,
    }
}

fn are_holders(blocks: &[Option<HeldBy>], names: &[u64]) -> bool
    ensures { result ≡ spec.are_holders blocks.now names.now }
{
    if names.len() != blocks.len() {
        return false;
    }
    for (i, held) in blocks.iter().enumerate() {
        if names[i] != holder(*held) {
            return false;
        }
    }
    true
}

fn are_read_holders(blocks: &Grid<Option<HeldBy>>, i: usize, read: Read, names: &[u64]) -> bool
    ensures { result ≡ spec.are_holders (state.read_in blocks.now i read) names.now }
{
    let vertex = read.vertex as usize;
    if read.wide {
        are_holders(blocks.row(vertex), names)
    } else {
        are_holders(&[held_in(blocks, vertex, i)], names)
    }
}

fn read_count(blocks: &Grid<Option<HeldBy>>, i: usize, read: Read) -> usize
    ensures { result ≡ length (state.read_in blocks.now i read) }
{
    if read.wide {
        blocks.row(read.vertex as usize).len()
    } else {
        1
    }
}

/// So many names from a place on.
fn part(names: &[u64], at: usize, count: usize) -> &[u64]
    requires { at + count ≤ length names.now }
    ensures { result.now ≡ take count (drop at names.now) }
{
    &names[at..at + count]
}

fn are_named(blocks: &Grid<Option<HeldBy>>, i: usize, reads: &[Read], names: &[u64]) -> bool
    ensures { result ≡ spec.are_holders (flat_map (state.read_in blocks.now i) reads.now) names.now }
{
    let mut at = 0;
    for read in reads {
        let count = read_count(blocks, i, *read);
        if names.len() - at < count {
            return false;
        }
        if !are_read_holders(blocks, i, *read, part(names, at, count)) {
            return false;
        }
        at += count;
    }
    are_holders(&[], &names[at..])
}
