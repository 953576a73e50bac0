ghost use Rattle.std.specs.Prelude.{◌≡◌, ◌+◌, ◌<◌, ◌^◌, [], false, map, replicate, is_some, length, true, IfOk, IfErr, OnOk, OnErr, None, Some};
ghost use Rattle.nemo_base.specs.Places.{is_in, map_at};
ghost use Rattle.nemo_base.specs.Sound.{is_sound};
ghost use Rattle.nemo_core.specs.Run.{refusal_in, stepped};
ghost use Rattle.nemo_core.specs.State as spec;
ghost use Rattle.nemo_core.specs.Step.{is_built};

use crate::block::{Commit, fill};
use crate::event::{Event, HeldBy, Outcome};
use crate::grid::Grid;
use crate::needed::blocks_of;
use crate::row::{CutsRow, TaskRow};
use crate::task::{Place, end, end_all, find, launch, running_of, task_at};
use nemo_base::{Cuts, Settings, StageRow, TaskGraph, TaskId, VertexRow, Why};
use nemo_value::{List, NoMemory, TryCopy};
use std::alloc::Global;
use std::marker::Model;

/// As many stages as u32 has numbers.
const MAX_STAGES: usize = 4_294_967_296;

/// The state of a run. Contracts see its graph, its settings, its state, and how many events it has taken.
#[derive(Drop)]
pub struct Core {
    pub(crate) alloc: Global,
    pub(crate) graph: TaskGraph,
    pub(crate) settings: Settings,
    pub(crate) outcome: Outcome,
    pub(crate) launches: u64,
    pub(crate) commits: u64,
    pub(crate) incs: Vec<u64>,
    pub(crate) tasks: Grid<TaskRow>,
    pub(crate) sealed: Vec<bool>,
    pub(crate) blocks: Grid<Option<HeldBy>>,
    pub(crate) cuts: Vec<CutsRow>,
    pub(crate) taken: u64,
}

impl Model for Core {
    ghost use Rattle.std.specs.Prelude.{length};
    ghost use Rattle.nemo_core.specs.State.{Machine};
    ghost use Rattle.nemo_core.specs.Within.{IsWithin};

    ghost Value = { Machine };

    ghost view = { λ c. record { graph = c.graph; settings = c.settings; state = record { outcome = c.outcome; launches = c.launches; commits = c.commits; incs = c.incs.items; tasks = c.tasks; sealed = c.sealed.items; blocks = c.blocks; cuts = c.cuts.items }; taken = c.taken } };

    ghost invariant = { λ c. IsWithin c.taken c.launches c.commits (length c.graph.stages) c.tasks c.sealed.items };
}

impl Core {
    /// The core of a run before any event. It copies the graph.
    pub fn start(alloc: Global, graph: &TaskGraph, settings: Settings) -> Result<Core, NoMemory>
        requires { is_sound graph.now ≡ true }
        ensures { IfOk result (λ c. c ≡ spec.start_machine graph.now settings) }
    {
        if graph.stages.len() > MAX_STAGES {
            return Err(NoMemory);
        }
        let (graph, incs) = made_for(alloc, graph, settings)?;
        let Tables {
            tasks,
            blocks,
            sealed,
            cuts,
        } = fresh(alloc, &graph)?;
        Ok(Core {
            alloc,
            graph,
            settings,
            outcome: Outcome::Going,
            launches: 0,
            commits: 0,
            incs,
            tasks,
            sealed,
            blocks,
            cuts,
            taken: 0,
        })
    }

    /// Takes an event, or refuses it with the first condition that fails and stays as it was. It takes no memory.
    /// So far it takes Launch, Commit and Finish.
    pub fn step(&mut self, event: &Event) -> Result<(), Why>
        requires room { self.old.taken < 2 ^ 63 }
        requires built { is_built event.now ≡ true }
        ensures allowed { OnOk result (refusal_in self.old event.now ≡ None) }
        ensures ok { OnOk result (self.new ≡ stepped self.old event.now) }
        ensures refused { IfErr result (λ why. refusal_in self.old event.now ≡ Some why) }
        ensures err { OnErr result (self.new ≡ self.old) }
    {
        if let Some(why) = self.refusal(event) {
            return Err(why);
        }
        self.apply(event);
        Ok(())
    }

    /// Takes an event that is allowed.
    #[tactic(auto, using(crate::proofs::Allowed::launch_there, crate::proofs::Allowed::launch_next, crate::proofs::Allowed::commit_runs))]
    fn apply(&mut self, event: &Event)
        requires room { self.old.taken < 2 ^ 63 }
        requires built { is_built event.now ≡ true }
        requires allowed { refusal_in self.old event.now ≡ None }
        ensures { self.new ≡ stepped self.old event.now }
    {
        match event {
            Event::Launch {
                attempt,
                task,
                slot,
                reads: _,
            } => self.launch(*attempt, *task, *slot),
            Event::Commit { attempt } => self.commit(*attempt),
            Event::Finish => self.finish(),
            _ => unreachable!(),
        }
    }

    fn launch(&mut self, attempt: u64, task: TaskId, slot: u32)
        requires room { self.old.taken < 2 ^ 63 }
        requires next { attempt ≡ self.old.state.launches }
        requires there { is_some (spec.task_at self.old.state task) ≡ true }
        ensures { self.new ≡ stepped self.old (Event.Launch attempt task slot []) }
    {
        launch(&mut self.tasks, attempt, task, slot);
        self.launches += 1;
        self.taken += 1;
    }

    fn commit(&mut self, attempt: u64)
        requires room { self.old.taken < 2 ^ 63 }
        requires runs { spec.is_running self.old.state attempt ≡ true }
        ensures { self.new ≡ stepped self.old (Event.Commit attempt) }
    {
        let Some(place) = find(&self.tasks, attempt) else {
            unreachable!();
        };
        let Some(running) = running_of(task_at(&self.tasks, place)) else {
            unreachable!();
        };
        let commit = Commit {
            settings: self.settings,
            incs: self.incs.as_slice(),
            place,
            attempt: running,
        };
        fill(&mut self.blocks, &self.graph, &commit);
        self.sealed[place.stage] = true;
        end(&mut self.tasks, place, attempt);
        self.commits += 1;
        self.taken += 1;
    }

    fn finish(&mut self)
        requires { self.old.taken < 2 ^ 63 }
        ensures { self.new ≡ stepped self.old Event.Finish }
    {
        end_all(&mut self.tasks);
        self.outcome = Outcome::Done;
        self.taken += 1;
    }
}

/// A graph's copy, and the incarnations of the slots.
fn made_for(
    alloc: Global,
    graph: &TaskGraph,
    settings: Settings,
) -> Result<(TaskGraph, Vec<u64>), NoMemory>
    ensures graph { IfOk result (λ made. made.0 ≡ graph.now) }
    ensures incs { IfOk result (λ made. made.1.items ≡ replicate (settings.reserved + settings.transient) 0) }
{
    let slots = settings.reserved as usize + settings.transient as usize;
    let incs = vec![in alloc; 0; slots]?;
    Ok((graph.copy(alloc)?, incs))
}

/// The tables of a run.
#[derive(Drop)]
struct Tables {
    tasks: Grid<TaskRow>,
    blocks: Grid<Option<HeldBy>>,
    sealed: Vec<bool>,
    cuts: Vec<CutsRow>,
}

/// The tables before any event.
fn fresh(alloc: Global, graph: &TaskGraph) -> Result<Tables, NoMemory>
    requires { is_sound graph.now ≡ true }
    ensures tasks { IfOk result (λ made. made.tasks ≡ map spec.fresh_tasks graph.now.stages) }
    ensures blocks { IfOk result (λ made. made.blocks ≡ map_at (spec.fresh_blocks graph.now) 0 graph.now.vertices) }
    ensures sealed { IfOk result (λ made. made.sealed.items ≡ replicate (length graph.now.stages) false) }
    ensures cuts { IfOk result (λ made. made.cuts.items ≡ map spec.fresh_cuts graph.now.vertices) }
{
    let (tasks, blocks) = fresh_rows(alloc, graph)?;
    let (sealed, cuts) = fresh_marks(alloc, graph)?;
    Ok(Tables {
        tasks,
        blocks,
        sealed,
        cuts,
    })
}

fn fresh_rows(
    alloc: Global,
    graph: &TaskGraph,
) -> Result<(Grid<TaskRow>, Grid<Option<HeldBy>>), NoMemory>
    ensures tasks { IfOk result (λ made. made.0 ≡ map spec.fresh_tasks graph.now.stages) }
    ensures blocks { IfOk result (λ made. made.1 ≡ map_at (spec.fresh_blocks graph.now) 0 graph.now.vertices) }
{
    let tasks = Grid::from_rows(fresh_tasks(alloc, graph.stages.as_slice())?);
    Ok((tasks, Grid::from_rows(fresh_blocks(alloc, graph)?)))
}

fn fresh_marks(alloc: Global, graph: &TaskGraph) -> Result<(Vec<bool>, Vec<CutsRow>), NoMemory>
    requires { is_sound graph.now ≡ true }
    ensures sealed { IfOk result (λ made. made.0.items ≡ replicate (length graph.now.stages) false) }
    ensures cuts { IfOk result (λ made. made.1.items ≡ map spec.fresh_cuts graph.now.vertices) }
{
    let sealed = vec![in alloc; false; graph.stages.len()]?;
    Ok((sealed, fresh_cuts(alloc, graph)?))
}

fn fresh_tasks(alloc: Global, stages: &[StageRow]) -> Result<Vec<List<TaskRow>>, NoMemory>
    ensures { IfOk result (λ tasks. tasks.items ≡ map spec.fresh_tasks stages.now) }
{
    let mut tasks = Vec::new(alloc);
    for row in stages {
        let fresh = TaskRow {
            running: None,
            losses: 0,
        };
        tasks.push(List::from_vec(vec![in alloc; fresh; row.parallelism as usize]?))?;
    }
    Ok(tasks)
}

fn fresh_blocks(alloc: Global, graph: &TaskGraph) -> Result<Vec<List<Option<HeldBy>>>, NoMemory>
    ensures { IfOk result (λ blocks. blocks.items ≡ map_at (spec.fresh_blocks graph.now) 0 graph.now.vertices) }
{
    let mut blocks = Vec::new(alloc);
    for (v, row) in graph.vertices.as_slice().iter().enumerate() {
        blocks.push(fresh_row(alloc, graph, v, row)?)?;
    }
    Ok(blocks)
}

fn fresh_row(
    alloc: Global,
    graph: &TaskGraph,
    v: usize,
    row: &VertexRow,
) -> Result<List<Option<HeldBy>>, NoMemory>
    ensures { IfOk result (λ blocks. blocks ≡ spec.fresh_blocks graph.now v row.now) }
{
    if !has_blocks(graph, v, row) {
        return Ok(List::new(alloc));
    }
    Ok(List::from_vec(vec![in alloc; None; row.parallelism as usize]?))
}

fn has_blocks(graph: &TaskGraph, v: usize, row: &VertexRow) -> bool
    ensures { result ≡ spec.has_blocks graph.now v row.now }
{
    is_in(v, blocks_of(graph, row.stage as usize))
}

fn is_in(number: usize, numbers: &[u32]) -> bool
    ensures { result ≡ is_in number numbers.now }
{
    numbers.iter().any(|other| *other as usize == number)
}

fn fresh_cuts(alloc: Global, graph: &TaskGraph) -> Result<Vec<CutsRow>, NoMemory>
    requires { is_sound graph.now ≡ true }
    ensures { IfOk result (λ cuts. cuts.items ≡ map spec.fresh_cuts graph.now.vertices) }
{
    let mut cuts = Vec::new(alloc);
    for row in graph.vertices.as_slice() {
        cuts.push(CutsRow {
            cuts: Cuts::even(row.parallelism),
            decided: false,
        })?;
    }
    Ok(cuts)
}
