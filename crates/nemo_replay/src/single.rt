ghost use Rattle.std.specs.Prelude.{◌≡◌, ◌<◌, ◌≤◌, ◌+◌, ◌++◌, ◌∷◌, [], true, Some, IsSome, length, IfOk, OnOk};
ghost use Rattle.std.specs.List.{flat_map};
ghost use Rattle.nemo_core.specs.State.{start_machine};
ghost use Rattle.nemo_core.specs.declared.event.Outcome.{Outcome};
ghost use Rattle.nemo_ir.specs.Meaning.{flat_faults, flat_rows};
ghost use Rattle.nemo_ir.specs.Along.{below};
ghost use Rattle.nemo_ir.specs.Line.{IsLine};
ghost use Rattle.nemo_ir.specs.Uniform.{first_tasks, is_uniform};
ghost use Rattle.nemo_laws.specs.Done.{IsDoneRun};
ghost use Rattle.nemo_laws.specs.Solo.{SoloRun};
ghost use Rattle.nemo_laws.specs.Written.{written};
ghost use Rattle.nemo_plan.specs.Form.{graph};
ghost use Rattle.nemo_value.specs.Order.{record_cmp};
ghost use Rattle.nemo_value.specs.Sorting.{sorted};
ghost use Rattle.nemo_replay.specs.EndSink.{end_name, one_sink};
ghost use Rattle.nemo_replay.specs.StageRun.{IsOneStage, task_rows, tasks_in, turn, turns};
ghost use Rattle.nemo_replay.specs.StageStates.{ready_core};

use crate::compute::run_task;
use crate::turn::{Run, keeps, launch, slot_of, take};
use nemo_base::{ScriptLine, Settings};
use nemo_core::{Core, Event, Outcome};
use nemo_ir::{FlatJob, IrDag};
use nemo_plan::Plan;
use nemo_transform::Transform;
use nemo_value::{List, Name, NoMemory, Record, SinkRows, TryCopy, sort_records};
use std::alloc::Global;

/// How a run ended: its history, and, where it is done, its sinks by name, each with its rows in order.
#[derive(Drop)]
pub struct RunEnd {
    pub outcome: Outcome,
    pub log: List<Event>,
    pub sinks: List<SinkRows>,
}

/// Runs a plan on one thread. Each turn launches the least task that may be launched, on the slot at the place of the
/// launches so far among the slots that it fits on, computes it and commits it, until every block of the sinks is held.
/// The history is a function of the plan and the settings. For now the flat job is a line of which no fault reaches a
/// sink, the DAG is uniform, and the script is empty.
pub fn solo(
    alloc: Global,
    plan: &Plan,
    settings: Settings,
    script: List<ScriptLine>,
) -> Result<RunEnd, NoMemory>
    requires line { IsLine plan.now.flat }
    requires uniform { is_uniform plan.now.dag ≡ true }
    requires faultless { flat_faults plan.now.flat ≡ [] }
    requires script { script ≡ [] }
    ensures run { IfOk result (λ end. IsDoneRun plan.now settings [] end.log) }
    ensures outcome { IfOk result (λ end. end.outcome ≡ Outcome.Done) }
    ensures turns { IfOk result (λ end. SoloRun plan.now settings [] end.log) }
    ensures committed { IfOk result (λ end. end.sinks ≡ written plan.now settings end.log) }
    ensures sinks { IfOk result (λ end. end.sinks ≡ flat_rows plan.now.flat) }
{
    drop(script);
    let mut run = begin(alloc, plan, settings)?;
    let sinks = run_on(alloc, plan, settings, &mut run)?;
    let Run { core, log } = run;
    Ok(RunEnd {
        outcome: core.outcome(),
        log: List::from_vec(log),
        sinks,
    })
}

/// A run of which nothing has happened.
fn begin(alloc: Global, plan: &Plan, settings: Settings) -> Result<Run, NoMemory>
    ensures core { IfOk result (λ run. run.core ≡ start_machine (graph plan.now) settings) }
    ensures log { IfOk result (λ run. run.log.items ≡ []) }
{
    let core = Core::start(alloc, plan.graph(), settings)?;
    Ok(Run {
        core,
        log: Vec::new(alloc),
    })
}

/// Runs to the end, and gives the sinks.
fn run_on(
    alloc: Global,
    plan: &Plan,
    settings: Settings,
    run: &mut Run,
) -> Result<List<SinkRows>, NoMemory>
    requires line { IsLine plan.now.flat }
    requires uniform { is_uniform plan.now.dag ≡ true }
    requires faultless { flat_faults plan.now.flat ≡ [] }
    requires start { run.old.core ≡ start_machine (graph plan.now) settings }
    requires empty { run.old.log.items ≡ [] }
    ensures run { OnOk result (IsDoneRun plan.now settings [] run.new.log.items) }
    ensures outcome { OnOk result (run.new.core.state.outcome ≡ Outcome.Done) }
    ensures turns { OnOk result (SoloRun plan.now settings [] run.new.log.items) }
    ensures committed { IfOk result (λ sinks. sinks ≡ written plan.now settings run.new.log.items) }
    ensures sinks { IfOk result (λ sinks. sinks ≡ flat_rows plan.now.flat) }
{
    keeps(settings);
    let flat = plan.flat();
    let tasks = task_count(plan.dag());
    let rows = run_all(alloc, plan, tasks, settings, run)?;
    take(run, Event::Finish)?;
    end_sink(alloc, flat, rows)
}

/// The sink that the last vertex is, with its rows in order.
fn end_sink(alloc: Global, flat: &FlatJob, rows: Vec<Record>) -> Result<List<SinkRows>, NoMemory>
    requires { IsSome (end_name flat.now) }
    ensures { IfOk result (λ sinks. Some sinks ≡ one_sink flat.now rows.items) }
{
    let rows = sort_records(alloc, List::from_vec(rows))?;
    let name = name_of_end(flat).copy(alloc)?;
    let mut sinks = List::new(alloc);
    sinks.push(SinkRows { name, rows })?;
    Ok(sinks)
}

/// The name of the sink that the last vertex is.
fn name_of_end(flat: &FlatJob) -> &Name
    requires { IsSome (end_name flat.now) }
    ensures { Some result.now ≡ end_name flat.now }
{
    let Some(last) = flat.vertices.as_slice().last() else {
        unreachable!();
    };
    let Some(Transform::Sink { name }) = flat.transforms.get(last.transform as usize) else {
        unreachable!();
    };
    name
}

/// How many tasks the one stage of a uniform DAG has.
fn task_count(dag: &IrDag) -> u32
    requires { 1 ≤ length dag.now.vertices }
    ensures { result ≡ first_tasks dag.now.vertices }
{
    dag.vertices.as_slice()[0].parallelism
}

/// Runs the tasks one after another, and gives the rows that they give to the sink.
fn run_all(
    alloc: Global,
    plan: &Plan,
    tasks: u32,
    settings: Settings,
    run: &mut Run,
) -> Result<Vec<Record>, NoMemory>
    requires plan { IsOneStage plan.now }
    requires tasks { tasks ≡ tasks_in plan.now }
    requires start { run.old.core ≡ ready_core plan.now settings 0 }
    requires empty { run.old.log.items ≡ [] }
    ensures core { OnOk result (run.new.core ≡ ready_core plan.now settings (tasks_in plan.now)) }
    ensures log { OnOk result (run.new.log.items ≡ turns settings (tasks_in plan.now)) }
    ensures rows { IfOk result (λ rows. rows.items ≡ flat_map (λ i. task_rows plan.now.flat (tasks_in plan.now) i plan.now.flat.vertices []) (below (tasks_in plan.now))) }
{
    let mut rows = Vec::new(alloc);
    for task in 0..tasks {
        let mut part = take_turn(alloc, plan, tasks, settings, run, task)?;
        rows.append(&mut part)?;
    }
    Ok(rows)
}

/// Launches the task, computes it and commits it.
fn take_turn(
    alloc: Global,
    plan: &Plan,
    tasks: u32,
    settings: Settings,
    run: &mut Run,
    task: u32,
) -> Result<Vec<Record>, NoMemory>
    requires plan { IsOneStage plan.now }
    requires tasks { tasks ≡ tasks_in plan.now }
    requires within { task < tasks_in plan.now }
    requires ready { run.old.core ≡ ready_core plan.now settings task }
    ensures core { OnOk result (run.new.core ≡ ready_core plan.now settings (task + 1)) }
    ensures log { OnOk result (run.new.log.items ≡ run.old.log.items ++ turn settings task) }
    ensures rows { IfOk result (λ rows. rows.items ≡ task_rows plan.now.flat (tasks_in plan.now) task plan.now.flat.vertices []) }
{
    keeps(settings);
    let launched = launch(run, slot_of(settings, task))?;
    let rows = run_task(alloc, plan.flat(), launched.index, tasks)?;
    let attempt = u64::from(task);
    take(run, Event::Commit { attempt })?;
    Ok(rows)
}
