ghost use Rattle.std.specs.Prelude.{◌≡◌, ◌<◌, ◌^◌, ◌++◌, ◌∷◌, [], true, Some, None, IsSome, IfOk, OnOk};
ghost use Rattle.nemo_base.specs.Settings.{AreInRange};
ghost use Rattle.nemo_core.specs.Reading.{launch_of, launchable};
ghost use Rattle.nemo_core.specs.Run.{refusal_in, stepped};
ghost use Rattle.nemo_core.specs.Step.{is_built};
ghost use Rattle.nemo_replay.specs.StageRun as spec;

use nemo_base::{Settings, TaskId};
use nemo_core::{Core, Event, LaunchRefused};
use nemo_value::NoMemory;

/// The slot of a launch: of the slots that transient tasks fit on, which are the reserved ones where none is transient,
/// the one at the place of the launches so far, modulo their number.
pub(crate) fn slot_of(settings: Settings, launches: u32) -> u32
    ensures { result ≡ spec.slot_of settings launches }
{
    keeps(settings);
    if settings.transient == 0 {
        launches % settings.reserved
    } else {
        settings.reserved + launches % settings.transient
    }
}

/// What the type of settings says of them.
pub(crate) fn keeps(settings: Settings)
    ensures { AreInRange settings }
{
    let _reserved = settings.reserved;
}

/// A run so far: the state that it is in, and its history.
#[derive(Drop)]
pub(crate) struct Run {
    pub(crate) core: Core,
    pub(crate) log: Vec<Event>,
}

/// Launches the least task that may be launched on the slot.
pub(crate) fn launch(run: &mut Run, slot: u32) -> Result<TaskId, NoMemory>
    requires some { IsSome (launchable run.old.core slot) }
    requires room { run.old.core.taken < 2 ^ 63 }
    ensures task { IfOk result (λ task. launchable run.old.core slot ≡ Some task) }
    ensures core { IfOk result (λ task. run.new.core ≡ stepped run.old.core (launch_of run.old.core task slot)) }
    ensures log { IfOk result (λ task. run.new.log.items ≡ run.old.log.items ++ launch_of run.old.core task slot ∷ []) }
{
    let Some(task) = run.core.launchable(slot) else {
        unreachable!();
    };
    match run.core.launch_event(task, slot) {
        Ok(event) => take(run, event)?,
        Err(LaunchRefused::NoMemory) => return Err(NoMemory),
        Err(LaunchRefused::Refused(_)) => unreachable!(),
    }
    Ok(task)
}

/// Takes an event that is allowed, and logs it.
pub(crate) fn take(run: &mut Run, event: Event) -> Result<(), NoMemory>
    requires built { is_built event ≡ true }
    requires allowed { refusal_in run.old.core event ≡ None }
    requires room { run.old.core.taken < 2 ^ 63 }
    ensures core { OnOk result (run.new.core ≡ stepped run.old.core event) }
    ensures log { OnOk result (run.new.log.items ≡ run.old.log.items ++ event ∷ []) }
{
    let Ok(()) = run.core.step(&event) else {
        unreachable!();
    };
    run.log.push(event)?;
    Ok(())
}
