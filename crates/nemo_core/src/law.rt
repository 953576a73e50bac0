ghost use Rattle.nemo_core.specs.Laws.{ProgressLaw, ReadyLaw, StatesLaw, StayingLaw};

/// What the state of each run keeps: the lengths of its tables, where attempts run and blocks lie, and its counts.
pub fn states_law()
    ensures { StatesLaw }
{}

/// A launch is allowed exactly where the run goes on, the task is ready, and the slot is there and fits its class.
pub fn ready_law()
    ensures { ReadyLaw }
{}

/// A block that is held stays so, but where its slot is evicted or it is dropped. A block of a sink stays for good, and
/// one on a reserved slot until it is dropped.
pub fn staying_law()
    ensures { StayingLaw }
{}

/// A run is never stuck: where it goes on and no attempt runs, a launch, a decision or an end is allowed.
pub fn progress_law()
    ensures { ProgressLaw }
{}
