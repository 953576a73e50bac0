ghost use Rattle.nemo_laws.specs.Losses.{LossesLaw};

/// After any log of steps, what the state keeps of a task's losses is the number of evictions in the log that ended an
/// attempt of the task or took a block of it.
pub fn losses_law()
    ensures { LossesLaw }
{}
