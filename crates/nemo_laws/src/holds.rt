ghost use Rattle.nemo_laws.specs.HoldLaws.{HoldLaws};

/// What holds of logs that are made of holds: which events of the script they have, that the drops of a hold are allowed one
/// after another, and that each launch is of a needed task.
pub fn hold_laws()
    ensures { HoldLaws }
{}
