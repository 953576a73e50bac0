ghost use Rattle.nemo_laws.specs.SoloLaws.{SoloLaws};

/// Every run on one thread is legal and made of holds, and gives no attempt back; two that end are one.
pub fn solo_laws()
    ensures { SoloLaws }
{}
