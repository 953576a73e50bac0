ghost use Rattle.nemo_laws.specs.Recomputation.{RecomputationLaw};

/// Along every legal log, each block that is held is the part of its task under the present cuts, without a fault, and
/// each attempt that runs gives the parts of its task: so what is computed again is what was lost.
pub fn recomputation_law()
    ensures { RecomputationLaw }
{}
