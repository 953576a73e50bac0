ghost use Rattle.nemo_plan.specs.Cut.{StagesLaw};
ghost use Rattle.nemo_plan.specs.Over.{OverLaw};
ghost use Rattle.nemo_plan.specs.Rank.{RankLaw};
ghost use Rattle.nemo_plan.specs.Reach.{ReachLaw};
ghost use Rattle.nemo_plan.specs.Wiring.{GraphLaw};

/// As many steps as there are vertices with a stage reach every stage that can be reached along edges.
pub fn reach_law()
    ensures { ReachLaw }
{}

/// A valid DAG is cut into stages of one class and one parallelism each, which wait for one another in no circle.
pub fn stages_law()
    ensures { StagesLaw }
{}

/// The rank of a stage is 0 where it reads nothing, and else one more than the greatest rank that it reads.
pub fn rank_law()
    ensures { RankLaw }
{}

/// The graph of a valid DAG is sound, and keeps what leads where in the DAG.
pub fn graph_law()
    ensures { GraphLaw }
{}

/// A task that is told all that it reads of other stages gives its part at each vertex of its own stage.
pub fn over_law()
    ensures { OverLaw }
{}
