ghost use Rattle.nemo_laws.specs.History.{HistoryLaw};

/// Every legal log of a valid DAG that ends in Finish has written what the flat job gives its sinks, each of their blocks
/// from one commit, and no fault of the job reaches a sink; the fault of one that ends in a fault is such a fault.
pub fn history_law()
    ensures { HistoryLaw }
{}
