//! Plans: the stages that a DAG is cut into, and the graph of their tasks.
#![tactic(auto)]

mod ahead;
mod cut;
mod graph;
mod joins;
mod law;
mod plan;
mod ranking;
mod reading;
mod rows;

pub use law::{graph_law, over_law, rank_law, reach_law, stages_law};
pub use plan::Plan;
