//! The compile-time passes that annotate a DAG: they set the parallelism of its vertices, and the pattern, the flow and
//! the keep of its edges. None takes memory.
#![tactic(auto)]

mod flow;
mod keep;
mod parallelism;
mod patterns;
#[cfg(test)]
mod tests;

pub use flow::set_flow;
pub use keep::set_keep;
pub use parallelism::set_parallelism;
pub use patterns::set_patterns;
