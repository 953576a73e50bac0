//! Jobs: named vertices over one another, and what they mean.
#![tactic(auto)]

mod chain;
mod copies;
mod evaluate;
mod held;
mod job;
mod names;
mod paths;
mod readers;
mod refusals;
mod scope;
mod site;
mod unrolling;
mod vertex;

pub use chain::is_chain;
pub use copies::Node;
pub use evaluate::{JobEnd, eval_job};
pub use job::{Job, JobRefused};
pub use readers::last_readers;
pub use unrolling::unroll;
pub use vertex::{JobVertex, Ref, Work};
