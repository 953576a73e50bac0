//! Transforms: what a vertex does to its rows.
#![tactic(auto)]

mod applying;
mod counting;
mod fault;
mod grouping;
mod joining;
mod laws;
mod lines;
mod rowwise;
mod shape;
mod transform;

pub use applying::{Applied, Given, apply, transformed};
pub use counting::ports;
pub use fault::{Fault, Located, earlier, first_own};
pub use laws::{key_law, order_law, row_law, task_law};
pub use lines::{Passed, all_through};
pub use shape::{PortKind, Ports};
pub use transform::{Folding, Output, Transform};
