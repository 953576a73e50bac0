//! The flat job of a job, and its first DAG.
#![tactic(auto)]

mod copies;
mod counting;
mod first;
mod keeping;
mod law;
mod table;

pub use copies::{FlattenRefused, check_copies, flat_vertices, flatten};
pub use first::first_dag;
pub use law::flat_law;
