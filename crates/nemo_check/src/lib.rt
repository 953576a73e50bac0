//! The checker: which proposed DAGs compute a flat job.
#![tactic(auto)]

mod candidate;
mod checker;
mod edges;
mod producers;
mod reps;
mod tables;
mod vertices;

pub use checker::{CheckEnd, check};
