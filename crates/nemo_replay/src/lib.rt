//! Runs on one thread.
#![tactic(auto)]

mod compute;
mod single;
mod turn;

pub use single::{RunEnd, solo};
