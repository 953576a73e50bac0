//! The state machine of a run: its events, which of them are steps, and the state that they leave.
#![tactic(auto)]

mod block;
mod event;
mod grid;
mod launching;
mod law;
mod machine;
mod needed;
mod reading;
mod refusal;
mod row;
mod task;

pub use event::{Event, HeldBy, LaunchRefused, Outcome, RunningAt};
pub use law::{progress_law, ready_law, states_law, staying_law};
pub use machine::Core;
pub use row::{Attempt, CutsRow, TaskRow};
