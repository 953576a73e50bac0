//! What plans, tasks and events are described by.
#![tactic(auto)]

mod annotation;
mod cuts;
mod graph;
mod id;
mod law;
pub mod limits;
mod moves;
mod need;
mod script;
mod settings;
mod soundness;
mod why;

pub use annotation::{Class, Flow, Keep, Pattern, Policy};
pub use cuts::{Cuts, CutsRefused};
pub use graph::{Home, Read, StageRow, TaskGraph, VertexRow};
pub use id::{BlockId, TaskId};
pub use law::bucket_law;
pub use moves::Move;
pub use need::need_law;
pub use script::{Action, ScriptLine};
pub use settings::Settings;
pub use why::Why;
