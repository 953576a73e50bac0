//! What holds of whole runs.
#![tactic(auto)]

mod history;
mod holds;
mod losses;
mod recomputation;
mod solo;

pub use history::history_law;
pub use holds::hold_laws;
pub use losses::losses_law;
pub use recomputation::recomputation_law;
pub use solo::solo_laws;
