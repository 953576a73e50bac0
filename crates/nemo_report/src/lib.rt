//! The lines in which the rows of sinks and a fault are printed.
#![tactic(auto)]

mod faults;
mod lines;
mod sinks;

pub use faults::fault_line;
pub use sinks::sink_text;
