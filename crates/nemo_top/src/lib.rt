//! The top call: a command from its words and its source to its sink.
#![tactic(auto)]

mod check;
mod dags;
mod eval;
mod parse;
mod plain;
mod reach;
mod reached;
mod serving;
mod solo;
mod status;
mod texts;
mod word;

pub use plain::nemo_plain;
pub use status::{Ended, Status};
pub use word::Word;
