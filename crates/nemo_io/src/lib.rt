//! Where bytes come from and go to: reading to the end, and writing in order.
#![tactic(auto)]

mod memory;
mod sink;
mod source;
mod standard;
mod sure;

pub use memory::{MemorySink, MemorySource};
pub use sink::{Sink, write_all};
pub use source::{Failed, LIMIT, ReadRefused, Source, read_to_end};
pub use standard::{StdSink, StdSource};
pub use sure::{SureSink, SureSource};

#[cfg(test)]
mod tests;
