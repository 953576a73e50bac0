//! Reading what a vertex of a job has from JSON values: records, expressions, transforms and references.
#![tactic(auto)]

mod call;
mod end;
mod expression;
mod field;
mod head;
mod number;
mod operation;
mod read;
mod reference;
mod take;
mod transform;

pub use call::{Call, is_word};
pub use end::PartEnd;
pub use head::{Form, Head, LoopForm, read_head};
pub use number::read_ranged;
pub use read::{FromJson, read_member};
pub use take::take_member;
