//! Policies: the compile-time passes that a job goes through.
#![tactic(auto)]

mod parallelism;
mod patterns;
mod policy;

pub use policy::apply_policy;
