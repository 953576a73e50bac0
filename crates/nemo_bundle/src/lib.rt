//! Reading a bundle from its JSON value.
#![tactic(auto)]

mod bundle;
mod choices;
mod dags;
mod end;
mod entries;
mod given;
mod schedules;
mod scripts;
mod walk;

pub use bundle::{Bundle, read_bundle, read_job};
pub use end::BundleEnd;
pub use given::Given;
