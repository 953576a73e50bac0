//! Placement: the class of machines that the tasks of each vertex of a DAG run on.
#![tactic(auto)]

mod classes;
mod runs;
#[cfg(test)]
mod tests;

pub use classes::pado_classes;
