//! Flat jobs, and the DAGs that are proposed for them.
#![tactic(auto)]

mod clause;
mod dag;
mod flat;
mod index;
mod law;
mod part;

pub use clause::Clause;
pub use dag::{IrDag, IrEdge, IrVertex, VertexKind};
pub use flat::{FlatJob, FlatVertex};
pub use index::DagIndex;
pub use law::{rewrite_law, split_law};
pub use part::{hash_part, source_part, spread_part};
