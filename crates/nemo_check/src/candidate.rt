ghost use Rattle.std.specs.Prelude.{◌≡◌, ◌↔◌, IfOk, IsTrue};
ghost use Rattle.nemo_check.specs.Finds.{Finds, Judges};
ghost use Rattle.nemo_check.specs.Tables as table;
ghost use Rattle.nemo_ir.specs.Flat.{IsFlat};
ghost use Rattle.nemo_ir.specs.Nodes as nodes;
ghost use Rattle.nemo_ir.specs.Valid.{Meets, places};

use crate::edges::{is_counted, is_level, is_taken, rises};
use crate::producers::ops_behind;
use crate::reps::has_rep;
use crate::tables::standing;
use crate::vertices::{is_fed, is_rep, is_used, is_within};
use nemo_ir::{Clause, DagIndex, FlatJob, IrDag};
use nemo_value::NoMemory;
use std::alloc::Global;

/// A DAG that was proposed for a flat job, with what the clauses look up.
#[derive(Drop)]
pub(crate) struct Candidate<'a> {
    pub(crate) flat: &'a FlatJob,
    pub(crate) index: DagIndex<'a>,
    pub(crate) lookups: Lookups,
    ghost ops: { lookups.ops.items ≡ nodes.resolved index },
    ghost standing: { lookups.standing.items ≡ table.standing index },
}

/// What is looked up by vertex.
#[derive(Drop)]
pub(crate) struct Lookups {
    /// The Op behind it.
    pub(crate) ops: Vec<usize>,
    /// Whether it stands for a flat vertex.
    pub(crate) standing: Vec<bool>,
}

impl<'a> Candidate<'a> {
    pub(crate) fn new(
        alloc: Global,
        flat: &'a FlatJob,
        dag: &'a IrDag,
    ) -> Result<Candidate<'a>, NoMemory>
        ensures flat { IfOk result (λ c. c.flat.now ≡ flat.now) }
        ensures dag { IfOk result (λ c. c.index ≡ dag.now) }
        ensures kept { IsFlat flat.now }
    {
        let _ = &flat.vertices;
        let index = DagIndex::new(alloc, dag)?;
        let lookups = looked_up(alloc, &index)?;
        Ok(Candidate {
            flat,
            index,
            lookups,
        })
    }

    /// The first of some clauses that fails, with its least place.
    pub(crate) fn first_failure(&self, clauses: &[Clause]) -> Option<(Clause, usize)>
        ensures { Judges self.now.flat.now self.now.index clauses.now result }
    {
        for clause in clauses {
            if let Some(place) = self.first_failing(*clause) {
                return Some((*clause, place));
            }
        }
        None
    }

    /// The first place at which a clause isn't met.
    fn first_failing(&self, clause: Clause) -> Option<usize>
        ensures { Finds self.now.flat.now self.now.index clause result }
    {
        for place in 0..self.places(clause) {
            if !self.meets(clause, place) {
                return Some(place);
            }
        }
        None
    }

    /// How many places a clause looks at.
    fn places(&self, clause: Clause) -> usize
        ensures { result ≡ places self.now.flat.now self.now.index clause }
    {
        let (flat, dag) = (self.flat, self.index.dag());
        match clause {
            Clause::V1 | Clause::V6 | Clause::V7 | Clause::V8 => dag.edges.len(),
            Clause::V2 | Clause::V3 | Clause::V5 | Clause::V9 => dag.vertices.len(),
            Clause::V4 => flat.vertices.len() + 1,
        }
    }

    fn meets(&self, clause: Clause, place: usize) -> bool
        ensures { IsTrue result ↔ Meets self.now.flat.now self.now.index clause place }
    {
        let dag = self.index.dag();
        match clause {
            Clause::V1 => rises(dag, place),
            Clause::V2 => is_used(&self.index, place),
            Clause::V3 => is_fed(self.flat, &self.index, place),
            Clause::V4 => has_rep(self, place),
            Clause::V5 => is_rep(self, place),
            Clause::V6 => is_taken(self.flat, dag, place),
            Clause::V7 => is_level(dag, place),
            Clause::V8 => is_counted(dag, place),
            Clause::V9 => is_within(dag, place),
        }
    }
}

fn looked_up(alloc: Global, index: &DagIndex<'_>) -> Result<Lookups, NoMemory>
    ensures ops { IfOk result (λ l. l.ops.items ≡ nodes.resolved index.now) }
    ensures standing { IfOk result (λ l. l.standing.items ≡ table.standing index.now) }
{
    let ops = ops_behind(alloc, index)?;
    let standing = standing(alloc, index.dag())?;
    Ok(Lookups { ops, standing })
}
