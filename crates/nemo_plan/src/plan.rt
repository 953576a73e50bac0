ghost use Rattle.std.specs.Prelude.{◌≡◌, ◌<◌, true, IfOk};
ghost use Rattle.nemo_base.specs.Sound.{is_sound};
ghost use Rattle.nemo_ir.specs.Flat.{IsFlat};
ghost use Rattle.nemo_ir.specs.Rewrites.{Computes, IsLocal};
ghost use Rattle.nemo_ir.specs.Valid.{Valid};
ghost use Rattle.nemo_plan.specs.Form as form;
ghost use Rattle.nemo_plan.specs.Graph.{graph_of, vertices_of};
ghost use Rattle.nemo_plan.specs.Kept.{stage_lists};
ghost use Rattle.nemo_plan.specs.Stages.{count_stages, stages_of};

use crate::cut::{Making, cut};
use crate::graph::graph;
use nemo_base::TaskGraph;
use nemo_ir::{DagIndex, FlatJob, IrDag};
use nemo_value::{List, NoMemory};
use std::alloc::Global;
use std::marker::Model;

/// A flat job and a valid DAG that computes it, with the stages that the DAG is cut into and the graph of their tasks.
/// Contracts see the flat job and the DAG.
#[derive(Drop)]
pub struct Plan {
    flat: FlatJob,
    dag: IrDag,
    stages: List<List<u32>>,
    graph: TaskGraph,
}

impl Model for Plan {
    ghost use Rattle.std.specs.Coded.{codes};
    ghost use Rattle.nemo_value.specs.contracts.expr.Expr as expr;
    ghost use Rattle.nemo_plan.specs.Form.{PlanForm};
    ghost use Rattle.nemo_plan.specs.Kept.{IsPlan};

    ghost Value = { PlanForm };

    ghost coded = { Prim.hlevel (codes, expr.the_row.coded) };

    ghost view = { λ p. record { flat = p.flat; dag = p.dag } };

    ghost invariant = { λ p. IsPlan p.flat p.dag p.stages p.graph };
}

impl Plan {
    /// The plan of a valid DAG. Its time is close to linear in the vertices and edges.
    pub fn new(alloc: Global, flat: FlatJob, dag: IrDag) -> Result<Plan, NoMemory>
        requires valid { Valid flat dag }
        ensures plan { IfOk result (λ p. p ≡ record { flat = flat; dag = dag }) }
        ensures computes { IfOk result (λ p. Computes p.flat p.dag) }
        ensures local { IfOk result (λ p. IsLocal p.flat p.dag) }
    {
        let (stages, graph) = staged(alloc, &flat, &dag)?;
        Ok(Plan {
            flat,
            dag,
            stages,
            graph,
        })
    }

    /// The graph of the plan's tasks. It is sound.
    pub fn graph(&self) -> &TaskGraph
        ensures graph { result.now ≡ form.graph self.now }
        ensures sound { is_sound result.now ≡ true }
    {
        &self.graph
    }

    pub fn flat(&self) -> &FlatJob
        ensures flat { result.now ≡ self.now.flat }
        ensures keeps { IsFlat self.now.flat }
    {
        &self.flat
    }

    pub fn dag(&self) -> &IrDag
        ensures dag { result.now ≡ self.now.dag }
        ensures valid { Valid self.now.flat self.now.dag }
    {
        &self.dag
    }

    /// The vertices of a stage, in order.
    pub fn stage(&self, number: u32) -> &List<u32>
        requires { number < count_stages (stages_of self.now.flat self.now.dag) }
        ensures { result.now ≡ vertices_of (stages_of self.now.flat self.now.dag) number }
    {
        &self.stages.as_slice()[number as usize]
    }
}

/// The vertices of each stage of a valid DAG, and the graph.
fn staged(
    alloc: Global,
    flat: &FlatJob,
    dag: &IrDag,
) -> Result<(List<List<u32>>, TaskGraph), NoMemory>
    requires { Valid flat.now dag.now }
    ensures stages { IfOk result (λ both. both.0 ≡ stage_lists flat.now dag.now) }
    ensures graph { IfOk result (λ both. both.1 ≡ graph_of flat.now dag.now) }
{
    let index = DagIndex::new(alloc, dag)?;
    let made = cut(alloc, flat, &index)?;
    let graph = graph(alloc, flat, &index, &made)?;
    let Making { members, .. } = made;
    Ok((List::from_vec(members), graph))
}
