ghost use Rattle.std.specs.Prelude.{◌≡◌, ◌<◌, ◌==◌, [], filter, length, map, IfOk, OnOk};
ghost use Rattle.nemo_ir.specs.Along.{below};
ghost use Rattle.nemo_ir.specs.Index as spec;
ghost use Rattle.std.specs.List.{find};

use crate::dag::{IrDag, IrEdge};
use nemo_value::{List, NoMemory};
use std::alloc::Global;
use std::marker::Model;

/// The end of an edge by which it is found.
#[derive(Clone, Copy)]
pub(crate) enum End {
    From,
    To,
}

/// A DAG with the edges of each vertex at hand, in the order of the DAG's list. Contracts see the DAG.
#[derive(Drop)]
pub struct DagIndex<'a> {
    dag: &'a IrDag,
    ins: Vec<List<IrEdge>>,
    outs: Vec<List<IrEdge>>,
}

impl<'a> Model for DagIndex<'a> {
    ghost use Rattle.nemo_ir.specs.Index.{Indexes};
    ghost use Rattle.nemo_ir.specs.declared.dag.IrDag.{IrDag as Dag};

    ghost Value = { Dag };

    ghost view = { λ x. x.dag.now };

    ghost invariant = { λ x. Indexes x.dag.now x.ins.items x.outs.items };
}

impl<'a> DagIndex<'a> {
    ghost use Rattle.nemo_ir.specs.Nodes.{edge_at};

    /// Its time is linear in the vertices and edges. An edge to or from a vertex that isn't there is left out.
    pub fn new(alloc: Global, dag: &'a IrDag) -> Result<DagIndex<'a>, NoMemory>
        ensures { IfOk result (λ index. index ≡ dag.now) }
    {
        let ins = edge_lists(alloc, dag, End::To)?;
        let outs = edge_lists(alloc, dag, End::From)?;
        Ok(DagIndex { dag, ins, outs })
    }

    pub fn dag(&self) -> &'a IrDag
        ensures { result.now ≡ self.now }
    {
        self.dag
    }

    /// The edges that lead to a vertex.
    #[tactic(auto, using(crate::proofs::Tables::edge_lists_long, crate::proofs::Tables::edge_lists_at))]
    pub fn in_edges(&self, v: usize) -> &[IrEdge]
        requires { v < length self.now.vertices }
        ensures { result.now ≡ filter (λ e. e.to == v) self.now.edges }
    {
        self.ins[v].as_slice()
    }

    /// The edges that lead from a vertex.
    #[tactic(auto, using(crate::proofs::Tables::edge_lists_long, crate::proofs::Tables::edge_lists_at))]
    pub fn out_edges(&self, v: usize) -> &[IrEdge]
        requires { v < length self.now.vertices }
        ensures { result.now ≡ filter (λ e. e.from == v) self.now.edges }
    {
        self.outs[v].as_slice()
    }

    /// The first edge that leads to a port of a vertex.
    pub fn in_edge(&self, v: usize, port: usize) -> Option<IrEdge>
        requires { v < length self.now.vertices }
        ensures { result ≡ edge_at self.now.edges v port }
    {
        into_port(self.in_edges(v), port)
    }
}

/// The edges of each vertex that have it at this end.
fn edge_lists(alloc: Global, dag: &IrDag, end: End) -> Result<Vec<List<IrEdge>>, NoMemory>
    ensures { IfOk result (λ lists. lists.items ≡ spec.edge_lists end (length dag.now.vertices) dag.now.edges) }
{
    let mut lists = empty_lists(alloc, dag.vertices.len())?;
    for e in dag.edges.as_slice() {
        put(&mut lists, end_of(end, e), *e)?;
    }
    Ok(lists)
}

/// The first of some edges that leads to a port.
fn into_port(edges: &[IrEdge], port: usize) -> Option<IrEdge>
    ensures { result ≡ find (λ e. e.port == port) edges.now }
{
    for e in edges {
        if e.port as usize == port {
            return Some(*e);
        }
    }
    None
}

fn end_of(end: End, e: &IrEdge) -> u32
    ensures { result ≡ spec.end_of end e.now }
{
    match end {
        End::From => e.from,
        End::To => e.to,
    }
}

fn empty_lists(alloc: Global, count: usize) -> Result<Vec<List<IrEdge>>, NoMemory>
    ensures { IfOk result (λ lists. lists.items ≡ map (λ v. []) (below count)) }
{
    let mut lists = Vec::with_capacity(alloc, count)?;
    for _ in 0..count {
        lists.push(List::new(alloc))?;
    }
    Ok(lists)
}

/// Puts an edge to the end of the list of a vertex, where there is one.
fn put(lists: &mut Vec<List<IrEdge>>, v: u32, e: IrEdge) -> Result<(), NoMemory>
    ensures { OnOk result (lists.new.items ≡ spec.with_edge lists.old.items v e) }
{
    if let Some(list) = lists.get_mut(v as usize) {
        list.push(e)?;
    }
    Ok(())
}
