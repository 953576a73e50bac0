ghost use Rattle.std.specs.Prelude.{◌≡◌, ◌<◌, ◌≤◌, ◌==◌, ◌&&◌, ◌||◌, not, ℕ, Some, filter, length, map, slice_get, IfOk};
ghost use Rattle.std.specs.List.{filter_map, list_all, list_any};
ghost use Rattle.nemo_transform.specs.Sinks as sinks;
ghost use Rattle.nemo_ir.specs.Along.{below, passes};
ghost use Rattle.nemo_ir.specs.Nodes.{edge_at};
ghost use Rattle.nemo_ir.specs.Uniform as annotation;
ghost use Rattle.nemo_ir.specs.Valid as kinds;
ghost use Rattle.nemo_plan.specs.Graph as spec;
ghost use Rattle.nemo_plan.specs.Stages.{in_edges};

use crate::reading::leaves;
use nemo_base::{Flow, Home, Keep, Pattern, VertexRow};
use nemo_ir::{DagIndex, FlatJob, IrEdge, IrVertex, VertexKind};
use nemo_transform::Transform;
use nemo_value::{List, NoMemory};
use std::alloc::Global;

/// The row of a vertex.
#[tactic(auto, using(crate::proofs::Walks::both_filtered))]
pub(crate) fn vertex_row(
    alloc: Global,
    flat: &FlatJob,
    index: &DagIndex<'_>,
    stages: &[u32],
    v: usize,
    u: &IrVertex,
) -> Result<VertexRow, NoMemory>
    requires vertex { v < length index.now.vertices }
    requires staged { v < length stages.now }
    ensures { IfOk result (λ row. row ≡ spec.vertex_row flat.now index.now stages.now v u.now) }
{
    let triggers = triggers(alloc, index, v, u.port_count(flat.transforms.as_slice()))?;
    let out = index.out_edges(v);
    Ok(VertexRow {
        stage: stages[v],
        parallelism: u.parallelism,
        hashed: any_hash(index.in_edges(v)),
        triggers,
        home: home(flat, stages, u, out),
        discard: !is_sink(flat, u) && none_kept(stages, out),
    })
}

/// The Triggers that feed a vertex, port by port.
fn triggers(
    alloc: Global,
    index: &DagIndex<'_>,
    v: usize,
    ports: u32,
) -> Result<List<u32>, NoMemory>
    requires { v < length index.now.vertices }
    ensures { IfOk result (λ all. all ≡ filter_map (λ port. spec.trigger_along index.now (edge_at index.now.edges v port)) (below ports)) }
{
    let mut all = List::new(alloc);
    for port in 0..ports {
        if let Some(trigger) = trigger_at(index, v, port as usize) {
            all.push(trigger)?;
        }
    }
    Ok(all)
}

/// The Trigger that feeds a port, if one does.
fn trigger_at(index: &DagIndex<'_>, v: usize, port: usize) -> Option<u32>
    requires { v < length index.now.vertices }
    ensures { result ≡ spec.trigger_along index.now (edge_at index.now.edges v port) }
{
    let e = index.in_edge(v, port)?;
    if is_trigger(index, e.from) {
        Some(e.from)
    } else {
        None
    }
}

fn is_trigger(index: &DagIndex<'_>, v: u32) -> bool
    ensures { result ≡ passes (λ u. kinds.is_trigger u.kind) (slice_get index.now.vertices v) }
{
    match index.dag().vertices.get(v as usize) {
        Some(u) => match u.kind {
            VertexKind::Trigger => true,
            VertexKind::Op(_) | VertexKind::Relay => false,
        },
        None => false,
    }
}

/// Where the blocks of a vertex lie: with the master where it is a sink, and pushed where an edge along which they are
/// pushed leaves the stage.
fn home(flat: &FlatJob, stages: &[u32], u: &IrVertex, out: &[IrEdge]) -> Home
    ensures { result ≡ spec.home_of flat.now u.now (filter (spec.leaves stages.now) out.now) }
{
    if is_sink(flat, u) {
        Home::Master
    } else if any_pushed(stages, out) {
        Home::Pushed
    } else {
        Home::Local
    }
}

/// Whether a vertex has blocks: it is a sink or an edge leaves its stage.
pub(crate) fn has_blocks(flat: &FlatJob, stages: &[u32], u: &IrVertex, out: &[IrEdge]) -> bool
    ensures { result ≡ (spec.is_sink_vertex flat.now u.now || spec.is_any (filter (spec.leaves stages.now) out.now)) }
{
    is_sink(flat, u) || any_leaves(stages, out)
}

/// Whether an edge leaves the stage.
fn any_leaves(stages: &[u32], out: &[IrEdge]) -> bool
    ensures { result ≡ list_any (spec.leaves stages.now) out.now }
{
    out.iter().any(|e| leaves(stages, e))
}

pub(crate) fn is_sink(flat: &FlatJob, u: &IrVertex) -> bool
    ensures { result ≡ spec.is_sink_vertex flat.now u.now }
{
    match u.kind {
        VertexKind::Op(number) => match flat.transforms.get(number as usize) {
            Some(transform) => does_sink(transform),
            None => false,
        },
        VertexKind::Relay | VertexKind::Trigger => false,
    }
}

fn does_sink(transform: &Transform) -> bool
    ensures { result ≡ sinks.does_sink transform.now }
{
    matches!(transform, Transform::Sink { .. })
}

/// Whether a pushed edge leaves the stage.
fn any_pushed(stages: &[u32], out: &[IrEdge]) -> bool
    ensures { result ≡ list_any (λ e. spec.leaves stages.now e && not (annotation.is_pull e.flow)) out.now }
{
    out.iter().any(|e| leaves(stages, e) && is_pushed(e.flow))
}

/// Whether no edge that leaves the stage keeps the blocks.
fn none_kept(stages: &[u32], out: &[IrEdge]) -> bool
    ensures { result ≡ list_all (λ e. not (spec.leaves stages.now e) || not (annotation.is_kept e.keep)) out.now }
{
    out.iter().all(|e| !leaves(stages, e) || !is_kept(e.keep))
}

fn any_hash(edges: &[IrEdge]) -> bool
    ensures { result ≡ list_any (λ e. kinds.is_hash e.pattern) edges.now }
{
    edges.iter().any(|e| is_hash(e.pattern))
}

fn is_hash(pattern: Pattern) -> bool
    ensures { result ≡ kinds.is_hash pattern }
{
    match pattern {
        Pattern::Hash => true,
        Pattern::OneToOne | Pattern::Broadcast | Pattern::Spread => false,
    }
}

fn is_pushed(flow: Flow) -> bool
    ensures { result ≡ not (annotation.is_pull flow) }
{
    match flow {
        Flow::Push => true,
        Flow::Pull => false,
    }
}

fn is_kept(keep: Keep) -> bool
    ensures { result ≡ annotation.is_kept keep }
{
    match keep {
        Keep::Keep => true,
        Keep::Discard => false,
    }
}
