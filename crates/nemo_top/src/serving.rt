ghost use Rattle.std.specs.Prelude.{◌≡◌, IfOk};
ghost use Rattle.std.specs.List.{list_all};
ghost use Rattle.serde_json.specs.View.{view};
ghost use Rattle.nemo_bundle.specs.Answers.{Gives};
ghost use Rattle.nemo_bundle.specs.Read.{bundle_of};
ghost use Rattle.nemo_ir.specs.Uniform as uniform;
ghost use Rattle.nemo_bundle.specs.declared.end.BundleEnd.{BundleEnd};
ghost use Rattle.nemo_top.specs.Served.{HasDag, IsRunnable};
ghost use Rattle.nemo_top.specs.Served as spec;

use nemo_base::{Class, Flow, Keep, Pattern};
use nemo_bundle::{Bundle, BundleEnd, Given, read_bundle};
use nemo_ir::{IrDag, IrEdge, IrVertex, VertexKind};
use nemo_job::is_chain;
use serde_json::Value;
use std::alloc::Global;

/// The refusal of what isn't served yet.
const UNSERVED: BundleEnd = BundleEnd::Refused { code: 90, place: 0 };

/// The last of the codes that they tell.
const VERTEX_SHAPE: u32 = 2;

/// The bundle that a value stands for, where `check` and `solo` serve it: its job is a chain, and a DAG that it proposes
/// has Ops of one task. What has another refusal than codes 1 and 2 isn't served.
pub(crate) fn read_served(alloc: Global, value: Value) -> Result<Bundle, BundleEnd>
    ensures bundle { Gives result (spec.served (view value) (bundle_of (view value))) }
    ensures runnable { IfOk result IsRunnable }
{
    let given = Given::of(&value);
    match read_bundle(alloc, value) {
        Ok(bundle) => {
            if is_served(given, &bundle) {
                Ok(bundle)
            } else {
                Err(UNSERVED)
            }
        }
        Err(BundleEnd::Refused { code, place }) => Err(narrowed(code, place)),
        Err(BundleEnd::NoMemory) => Err(BundleEnd::NoMemory),
    }
}

/// A refusal of codes 1 and 2, or that of what isn't served.
fn narrowed(code: u32, place: u64) -> BundleEnd
    ensures { let refusal = spec.narrowed (record { code = code; place = place }) in result ≡ BundleEnd.Refused refusal.code refusal.place }
{
    if code > VERTEX_SHAPE {
        UNSERVED
    } else {
        BundleEnd::Refused { code, place }
    }
}

/// The bundle that `check` reads: any that proposes a DAG, and else one that is served.
pub(crate) fn read_checked(alloc: Global, value: Value) -> Result<Bundle, BundleEnd>
    ensures bundle { Gives result (spec.checked (view value) (bundle_of (view value))) }
    ensures dag { IfOk result HasDag }
{
    if Given::of(&value).dag {
        read_bundle(alloc, value)
    } else {
        read_served(alloc, value)
    }
}

/// Whether a bundle with these members is one of those.
fn is_served(given: Given, bundle: &Bundle) -> bool
    ensures { result ≡ spec.is_served given bundle.now }
{
    is_bare(given) && is_chain(&bundle.job) && is_single_if_any(&bundle.dag)
}

/// Whether no member but `dag` and `parallelism` says how the job is run.
fn is_bare(given: Given) -> bool
    ensures { result ≡ spec.is_bare given }
{
    !given.cluster && !given.policy && !given.settings && !given.script && !given.schedule
}

fn is_single_if_any(dag: &Option<IrDag>) -> bool
    ensures { result ≡ spec.is_single_if_any dag.now }
{
    match dag {
        Some(dag) => is_single(dag),
        None => true,
    }
}

/// Whether a DAG has Ops of one task on transient machines, each fed task by task by blocks that are fetched and kept.
fn is_single(dag: &IrDag) -> bool
    ensures { result ≡ spec.is_single dag.now }
{
    are_single_ops(dag.vertices.as_slice()) && are_uniform_edges(dag.edges.as_slice())
}

fn are_single_ops(vertices: &[IrVertex]) -> bool
    ensures { result ≡ list_all (uniform.is_uniform_op 1) vertices.now }
{
    vertices.iter().all(is_single_op)
}

fn are_uniform_edges(edges: &[IrEdge]) -> bool
    ensures { result ≡ list_all uniform.is_uniform_edge edges.now }
{
    edges.iter().all(is_uniform_edge)
}

fn is_single_op(u: &IrVertex) -> bool
    ensures { result ≡ uniform.is_uniform_op 1 u.now }
{
    matches!(u.kind, VertexKind::Op(_)) && matches!(u.class, Class::Transient) && u.parallelism == 1
}

fn is_uniform_edge(e: &IrEdge) -> bool
    ensures { result ≡ uniform.is_uniform_edge e.now }
{
    matches!(e.pattern, Pattern::OneToOne)
        && matches!(e.flow, Flow::Pull)
        && matches!(e.keep, Keep::Keep)
}
