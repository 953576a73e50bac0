ghost use Rattle.std.specs.Prelude.{◌≡◌};
ghost use Rattle.std.specs.List.{list_all};
ghost use Rattle.nemo_job.specs.Chain as spec;

use crate::job::Job;
use crate::vertex::{JobVertex, Ref, Work};
use nemo_transform::Transform;
use nemo_value::{Expr, Name};

/// The most vertices of a chain.
const MAX_VERTICES: usize = 512;

/// Whether the job is a chain: 2 to 512 vertices, a source without inputs, then maps of first fields and constants, and
/// then a sink of its vertex's name, each fed by the one before it.
pub fn is_chain(job: &Job) -> bool
    ensures { result ≡ spec.is_chain job.now }
{
    is_linked(job.vertices().as_slice())
}

/// The same of vertices, whose names may be equal.
fn is_linked(vertices: &[JobVertex]) -> bool
    ensures { result ≡ spec.is_linked vertices.now }
{
    match vertices.split_first() {
        Some((first, others)) => {
            others.len() < MAX_VERTICES
                && is_source(&first.work)
                && first.inputs.is_empty()
                && are_linked(&first.name, others)
        }
        None => false,
    }
}

fn is_source(work: &Work) -> bool
    ensures { result ≡ spec.is_source work.now }
{
    matches!(work, Work::Op(Transform::Source { .. }))
}

fn is_map(work: &Work) -> bool
    ensures { result ≡ spec.is_map work.now }
{
    match work {
        Work::Op(Transform::Map { out }) => {
            1 <= out.len() && out.len() <= 16 && are_plain(out.as_slice())
        }
        _ => false,
    }
}

fn are_plain(exprs: &[Expr]) -> bool
    ensures { result ≡ list_all spec.is_plain exprs.now }
{
    exprs.iter().all(is_plain)
}

/// Whether the expression is the first field or a constant.
fn is_plain(expr: &Expr) -> bool
    ensures { result ≡ spec.is_plain expr.now }
{
    match expr {
        Expr::Get(place) => *place == 0,
        Expr::Const(_) => true,
        _ => false,
    }
}

fn is_end(name: &Name, work: &Work) -> bool
    ensures { result ≡ spec.is_end name.now work.now }
{
    match work {
        Work::Op(Transform::Sink { name: own }) => own.as_str() == name.as_str(),
        _ => false,
    }
}

fn follows(name: &Name, inputs: &[Ref]) -> bool
    ensures { result ≡ spec.follows name.now inputs.now }
{
    match inputs {
        [input] => input.name.as_str() == name.as_str() && input.port == 0,
        _ => false,
    }
}

/// Whether the vertices are maps and then a sink, each fed by the one before it, the first by `name`.
fn are_linked(name: &Name, vertices: &[JobVertex]) -> bool
    ensures { result ≡ spec.links name.now vertices.now }
{
    match vertices.split_first() {
        Some((v, others)) => {
            if others.is_empty() {
                is_end(&v.name, &v.work) && follows(name, v.inputs.as_slice())
            } else {
                is_map(&v.work) && follows(name, v.inputs.as_slice()) && are_linked(&v.name, others)
            }
        }
        None => false,
    }
}
