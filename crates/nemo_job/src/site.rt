ghost use Rattle.std.specs.Prelude.{◌≡◌, ◌&&◌, List, [], true, map, nat_le};
ghost use Rattle.std.specs.List.{list_all, list_any};
ghost use Rattle.nemo_value.specs.Names.{is_name};
ghost use Rattle.nemo_value.specs.Texts.{all_new};
ghost use Rattle.nemo_job.specs.Refusals as refusals;
ghost use Rattle.nemo_job.specs.Sites.{faces, standing, working};
ghost use Rattle.nemo_job.specs.Walks.{HasFaces, is_known_in, outer, seen, with_inner};
ghost use Rattle.nemo_job.specs.declared.vertex.JobVertex.{JobVertex};

use crate::scope::{Scope, are_known, is_any_from, is_taken};
use crate::vertex::{JobVertex, Ref, Work};
use nemo_base::limits::{MAX_CARRIED, MAX_NESTING, MAX_TURNS, MAX_UNION_PORTS};
use nemo_transform::{Transform, ports};
use nemo_value::Name;

/// The most loops around a loop.
pub(crate) const MAX_AROUND: u32 = MAX_NESTING - 1;

/// Which codes fail at a vertex.
#[derive(Drop)]
pub(crate) struct Fails {
    pub(crate) double: bool,
    pub(crate) unknown: bool,
    pub(crate) forward: bool,
    pub(crate) misfed: bool,
    pub(crate) bad_loop: bool,
}

/// What fails at a vertex at a place of its list.
pub(crate) fn outer_fails(scope: &Scope<'_>, position: usize, depth: u32, v: &JobVertex) -> Fails
    ensures fails { result ≡ outer scope.now position depth v.now }
    ensures name { is_name v.now.name ≡ true }
{
    let inputs = v.inputs.as_slice();
    Fails {
        double: is_taken(scope, &v.name, position),
        unknown: !are_known(scope, inputs),
        forward: is_any_from(scope, position, inputs),
        misfed: !has_ports(inputs.len(), &v.work),
        bad_loop: !is_good(depth, &v.work),
    }
}

/// What fails at a loop, also by the list of its body.
pub(crate) fn loop_fails(scope: &Scope<'_>, carry: &[Name], next: &[Ref], outer: Fails) -> Fails
    ensures { (body : List JobVertex) → HasFaces (seen carry.now body) scope.now → result ≡ with_inner (all_new [] carry.now) (list_all (is_known_in scope.now) next.now) outer }
{
    Fails {
        double: outer.double || !names_differ(scope, carry),
        unknown: outer.unknown || !are_known(scope, next),
        forward: outer.forward,
        misfed: outer.misfed,
        bad_loop: outer.bad_loop,
    }
}

/// Whether no name comes twice: each is the first of its own.
fn names_differ(scope: &Scope<'_>, carry: &[Name]) -> bool
    ensures { (body : List JobVertex) → HasFaces (seen carry.now body) scope.now → result ≡ all_new [] carry.now }
{
    for (position, name) in carry.iter().enumerate() {
        if is_taken(scope, name, position) {
            return false;
        }
    }
    true
}

/// Whether it is 1 to `most`.
fn is_few(count: usize, most: usize) -> bool
    ensures { result ≡ (nat_le 1 count && nat_le count most) }
{
    1 <= count && count <= most
}

fn has_ports(inputs: usize, work: &Work) -> bool
    ensures { result ≡ refusals.has_ports inputs (working work.now).doing }
{
    match work {
        Work::Op(Transform::Union { .. }) => is_few(inputs, MAX_UNION_PORTS as usize),
        Work::Op(transform) => {
            let ports = ports(transform);
            inputs as u64 == u64::from(ports.main) + u64::from(ports.keyed) + u64::from(ports.side)
        }
        Work::Loop { carry, .. } => inputs == carry.len(),
    }
}

fn is_good(depth: u32, work: &Work) -> bool
    ensures { result ≡ refusals.is_good depth (working work.now).doing }
{
    match work {
        Work::Op(_) => true,
        Work::Loop {
            turns,
            carry,
            body,
            next,
        } => {
            1 <= *turns
                && *turns <= MAX_TURNS
                && is_few(carry.len(), MAX_CARRIED)
                && next.len() == carry.len()
                && depth <= MAX_AROUND
                && !has_end(body.as_slice())
        }
    }
}

/// Whether one is a source or a sink.
fn has_end(body: &[JobVertex]) -> bool
    ensures { result ≡ list_any (λ f. refusals.is_end f.transform) (faces (map standing body.now)) }
{
    body.iter().any(is_end)
}

fn is_end(v: &JobVertex) -> bool
    ensures { result ≡ refusals.is_end (standing v.now).face.transform }
{
    matches!(
        v.work,
        Work::Op(Transform::Source { .. } | Transform::Sink { .. })
    )
}
