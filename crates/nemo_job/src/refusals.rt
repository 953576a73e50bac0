ghost use Rattle.std.specs.Prelude.{◌≡◌, None, map, IfErr, IfOk, OnOk, true};
ghost use Rattle.std.specs.List.{list_all, list_any};
ghost use Rattle.nemo_value.specs.Names.{is_name};
ghost use Rattle.nemo_job.specs.Refusals as spec;
ghost use Rattle.nemo_job.specs.Refusals.{IsCoded, IsRefused};
ghost use Rattle.nemo_job.specs.Sinks as sinks;
ghost use Rattle.nemo_job.specs.Sites.{port_face, sites, sites_after, standing, working};
ghost use Rattle.nemo_job.specs.Walks as walks;
ghost use Rattle.nemo_job.specs.Walks.{HasFaces, IsFirst, WalkedAt, at_place, seen, with_body};

use crate::job::JobRefused;
use crate::scope::{Scope, scope_of};
use crate::site::{Fails, MAX_AROUND, loop_fails, outer_fails};
use crate::vertex::{JobVertex, Work};
use nemo_transform::Transform;
use nemo_value::{Name, NoMemory};
use std::alloc::Global;

/// What vertices fail at that are no job, in the order in which it is looked at.
#[derive(Drop)]
enum Code {
    DoubleName,
    UnknownInput,
    Forward,
    PortCount,
    BadLoop,
    NoSink,
}

impl Code {
    fn number(self) -> u32
        ensures { result ≡ spec.number self }
    {
        match self {
            Code::DoubleName => 3,
            Code::UnknownInput => 4,
            Code::Forward => 5,
            Code::PortCount => 6,
            Code::BadLoop => 7,
            Code::NoSink => 8,
        }
    }
}

/// How many vertices a walk met, and the first of them at which each code fails.
#[derive(Drop)]
struct Found {
    count: u64,
    double: Option<u64>,
    unknown: Option<u64>,
    forward: Option<u64>,
    misfed: Option<u64>,
    bad_loop: Option<u64>,
}

impl Found {
    fn new() -> Found
        ensures { result ≡ walks.nothing }
    {
        Found {
            count: 0,
            double: None,
            unknown: None,
            forward: None,
            misfed: None,
            bad_loop: None,
        }
    }

    /// What is found with one more vertex.
    fn note(self, fails: Fails) -> Found
        ensures { result ≡ walks.note fails self }
    {
        let here = self.count;
        Found {
            count: here.saturating_add(1),
            double: first_of(self.double, fails.double, here),
            unknown: first_of(self.unknown, fails.unknown, here),
            forward: first_of(self.forward, fails.forward, here),
            misfed: first_of(self.misfed, fails.misfed, here),
            bad_loop: first_of(self.bad_loop, fails.bad_loop, here),
        }
    }
}

fn first_of(noted: Option<u64>, fails: bool, here: u64) -> Option<u64>
    ensures { result ≡ walks.first_of noted fails here }
{
    noted.or(if fails { Some(here) } else { None })
}

/// Ok where nothing is refused, and else the first refusal.
pub(crate) fn look_at(alloc: Global, vertices: &[JobVertex]) -> Result<(), JobRefused>
    ensures ok { OnOk result (spec.refusal_of vertices.now ≡ None) }
    ensures named { OnOk result (list_all (λ s. is_name s.name) (sites vertices.now) ≡ true) }
    ensures err { IfErr result (IsRefused vertices.now) }
{
    let found = walk_all(alloc, vertices)?;
    refuse_at(Code::DoubleName, found.double)?;
    refuse_at(Code::UnknownInput, found.unknown)?;
    refuse_at(Code::Forward, found.forward)?;
    refuse_at(Code::PortCount, found.misfed)?;
    refuse_at(Code::BadLoop, found.bad_loop)?;
    refuse_at(Code::NoSink, sinkless(vertices))
}

fn refuse_at(code: Code, place: Option<u64>) -> Result<(), JobRefused>
    ensures ok { OnOk result (place ≡ None) }
    ensures err { IfErr result (IsCoded (at_place code place)) }
{
    match place {
        Some(place) => Err(JobRefused::Refused {
            code: code.number(),
            place,
        }),
        None => Ok(()),
    }
}

fn walk_all(alloc: Global, vertices: &[JobVertex]) -> Result<Found, NoMemory>
    ensures named { OnOk result (list_all (λ s. is_name s.name) (sites vertices.now) ≡ true) }
    ensures double { IfOk result (λ f. IsFirst spec.is_double (sites vertices.now) f.double) }
    ensures unknown { IfOk result (λ f. IsFirst spec.names_unknown (sites vertices.now) f.unknown) }
    ensures forward { IfOk result (λ f. IsFirst spec.is_forward (sites vertices.now) f.forward) }
    ensures misfed { IfOk result (λ f. IsFirst spec.is_misfed (sites vertices.now) f.misfed) }
    ensures bad_loop { IfOk result (λ f. IsFirst spec.is_bad_loop (sites vertices.now) f.bad_loop) }
{
    let scope = scope_of(alloc, &[], vertices)?;
    walk_list(alloc, &scope, &[], vertices, 0, Found::new())
}

/// What is found after the vertices of a list and of the bodies in it.
#[cycle(walk)]
fn walk_list(
    alloc: Global,
    scope: &Scope<'_>,
    carry: &[Name],
    vertices: &[JobVertex],
    depth: u32,
    found: Found,
) -> Result<Found, NoMemory>
    requires { HasFaces (seen carry.now vertices.now) scope.now }
    ensures { IfOk result (WalkedAt depth (λ d. sites_after (map port_face carry.now) d (map standing vertices.now)) found) }
{
    let mut found = found;
    for (place, v) in vertices.iter().enumerate() {
        let fails = outer_fails(scope, carry.len() + place, depth, v);
        found = walk_work(alloc, &v.work, fails, depth, found)?;
    }
    Ok(found)
}

/// What is found after a vertex at which these codes fail so far, and after its body.
#[cycle(walk)]
fn walk_work(
    alloc: Global,
    work: &Work,
    fails: Fails,
    depth: u32,
    found: Found,
) -> Result<Found, NoMemory>
    ensures { IfOk result (WalkedAt depth (working work.now).sites (walks.note (with_body (working work.now).doing fails) found)) }
{
    match work {
        Work::Op(_) => Ok(found.note(fails)),
        Work::Loop {
            carry,
            body,
            next,
            ..
        } => {
            let carry = carry.as_slice();
            let body = body.as_slice();
            let scope = scope_of(alloc, carry, body)?;
            let fails = loop_fails(&scope, carry, next.as_slice(), fails);
            let around = depth.min(MAX_AROUND) + 1;
            walk_list(alloc, &scope, carry, body, around, found.note(fails))
        }
    }
}

/// The place 0, where there is no sink.
fn sinkless(vertices: &[JobVertex]) -> Option<u64>
    ensures { result ≡ spec.sinkless vertices.now }
{
    if has_sink(vertices) { None } else { Some(0) }
}

fn has_sink(vertices: &[JobVertex]) -> bool
    ensures { result ≡ list_any (λ v. sinks.is_sink v.work) vertices.now }
{
    vertices.iter().any(|v| is_sink(&v.work))
}

pub(crate) fn is_sink(work: &Work) -> bool
    ensures { result ≡ sinks.is_sink work.now }
{
    matches!(work, Work::Op(Transform::Sink { .. }))
}
