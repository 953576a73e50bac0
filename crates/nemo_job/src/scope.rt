ghost use Rattle.std.specs.Prelude.{◌≡◌, ◌+◌, ◌<◌, ◌^◌, ℕ, List, Some, None, if◌then◌else◌, length, map, true, IfOk, OnOk};
ghost use Rattle.std.specs.List.{list_all};
ghost use Rattle.std.specs.Option.{option_or};
ghost use Rattle.nemo_value.specs.Names.{is_name};
ghost use Rattle.nemo_value.specs.Texts.{same_text};
ghost use Rattle.nemo_job.specs.ByName.{named_in};
ghost use Rattle.nemo_job.specs.Sites.{face_of, faces, port_face, standing, working};
ghost use Rattle.nemo_job.specs.Walks as spec;
ghost use Rattle.nemo_job.specs.Walks.{HasFaces, first_named, is_any_from, is_before, is_from, is_known_in, seen};

use crate::refusals::is_sink;
use crate::vertex::{JobVertex, Ref, Work};
use indexmap::IndexMap;
use nemo_value::{Name, NoMemory};
use std::alloc::Global;

/// The first of a name in a list: its place there, how many ports it has for references, and whether it is a sink.
#[derive(Clone, Copy)]
pub(crate) struct Named {
    position: usize,
    ports: usize,
    is_sink: bool,
}

/// The first of each name, in order of first sight.
pub(crate) type Scope<'a> = IndexMap<&'a str, Named>;

/// The first of each name among the ports of a loop and then the vertices of its body.
pub(crate) fn scope_of<'a>(
    alloc: Global,
    carry: &'a [Name],
    vertices: &'a [JobVertex],
) -> Result<Scope<'a>, NoMemory>
    ensures { IfOk result (HasFaces (seen carry.now vertices.now)) }
{
    let mut scope = IndexMap::new(alloc);
    add_ports(&mut scope, carry)?;
    add_vertices(&mut scope, carry.len(), vertices)?;
    Ok(scope)
}

fn add_ports<'a>(scope: &mut Scope<'a>, carry: &'a [Name]) -> Result<(), NoMemory>
    ensures { OnOk result ((q : List ℕ) → named_in scope.new q ≡ option_or (named_in scope.old q) (first_named q 0 (map port_face carry.now))) }
{
    for (position, name) in carry.iter().enumerate() {
        let port = Named {
            position,
            ports: 1,
            is_sink: false,
        };
        add(scope, name, port)?;
    }
    Ok(())
}

/// Adds vertices that stand from a place on.
fn add_vertices<'a>(
    scope: &mut Scope<'a>,
    from: usize,
    vertices: &'a [JobVertex],
) -> Result<(), NoMemory>
    requires { from + length vertices.now < 2 ^ 64 }
    ensures { OnOk result ((q : List ℕ) → named_in scope.new q ≡ option_or (named_in scope.old q) (first_named q from (faces (map standing vertices.now)))) }
{
    for (place, v) in vertices.iter().enumerate() {
        let vertex = named_at(from + place, &v.work);
        add(scope, &v.name, vertex)?;
    }
    Ok(())
}

fn named_at(position: usize, work: &Work) -> Named
    ensures { (name : List ℕ) → result ≡ spec.named_at position (face_of name (working work.now).doing) }
{
    Named {
        position,
        ports: match work {
            Work::Op(_) => 1,
            Work::Loop { carry, .. } => carry.len(),
        },
        is_sink: is_sink(work),
    }
}

/// Adds a name, where it isn't there yet.
fn add<'a>(scope: &mut Scope<'a>, name: &'a Name, first: Named) -> Result<(), NoMemory>
    ensures { OnOk result ((q : List ℕ) → named_in scope.new q ≡ option_or (named_in scope.old q) (if same_text name.now q then Some first else None)) }
{
    scope.entry(name.as_str())?.or_insert(first);
    Ok(())
}

fn find(scope: &Scope<'_>, name: &Name) -> Option<Named>
    ensures found { result ≡ named_in scope.now name.now }
    ensures name { is_name name.now ≡ true }
{
    scope.get(name.as_str()).copied()
}

/// Whether one of the name stands before the place.
pub(crate) fn is_taken(scope: &Scope<'_>, name: &Name, position: usize) -> bool
    ensures taken { result ≡ is_before position (named_in scope.now name.now) }
    ensures name { is_name name.now ≡ true }
{
    find(scope, name).is_some_and(|named| named.position < position)
}

/// Whether each names a port that gives rows.
pub(crate) fn are_known(scope: &Scope<'_>, refs: &[Ref]) -> bool
    ensures { result ≡ list_all (is_known_in scope.now) refs.now }
{
    refs.iter().all(|r| is_known(scope, r))
}

fn is_known(scope: &Scope<'_>, r: &Ref) -> bool
    ensures { result ≡ is_known_in scope.now r.now }
{
    find(scope, &r.name).is_some_and(|named| !named.is_sink && (r.port as usize) < named.ports)
}

/// Whether one names the vertex of the place or a later one.
pub(crate) fn is_any_from(scope: &Scope<'_>, position: usize, refs: &[Ref]) -> bool
    ensures { result ≡ is_any_from scope.now position refs.now }
{
    refs.iter().any(|r| names_from(scope, r, position))
}

fn names_from(scope: &Scope<'_>, r: &Ref, position: usize) -> bool
    ensures { result ≡ is_from position (named_in scope.now r.now.name) }
{
    find(scope, &r.name).is_some_and(|named| position <= named.position)
}
