ghost use Rattle.std.specs.Prelude.{◌≡◌, ◌++◌, List as Sequence, map, string_bytes, IfOk, OnOk};
ghost use Rattle.nemo_job.specs.Mean as mean;
ghost use Rattle.nemo_job.specs.NamesBound.{HasNames, IsGrown, IsScope, copies_of, fed};
ghost use Rattle.nemo_job.specs.Nodes.{copy_of};
ghost use Rattle.nemo_job.specs.Unrolled as spec;
ghost use Rattle.nemo_job.specs.Unrolled.{Bound, source_of, unrolled};

use crate::copies::{Copies, Node};
use crate::names::Names;
use crate::paths::{joined, turn_path};
use crate::vertex::{JobVertex, Ref, Work};
use nemo_value::{List, Name, NoMemory};
use std::alloc::Global;

/// The copies of a job's vertices in the order of evaluation, a loop's turn by turn in the loop's place.
pub fn unroll<'a>(alloc: Global, vertices: &'a [JobVertex]) -> Result<Vec<Node<'a>>, NoMemory>
    ensures { IfOk result (λ nodes. map copy_of nodes.items ≡ unrolled vertices.now) }
{
    let mut copies = Copies::new(alloc);
    let mut names = Names::new(alloc);
    unroll_all(alloc, vertices, "", &mut names, &mut copies)?;
    Ok(copies.nodes)
}

/// The path of a vertex under that of what it stands in, and the copies that its ports take.
fn placed(
    alloc: Global,
    v: &JobVertex,
    path: &str,
    names: &Names<'_>,
) -> Result<(String, List<Option<usize>>), NoMemory>
    ensures path { IfOk result (λ at. string_bytes at.0 ≡ path.now ++ v.now.name) }
    ensures inputs { IfOk result (λ at. (bs : Sequence Bound) → HasNames bs names.now → at.1 ≡ map (source_of bs) v.now.inputs) }
{
    let inputs = names.sources(alloc, v.inputs.as_slice())?;
    Ok((joined(alloc, path, v.name.as_str())?, inputs))
}

// The recursion over the vertices of a body: all of them, one of them, its work, a loop's turns, and one turn.

/// The vertices of a list under a path.
#[cycle(unroll)]
fn unroll_all<'a>(
    alloc: Global,
    vertices: &'a [JobVertex],
    path: &str,
    names: &mut Names<'a>,
    copies: &mut Copies<'a>,
) -> Result<(), NoMemory>
    ensures scope { OnOk result ((bs : Sequence Bound) → HasNames bs names.old → IsScope (spec.unroll_all vertices.now path.now (record { copies = copies_of copies.old; names = bs })) copies.new names.new) }
    ensures grown { OnOk result (IsGrown copies.old copies.new) }
{
    for v in vertices {
        unroll_vertex(alloc, v, path, names, copies)?;
    }
    Ok(())
}

#[cycle(unroll)]
fn unroll_vertex<'a>(
    alloc: Global,
    v: &'a JobVertex,
    path: &str,
    names: &mut Names<'a>,
    copies: &mut Copies<'a>,
) -> Result<(), NoMemory>
    ensures scope { OnOk result ((bs : Sequence Bound) → HasNames bs names.old → IsScope (spec.unroll_vertex v.now path.now (record { copies = copies_of copies.old; names = bs })) copies.new names.new) }
    ensures grown { OnOk result (IsGrown copies.old copies.new) }
{
    let (inside, inputs) = placed(alloc, v, path, names)?;
    let ports = unroll_work(alloc, &v.work, inside, inputs, copies)?;
    names.bind(v.name.as_str(), ports)
}

/// A work on its path and its ports; what its own ports stand for.
#[cycle(unroll)]
fn unroll_work<'a>(
    alloc: Global,
    work: &'a Work,
    path: String,
    ports: List<Option<usize>>,
    copies: &mut Copies<'a>,
) -> Result<List<Option<usize>>, NoMemory>
    ensures given { IfOk result (λ given. fed copies.new given ≡ spec.unroll_work work.now (string_bytes path) (fed copies.old ports)) }
    ensures grown { OnOk result (IsGrown copies.old copies.new) }
{
    match work {
        Work::Op(transform) => copies.push(alloc, path, transform, ports),
        Work::Loop {
            turns,
            carry,
            body,
            next,
        } => {
            let carry = Carry {
                names: carry.as_slice(),
                next: next.as_slice(),
            };
            unroll_turns(
                alloc,
                *turns,
                &carry,
                body.as_slice(),
                path.as_str(),
                ports,
                copies,
            )
        }
    }
}

/// The names of the ports of a turn, and what the next one takes.
#[derive(Drop)]
struct Carry<'a> {
    names: &'a [Name],
    next: &'a [Ref],
}

/// The turns of a loop on its path and its ports. In each turn the numbers of the operations are the same.
#[cycle(unroll)]
fn unroll_turns<'a>(
    alloc: Global,
    turns: u32,
    carry: &Carry<'a>,
    body: &'a [JobVertex],
    path: &str,
    ports: List<Option<usize>>,
    copies: &mut Copies<'a>,
) -> Result<List<Option<usize>>, NoMemory>
    ensures given { IfOk result (λ given. fed copies.new given ≡ mean.turns_from 0 turns (λ i. spec.turn copies.old.next carry.now.names.now (map spec.unroll_vertex body.now) carry.now.next.now (mean.turn_path path.now i)) (fed copies.old ports)) }
    ensures grown { OnOk result (IsGrown copies.old copies.new) }
{
    let first = copies.next;
    let mut ports = ports;
    for turn in 0..turns {
        copies.next = first;
        let inside = turn_path(alloc, path, turn)?;
        ports = unroll_turn(
            alloc,
            carry,
            body,
            inside.as_str(),
            ports.as_slice(),
            copies,
        )?;
    }
    Ok(ports)
}

/// One turn of a loop under its path.
#[cycle(unroll)]
fn unroll_turn<'a>(
    alloc: Global,
    carry: &Carry<'a>,
    body: &'a [JobVertex],
    path: &str,
    ports: &[Option<usize>],
    copies: &mut Copies<'a>,
) -> Result<List<Option<usize>>, NoMemory>
    ensures given { IfOk result (λ given. fed copies.new given ≡ spec.turn copies.old.next carry.now.names.now (map spec.unroll_vertex body.now) carry.now.next.now path.now (fed copies.old ports.now)) }
    ensures grown { OnOk result (IsGrown copies.old copies.new) }
{
    let mut names = Names::bound(alloc, ports, carry.names)?;
    unroll_all(alloc, body, path, &mut names, copies)?;
    names.sources(alloc, carry.next)
}
