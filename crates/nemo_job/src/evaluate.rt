ghost use Rattle.std.specs.Prelude.{◌≡◌, ◌<◌, ◌≤◌, ◌+◌, [], ◌∷◌, ◌++◌, replicate, if◌then◌else◌, None, length, map, option_map, option_to_list, true, IfOk, IfErr, OnOk};
ghost use Rattle.nemo_value.specs.Order.{record_cmp};
ghost use Rattle.nemo_value.specs.SinkOrder.{by_name, with_sorted};
ghost use Rattle.nemo_value.specs.Sorting.{sorted};
ghost use Rattle.nemo_value.specs.Texts.{all_new};
ghost use Rattle.nemo_transform.specs.ArisenOrder.{place_cmp};
ghost use Rattle.nemo_transform.specs.FirstFault.{arisen_at, first_fault, lesser_by};
ghost use Rattle.nemo_transform.specs.Sinks.{does_sink};
ghost use Rattle.nemo_transform.specs.Through.{clean};
ghost use Rattle.nemo_job.specs.ByPlace.{values};
ghost use Rattle.nemo_job.specs.Ends.{IsEndOf, fault_end};
ghost use Rattle.nemo_job.specs.Held.{IsGiven, IsHeld, IsLast, IsPlaced, faults_given, known, node_of, sink_at, sinks_given};
ghost use Rattle.nemo_job.specs.HeldRows.{rows_held};
ghost use Rattle.nemo_job.specs.Lines.{IsJoined, IsLineOf, Joins};
ghost use Rattle.nemo_job.specs.Nodes.{copy_of};
ghost use Rattle.nemo_job.specs.Sinks.{job_faults, job_rows};
ghost use Rattle.nemo_job.specs.Unrolled.{path_in};

use crate::copies::Node;
use crate::held::{Held, Rows, line_given, nothing, step};
use crate::job::Job;
use crate::readers::last_readers;
use crate::unrolling::unroll;
use nemo_transform::{Located, Transform, earlier};
use nemo_value::{
    Kind, List, Name, NoMemory, Record, SinkRows, Text, TryCopy, records_of, sorted_rows,
};
use std::alloc::Global;

/// Why a job has no rows: its first fault by the vertex where it arose, which is named by its path, and then by kind
/// and record; or want of memory.
#[derive(Drop)]
pub enum JobEnd {
    Fault { name: Text, kind: Kind, rec: Record },
    NoMemory,
}

impl From<NoMemory> for JobEnd {
    ghost use Rattle.nemo_job.specs.declared.evaluate.JobEnd.TheVariants.{NoMemory};
    ghost use Rattle.std.specs.Prelude.{◌≡◌};

    ghost from_gives = { λ _ e. e ≡ NoMemory };

    fn from(_e: NoMemory) -> JobEnd {
        JobEnd::NoMemory
    }
}

/// What the job gives to its sinks: for each, by name, its rows in order, where no fault reaches a sink, and else the
/// first fault that does. A vertex that reaches no sink isn't evaluated.
pub fn eval_job(alloc: Global, job: &Job) -> Result<Vec<SinkRows>, JobEnd>
    ensures rows { IfOk result (λ sinks. sinks.items ≡ job_rows job.now) }
    ensures sound { IfOk result (λ sinks. job_faults job.now ≡ []) }
    ensures end { IfErr result (IsEndOf job.now) }
{
    let nodes = unroll(alloc, job.vertices().as_slice())?;
    let held = all_held(alloc, nodes.as_slice())?;
    let Ending { sinks, first } = collected(alloc, nodes.as_slice(), held)?;
    match first {
        Some(fault) => Err(end_at(alloc, nodes.as_slice(), fault)?),
        None => Ok(by_name(sinks)),
    }
}

/// The end of a job by a fault, which is named by the path of the copy where it arose.
fn end_at(alloc: Global, nodes: &[Node<'_>], fault: Located) -> Result<JobEnd, NoMemory>
    requires within { fault.place < length nodes.now }
    requires short { length (path_in (map copy_of nodes.now) fault.place) ≤ 65535 }
    ensures { IfOk result (λ end. end ≡ fault_end (record { vertex = path_in (map copy_of nodes.now) fault.place; kind = fault.kind; rec = fault.rec })) }
{
    let path = nodes[fault.place].path.clone()?;
    Ok(JobEnd::Fault {
        name: Text::of(path),
        kind: fault.kind,
        rec: fault.rec,
    })
}

/// The sinks by their names, which differ.
fn by_name(mut sinks: Vec<SinkRows>) -> Vec<SinkRows>
    requires { all_new [] (map (λ s. s.name) sinks.items) ≡ true }
    ensures { result.items ≡ sorted by_name sinks.items }
{
    sinks.sort_unstable_by(|a, b| a.name.as_str().cmp(b.name.as_str()));
    sinks
}

/// What each copy gave. The rows of the sinks are there.
fn all_held<'a>(alloc: Global, nodes: &[Node<'a>]) -> Result<Vec<Held<'a>>, NoMemory>
    requires { IsPlaced (map node_of nodes.now) }
    ensures { IfOk result (λ held. IsGiven (map node_of nodes.now) (values (map node_of nodes.now)) (map known held.items)) }
{
    let last = last_readers(alloc, nodes)?;
    held_until(alloc, nodes, last.as_slice())
}

/// What each copy gave, where these are the last that take it.
fn held_until<'a>(
    alloc: Global,
    nodes: &[Node<'a>],
    last: &[Option<usize>],
) -> Result<Vec<Held<'a>>, NoMemory>
    requires placed { IsPlaced (map node_of nodes.now) }
    requires last { IsLast (map node_of nodes.now) last.now }
    ensures { IfOk result (λ held. IsGiven (map node_of nodes.now) (values (map node_of nodes.now)) (map known held.items)) }
{
    let mut held = Vec::with_capacity(alloc, nodes.len())?;
    while held.len() < nodes.len() {
        hold_next(alloc, nodes, last, &mut held)?;
    }
    Ok(held)
}

/// Holds what the next copy gives, or where that begins a line what the last one of this gives, behind what those before
/// it gave.
fn hold_next<'a>(
    alloc: Global,
    nodes: &[Node<'a>],
    last: &[Option<usize>],
    held: &mut Vec<Held<'a>>,
) -> Result<(), NoMemory>
    requires placed { IsPlaced (map node_of nodes.now) }
    requires last { IsLast (map node_of nodes.now) last.now }
    requires within { length held.old.items < length nodes.now }
    requires held { IsHeld (values (map node_of nodes.now)) last.now (length held.old.items) (map known held.old.items) }
    ensures held { OnOk result (IsHeld (values (map node_of nodes.now)) last.now (length held.new.items) (map known held.new.items)) }
    ensures more { OnOk result (length held.old.items < length held.new.items) }
    ensures within { OnOk result (length held.new.items ≤ length nodes.now) }
{
    let place = held.len();
    if last[place].is_some() && nodes[place].transform.goes_by_row() {
        let end = end_of_line(nodes, last, place);
        hold_line(alloc, nodes, place, end, last, held)
    } else {
        hold(alloc, nodes, place, last, held)
    }
}

/// The place behind a line that begins at a place: copies that go row by row, each the only one that takes what the one
/// before it gives, and next to that.
fn end_of_line(nodes: &[Node<'_>], last: &[Option<usize>], place: usize) -> usize
    requires size { length last.now ≡ length nodes.now }
    requires within { place < length nodes.now }
    ensures more { place < result }
    ensures within { result ≤ length nodes.now }
    ensures joined { IsJoined nodes.now last.now place result }
{
    for end in place + 1..nodes.len() {
        if !goes_on(nodes, last, end) {
            return end;
        }
    }
    nodes.len()
}

/// Whether the copy of a place goes row by row and is the only one that takes what the one before it gives.
fn goes_on(nodes: &[Node<'_>], last: &[Option<usize>], place: usize) -> bool
    requires size { length last.now ≡ length nodes.now }
    requires within { place < length nodes.now }
    requires some { 0 < place }
    ensures { result ≡ true → Joins nodes.now last.now place }
{
    last[place - 1] == Some(place) && nodes[place].transform.goes_by_row()
}

/// Holds what the last copy of a line gives, which goes from a place to another one. What the others give is taken by it
/// alone, so it isn't held.
fn hold_line<'a>(
    alloc: Global,
    nodes: &[Node<'a>],
    place: usize,
    end: usize,
    last: &[Option<usize>],
    held: &mut Vec<Held<'a>>,
) -> Result<(), NoMemory>
    requires placed { IsPlaced (map node_of nodes.now) }
    requires last { IsLast (map node_of nodes.now) last.now }
    requires line { IsLineOf nodes.now last.now place end }
    requires held { IsHeld (values (map node_of nodes.now)) last.now place (map known held.old.items) }
    ensures { OnOk result (IsHeld (values (map node_of nodes.now)) last.now end (map known held.new.items)) }
{
    let line = &nodes[place..end];
    let input = only_input(&line[0]);
    let given = line_given(alloc, line, place, input, last, held)?;
    push_last(held, line.len() - 1, given)?;
    Ok(())
}

/// The only input of a copy.
fn only_input(node: &Node<'_>) -> usize
    requires { length node.now.inputs ≡ 1 }
    ensures { node.now.inputs ≡ result ∷ [] }
{
    node.inputs.as_slice()[0]
}

/// Puts what was given behind as many others of which nothing is held.
#[tactic(auto, using(crate::proofs::Lining::pushed_one))]
fn push_last<'a>(held: &mut Vec<Held<'a>>, others: usize, given: Held<'a>) -> Result<(), NoMemory>
    ensures { OnOk result (map known held.new.items ≡ (map known held.old.items ++ replicate others (clean [])) ++ known given.entry ∷ []) }
{
    for _ in 0..others {
        held.push(nothing())?;
    }
    Ok(held.push(given)?)
}

/// Holds what the copy of a place gives, if it reaches a sink, behind what those before it gave.
fn hold<'a>(
    alloc: Global,
    nodes: &[Node<'a>],
    place: usize,
    last: &[Option<usize>],
    held: &mut Vec<Held<'a>>,
) -> Result<(), NoMemory>
    requires placed { IsPlaced (map node_of nodes.now) }
    requires last { IsLast (map node_of nodes.now) last.now }
    requires within { place < length nodes.now }
    requires held { IsHeld (values (map node_of nodes.now)) last.now place (map known held.old.items) }
    ensures { OnOk result (IsHeld (values (map node_of nodes.now)) last.now (place + 1) (map known held.new.items)) }
{
    if last[place].is_none() {
        return Ok(held.push(nothing())?);
    }
    let given = step(alloc, place, &nodes[place], last, held)?;
    Ok(held.push(given)?)
}

/// What the sinks of a job got: their rows, in list order, and the first fault.
#[derive(Drop)]
struct Ending {
    sinks: Vec<SinkRows>,
    first: Option<Located>,
}

impl Ending {
    /// What a vertex gave, if it is a sink.
    fn add(&mut self, alloc: Global, transform: &Transform, given: Held<'_>) -> Result<(), NoMemory>
        ensures sinks { OnOk result (self.new.sinks.items ≡ self.old.sinks.items ++ map with_sorted (option_to_list (sink_at transform.now (rows_held given.entry.rows)))) }
        ensures first { OnOk result (option_map arisen_at self.new.first ≡ lesser_by place_cmp (option_map arisen_at self.old.first) (if does_sink transform.now then option_map arisen_at given.entry.first else None)) }
    {
        if let Transform::Sink { name } = transform {
            let Held { rows, first } = given;
            self.first = earlier(self.first.take(), first);
            let sink = sink_rows(alloc, name, rows)?;
            self.sinks.push(sink)?;
        }
        Ok(())
    }
}

/// What the sinks got, their rows in order.
fn collected(alloc: Global, nodes: &[Node<'_>], held: Vec<Held<'_>>) -> Result<Ending, NoMemory>
    requires { IsGiven (map node_of nodes.now) (values (map node_of nodes.now)) (map known held.items) }
    ensures sinks { IfOk result (λ e. e.sinks.items ≡ map with_sorted (sinks_given (map node_of nodes.now) (values (map node_of nodes.now)))) }
    ensures first { IfOk result (λ e. option_map arisen_at e.first ≡ first_fault (faults_given (map node_of nodes.now) (values (map node_of nodes.now)))) }
{
    let mut ending = Ending {
        sinks: Vec::new(alloc),
        first: None,
    };
    for (node, given) in nodes.iter().zip(held) {
        ending.add(alloc, node.transform, given)?;
    }
    Ok(ending)
}

/// What a sink of a name got, its rows in order.
fn sink_rows(alloc: Global, name: &Name, rows: Rows<'_>) -> Result<SinkRows, NoMemory>
    ensures name { IfOk result (λ sink. sink.name ≡ name.now) }
    ensures rows { IfOk result (λ sink. sink.rows ≡ sorted record_cmp (rows_held rows.entry)) }
{
    let name = name.copy(alloc)?;
    Ok(SinkRows {
        name,
        rows: records_in_order(alloc, &rows)?,
    })
}

/// The rows in order, as records.
fn records_in_order(alloc: Global, rows: &Rows<'_>) -> Result<List<Record>, NoMemory>
    ensures { IfOk result (λ records. records ≡ sorted record_cmp (rows_held rows.now)) }
{
    let rows = rows.lend(alloc)?;
    let ordered = sorted_rows(alloc, rows)?;
    records_of(alloc, ordered.as_slice())
}
