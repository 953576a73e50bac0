ghost use Rattle.std.specs.Prelude.{◌≡◌, Some, IfOk, codes, is_some, option_and_then};
ghost use Rattle.serde_json.specs.Find.{get};
ghost use Rattle.serde_json.specs.View.{view, items_view};
ghost use Rattle.nemo_read.specs.Answers.{Reads};
ghost use Rattle.nemo_read.specs.Parts as parts;
ghost use Rattle.nemo_bundle.specs.Answers.{Gives};
ghost use Rattle.nemo_bundle.specs.Dags as spec;

use crate::end::{BundleEnd, Code, coded};
use crate::entries::{ReadAt, read_items_at};
use nemo_base::{Class, Flow, Keep, Pattern};
use nemo_ir::{FlatVertex, IrDag, IrEdge, IrVertex, VertexKind};
use nemo_read::{Call, FromJson, PartEnd};
use nemo_value::List;
use serde_json::Value;
use std::alloc::Global;

/// The DAG of the member `dag`, where it is there, for a flat job of these vertices.
pub(crate) fn read_dag(
    alloc: Global,
    value: &Value,
    flat: &[FlatVertex],
) -> Result<Option<IrDag>, BundleEnd>
    ensures dag { Gives result (spec.dag_in flat.now (get (codes "dag") (view value.now))) }
    ensures given { IfOk result (λ dag. is_some dag ≡ is_some (get (codes "dag") (view value.now))) }
{
    match value.get("dag") {
        Some(dag) => Ok(Some(read_proposed(alloc, dag, flat)?)),
        None => Ok(None),
    }
}

fn read_proposed(alloc: Global, value: &Value, flat: &[FlatVertex]) -> Result<IrDag, BundleEnd>
    ensures { Gives result (spec.dag_of flat.now (view value.now)) }
{
    Ok(IrDag {
        vertices: read_entries(
            alloc,
            value,
            "vertices",
            &Vertices { flat },
            Code::DagVertex,
        )?,
        edges: read_entries(alloc, value, "edges", &Edges, Code::DagEdge)?,
        rep: read_entries(alloc, value, "rep", &Rep, Code::DagRep)?,
    })
}

/// What the array of a member holds, or this code at the first entry that can't be read.
fn read_entries<R: ReadAt>(
    alloc: Global,
    value: &Value,
    name: &str,
    reader: &R,
    code: Code,
) -> Result<List<R::Item>, BundleEnd>
    ensures { Gives result (spec.entries_of code name.now (R.reads reader.now) (view value.now)) }
{
    let items = value.get(name).and_then(Value::as_array).ok_or(code.at(0))?;
    coded(code, read_items_at(alloc, reader, items.as_slice()))
}

/// Reads the vertices of a DAG for a flat job of these vertices.
#[derive(Clone, Copy)]
struct Vertices<'a> {
    flat: &'a [FlatVertex],
}

impl ReadAt for Vertices<'_> {
    ghost use Rattle.nemo_bundle.specs.Dags.{entry_of};

    type Item = IrVertex;

    ghost reads = { λ r. entry_of r.flat.now };

    fn read_at(&self, alloc: Global, _place: usize, value: &Value) -> Result<IrVertex, PartEnd> {
        let call = Call::of(value).ok_or(PartEnd::Malformed)?;
        read_vertex(alloc, call.word, call.args, self.flat)
    }
}

/// The vertex of a word and what stands behind it.
#[tactic(auto, using(crate::proofs::Lengths::entry_of_fewer, crate::proofs::Lengths::entry_of_more))]
fn read_vertex(
    alloc: Global,
    word: &str,
    args: &[Value],
    flat: &[FlatVertex],
) -> Result<IrVertex, PartEnd>
    ensures { Reads result (spec.entry_from flat.now (items_view args.now) word.now) }
{
    match args {
        [class, tasks] => read_utility(alloc, word, class, tasks),
        [x, class, tasks] => match word {
            "op" => with_kind(alloc, read_op(alloc, x, flat)?, class, tasks),
            _ => Err(PartEnd::Malformed),
        },
        _ => Err(PartEnd::Malformed),
    }
}

/// The utility vertex of a word.
fn read_utility(
    alloc: Global,
    word: &str,
    class: &Value,
    tasks: &Value,
) -> Result<IrVertex, PartEnd>
    ensures { Reads result (spec.op_with (spec.utility_of word.now) (view class.now) (view tasks.now)) }
{
    let kind = utility_of(word).ok_or(PartEnd::Malformed)?;
    with_kind(alloc, kind, class, tasks)
}

fn with_kind(
    alloc: Global,
    kind: VertexKind,
    class: &Value,
    tasks: &Value,
) -> Result<IrVertex, PartEnd>
    ensures { Reads result (spec.op_with (Some kind) (view class.now) (view tasks.now)) }
{
    Ok(IrVertex {
        kind,
        class: class
            .as_str()
            .and_then(Class::from_word)
            .ok_or(PartEnd::Malformed)?,
        parallelism: u32::from_json(alloc, tasks)?,
    })
}

/// The Op of flat vertex x, where there is one.
fn read_op(alloc: Global, x: &Value, flat: &[FlatVertex]) -> Result<VertexKind, PartEnd>
    ensures { Reads result (option_and_then (spec.op_at flat.now) (parts.number_of (view x.now))) }
{
    let x = u32::from_json(alloc, x)?;
    let vertex = flat.get(x as usize).ok_or(PartEnd::Malformed)?;
    Ok(VertexKind::Op(vertex.transform))
}

fn utility_of(word: &str) -> Option<VertexKind>
    ensures { result ≡ spec.utility_of word.now }
{
    match word {
        "relay" => Some(VertexKind::Relay),
        "trigger" => Some(VertexKind::Trigger),
        _ => None,
    }
}

/// Reads the edges of a DAG.
#[derive(Clone, Copy)]
struct Edges;

impl ReadAt for Edges {
    ghost use Rattle.nemo_bundle.specs.Dags.{edge_of};

    type Item = IrEdge;

    ghost reads = { λ _. edge_of };

    fn read_at(&self, alloc: Global, _place: usize, value: &Value) -> Result<IrEdge, PartEnd> {
        read_edge(
            alloc,
            value.as_array().ok_or(PartEnd::Malformed)?.as_slice(),
        )
    }
}

#[tactic(auto, using(crate::proofs::Lengths::edge_of_fewer))]
fn read_edge(alloc: Global, items: &[Value]) -> Result<IrEdge, PartEnd>
    ensures { Reads result (spec.edge_from (items_view items.now)) }
{
    match items {
        [from, to, port, way @ ..] => {
            let (from, to, port) = read_ends(alloc, from, to, port)?;
            let (pattern, flow, keep) = way_of(way).ok_or(PartEnd::Malformed)?;
            Ok(IrEdge {
                from,
                to,
                port,
                pattern,
                flow,
                keep,
            })
        }
        _ => Err(PartEnd::Malformed),
    }
}

/// Where an edge leads.
fn read_ends(
    alloc: Global,
    from: &Value,
    to: &Value,
    port: &Value,
) -> Result<(u32, u32, u32), PartEnd>
    ensures { Reads result (spec.ends_of (view from.now) (view to.now) (view port.now)) }
{
    Ok((
        u32::from_json(alloc, from)?,
        u32::from_json(alloc, to)?,
        u32::from_json(alloc, port)?,
    ))
}

/// How the rows of an edge go.
#[tactic(auto, using(crate::proofs::Lengths::way_of_fewer, crate::proofs::Lengths::way_of_more))]
fn way_of(items: &[Value]) -> Option<(Pattern, Flow, Keep)>
    ensures { result ≡ spec.way_of (items_view items.now) }
{
    match items {
        [pattern, flow, keep] => Some((
            Pattern::from_word(pattern.as_str()?)?,
            Flow::from_word(flow.as_str()?)?,
            Keep::from_word(keep.as_str()?)?,
        )),
        _ => None,
    }
}

/// Reads for each flat vertex the vertex that stands for it.
#[derive(Clone, Copy)]
struct Rep;

impl ReadAt for Rep {
    ghost use Rattle.nemo_read.specs.Parts.{number_of};

    type Item = u32;

    ghost reads = { λ _ _. number_of };

    fn read_at(&self, alloc: Global, _place: usize, value: &Value) -> Result<u32, PartEnd> {
        u32::from_json(alloc, value)
    }
}
