ghost use Rattle.std.specs.Prelude.{◌≡◌, ◌∷◌, [], map, IfOk};
ghost use Rattle.nemo_ir.specs.Line.{one_before};

use crate::*;
use nemo_base::{Class, Flow, Keep, Pattern};
use nemo_ir::{FlatJob, FlatVertex, IrDag, IrEdge, IrVertex, VertexKind};
use nemo_transform::{Folding, Transform};
use nemo_value::{Field, List, Name, NoMemory, Record, Text};
use std::alloc::Global;
use std::test::Fail;

/// So many rows of no text.
fn rows(alloc: Global, count: usize) -> Result<List<Record>, NoMemory> {
    let mut rows = List::new(alloc);
    for _ in 0..count {
        rows.push(row(alloc)?)?;
    }
    Ok(rows)
}

fn row(alloc: Global) -> Result<Record, NoMemory> {
    let mut fields = List::new(alloc);
    fields.push(Field::Int(0))?;
    Record::new(fields).map_err(|_| NoMemory)
}

/// A source, a reduce and a sink.
fn transforms(alloc: Global, rows: List<Record>, name: Name) -> Result<List<Transform>, NoMemory>
    ensures { IfOk result (λ ts. ts ≡ Transform.Source rows ∷ Transform.Reduce Folding.Count 0 ∷ Transform.Sink name ∷ []) }
{
    let mut transforms = List::new(alloc);
    transforms.push(Transform::Source { rows })?;
    transforms.push(Transform::Reduce {
        by: Folding::Count,
        field: 0,
    })?;
    transforms.push(Transform::Sink { name })?;
    Ok(transforms)
}

/// A vertex with the transform of its number, that takes the one before it.
fn vertex(alloc: Global, number: u32) -> Result<FlatVertex, NoMemory>
    ensures { IfOk result (λ x. x ≡ record { name = []; transform = number; inputs = one_before number }) }
{
    let name = Text::new(String::new(alloc)).map_err(|_| NoMemory)?;
    let inputs = before(alloc, number)?;
    Ok(FlatVertex {
        name,
        transform: number,
        inputs,
    })
}

fn before(alloc: Global, number: u32) -> Result<List<u32>, NoMemory>
    ensures { IfOk result (λ inputs. inputs ≡ one_before number) }
{
    let mut inputs = List::new(alloc);
    if number > 0 {
        inputs.push(number - 1)?;
    }
    Ok(inputs)
}

fn vertices(alloc: Global) -> Result<List<FlatVertex>, NoMemory>
    ensures { IfOk result (λ xs. xs ≡ map (λ i. record { name = []; transform = i; inputs = one_before i }) (0 ∷ 1 ∷ 2 ∷ [])) }
{
    let mut vertices = List::new(alloc);
    vertices.push(vertex(alloc, 0)?)?;
    vertices.push(vertex(alloc, 1)?)?;
    vertices.push(vertex(alloc, 2)?)?;
    Ok(vertices)
}

/// A source of so many rows, which are counted by key, and the counts are given.
fn flat_job(alloc: Global, count: usize) -> Result<FlatJob, NoMemory> {
    let name = Name::new(String::from_str(alloc, "out")?).map_err(|_| NoMemory)?;
    let transforms = transforms(alloc, rows(alloc, count)?, name)?;
    let vertices = vertices(alloc)?;
    Ok(FlatJob {
        transforms,
        vertices,
    })
}

/// An edge of the pattern Hash, which is pushed and discarded.
fn edge(from: u32, to: u32, port: u32) -> IrEdge {
    IrEdge {
        from,
        to,
        port,
        pattern: Pattern::Hash,
        flow: Flow::Push,
        keep: Keep::Discard,
    }
}

/// A DAG of these vertices, each of one task, and edges.
fn dag_of(
    alloc: Global,
    vertices: &[(VertexKind, Class)],
    edges: &[IrEdge],
) -> Result<IrDag, NoMemory> {
    let mut all = List::new(alloc);
    for (kind, class) in vertices {
        all.push(IrVertex {
            kind: *kind,
            class: *class,
            parallelism: 1,
        })?;
    }
    Ok(IrDag {
        vertices: all,
        edges: List::from_slice(alloc, edges)?,
        rep: List::new(alloc),
    })
}

fn tasks_of(alloc: Global, dag: &IrDag) -> Result<String, NoMemory> {
    let mut text = String::new(alloc);
    for u in dag.vertices.as_slice() {
        text.push_str(format!(in alloc; "{} ", u.parallelism)?.as_str())?;
    }
    Ok(text)
}

fn patterns_of(alloc: Global, dag: &IrDag) -> Result<String, NoMemory> {
    let mut text = String::new(alloc);
    for e in dag.edges.as_slice() {
        text.push_str(format!(in alloc; "{} ", e.pattern.word())?.as_str())?;
    }
    Ok(text)
}

fn annotations_of(alloc: Global, dag: &IrDag) -> Result<String, NoMemory> {
    let mut text = String::new(alloc);
    for e in dag.edges.as_slice() {
        text.push_str(format!(in alloc; "{} {}, ", e.flow.word(), e.keep.word())?.as_str())?;
    }
    Ok(text)
}

#[test]
fn sets_parallelism_and_patterns(rt: HostRuntime) -> Result<(), Fail> {
    let alloc = rt.alloc();
    let ops = [0, 1, 2].map(|k| (VertexKind::Op(k), Class::Transient));
    let edges = [edge(0, 1, 0), edge(1, 2, 0)];
    let table = [
        (8, 8, "8 8 8 ", "hash one "),
        (2, 4, "2 4 4 ", "hash one "),
        (0, 3, "1 3 3 ", "hash one "),
        (9, 1, "1 1 1 ", "hash one "),
    ];
    for (count, p, tasks, patterns) in table {
        let flat = flat_job(alloc, count)?;
        let mut dag = dag_of(alloc, &ops, &edges)?;
        set_parallelism(&flat, &mut dag, p);
        set_patterns(&flat, &mut dag);
        assert_eq!(rt; tasks_of(alloc, &dag)?.as_str(), tasks);
        assert_eq!(rt; patterns_of(alloc, &dag)?.as_str(), patterns);
    }
    Ok(())
}

#[test]
fn sets_flow_and_keep(rt: HostRuntime) -> Result<(), Fail> {
    let alloc = rt.alloc();
    let (s, c) = (VertexKind::Op(0), VertexKind::Op(1));
    let (relay, trigger) = (VertexKind::Relay, VertexKind::Trigger);
    let table = [
        // a relay before a count, and a trigger before one without Reserved vertices
        (
            [
                (s, Class::Transient),
                (relay, Class::Reserved),
                (c, Class::Reserved),
            ],
            "push keep, pull discard, ",
        ),
        (
            [
                (s, Class::Transient),
                (trigger, Class::Transient),
                (c, Class::Transient),
            ],
            "pull keep, pull discard, ",
        ),
        (
            [
                (s, Class::Transient),
                (relay, Class::Transient),
                (c, Class::Reserved),
            ],
            "pull keep, push discard, ",
        ),
        (
            [
                (s, Class::Reserved),
                (c, Class::Transient),
                (c, Class::Reserved),
            ],
            "pull keep, push keep, ",
        ),
        (
            [
                (trigger, Class::Reserved),
                (c, Class::Reserved),
                (c, Class::Transient),
            ],
            "pull discard, pull keep, ",
        ),
    ];
    for (vertices, wanted) in table {
        let mut dag = dag_of(alloc, &vertices, &[edge(0, 1, 0), edge(1, 2, 0)])?;
        set_flow(&mut dag);
        set_keep(&mut dag);
        assert_eq!(rt; annotations_of(alloc, &dag)?.as_str(), wanted);
    }
    Ok(())
}
