use crate::*;
use nemo_base::{Class, Flow, Keep, Pattern};
use nemo_ir::{IrDag, IrEdge, IrVertex, VertexKind};
use nemo_value::{List, NoMemory};
use std::alloc::Global;
use std::test::Fail;

/// A DAG of so many vertices, with an edge for each (from, to, pattern).
fn dag_of(
    alloc: Global,
    count: u32,
    edges: &[(u32, u32, Pattern)],
    class: Class,
) -> Result<IrDag, NoMemory> {
    let mut vertices = List::new(alloc);
    for v in 0..count {
        vertices.push(IrVertex {
            kind: VertexKind::Op(v),
            class,
            parallelism: 1,
        })?;
    }
    let mut all = List::new(alloc);
    for (from, to, pattern) in edges {
        all.push(IrEdge {
            from: *from,
            to: *to,
            port: 0,
            pattern: *pattern,
            flow: Flow::Pull,
            keep: Keep::Keep,
        })?;
    }
    Ok(IrDag {
        vertices,
        edges: all,
        rep: List::new(alloc),
    })
}

/// The classes of the vertices, a letter each.
fn classes_of(alloc: Global, dag: &IrDag) -> Result<String, NoMemory> {
    let mut letters = String::new(alloc);
    for u in dag.vertices.as_slice() {
        letters.push(match u.class {
            Class::Reserved => 'r',
            Class::Transient => 't',
        })?;
    }
    Ok(letters)
}

#[test]
fn places_by_shuffles_and_by_what_is_reserved(rt: HostRuntime) -> Result<(), Fail> {
    use Pattern::{Broadcast, Hash, OneToOne, Spread};
    let alloc = rt.alloc();
    let table: [(&str, &[(u32, u32, Pattern)]); 9] = [
        ("t", &[]),
        // two sinks of one map, and a count of words
        (
            "tttt",
            &[(0, 1, OneToOne), (1, 2, OneToOne), (1, 3, OneToOne)],
        ),
        ("ttrr", &[(0, 1, OneToOne), (1, 2, Hash), (2, 3, OneToOne)]),
        // through a relay
        ("trrr", &[(0, 1, Spread), (1, 2, Hash), (2, 3, OneToOne)]),
        // what all comes from Reserved vertices, and what doesn't
        ("trr", &[(0, 1, Hash), (1, 2, Broadcast)]),
        ("trt", &[(0, 1, Hash), (0, 2, OneToOne), (1, 2, Broadcast)]),
        ("trt", &[(0, 1, Hash), (1, 2, OneToOne), (0, 2, Broadcast)]),
        // a shuffle that isn't the first in-edge, and edges in no order
        ("ttr", &[(0, 2, OneToOne), (1, 2, Hash)]),
        ("trr", &[(1, 2, OneToOne), (0, 1, Hash)]),
    ];
    for (wanted, edges) in table {
        for class in [Class::Reserved, Class::Transient] {
            let mut dag = dag_of(alloc, wanted.len() as u32, edges, class)?;
            pado_classes(&mut dag);
            let classes = classes_of(alloc, &dag)?;
            assert_eq!(rt; classes.as_str(), wanted);
        }
    }
    Ok(())
}
