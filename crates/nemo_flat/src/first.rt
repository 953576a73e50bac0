ghost use Rattle.std.specs.Prelude.{◌≡◌, ◌≤◌, length, map, slice_get, IfOk};
ghost use Rattle.std.specs.List.{flat_map};
ghost use Rattle.std.specs.Option.{option_copied};
ghost use Rattle.nemo_flat.specs.FirstDag as spec;
ghost use Rattle.nemo_base.specs.Numbered.{map_at};
ghost use Rattle.nemo_ir.specs.Line.{IsLine};
ghost use Rattle.nemo_ir.specs.Along.{below};
ghost use Rattle.nemo_ir.specs.Valid.{IsFirst, Valid};
ghost use Rattle.nemo_transform.specs.Ports.{kinds_of};

use nemo_base::{Class, Flow, Keep, Pattern};
use nemo_ir::{FlatJob, FlatVertex, IrDag, IrEdge, IrVertex, VertexKind};
use nemo_transform::{PortKind, Transform};
use nemo_value::{List, NoMemory};
use std::alloc::Global;

/// The DAG that the passes begin with: an Op of one task for each flat vertex, and an edge into each of its ports, in
/// the order of vertices and ports. It meets the first six clauses of a valid DAG, and that of a line is valid.
pub fn first_dag(alloc: Global, flat: &FlatJob) -> Result<IrDag, NoMemory>
    ensures dag { IfOk result (λ dag. dag ≡ spec.first_dag flat.now) }
    ensures rules { IfOk result (IsFirst flat.now) }
    ensures valid { IsLine flat.now → IfOk result (Valid flat.now) }
{
    let vertices = flat.vertices.as_slice();
    Ok(IrDag {
        vertices: ops(alloc, vertices)?,
        edges: edges(alloc, flat)?,
        rep: numbers(alloc, vertices.len() as u32)?,
    })
}

fn ops(alloc: Global, vertices: &[FlatVertex]) -> Result<List<IrVertex>, NoMemory>
    ensures { IfOk result (λ all. all ≡ map spec.op_of vertices.now) }
{
    let mut all = List::with_capacity(alloc, vertices.len())?;
    for x in vertices {
        all.push(IrVertex {
            kind: VertexKind::Op(x.transform),
            class: Class::Transient,
            parallelism: 1,
        })?;
    }
    Ok(all)
}

/// The numbers below `count`, in order.
fn numbers(alloc: Global, count: u32) -> Result<List<u32>, NoMemory>
    ensures { IfOk result (λ all. all ≡ below count) }
{
    let mut all = List::with_capacity(alloc, count as usize)?;
    for i in 0..count {
        all.push(i)?;
    }
    Ok(all)
}

/// The edges into all vertices.
fn edges(alloc: Global, flat: &FlatJob) -> Result<List<IrEdge>, NoMemory>
    ensures { IfOk result (λ all. all ≡ flat_map (λ es. es) (map_at (spec.edges_into flat.now) 0 flat.now.vertices)) }
{
    let vertices = flat.vertices.as_slice();
    let mut all = Vec::with_capacity(alloc, vertices.len())?;
    for (to, x) in vertices.iter().enumerate() {
        let given = edges_into(alloc, flat, to as u32, x)?;
        all.append(&mut given.into_vec())?;
    }
    Ok(List::from_vec(all))
}

/// The edges into the ports of a vertex.
fn edges_into(
    alloc: Global,
    flat: &FlatJob,
    to: u32,
    x: &FlatVertex,
) -> Result<List<IrEdge>, NoMemory>
    requires { length x.now.inputs ≤ 16 }
    ensures { IfOk result (λ all. all ≡ spec.edges_into flat.now to x.now) }
{
    let mut all = List::with_capacity(alloc, x.inputs.len())?;
    for (port, input) in x.inputs.as_slice().iter().enumerate() {
        all.push(edge_into(
            flat.transforms.get(x.transform as usize),
            to,
            port as u32,
            *input,
        ))?;
    }
    Ok(all)
}

fn edge_into(transform: Option<&Transform>, to: u32, port: u32, input: u32) -> IrEdge
    ensures { result ≡ spec.edge_into (spec.ports_of (option_copied transform.entry)) to port input }
{
    let pattern = match transform {
        Some(t) => pattern_into(t, port),
        None => Pattern::OneToOne,
    };
    IrEdge {
        from: input,
        to,
        port,
        pattern,
        flow: Flow::Pull,
        keep: Keep::Keep,
    }
}

/// The pattern into a port.
fn pattern_into(transform: &Transform, port: u32) -> Pattern
    ensures { result ≡ spec.pattern_into (slice_get (kinds_of transform.now) port) }
{
    match transform.port(port) {
        Some(PortKind::Main) | None => Pattern::OneToOne,
        Some(PortKind::Keyed) => Pattern::Hash,
        Some(PortKind::Side) => Pattern::Broadcast,
    }
}
