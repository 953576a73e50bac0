ghost use Rattle.std.specs.Prelude.{◌≡◌, IfOk, map, slice_get};
ghost use Rattle.nemo_policy.specs.Passes as spec;

use crate::parallelism::parallelism_at;
use nemo_base::Pattern;
use nemo_ir::{FlatJob, IrDag, IrEdge, IrVertex};
use nemo_transform::PortKind;
use nemo_value::{List, NoMemory};
use std::alloc::Global;

/// The DAG with a pattern for each edge: OneToOne into a Main port where both ends have equal parallelism and Spread
/// where they don't, Hash into a Keyed port, and Broadcast into a Side port.
pub(crate) fn set_patterns(alloc: Global, flat: &FlatJob, dag: IrDag) -> Result<IrDag, NoMemory>
    ensures { IfOk result (λ new. new ≡ spec.set_patterns flat.now dag) }
{
    let edges = with_patterns(alloc, flat, &dag)?;
    let IrDag { vertices, rep, .. } = dag;
    Ok(IrDag {
        vertices,
        edges,
        rep,
    })
}

fn with_patterns(alloc: Global, flat: &FlatJob, dag: &IrDag) -> Result<List<IrEdge>, NoMemory>
    ensures { IfOk result (λ all. all ≡ map (spec.set_pattern flat.now dag.now.vertices) dag.now.edges) }
{
    let mut all = List::with_capacity(alloc, dag.edges.len())?;
    for e in dag.edges.as_slice() {
        all.push(with_pattern(flat, dag.vertices.as_slice(), e))?;
    }
    Ok(all)
}

fn with_pattern(flat: &FlatJob, vertices: &[IrVertex], e: &IrEdge) -> IrEdge
    ensures { result ≡ spec.set_pattern flat.now vertices.now e.now }
{
    let level = parallelism_at(vertices, e.from) == parallelism_at(vertices, e.to);
    let pattern = pattern_by(level, e.pattern, kind_into(flat, vertices, e));
    IrEdge { pattern, ..*e }
}

/// The kind of the port that an edge leads to, if there is one.
fn kind_into(flat: &FlatJob, vertices: &[IrVertex], e: &IrEdge) -> Option<PortKind>
    ensures { result ≡ spec.kind_into flat.now e.now (slice_get vertices.now e.now.to) }
{
    vertices
        .get(e.to as usize)?
        .port(flat.transforms.as_slice(), e.port)
}

/// The pattern into a port of this kind; the old one where there is no such port.
fn pattern_by(level: bool, old: Pattern, kind: Option<PortKind>) -> Pattern
    ensures { result ≡ spec.pattern_by level old kind }
{
    match kind {
        Some(PortKind::Main) => into_main(level),
        Some(PortKind::Keyed) => Pattern::Hash,
        Some(PortKind::Side) => Pattern::Broadcast,
        None => old,
    }
}

fn into_main(level: bool) -> Pattern
    ensures { result ≡ spec.into_main level }
{
    if level {
        Pattern::OneToOne
    } else {
        Pattern::Spread
    }
}
