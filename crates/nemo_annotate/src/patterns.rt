ghost use Rattle.std.specs.Prelude.{◌≡◌, map, slice_get};
ghost use Rattle.nemo_ir.specs.Valid.{Holds, IsFirst, Valid};
ghost use Rattle.nemo_ir.specs.declared.clause.Clause.{Clause};
ghost use Rattle.nemo_annotate.specs.Ops.{IsOfOps};
ghost use Rattle.nemo_annotate.specs.Passes as spec;

use crate::parallelism::parallelism_at;
use nemo_base::Pattern;
use nemo_ir::{FlatJob, IrDag, IrEdge, IrVertex};
use nemo_transform::PortKind;
use nemo_value::List;

/// Sets the pattern of each edge: OneToOne into a Main port where both ends have equal parallelism and Spread where they
/// don't, Hash into a Keyed port, and Broadcast into a Side port. A DAG of Ops alone that meets the first six clauses, of
/// at most 4,096 vertices of 1 to 64 tasks each, becomes valid.
pub fn set_patterns(flat: &FlatJob, dag: &mut IrDag)
    ensures dag { dag.new ≡ spec.set_patterns flat.now dag.old }
    ensures valid { IsFirst flat.now dag.old → IsOfOps dag.old → Holds flat.now dag.old Clause.V9 → Valid flat.now dag.new }
{
    set_all(flat, dag.vertices.as_slice(), &mut dag.edges);
}

fn set_all(flat: &FlatJob, vertices: &[IrVertex], edges: &mut List<IrEdge>)
    ensures { edges.new ≡ map (spec.with_pattern flat.now vertices.now) edges.old }
{
    for i in 0..edges.len() {
        let e = with_pattern(flat, vertices, edges.as_slice()[i]);
        edges.set(i, e);
    }
}

fn with_pattern(flat: &FlatJob, vertices: &[IrVertex], e: IrEdge) -> IrEdge
    ensures { result ≡ spec.with_pattern flat.now vertices.now e }
{
    let even = parallelism_at(vertices, e.from) == parallelism_at(vertices, e.to);
    let pattern = pattern_by(even, e.pattern, kind_into(flat, vertices, &e));
    IrEdge { pattern, ..e }
}

/// The kind of the port that an edge leads to, if there is one.
fn kind_into(flat: &FlatJob, vertices: &[IrVertex], e: &IrEdge) -> Option<PortKind>
    ensures { result ≡ spec.kind_into flat.now e.now (slice_get vertices.now e.now.to) }
{
    vertices
        .get(e.to as usize)?
        .port(flat.transforms.as_slice(), e.port)
}

/// The pattern into a port of this kind; the old one where there is no such port.
fn pattern_by(even: bool, old: Pattern, kind: Option<PortKind>) -> Pattern
    ensures { result ≡ spec.pattern_by even old kind }
{
    match kind {
        Some(PortKind::Main) => into_main(even),
        Some(PortKind::Keyed) => Pattern::Hash,
        Some(PortKind::Side) => Pattern::Broadcast,
        None => old,
    }
}

fn into_main(even: bool) -> Pattern
    ensures { result ≡ spec.into_main even }
{
    if even {
        Pattern::OneToOne
    } else {
        Pattern::Spread
    }
}
