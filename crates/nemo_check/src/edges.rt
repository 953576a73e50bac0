ghost use Rattle.std.specs.Prelude.{◌≡◌, ◌==◌, not, slice_get};
ghost use Rattle.nemo_ir.specs.Along.{passes};
ghost use Rattle.nemo_ir.specs.Valid as spec;

use nemo_base::Pattern;
use nemo_ir::{FlatJob, IrDag, VertexKind};
use nemo_transform::PortKind;

/// Whether the edge at a place leads to a later vertex.
pub(crate) fn rises(dag: &IrDag, place: usize) -> bool
    ensures { result ≡ passes (spec.rises dag.now) (slice_get dag.now.edges place) }
{
    match dag.edges.get(place) {
        Some(e) => e.from < e.to && (e.to as usize) < dag.vertices.len(),
        None => false,
    }
}

/// Whether the port of the edge at a place takes its pattern.
pub(crate) fn is_taken(flat: &FlatJob, dag: &IrDag, place: usize) -> bool
    ensures { result ≡ passes (spec.is_taken flat.now dag.now) (slice_get dag.now.edges place) }
{
    match dag.edges.get(place) {
        Some(e) => match dag.vertices.get(e.to as usize) {
            Some(u) => match u.port(flat.transforms.as_slice(), e.port) {
                Some(kind) => takes(kind, e.pattern),
                None => false,
            },
            None => false,
        },
        None => false,
    }
}

fn takes(kind: PortKind, pattern: Pattern) -> bool
    ensures { result ≡ spec.takes kind pattern }
{
    match kind {
        PortKind::Main => !matches!(pattern, Pattern::Broadcast),
        PortKind::Keyed => matches!(pattern, Pattern::Hash),
        PortKind::Side => matches!(pattern, Pattern::Broadcast),
    }
}

/// Whether the ends of the edge at a place have equal parallelism, where it is OneToOne.
pub(crate) fn is_level(dag: &IrDag, place: usize) -> bool
    ensures { result ≡ passes (spec.is_level dag.now) (slice_get dag.now.edges place) }
{
    match dag.edges.get(place) {
        Some(e) => match e.pattern {
            Pattern::OneToOne => are_level(dag, e.from, e.to),
            Pattern::Broadcast | Pattern::Hash | Pattern::Spread => true,
        },
        None => false,
    }
}

/// Whether two vertices stand there and have equal parallelism.
fn are_level(dag: &IrDag, from: u32, to: u32) -> bool
    ensures { result ≡ passes (λ u. passes (λ w. u.parallelism == w.parallelism) (slice_get dag.now.vertices to)) (slice_get dag.now.vertices from) }
{
    match dag.vertices.get(from as usize) {
        Some(u) => match dag.vertices.get(to as usize) {
            Some(w) => u.parallelism == w.parallelism,
            None => false,
        },
        None => false,
    }
}

/// Whether the edge at a place is Hash or comes from no Trigger.
pub(crate) fn is_counted(dag: &IrDag, place: usize) -> bool
    ensures { result ≡ passes (spec.is_counted dag.now) (slice_get dag.now.edges place) }
{
    match dag.edges.get(place) {
        Some(e) => matches!(e.pattern, Pattern::Hash) || is_no_trigger(dag, e.from),
        None => false,
    }
}

/// Whether a vertex stands there that is no Trigger.
fn is_no_trigger(dag: &IrDag, v: u32) -> bool
    ensures { result ≡ passes (λ u. not (spec.is_trigger u.kind)) (slice_get dag.now.vertices v) }
{
    match dag.vertices.get(v as usize) {
        Some(u) => !matches!(u.kind, VertexKind::Trigger),
        None => false,
    }
}
