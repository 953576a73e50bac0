ghost use Rattle.std.specs.Prelude.{◌≡◌, map, slice_get};
ghost use Rattle.nemo_ir.specs.Flat.{FlatForm};
ghost use Rattle.nemo_ir.specs.Valid.{Valid};
ghost use Rattle.nemo_annotate.specs.Passes as spec;

use nemo_base::Keep;
use nemo_ir::{IrDag, IrEdge, IrVertex};
use nemo_value::List;

/// Sets the keep of each edge: Discard from a Relay or a Trigger, and Keep from any other vertex.
pub fn set_keep(dag: &mut IrDag)
    ensures dag { dag.new ≡ spec.set_keep dag.old }
    ensures valid { (flat : FlatForm) → Valid flat dag.old → Valid flat dag.new }
{
    set_all(dag.vertices.as_slice(), &mut dag.edges);
}

fn set_all(vertices: &[IrVertex], edges: &mut List<IrEdge>)
    ensures { edges.new ≡ map (spec.with_keep vertices.now) edges.old }
{
    for i in 0..edges.len() {
        let e = edges.as_slice()[i];
        let keep = keep_from(vertices, e.from);
        edges.set(i, IrEdge { keep, ..e });
    }
}

/// The keep of the out-edges of a vertex.
fn keep_from(vertices: &[IrVertex], number: u32) -> Keep
    ensures { result ≡ spec.keep_from (slice_get vertices.now number) }
{
    match vertices.get(number as usize) {
        Some(u) if u.kind.is_utility() => Keep::Discard,
        Some(_) | None => Keep::Keep,
    }
}
