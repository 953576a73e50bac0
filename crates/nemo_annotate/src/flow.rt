ghost use Rattle.std.specs.Prelude.{◌≡◌, map};
ghost use Rattle.nemo_ir.specs.Flat.{FlatForm};
ghost use Rattle.nemo_ir.specs.Valid.{Valid};
ghost use Rattle.nemo_annotate.specs.Passes as spec;

use nemo_base::{Class, Flow};
use nemo_ir::{IrDag, IrEdge, IrVertex};
use nemo_value::List;

/// Sets the flow of each edge: Push from a Transient vertex to a Reserved one, and Pull between any others.
pub fn set_flow(dag: &mut IrDag)
    ensures dag { dag.new ≡ spec.set_flow dag.old }
    ensures valid { (flat : FlatForm) → Valid flat dag.old → Valid flat dag.new }
{
    set_all(dag.vertices.as_slice(), &mut dag.edges);
}

fn set_all(vertices: &[IrVertex], edges: &mut List<IrEdge>)
    ensures { edges.new ≡ map (spec.with_flow vertices.now) edges.old }
{
    for i in 0..edges.len() {
        let e = edges.as_slice()[i];
        let flow = flow_of(vertices, &e);
        edges.set(i, IrEdge { flow, ..e });
    }
}

fn flow_of(vertices: &[IrVertex], e: &IrEdge) -> Flow
    ensures { result ≡ spec.flow_between (spec.class_at vertices.now e.now.from) (spec.class_at vertices.now e.now.to) }
{
    match (class_at(vertices, e.from), class_at(vertices, e.to)) {
        (Some(Class::Transient), Some(Class::Reserved)) => Flow::Push,
        (Some(Class::Transient), Some(Class::Transient) | None)
        | (Some(Class::Reserved) | None, _) => Flow::Pull,
    }
}

fn class_at(vertices: &[IrVertex], number: u32) -> Option<Class>
    ensures { result ≡ spec.class_at vertices.now number }
{
    Some(vertices.get(number as usize)?.class)
}
