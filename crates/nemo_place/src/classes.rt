ghost use Rattle.std.specs.Prelude.{◌≡◌, ◌==◌, [], filter};
ghost use Rattle.nemo_ir.specs.Along.{along};
ghost use Rattle.nemo_ir.specs.Flat.{FlatForm};
ghost use Rattle.nemo_ir.specs.Valid.{Valid};
ghost use Rattle.nemo_place.specs.Classes.{IsSameButClasses};
ghost use Rattle.nemo_place.specs.Classes as spec;

use crate::runs::{are_in_order, split};
use nemo_base::{Class, Pattern};
use nemo_ir::{IrDag, IrEdge, IrVertex};
use nemo_value::List;

/// Sets the class of each vertex, in order: one without in-edges is Transient, one with a Hash or Spread in-edge is
/// Reserved, one all of whose in-edges come from Reserved vertices is Reserved, and any other is Transient. It takes no
/// memory. It is meant for a DAG whose edges lead to later vertices, and its time is linear where these are in the order
/// of the vertices that they lead to.
pub fn pado_classes(dag: &mut IrDag)
    ensures dag { dag.new ≡ spec.pado_classes dag.old }
    ensures classes_alone { IsSameButClasses dag.old dag.new }
    ensures valid { (flat : FlatForm) → Valid flat dag.old → Valid flat dag.new }
{
    set_all(&mut dag.vertices, dag.edges.as_slice());
}

fn set_all(vertices: &mut List<IrVertex>, edges: &[IrEdge])
    ensures { vertices.new ≡ along (spec.with_class edges.now) [] vertices.old }
{
    let in_order = are_in_order(edges);
    let mut rest = edges;
    for v in 0..vertices.len() {
        let (into, later) = split(rest, v, in_order);
        let class = class_of(&vertices.as_slice()[..v], into, v);
        let u = vertices.as_slice()[v];
        vertices.set(v, IrVertex { class, ..u });
        rest = later;
    }
}

/// The class of vertex `v`, whose in-edges are among these, after the vertices before it.
fn class_of(done: &[IrVertex], edges: &[IrEdge], v: usize) -> Class
    ensures { result ≡ spec.class_of done.now (filter (λ e. e.to == v) edges.now) }
{
    let mut fed = false;
    let mut steady = true;
    for e in edges {
        if e.to as usize == v {
            if is_shuffle(e.pattern) {
                return Class::Reserved;
            }
            fed = true;
            steady = steady && from_reserved(done, e);
        }
    }
    if fed && steady {
        Class::Reserved
    } else {
        Class::Transient
    }
}

fn from_reserved(done: &[IrVertex], e: &IrEdge) -> bool
    ensures { result ≡ spec.from_reserved done.now e.now }
{
    match done.get(e.from as usize) {
        Some(u) => is_reserved(u.class),
        None => false,
    }
}

fn is_reserved(class: Class) -> bool
    ensures { result ≡ spec.is_reserved class }
{
    match class {
        Class::Reserved => true,
        Class::Transient => false,
    }
}

fn is_shuffle(pattern: Pattern) -> bool
    ensures { result ≡ spec.is_shuffle pattern }
{
    match pattern {
        Pattern::Hash | Pattern::Spread => true,
        Pattern::OneToOne | Pattern::Broadcast => false,
    }
}
