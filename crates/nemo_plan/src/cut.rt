ghost use Rattle.std.specs.Prelude.{◌≡◌, ◌<◌, ◌∷◌, ◌++◌, ◌^◌, [], Some, length, slice_get, IfOk, OnOk};
ghost use Rattle.nemo_ir.specs.Valid.{Valid};
ghost use Rattle.nemo_plan.specs.Making as making;
ghost use Rattle.nemo_plan.specs.Order.{IsForward};
ghost use Rattle.nemo_plan.specs.Stages as spec;

use crate::ahead::{closed, is_last, sources, turned};
use crate::joins::{Choice, first_open};
use nemo_ir::{DagIndex, FlatJob, IrVertex};
use nemo_value::{List, NoMemory};
use std::alloc::Global;

/// The stages made so far.
#[derive(Drop)]
pub(crate) struct Making {
    /// The stage of each vertex that has one.
    pub stages: List<u32>,
    /// The vertices of each stage.
    pub members: Vec<List<u32>>,
    /// The stages in an order in which each edge between two of them goes forward.
    pub order: List<u32>,
}

/// The stages of a DAG. Each vertex in turn joins the first stage that it may, port by port, or begins one.
pub(crate) fn cut(alloc: Global, flat: &FlatJob, index: &DagIndex<'_>) -> Result<Making, NoMemory>
    requires { Valid flat.now index.now }
    ensures stages { IfOk result (λ made. made.stages ≡ spec.stages_of flat.now index.now) }
    ensures making { IfOk result (making.IsMaking index.now) }
{
    let mut made = Making {
        stages: List::new(alloc),
        members: Vec::new(alloc),
        order: List::new(alloc),
    };
    for u in index.dag().vertices.as_slice() {
        let chosen = choice(alloc, flat, index, &made, u)?;
        put(alloc, &mut made, chosen)?;
    }
    Ok(made)
}

/// Where the next vertex goes. Most are decided by their in-edges alone; the stages that lead on to it are looked
/// through where it could join one that isn't the last from which it has an in-edge.
fn choice(
    alloc: Global,
    flat: &FlatJob,
    index: &DagIndex<'_>,
    made: &Making,
    u: &IrVertex,
) -> Result<Choice, NoMemory>
    requires valid { Valid flat.now index.now }
    requires making { making.IsMaking index.now made.now }
    requires next { slice_get index.now.vertices (length made.now.stages) ≡ Some u.now }
    ensures { IfOk result (making.IsChoice flat.now index.now made.now u.now) }
{
    let v = made.stages.len();
    let ports = u.port_count(flat.transforms.as_slice());
    let Some(first) = first_open(index, made.stages.as_slice(), v, u.class, ports, &[]) else {
        return Ok(Choice::Begins);
    };
    let sources = sources(alloc, index, made.stages.as_slice(), made.order.len(), v)?;
    if is_last(made.order.as_slice(), sources.as_slice(), first) {
        return Ok(Choice::Joins(first));
    }
    let closed = closed(alloc, index, made, sources.as_slice(), v)?;
    match first_open(
        index,
        made.stages.as_slice(),
        v,
        u.class,
        ports,
        closed.as_slice(),
    ) {
        Some(stage) => Ok(Choice::Turns(
            stage,
            turned(
                alloc,
                made.order.as_slice(),
                sources.as_slice(),
                closed.as_slice(),
                stage,
            )?,
        )),
        None => Ok(Choice::Begins),
    }
}

/// Puts the next vertex where it goes.
fn put(alloc: Global, made: &mut Making, chosen: Choice) -> Result<(), NoMemory>
    requires vertices { length made.old.stages < 2 ^ 32 }
    requires stages { length made.old.members.items < 2 ^ 32 }
    ensures { OnOk result (making.IsPut made.old chosen made.new) }
{
    match chosen {
        Choice::Begins => begin(alloc, made),
        Choice::Joins(stage) => join(made, stage),
        Choice::Turns(stage, order) => {
            made.order = order;
            join(made, stage)
        }
    }
}

/// The next vertex begins a stage, which stands last.
fn begin(alloc: Global, made: &mut Making) -> Result<(), NoMemory>
    requires vertices { length made.old.stages < 2 ^ 32 }
    requires stages { length made.old.members.items < 2 ^ 32 }
    ensures { OnOk result (making.IsPut made.old Choice.Begins made.new) }
{
    let v = made.stages.len() as u32;
    let stage = made.members.len() as u32;
    let mut vertices = List::new(alloc);
    vertices.push(v)?;
    made.members.push(vertices)?;
    made.order.push(stage)?;
    made.stages.push(stage)
}

/// The next vertex joins a stage.
fn join(made: &mut Making, stage: u32) -> Result<(), NoMemory>
    requires { length made.old.stages < 2 ^ 32 }
    ensures { OnOk result (making.grown made.old stage made.old.order made.new) }
{
    let v = made.stages.len() as u32;
    if let Some(vertices) = made.members.get_mut(stage as usize) {
        vertices.push(v)?;
    }
    made.stages.push(stage)
}
