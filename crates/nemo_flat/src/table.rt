ghost use Rattle.std.specs.Prelude.{◌≡◌, ◌++◌, IfOk, OnOk};
ghost use Rattle.nemo_flat.specs.Flattened.{operations};
ghost use Rattle.nemo_flat.specs.Table.{all_operations, work_operations};

use nemo_job::{JobVertex, Work};
use nemo_transform::Transform;
use nemo_value::{List, NoMemory, TryCopy};
use std::alloc::Global;

/// The transforms of the operations, a loop's in its place.
pub(crate) fn table(alloc: Global, vertices: &[JobVertex]) -> Result<List<Transform>, NoMemory>
    ensures { IfOk result (λ all. all ≡ operations vertices.now) }
{
    let mut all = List::new(alloc);
    add_all(alloc, &mut all, vertices)?;
    Ok(all)
}

/// Adds those of some vertices.
#[cycle(table)]
fn add_all(alloc: Global, all: &mut List<Transform>, vertices: &[JobVertex]) -> Result<(), NoMemory>
    ensures { OnOk result (all.new ≡ all.old ++ all_operations vertices.now) }
{
    for v in vertices {
        add_work(alloc, all, &v.work)?;
    }
    Ok(())
}

#[cycle(table)]
fn add_work(alloc: Global, all: &mut List<Transform>, work: &Work) -> Result<(), NoMemory>
    ensures { OnOk result (all.new ≡ all.old ++ work_operations work.now) }
{
    match work {
        Work::Op(transform) => all.push(transform.copy(alloc)?),
        Work::Loop { body, .. } => add_all(alloc, all, body.as_slice()),
    }
}
