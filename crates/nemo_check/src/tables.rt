ghost use Rattle.std.specs.Prelude.{◌≡◌, false, map, IfOk};
ghost use Rattle.nemo_ir.specs.Along.{below};
ghost use Rattle.nemo_check.specs.Tables as spec;

use nemo_ir::IrDag;
use nemo_value::NoMemory;
use std::alloc::Global;

/// Of each vertex whether it stands for a flat vertex.
pub(crate) fn standing(alloc: Global, dag: &IrDag) -> Result<Vec<bool>, NoMemory>
    ensures { IfOk result (λ marks. marks.items ≡ spec.standing dag.now) }
{
    let mut marks = unmarked(alloc, dag.vertices.len())?;
    for v in dag.rep.as_slice() {
        mark(&mut marks, *v);
    }
    Ok(marks)
}

fn unmarked(alloc: Global, count: usize) -> Result<Vec<bool>, NoMemory>
    ensures { IfOk result (λ marks. marks.items ≡ map (λ v. false) (below count)) }
{
    let mut marks = Vec::with_capacity(alloc, count)?;
    for _ in 0..count {
        marks.push(false)?;
    }
    Ok(marks)
}

/// Marks a number, where it is one of the table.
fn mark(marks: &mut Vec<bool>, number: u32)
    ensures { marks.new.items ≡ spec.marked marks.old.items number }
{
    if let Some(marked) = marks.get_mut(number as usize) {
        *marked = true;
    }
}
