ghost use Rattle.std.specs.Prelude.{◌≡◌, ◌≤◌, true, IfOk};
ghost use Rattle.nemo_base.specs.declared.annotation.Policy.{Policy};
ghost use Rattle.nemo_ir.specs.Line.{IsLine};
ghost use Rattle.nemo_ir.specs.Flat.{IsFlat};
ghost use Rattle.nemo_ir.specs.Uniform.{is_uniform};
ghost use Rattle.nemo_ir.specs.Valid.{Valid};
ghost use Rattle.nemo_policy.specs.Main.{HasMainPorts};
ghost use Rattle.nemo_policy.specs.Passes as spec;

use crate::parallelism::set_parallelism;
use crate::patterns::set_patterns;
use nemo_base::Policy;
use nemo_flat::first_dag;
use nemo_ir::{FlatJob, IrDag};
use nemo_value::NoMemory;
use std::alloc::Global;

/// The DAG that a policy makes of a flat job, in which a vertex has at most `p` tasks. It is valid, and where all ports
/// of the flat job are Main it is uniform. For now the policy is Plain, and the flat job is a line.
pub fn apply_policy(
    alloc: Global,
    flat: &FlatJob,
    policy: Policy,
    p: u32,
) -> Result<IrDag, NoMemory>
    requires plain { policy ≡ Policy.Plain }
    requires line { IsLine flat.now }
    requires some { 1 ≤ p }
    requires few { p ≤ 64 }
    ensures dag { IfOk result (λ dag. dag ≡ spec.plain_dag flat.now p) }
    ensures valid { IfOk result (Valid flat.now) }
    ensures uniform { HasMainPorts flat.now → IfOk result (λ dag. is_uniform dag ≡ true) }
{
    match policy {
        Policy::Plain => plain_dag(alloc, flat, p),
        Policy::Pado | Policy::Skew | Policy::PadoSkew => unreachable!(),
    }
}

/// An Op for each flat vertex, with a parallelism for each vertex and a pattern for each edge.
fn plain_dag(alloc: Global, flat: &FlatJob, p: u32) -> Result<IrDag, NoMemory>
    requires line { IsLine flat.now }
    requires some { 1 ≤ p }
    requires few { p ≤ 64 }
    ensures dag { IfOk result (λ dag. dag ≡ spec.plain_dag flat.now p) }
    ensures valid { IfOk result (Valid flat.now) }
    ensures uniform { HasMainPorts flat.now → IfOk result (λ dag. is_uniform dag ≡ true) }
{
    keeps(flat);
    let first = first_dag(alloc, flat)?;
    let spread = set_parallelism(alloc, flat, first, p)?;
    set_patterns(alloc, flat, spread)
}

/// What the type of a flat job says of it.
fn keeps(flat: &FlatJob)
    ensures { IsFlat flat.now }
{
    let _vertices = &flat.vertices;
}
