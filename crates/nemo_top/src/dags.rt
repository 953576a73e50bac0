ghost use Rattle.std.specs.Prelude.{◌≡◌, true, IfOk, IfErr, IfSome};
ghost use Rattle.nemo_check.specs.Finds.{IsEnd};
ghost use Rattle.nemo_ir.specs.Uniform.{is_uniform};
ghost use Rattle.nemo_ir.specs.Valid.{Valid};
ghost use Rattle.nemo_policy.specs.Main.{HasMainPorts};
ghost use Rattle.nemo_top.specs.Bundles.{dag_of};
ghost use Rattle.nemo_top.specs.Reached.{IsDagEnd};
ghost use Rattle.nemo_top.specs.Served.{HasDag};

use nemo_bundle::Bundle;
use nemo_check::{CheckEnd, check};
use nemo_ir::{FlatJob, IrDag};
use nemo_policy::apply_policy;
use nemo_value::TryCopy;
use std::alloc::Global;

/// The DAG of a bundle, which is valid: the one that it proposes, where the checker accepts it, and else what its policy
/// makes of its job.
pub(crate) fn valid_dag(alloc: Global, bundle: &Bundle) -> Result<IrDag, CheckEnd>
    requires { HasDag bundle.now }
    ensures dag { IfOk result (λ dag. dag ≡ dag_of bundle.now) }
    ensures valid { IfOk result (Valid bundle.now.flat) }
    ensures uniform { HasMainPorts bundle.now.flat → IfSome bundle.now.dag (λ dag. is_uniform dag ≡ true) → IfOk result (λ dag. is_uniform dag ≡ true) }
    ensures refused { IfErr result (IsDagEnd bundle.now) }
{
    match &bundle.dag {
        Some(dag) => accepted(alloc, &bundle.flat, dag),
        None => Ok(apply_policy(alloc, &bundle.flat, bundle.policy, bundle.parallelism)?),
    }
}

/// A copy of a DAG that the checker accepts.
fn accepted(alloc: Global, flat: &FlatJob, dag: &IrDag) -> Result<IrDag, CheckEnd>
    ensures dag { IfOk result (λ copy. copy ≡ dag.now) }
    ensures valid { IfOk result (λ _. Valid flat.now dag.now) }
    ensures refused { IfErr result (IsEnd flat.now dag.now) }
{
    check(alloc, flat, dag)?;
    Ok(dag.copy(alloc)?)
}
