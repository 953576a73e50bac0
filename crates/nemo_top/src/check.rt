ghost use Rattle.std.specs.Prelude.{◌≡◌, ◌∷◌, [], ℕ, List, None, length, IfErr, IfOk};
ghost use Rattle.std.specs.Cow.{cow_slice_items};
ghost use Rattle.serde_json.specs.View.{view};
ghost use Rattle.nemo_check.specs.Finds.{IsEnd};
ghost use Rattle.nemo_ir.specs.Valid.{Valid};
ghost use Rattle.nemo_report.specs.Texts.{text_of};
ghost use Rattle.nemo_top.specs.Answers.{Leads};
ghost use Rattle.nemo_top.specs.Bundles.{IsJson, dag_of};
ghost use Rattle.nemo_top.specs.Ends.{Ends, done_lines};
ghost use Rattle.nemo_top.specs.Reached.{IsDagEnd, Reaches};
ghost use Rattle.nemo_top.specs.Served.{HasDag};
ghost use Rattle.nemo_top.specs.Statuses.{accepted_line};
ghost use Rattle.nemo_top.specs.declared.word.Command.{Command};

use crate::reached::{Reached, done};
use crate::serving::read_checked;
use crate::status::Status;
use crate::texts::accepted_text;
use nemo_bundle::Bundle;
use nemo_check::CheckEnd;
use nemo_ir::{FlatJob, IrDag};
use nemo_policy::apply_policy;
use serde_json::Value;
use std::alloc::Global;
use std::borrow::CowSlice;

/// Checks the DAG of the bundle that a value stands for.
pub(crate) fn check(alloc: Global, value: Value) -> Result<Reached, Status>
    ensures { (bytes : List ℕ) → IsJson bytes (view value) → Reaches result (Leads Command.Check bytes) }
{
    let bundle = read_checked(alloc, value)?;
    check_bundle(alloc, &bundle)
}

/// Checks the DAG of a bundle: the one that it proposes, or what its policy makes of its job.
fn check_bundle(alloc: Global, bundle: &Bundle) -> Result<Reached, Status>
    requires { HasDag bundle.now }
    ensures { Reaches result (Ends Command.Check bundle.now) }
{
    let text = checked_text(alloc, bundle)?;
    Ok(done(alloc, text))
}

/// The line of a DAG that is valid.
fn checked_text(alloc: Global, bundle: &Bundle) -> Result<CowSlice<'static, u8>, CheckEnd>
    requires { HasDag bundle.now }
    ensures text { IfOk result (λ text. cow_slice_items text ≡ text_of (done_lines Command.Check bundle.now)) }
    ensures valid { IfOk result (λ _. Valid bundle.now.flat (dag_of bundle.now)) }
    ensures refused { IfErr result (IsDagEnd bundle.now) }
{
    match &bundle.dag {
        Some(dag) => accepted(alloc, &bundle.flat, dag),
        None => policy_text(alloc, bundle),
    }
}

/// The line of a DAG that the checker accepts.
fn accepted(alloc: Global, flat: &FlatJob, dag: &IrDag) -> Result<CowSlice<'static, u8>, CheckEnd>
    ensures text { IfOk result (λ text. cow_slice_items text ≡ text_of (accepted_line (length dag.now.vertices) (length dag.now.edges) ∷ [])) }
    ensures valid { IfOk result (λ _. Valid flat.now dag.now) }
    ensures refused { IfErr result (IsEnd flat.now dag.now) }
{
    nemo_check::check(alloc, flat, dag)?;
    Ok(accepted_text(alloc, dag)?)
}

/// The line of the DAG that the policy makes, where none is proposed.
fn policy_text(alloc: Global, bundle: &Bundle) -> Result<CowSlice<'static, u8>, CheckEnd>
    requires dag { HasDag bundle.now }
    requires none { bundle.now.dag ≡ None }
    ensures text { IfOk result (λ text. cow_slice_items text ≡ text_of (done_lines Command.Check bundle.now)) }
    ensures valid { IfOk result (λ _. Valid bundle.now.flat (dag_of bundle.now)) }
    ensures refused { IfErr result (IsDagEnd bundle.now) }
{
    let dag = apply_policy(alloc, &bundle.flat, bundle.policy, bundle.parallelism)?;
    Ok(accepted_text(alloc, &dag)?)
}
