ghost use Rattle.std.specs.Prelude.{◌≡◌, ℕ, List, true, IfOk};
ghost use Rattle.serde_json.specs.View.{view};
ghost use Rattle.nemo_ir.specs.Uniform.{is_uniform};
ghost use Rattle.nemo_ir.specs.Valid.{Valid};
ghost use Rattle.nemo_job.specs.Sinks.{job_rows};
ghost use Rattle.nemo_top.specs.Answers.{Leads};
ghost use Rattle.nemo_top.specs.Bundles.{IsJson, dag_of};
ghost use Rattle.nemo_top.specs.Ends.{Ends, IsSoloDone};
ghost use Rattle.nemo_top.specs.Reached.{Reaches};
ghost use Rattle.nemo_top.specs.Served.{IsRunnable};
ghost use Rattle.nemo_top.specs.declared.word.Command.{Command};

use crate::dags::valid_dag;
use crate::reached::Reached;
use crate::serving::read_served;
use crate::status::Status;
use crate::texts::done_text;
use nemo_bundle::Bundle;
use nemo_ir::IrDag;
use nemo_plan::Plan;
use nemo_replay::RunEnd;
use nemo_value::NoMemory;
use serde_json::Value;
use std::alloc::Global;

/// Runs the bundle that a value stands for on one thread.
pub(crate) fn solo(alloc: Global, value: Value) -> Result<Reached, Status>
    ensures { (bytes : List ℕ) → IsJson bytes (view value) → Reaches result (Leads Command.Solo bytes) }
{
    let bundle = read_served(alloc, value)?;
    run_bundle(alloc, bundle)
}

/// Runs the plan of a bundle, and prints its sinks once the bundle and the plan are gone.
fn run_bundle(alloc: Global, bundle: Bundle) -> Result<Reached, Status>
    requires { IsRunnable bundle }
    ensures { Reaches result (Ends Command.Solo bundle) }
{
    match valid_dag(alloc, &bundle) {
        Ok(dag) => run_dag(alloc, bundle, dag),
        Err(end) => Err(Status::from(end)),
    }
}

fn run_dag(alloc: Global, bundle: Bundle, dag: IrDag) -> Result<Reached, Status>
    requires bundle { IsRunnable bundle }
    requires dag { dag ≡ dag_of bundle }
    requires valid { Valid bundle.flat dag }
    requires uniform { is_uniform dag ≡ true }
    ensures { Reaches result (Ends Command.Solo bundle) }
{
    let end = run(alloc, bundle, dag)?;
    let text = done_text(alloc, &end.sinks)?;
    Ok(Reached {
        status: Status::Done,
        log: end.log,
        text,
    })
}

/// The run of a plan of a bundle, of which the history and the rows of the sinks are left.
fn run(alloc: Global, bundle: Bundle, dag: IrDag) -> Result<RunEnd, NoMemory>
    requires bundle { IsRunnable bundle }
    requires dag { dag ≡ dag_of bundle }
    requires valid { Valid bundle.flat dag }
    requires uniform { is_uniform dag ≡ true }
    ensures done { IfOk result (λ end. IsSoloDone bundle end.log) }
    ensures sinks { IfOk result (λ end. end.sinks ≡ job_rows bundle.job) }
{
    let Bundle {
        flat,
        settings,
        script,
        ..
    } = bundle;
    let plan = Plan::new(alloc, flat, dag)?;
    nemo_replay::solo(alloc, &plan, settings, script)
}
