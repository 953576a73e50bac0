ghost use Rattle.std.specs.Prelude.{◌≡◌, ℕ, List, [], Ok, IfOk, IfErr};
ghost use Rattle.serde_json.specs.View.{view};
ghost use Rattle.nemo_job.specs.Ends.{IsEndOf};
ghost use Rattle.nemo_job.specs.Sinks.{job_faults, job_rows};
ghost use Rattle.nemo_top.specs.Answers.{Leads};
ghost use Rattle.nemo_top.specs.Bundles.{IsJson};
ghost use Rattle.nemo_top.specs.Reached.{Reaches};
ghost use Rattle.nemo_top.specs.declared.word.Command.{Command};

use crate::reached::{Reached, done};
use crate::status::Status;
use crate::texts::done_text;
use nemo_bundle::read_job;
use nemo_job::{Job, JobEnd, eval_job};
use nemo_value::{List, SinkRows};
use serde_json::Value;
use std::alloc::Global;

/// Evaluates the job of the bundle that a value stands for. The value goes while its job is read, and the job before its
/// sinks are printed.
pub(crate) fn eval(alloc: Global, value: Value) -> Result<Reached, Status>
    ensures { (bytes : List ℕ) → IsJson bytes (view value) → Reaches result (Leads Command.Eval bytes) }
{
    let job = read_job(alloc, value)?;
    let sinks = sinks_of(alloc, job)?;
    let text = done_text(alloc, &sinks)?;
    Ok(done(alloc, text))
}

/// What a job gives to its sinks, or its first fault.
fn sinks_of(alloc: Global, job: Job) -> Result<List<SinkRows>, JobEnd>
    ensures rows { IfOk result (λ sinks. sinks ≡ job_rows job) }
    ensures faultless { IfOk result (λ _. job_faults job ≡ []) }
    ensures end { IfErr result (IsEndOf job) }
{
    match eval_job(alloc, &job) {
        Ok(sinks) => Ok(List::from_vec(sinks)),
        Err(end) => Err(end),
    }
}
