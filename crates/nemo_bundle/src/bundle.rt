ghost use Rattle.std.specs.Prelude.{◌≡◌, ◌≤◌, true, IfErr, IfOk, codes, is_some};
ghost use Rattle.std.specs.List.{list_all};
ghost use Rattle.serde_json.specs.Find.{get};
ghost use Rattle.serde_json.specs.View.{view};
ghost use Rattle.nemo_base.specs.Script.{IsScript};
ghost use Rattle.nemo_flat.specs.Counts.{IsTooMany, copies};
ghost use Rattle.nemo_flat.specs.Flattened.{flattened};
ghost use Rattle.nemo_ir.specs.declared.flat.FlatVertex.{FlatVertex};
ghost use Rattle.nemo_job.specs.Chain.{has_fields};
ghost use Rattle.nemo_job.specs.Fitting.{are_fitting};
ghost use Rattle.nemo_read.specs.Parts.{KeepsOthers};
ghost use Rattle.nemo_bundle.specs.Answers.{Gives};
ghost use Rattle.nemo_bundle.specs.Read.{bundle_of, job_in, job_of};
ghost use Rattle.nemo_bundle.specs.Read as spec;

use crate::choices::{Choices, read_choices};
use crate::dags::read_dag;
use crate::end::{BundleEnd, Code, coded};
use crate::schedules::read_schedule;
use crate::scripts::read_script;
use crate::walk::{MAX_DEPTH, read_vertices};
use nemo_base::{Move, Policy, ScriptLine, Settings};
use nemo_flat::{FlattenRefused, check_copies, flat_vertices, flatten};
use nemo_ir::{FlatJob, FlatVertex, IrDag};
use nemo_job::{Job, JobVertex};
use nemo_read::take_member;
use nemo_value::List;
use serde_json::Value;
use std::alloc::Global;

/// What a bundle asks for: a job and its flat job, the slots and limits of a run, how many tasks a vertex may have, the
/// policy, the DAG that is proposed if one is, and what is to happen in a run and in a replay.
#[derive(Drop)]
pub struct Bundle {
    pub job: Job,
    pub flat: FlatJob,
    pub settings: Settings,
    pub parallelism: u32,
    pub policy: Policy,
    pub dag: Option<IrDag>,
    pub script: List<ScriptLine>,
    pub schedule: List<Move>,
}

/// The bundle that a JSON value stands for, or the refusal of the first code that fails anywhere, with its least place. What
/// is large in the value goes while it is read.
pub fn read_bundle(alloc: Global, mut value: Value) -> Result<Bundle, BundleEnd>
    ensures bundle { Gives result (bundle_of (view value)) }
    ensures tasks { IfOk result (λ b. (1 ≤ b.parallelism) × (b.parallelism ≤ 64)) }
    ensures script { IfOk result (λ b. IsScript b.settings b.script) }
    ensures filled { IfOk result (λ b. list_all has_fields b.job ≡ true) }
    ensures flat { IfOk result (λ b. b.flat ≡ flattened b.job) }
    ensures given { IfOk result (λ b. is_some b.dag ≡ is_some (get (codes "dag") (view value))) }
{
    let job = accepted_job(alloc, &mut value)?;
    bundle_beside(alloc, job, &value)
}

/// The bundle of a job and the members beside it, or the refusal of codes 9 to 15.
fn bundle_beside(alloc: Global, job: Job, value: &Value) -> Result<Bundle, BundleEnd>
    ensures bundle { Gives result (spec.bundle_beside (view value.now) job) }
    ensures job { IfOk result (λ b. b.job ≡ job) }
    ensures tasks { IfOk result (λ b. (1 ≤ b.parallelism) × (b.parallelism ≤ 64)) }
    ensures script { IfOk result (λ b. IsScript b.settings b.script) }
    ensures flat { IfOk result (λ b. b.flat ≡ flattened b.job) }
    ensures given { IfOk result (λ b. is_some b.dag ≡ is_some (get (codes "dag") (view value.now))) }
{
    let flat = flatten(alloc, &job)?;
    let Members {
        choices,
        script,
        schedule,
        dag,
    } = read_members(alloc, value, flat.vertices.as_slice())?;
    let Choices {
        parallelism,
        policy,
        settings,
    } = choices;
    Ok(Bundle {
        job,
        flat,
        settings,
        parallelism,
        policy,
        dag,
        script,
        schedule,
    })
}

/// The job of the bundle that a JSON value stands for, or the same refusal. It makes no flat job, which has copies of the
/// job's transforms and so of the rows of its sources, and unrolls loops only for a DAG that names their copies.
pub fn read_job(alloc: Global, mut value: Value) -> Result<Job, BundleEnd>
    ensures job { Gives result (job_in (view value)) }
{
    let job = accepted_job(alloc, &mut value)?;
    job_beside(alloc, job, &value)
}

/// The job again, where the members beside it make a bundle with it, or the refusal of codes 9 to 15.
fn job_beside(alloc: Global, job: Job, value: &Value) -> Result<Job, BundleEnd>
    ensures { Gives result (spec.job_beside (view value.now) job) }
{
    let named = named_vertices(alloc, value, &job)?;
    read_members(alloc, value, named.as_slice())?;
    Ok(job)
}

/// The vertices of the flat job, which a proposed DAG names, or none where no DAG is proposed; or the refusal of code 9.
#[tactic(auto, using(crate::proofs::Unnamed::no_dag))]
fn named_vertices(
    alloc: Global,
    value: &Value,
    job: &Job,
) -> Result<List<FlatVertex>, FlattenRefused>
    ensures members { IfOk result (λ named. spec.members_of (view value.now) named ≡ spec.members_of (view value.now) (flattened job.now).vertices) }
    ensures few { IfOk result (λ named. copies job.now ≤ 512) }
    ensures end { IfErr result (IsTooMany (copies job.now)) }
{
    match value.get("dag") {
        Some(_) => flat_vertices(alloc, job),
        None => {
            check_copies(job)?;
            Ok(List::new(alloc))
        }
    }
}

/// The job, or the refusal of codes 1 to 8. It takes the member `job` out of the value, and leaves the others.
fn accepted_job(alloc: Global, value: &mut Value) -> Result<Job, BundleEnd>
    ensures job { Gives result (spec.accepted_job (view value.old)) }
    ensures filled { IfOk result (λ job. list_all has_fields job ≡ true) }
    ensures others { KeepsOthers (codes "job") (view value.old) (view value.new) }
{
    if !has_version(value) {
        return Err(Code::Top.at(0));
    }
    let vertices = take_list(alloc, value)?;
    Ok(Job::new(alloc, vertices.into_vec())?)
}

/// The one version of the form.
const VERSION: i64 = 1;

/// Whether `nemo` is the version.
fn has_version(value: &Value) -> bool
    ensures { result ≡ spec.has_version (view value.now) }
{
    value.get("nemo").and_then(Value::as_i64) == Some(VERSION)
}

/// The vertices of `job`, which is taken out of the value.
fn take_list(alloc: Global, value: &mut Value) -> Result<List<JobVertex>, BundleEnd>
    ensures job { Gives result (job_of (view value.old)) }
    ensures fitting { IfOk result (λ vs. are_fitting vs ≡ true) }
    ensures filled { IfOk result (λ vs. list_all has_fields vs ≡ true) }
    ensures others { KeepsOthers (codes "job") (view value.old) (view value.new) }
{
    let Some(Value::Array(items)) = take_member(value, "job") else {
        return Err(Code::VertexShape.at(0));
    };
    let mut count = 0;
    let vertices = read_vertices(alloc, items, &mut count, MAX_DEPTH);
    coded(Code::VertexShape, vertices)
}

/// What stands beside the job.
#[derive(Drop)]
struct Members {
    choices: Choices,
    script: List<ScriptLine>,
    schedule: List<Move>,
    dag: Option<IrDag>,
}

/// The members beside the job, for a flat job of these vertices, or the refusal of codes 10 to 15.
fn read_members(alloc: Global, value: &Value, flat: &[FlatVertex]) -> Result<Members, BundleEnd>
    ensures members { Gives result (spec.members_of (view value.now) flat.now) }
    ensures tasks { IfOk result (λ m. (1 ≤ m.choices.parallelism) × (m.choices.parallelism ≤ 64)) }
    ensures script { IfOk result (λ m. IsScript m.choices.settings m.script) }
    ensures given { IfOk result (λ m. is_some m.dag ≡ is_some (get (codes "dag") (view value.now))) }
{
    let choices = coded(Code::Setting, read_choices(alloc, value))?;
    let script = coded(
        Code::ScriptLine,
        read_script(alloc, choices.settings, value),
    )?;
    let schedule = coded(Code::Step, read_schedule(alloc, value))?;
    let dag = read_dag(alloc, value, flat)?;
    Ok(Members {
        choices,
        script,
        schedule,
        dag,
    })
}
