ghost use Rattle.std.specs.Prelude.{◌≡◌, ◌≤◌, ◌^◌, ◌-◌, [], min, true, IfOk, IfErr, OnOk};
ghost use Rattle.std.specs.List.{list_all};
ghost use Rattle.nemo_value.specs.Texts.{all_new};
ghost use Rattle.nemo_flat.specs.Counts.{IsTooMany, copies};
ghost use Rattle.nemo_flat.specs.Flat.{flat_of};
ghost use Rattle.nemo_flat.specs.Flattened.{flattened};
ghost use Rattle.nemo_ir.specs.Meaning.{flat_faults, flat_reached, flat_rows};
ghost use Rattle.nemo_flat.specs.Names.{is_word, vertex_names};
ghost use Rattle.nemo_flat.specs.declared.copies.FlattenRefused.{FlattenRefused};
ghost use Rattle.nemo_ir.specs.Line.{IsLine};
ghost use Rattle.nemo_job.specs.Chain.{is_built};
ghost use Rattle.nemo_job.specs.Refusals.{IsJob};
ghost use Rattle.nemo_job.specs.Sinks.{job_faults, job_rows, sinks_reached};

use crate::counting::count_copies;
use crate::keeping::kept_vertices;
use crate::table::table;
use nemo_base::limits::MAX_COPIES;
use nemo_ir::{FlatJob, FlatVertex};
use nemo_job::{Job, JobVertex, unroll};
use nemo_value::{List, NoMemory};
use std::alloc::Global;
use thiserror::Error;

/// Why a job has no flat job: it has more than 512 copies, or memory ran out.
#[derive(Debug, Drop, Error)]
pub enum FlattenRefused {
    #[error("{count} copies of vertices, of which there may be 512")]
    TooMany { count: u64 },
    #[error("no memory")]
    NoMemory,
}

impl From<NoMemory> for FlattenRefused {
    ghost use Rattle.nemo_flat.specs.declared.copies.FlattenRefused.TheVariants.{NoMemory};
    ghost use Rattle.std.specs.Prelude.{◌≡◌};

    ghost from_gives = { λ _ e. e ≡ NoMemory };

    fn from(_e: NoMemory) -> FlattenRefused {
        FlattenRefused::NoMemory
    }
}

/// The flat job of a job: the copies of its vertices that reach a sink, a loop's turn by turn in the loop's place, named
/// by their paths and with the transforms of the job's operations. Its sinks get what the job gives them, row by row,
/// and the same faults reach them. Its names differ and hold neither a space nor a newline. More than 512 copies, also
/// of vertices that reach no sink, are refused with their number. The flat job of a chain is a line.
pub fn flatten(alloc: Global, job: &Job) -> Result<FlatJob, FlattenRefused>
    ensures flat { IfOk result (λ flat. flat ≡ flattened job.now) }
    ensures few { IfOk result (λ flat. copies job.now ≤ 512) }
    ensures end { IfErr result (IsTooMany (copies job.now)) }
    ensures reached { IfOk result (λ flat. flat_reached flat ≡ sinks_reached job.now) }
    ensures rows { IfOk result (λ flat. flat_rows flat ≡ job_rows job.now) }
    ensures faults { IfOk result (λ flat. flat_faults flat ≡ job_faults job.now) }
    ensures differ { IfOk result (λ flat. all_new [] (vertex_names flat) ≡ true) }
    ensures words { IfOk result (λ flat. list_all is_word (vertex_names flat) ≡ true) }
    ensures chain { is_built job.now ≡ true → IfOk result (λ flat. flat ≡ flat_of job.now) }
    ensures line { is_built job.now ≡ true → IfOk result IsLine }
    ensures chain_end { is_built job.now ≡ true → IfErr result (λ e. e ≡ FlattenRefused.NoMemory) }
{
    let vertices = flat_vertices(alloc, job)?;
    let transforms = table(alloc, job.vertices().as_slice())?;
    Ok(FlatJob {
        transforms,
        vertices,
    })
}

/// The vertices of the flat job of a job, for those who need no transforms, which are copied into a flat job.
pub fn flat_vertices(alloc: Global, job: &Job) -> Result<List<FlatVertex>, FlattenRefused>
    ensures vertices { IfOk result (λ vertices. vertices ≡ (flattened job.now).vertices) }
    ensures few { IfOk result (λ vertices. copies job.now ≤ 512) }
    ensures end { IfErr result (IsTooMany (copies job.now)) }
    ensures chain_end { is_built job.now ≡ true → IfErr result (λ e. e ≡ FlattenRefused.NoMemory) }
{
    check_copies(job)?;
    Ok(few_vertices(alloc, job.vertices().as_slice())?)
}

/// The refusal of a job of more than 512 copies, for those who need no flat job. It takes no memory.
pub fn check_copies(job: &Job) -> Result<(), FlattenRefused>
    ensures few { OnOk result (copies job.now ≤ 512) }
    ensures end { IfErr result (λ e. (513 ≤ copies job.now) × (e ≡ FlattenRefused.TooMany (min (copies job.now) (2 ^ 64 - 1)))) }
{
    let count = count_copies(job.vertices().as_slice());
    if count > MAX_COPIES as u64 {
        return Err(FlattenRefused::TooMany { count });
    }
    Ok(())
}

/// Those of a job of at most 512 copies.
fn few_vertices(alloc: Global, vertices: &[JobVertex]) -> Result<List<FlatVertex>, NoMemory>
    requires job { IsJob vertices.now }
    requires few { copies vertices.now ≤ 512 }
    ensures { IfOk result (λ all. all ≡ (flattened vertices.now).vertices) }
{
    let nodes = unroll(alloc, vertices)?;
    kept_vertices(alloc, nodes.as_slice())
}
