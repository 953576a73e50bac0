ghost use Rattle.std.specs.Prelude.{◌≡◌, true, IfOk, IfErr};
ghost use Rattle.nemo_job.specs.Fitting.{are_fitting};
ghost use Rattle.nemo_job.specs.Refusals.{IsJob, IsRefused};

use crate::refusals::look_at;
use crate::vertex::JobVertex;
use nemo_value::{List, NoMemory};
use std::alloc::Global;
use std::marker::Model;

/// A job: the list of its vertices, of which nothing is refused. Contracts see the list.
#[derive(Drop)]
pub struct Job {
    vertices: List<JobVertex>,
}

impl Model for Job {
    ghost use Rattle.std.specs.Prelude.{List};
    ghost use Rattle.std.specs.Coded.{coded_list};
    ghost use Rattle.nemo_job.specs.Refusals.{IsJob};
    ghost use Rattle.nemo_job.specs.contracts.vertex.JobVertex as vertex;
    ghost use Rattle.nemo_job.specs.declared.vertex.JobVertex.{JobVertex};

    ghost Value = { List JobVertex };

    ghost coded = { coded_list vertex.the_row.coded };

    ghost view = { λ j. j.vertices };

    ghost invariant = { λ j. IsJob j.vertices };
}

/// Why vertices are no job: the code of the refusal, with the place of the vertex that it names, or want of memory.
#[derive(Drop)]
pub enum JobRefused {
    Refused { code: u32, place: u64 },
    NoMemory,
}

impl From<NoMemory> for JobRefused {
    ghost use Rattle.nemo_job.specs.declared.job.JobRefused.TheVariants.{NoMemory};
    ghost use Rattle.std.specs.Prelude.{◌≡◌};

    ghost from_gives = { λ _ e. e ≡ NoMemory };

    fn from(_e: NoMemory) -> JobRefused {
        JobRefused::NoMemory
    }
}

impl Job {
    /// The vertices as a job. They have to be fitting, also those in the bodies of loops: a union has as many ports as
    /// inputs, a sink its vertex's name, and any other transform is sound. Refused is the first code that fails
    /// anywhere, with its least place, where vertices are counted from 0 in list order and a loop before its body:
    /// a name that a vertex before it in its list, or a port of the loop around it, has, or two ports of one name at
    /// the place of their loop (3); an input, or what `next` of a loop names, that names nothing, a sink, or a port
    /// that isn't there (4); an input that names the vertex itself or a later one (5); another number of inputs than of
    /// ports (6); a loop of not 1 to 64 turns or not 1 to 16 ports, whose `next` has another length, with more than two
    /// loops around it, or with a source or a sink in its body (7); and no sink at all (8, at 0).
    pub fn new(alloc: Global, vertices: Vec<JobVertex>) -> Result<Job, JobRefused>
        requires { are_fitting vertices.items ≡ true }
        ensures ok { IfOk result (λ job. job ≡ vertices.items) }
        ensures job { IfOk result IsJob }
        ensures err { IfErr result (IsRefused vertices.items) }
    {
        look_at(alloc, vertices.as_slice())?;
        Ok(Job {
            vertices: List::from_vec(vertices),
        })
    }

    /// The vertices that the job was made of.
    pub fn vertices(&self) -> &List<JobVertex>
        ensures vertices { result.now ≡ self.now }
        ensures job { IsJob self.now }
    {
        &self.vertices
    }
}
