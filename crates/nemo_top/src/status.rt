ghost use Rattle.std.specs.Prelude.{◌≡◌};
ghost use Rattle.nemo_top.specs.Statuses.{number_of};

use nemo_bundle::BundleEnd;
use nemo_check::CheckEnd;
use nemo_core::Event;
use nemo_io::ReadRefused;
use nemo_job::JobEnd;
use nemo_value::{Kind, List, NoMemory, Record, Text};

/// How a call ended.
#[derive(Drop)]
pub enum Status {
    /// The command ended as asked.
    Done,
    /// The words are no command.
    Usage,
    /// A read failed.
    ReadFault,
    /// A write failed.
    WriteFault,
    /// The bytes are no JSON.
    NotJson,
    /// More than 33,554,432 bytes were read.
    TooLong,
    /// The JSON value is no bundle: the code of the first rule that it breaks, with the least place.
    BundleRefused { code: u32, place: u64 },
    /// The DAG that was proposed isn't valid: the first clause that fails, with its least index.
    DagRefused { clause: u32, index: u64 },
    /// A fault reached a sink: the first by the vertex where it arose, its kind and its record.
    TransformFault { name: Text, kind: Kind, rec: Record },
    /// No memory was left.
    NoMemory,
}

/// What a call answers: how it ended, and the history of the run, which is empty where nothing ran.
#[derive(Drop)]
pub struct Ended {
    pub status: Status,
    pub log: List<Event>,
}

impl Status {
    /// The exit status of the program.
    pub fn number(&self) -> u8
        ensures { result ≡ number_of self.now }
    {
        match self {
            Status::Done => 0,
            Status::Usage => 2,
            Status::ReadFault => 3,
            Status::WriteFault => 4,
            Status::NotJson => 5,
            Status::TooLong => 6,
            Status::BundleRefused { .. } => 7,
            Status::DagRefused { .. } => 8,
            Status::TransformFault { .. } => 9,
            Status::NoMemory => 13,
        }
    }
}

impl From<NoMemory> for Status {
    ghost use Rattle.std.specs.Prelude.{◌≡◌};
    ghost use Rattle.nemo_top.specs.declared.status.Status.TheVariants.{NoMemory};

    ghost from_gives = { λ _ status. status ≡ NoMemory };

    fn from(_e: NoMemory) -> Status {
        Status::NoMemory
    }
}

impl From<ReadRefused> for Status {
    ghost use Rattle.std.specs.Prelude.{◌≡◌};
    ghost use Rattle.nemo_top.specs.Reached.{of_read};

    ghost from_gives = { λ refused status. status ≡ of_read refused };

    fn from(refused: ReadRefused) -> Status {
        match refused {
            ReadRefused::Failed => Status::ReadFault,
            ReadRefused::TooLong => Status::TooLong,
            ReadRefused::NoMemory => Status::NoMemory,
        }
    }
}

impl From<BundleEnd> for Status {
    ghost use Rattle.std.specs.Prelude.{◌≡◌};
    ghost use Rattle.nemo_top.specs.Reached.{of_bundle};

    ghost from_gives = { λ end status. status ≡ of_bundle end };

    fn from(end: BundleEnd) -> Status {
        match end {
            BundleEnd::Refused { code, place } => Status::BundleRefused { code, place },
            BundleEnd::NoMemory => Status::NoMemory,
        }
    }
}

impl From<CheckEnd> for Status {
    ghost use Rattle.std.specs.Prelude.{◌≡◌};
    ghost use Rattle.nemo_top.specs.Reached.{of_check};

    ghost from_gives = { λ end status. status ≡ of_check end };

    fn from(end: CheckEnd) -> Status {
        match end {
            CheckEnd::Refused { clause, index } => Status::DagRefused { clause, index },
            CheckEnd::NoMemory => Status::NoMemory,
        }
    }
}

impl From<JobEnd> for Status {
    ghost use Rattle.std.specs.Prelude.{◌≡◌};
    ghost use Rattle.nemo_top.specs.Reached.{of_job};

    ghost from_gives = { λ end status. status ≡ of_job end };

    fn from(end: JobEnd) -> Status {
        match end {
            JobEnd::Fault { name, kind, rec } => Status::TransformFault { name, kind, rec },
            JobEnd::NoMemory => Status::NoMemory,
        }
    }
}
