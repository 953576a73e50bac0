ghost use Rattle.std.specs.Prelude.{◌≡◌};
ghost use Rattle.nemo_bundle.specs.Ends as spec;

use nemo_flat::FlattenRefused;
use nemo_job::JobRefused;
use nemo_read::PartEnd;
use nemo_value::NoMemory;
use thiserror::Error;

/// Why a value gives no bundle: it is refused, with the code of the reason and the place where it stands, or no
/// memory was left.
#[derive(Debug, Clone, Copy, Error)]
pub enum BundleEnd {
    #[error("bundle refused {code} {place}")]
    Refused { code: u32, place: u64 },
    #[error("no memory")]
    NoMemory,
}

/// What fails, where it is no rule of jobs: those have codes 3 to 8.
#[derive(Clone, Copy)]
pub(crate) enum Code {
    /// The value is no object, or its version isn't the one that there is.
    Top,
    /// A vertex has not its form, or there is no array of vertices.
    VertexShape,
    /// There are too many copies.
    TooMany,
    Setting,
    ScriptLine,
    Step,
    DagVertex,
    DagEdge,
    DagRep,
}

impl Code {
    pub fn number(self) -> u32
        ensures { result ≡ spec.number self }
    {
        match self {
            Code::Top => 1,
            Code::VertexShape => 2,
            Code::TooMany => 9,
            Code::Setting => 10,
            Code::ScriptLine => 11,
            Code::Step => 12,
            Code::DagVertex => 13,
            Code::DagEdge => 14,
            Code::DagRep => 15,
        }
    }

    /// The refusal with this code, at this place.
    pub fn at(self, place: u64) -> BundleEnd
        ensures { result ≡ spec.refused_at self place }
    {
        BundleEnd::Refused {
            code: self.number(),
            place,
        }
    }
}

impl From<NoMemory> for BundleEnd {
    ghost use Rattle.std.specs.Prelude.{◌≡◌};
    ghost use Rattle.nemo_bundle.specs.declared.end.BundleEnd.TheVariants.{NoMemory};

    ghost from_gives = { λ _ e. e ≡ NoMemory };

    fn from(_e: NoMemory) -> BundleEnd {
        BundleEnd::NoMemory
    }
}

/// Codes 3 to 8: the vertices are no job.
impl From<JobRefused> for BundleEnd {
    ghost use Rattle.std.specs.Prelude.{◌≡◌};
    ghost use Rattle.nemo_bundle.specs.Ends.{end_of_job};

    ghost from_gives = { λ refused e. e ≡ end_of_job refused };

    fn from(refused: JobRefused) -> BundleEnd {
        match refused {
            JobRefused::Refused { code, place } => BundleEnd::Refused { code, place },
            JobRefused::NoMemory => BundleEnd::NoMemory,
        }
    }
}

/// The job has too many copies, whose number is the place.
impl From<FlattenRefused> for BundleEnd {
    ghost use Rattle.std.specs.Prelude.{◌≡◌};
    ghost use Rattle.nemo_bundle.specs.Ends.{end_of_flat};

    ghost from_gives = { λ refused e. e ≡ end_of_flat refused };

    fn from(refused: FlattenRefused) -> BundleEnd {
        match refused {
            FlattenRefused::TooMany { count } => Code::TooMany.at(count),
            FlattenRefused::NoMemory => BundleEnd::NoMemory,
        }
    }
}

/// Why what has places can't be read: the first thing that has not its form, by its place, or no memory was left.
#[derive(Clone, Copy)]
pub(crate) enum WalkEnd {
    Malformed { place: u64 },
    NoMemory,
}

impl From<NoMemory> for WalkEnd {
    ghost use Rattle.std.specs.Prelude.{◌≡◌};
    ghost use Rattle.nemo_bundle.specs.declared.end.WalkEnd.TheVariants.{NoMemory};

    ghost from_gives = { λ _ e. e ≡ NoMemory };

    fn from(_e: NoMemory) -> WalkEnd {
        WalkEnd::NoMemory
    }
}

/// What was read at this place.
pub(crate) fn placed<T: Drop>(place: u64, read: Result<T, PartEnd>) -> Result<T, WalkEnd>
    ensures { result ≡ spec.placed place read }
{
    match read {
        Ok(item) => Ok(item),
        Err(PartEnd::Malformed) => Err(WalkEnd::Malformed { place }),
        Err(PartEnd::NoMemory) => Err(WalkEnd::NoMemory),
    }
}

/// What was read for a bundle that is refused with this code where it can't be.
pub(crate) fn coded<T: Drop>(code: Code, read: Result<T, WalkEnd>) -> Result<T, BundleEnd>
    ensures { result ≡ spec.coded code read }
{
    match read {
        Ok(all) => Ok(all),
        Err(WalkEnd::Malformed { place }) => Err(code.at(place)),
        Err(WalkEnd::NoMemory) => Err(BundleEnd::NoMemory),
    }
}
