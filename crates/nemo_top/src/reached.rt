ghost use Rattle.std.specs.Prelude.{◌≡◌, []};
ghost use Rattle.std.specs.Cow.{cow_slice_items};
ghost use Rattle.nemo_top.specs.Reached.{StandsFor};
ghost use Rattle.nemo_top.specs.Statuses.{Alone};
ghost use Rattle.nemo_top.specs.declared.status.Status.{Status};

use crate::status::Status;
use crate::texts::status_text;
use nemo_core::Event;
use nemo_value::{List, NoMemory};
use std::alloc::Global;
use std::borrow::CowSlice;

/// A status that was reached before anything is written, with the history of its run and its text.
#[derive(Drop)]
pub struct Reached {
    pub status: Status,
    pub log: List<Event>,
    pub text: CowSlice<'static, u8>,
}

/// What is done where nothing ran, with its text.
pub(crate) fn done(alloc: Global, text: CowSlice<'static, u8>) -> Reached
    ensures status { result.status ≡ Status.Done }
    ensures log { result.log ≡ [] }
    ensures text { cow_slice_items result.text ≡ cow_slice_items text.entry }
{
    Reached {
        status: Status::Done,
        log: List::new(alloc),
        text,
    }
}

/// A status alone, with its last line; NoMemory in its place where no memory is left for that.
pub(crate) fn alone(alloc: Global, status: Status) -> Reached
    ensures status { StandsFor result.status status }
    ensures alone { Alone result.status result.log (cow_slice_items result.text) }
{
    let text = status_text(alloc, &status);
    match text {
        Ok(text) => Reached {
            status,
            log: List::new(alloc),
            text,
        },
        Err(NoMemory) => Reached {
            status: Status::NoMemory,
            log: List::new(alloc),
            text: CowSlice::Borrowed(b"no memory\n"),
        },
    }
}
