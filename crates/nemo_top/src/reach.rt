ghost use Rattle.std.specs.Cow.{cow_slice_items};
ghost use Rattle.nemo_top.specs.Answers.{Answers, Leads};
ghost use Rattle.nemo_top.specs.Calls.{call_of};
ghost use Rattle.nemo_top.specs.Reached.{Reaches};

use crate::check::check;
use crate::eval::eval;
use crate::parse::parse;
use crate::reached::{Reached, alone};
use crate::solo::solo;
use crate::status::Status;
use crate::word::{Command, Word, command_of};
use nemo_io::{Source, read_to_end};
use std::alloc::Global;

/// What the words and the source's content lead to.
pub(crate) fn reach<S: Source>(alloc: Global, words: &[Word], source: &mut S) -> Reached
    ensures { let call = call_of words.now (S.left source.old) (S.left source.new) (S.faults source.old) (S.faults source.new) in
        Answers call result.status result.log (cow_slice_items result.text) }
{
    match try_reach(alloc, words, source) {
        Ok(reached) => reached,
        Err(status) => alone(alloc, status),
    }
}

/// The same, but for the text of a status that stands alone.
fn try_reach<S: Source>(alloc: Global, words: &[Word], source: &mut S) -> Result<Reached, Status>
    ensures { let call = call_of words.now (S.left source.old) (S.left source.new) (S.faults source.old) (S.faults source.new) in
        Reaches result (Answers call) }
{
    let Some(command) = command_of(words) else {
        return Err(Status::Usage);
    };
    let bytes = read_to_end(alloc, source)?;
    serve(alloc, command, bytes)
}

/// What the bytes lead to. They are dropped once they are read.
fn serve(alloc: Global, command: Command, bytes: Vec<u8>) -> Result<Reached, Status>
    ensures { Reaches result (Leads command bytes.items) }
{
    let value = parse(alloc, bytes)?;
    match command {
        Command::Eval => eval(alloc, value),
        Command::Check => check(alloc, value),
        Command::Solo => solo(alloc, value),
    }
}
