ghost use Rattle.std.specs.Prelude.{◌≡◌, ◌≢◌, ℕ, List, OnOk, OnErr};
ghost use Rattle.std.specs.Io.KnownBytes.{Appends};
ghost use Rattle.nemo_bundle.specs.declared.bundle.Bundle.{Bundle};
ghost use Rattle.nemo_io.specs.Faults.{Rose};
ghost use Rattle.nemo_io.specs.Told.{AppendsPart};
ghost use Rattle.nemo_top.specs.Answers.{Answers};
ghost use Rattle.nemo_top.specs.Calls.{call_of};
ghost use Rattle.nemo_top.specs.Complete.{Brings, Completes};
ghost use Rattle.nemo_top.specs.declared.status.Status.{Status};
ghost use Rattle.nemo_top.specs.declared.word.Command.{Command};

use crate::reach::reach;
use crate::reached::Reached;
use crate::status::{Ended, Status};
use crate::word::Word;
use nemo_io::{Failed, Sink, Source, write_all};
use std::alloc::Global;

/// Serves the command that the words name, from the source to the sink: `eval` reads a bundle, evaluates its job and
/// writes the sinks, or the first fault that reaches one; `check` says whether its DAG computes its job; `solo` runs
/// the DAG as tasks on one thread and writes the sinks. `check` and `solo` serve chains alone for now. Causes are looked
/// at in the order words, reading, JSON, bundle, DAG, run. The text of the status is then written; where that fails, the
/// status is WriteFault, a part of the text was given, and the history stays.
pub fn nemo_plain<S: Source, K: Sink>(
    alloc: Global,
    words: &[Word],
    source: &mut S,
    sink: &mut K,
) -> Ended
    // Each status but WriteFault has its cause and its history, and its text was given.
    ensures wrote { let call = call_of words.now (S.left source.old) (S.left source.new) (S.faults source.old) (S.faults source.new) in
        result.status ≢ Status.WriteFault → (text : List ℕ) × Answers call result.status result.log text × Appends (K.given sink.old) (K.given sink.new) text }
    ensures sink_kept { result.status ≢ Status.WriteFault → K.faults sink.new ≡ K.faults sink.old }

    // A WriteFault comes in the place of a status that has its cause and this history, and a part of that one's text
    // was given.
    ensures part { let call = call_of words.now (S.left source.old) (S.left source.new) (S.faults source.old) (S.faults source.new) in
        result.status ≡ Status.WriteFault → (reached : Status) × (text : List ℕ) × Answers call reached result.log text × AppendsPart (K.given sink.old) (K.given sink.new) text }
    ensures write_fault { result.status ≡ Status.WriteFault → Rose (K.faults sink.old) (K.faults sink.new) }

    // Where no read and no write fails, and the content is a bundle whose DAG, if it proposes one, is valid, the command
    // ends as asked or by the first fault of the job, or memory runs out.
    ensures complete { (command : Command) → (bundle : Bundle) → Brings words.now (S.left source.old) command bundle
        → ¬ Rose (S.faults source.old) (S.faults source.new) → ¬ Rose (K.faults sink.old) (K.faults sink.new) → Completes command bundle result.status }
{
    let Reached { status, log, text } = reach(alloc, words, source);
    let written = write_all(sink, text.as_slice());
    let status = status_after(written, status);
    Ended { status, log }
}

/// The status of a call whose text was written so: the one that it reached, and else WriteFault.
fn status_after(written: Result<(), Failed>, reached: Status) -> Status
    ensures kept { OnOk written (result ≡ reached) }
    ensures fault { OnErr written (result ≡ Status.WriteFault) }
{
    match written {
        Ok(()) => reached,
        Err(Failed) => Status::WriteFault,
    }
}
