//! The program: a command from standard input to standard output. Nothing is written to standard error.
#![tactic(auto)]

use nemo_io::{StdSink, StdSource};
use nemo_top::{Status, Word, nemo_plain};
use std::alloc::AllocError;
use std::process::ExitCode;
use std::rt::Env;
use std::{env, io};

/// The arguments; where they can't be had as text, one empty word, which is no command.
fn words<R: Env + AllocGlobal>(rt: &R) -> Result<Vec<Word>, AllocError> {
    let mut words = Vec::new(rt.alloc());
    match env::args(rt) {
        Ok(args) => {
            for arg in args.skip(1) {
                words.push(Word::new(arg))?;
            }
        }
        Err(_) => words.push(Word::new(String::new(rt.alloc())))?,
    }
    Ok(words)
}

fn main(rt: HostRuntime) -> ExitCode {
    let Ok(words) = words(&rt) else {
        return ExitCode::from(Status::NoMemory.number());
    };
    let mut source = StdSource::new(rt.reader());
    let mut sink = StdSink::new(io::writer(&rt));
    let ended = nemo_plain(rt.alloc(), words.as_slice(), &mut source, &mut sink);
    ExitCode::from(ended.status.number())
}
