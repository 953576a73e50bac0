ghost use Rattle.std.specs.Prelude.{◌≡◌, string_bytes};
ghost use Rattle.nemo_top.specs.Words as spec;

use std::marker::Model;

/// One word of the command line. Contracts see its bytes.
#[derive(Drop)]
pub struct Word {
    inner: String,
}

impl Model for Word {
    ghost use Rattle.std.specs.Prelude.{ℕ, List, string_bytes};

    ghost Value = { List ℕ };

    ghost view = { λ w. string_bytes w.inner };
}

impl Word {
    pub fn new(s: String) -> Word
        ensures { result ≡ string_bytes s }
    {
        Word { inner: s }
    }

    fn as_str(&self) -> &str
        ensures { result.now ≡ self.now }
    {
        self.inner.as_str()
    }
}

/// What the program is asked to do.
#[derive(Clone, Copy)]
pub enum Command {
    /// To evaluate the job and print its sinks.
    Eval,
    /// To check the DAG.
    Check,
    /// To run the job as tasks on one thread and print its sinks.
    Solo,
}

/// The command that the words are: one word alone.
pub fn command_of(words: &[Word]) -> Option<Command>
    ensures { result ≡ spec.command_of words.now }
{
    match words {
        [word] => match word.as_str() {
            "eval" => Some(Command::Eval),
            "check" => Some(Command::Check),
            "solo" => Some(Command::Solo),
            _ => None,
        },
        _ => None,
    }
}
