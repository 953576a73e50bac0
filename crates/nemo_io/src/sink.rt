ghost use Rattle.std.specs.Prelude.{◌<◌, ◌-◌, ℕ, List, Option, length, IfOk, OnOk, OnErr};
ghost use Rattle.std.specs.Io.{WritesAtMost};
ghost use Rattle.std.specs.Io.KnownBytes.{WriteAppends, Appends};
ghost use Rattle.nemo_io.specs.Faults.{HasCause};
ghost use Rattle.nemo_io.specs.Told.{AppendsPart};

use crate::source::Failed;

/// Where bytes go, in pieces and in order.
pub trait Sink {
    /// The bytes that were given, where the sink tells them.
    ghost given: { Self → Option (List ℕ) };

    /// How many calls failed. It never falls, and 2^64 - 1 is its last value.
    ghost faults: { Self → ℕ };

    /// Takes the front of a piece, and answers how many bytes it took.
    ///
    /// It takes at least one byte of a piece that has one.
    /// `Failed` takes nothing, and raises the count of faults; `Ok` leaves the count.
    fn give(&mut self, bytes: &[u8]) -> Result<usize, Failed>
        ensures bound { WritesAtMost result bytes.now }
        ensures some { IfOk result (λ n. 0 < length bytes.now → 0 < n) }
        ensures bytes { WriteAppends (given self.old) (given self.new) result bytes.now }
        ensures cause { HasCause (faults self.old) (faults self.new) result };
}

/// Gives all bytes to a sink, in order. It takes no memory.
///
/// `Failed` comes only where the count of faults rose in this call, and then a front of the bytes
/// was given, and not all; `Ok` leaves the count.
pub fn write_all<K: Sink>(sink: &mut K, bytes: &[u8]) -> Result<(), Failed>
    ensures all { OnOk result (Appends (K.given sink.old) (K.given sink.new) bytes.now) }
    ensures part { OnErr result (AppendsPart (K.given sink.old) (K.given sink.new) bytes.now) }
    ensures cause { HasCause (K.faults sink.old) (K.faults sink.new) result }
{
    let mut done = 0;
    while done < bytes.len() {
        let n = sink.give(&bytes[done..])?;
        done += n;
    }
    Ok(())
}
