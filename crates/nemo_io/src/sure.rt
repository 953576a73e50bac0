ghost use Rattle.std.specs.Prelude.{◌≡◌, ◌<◌, ◌++◌, Some, None, Ok, min, length, take, drop, IfOk};
ghost use Rattle.std.specs.Io.{ReadsAtMost, WritesAtMost};
ghost use Rattle.std.specs.Io.KnownBytes.{ReadConsumes, WriteAppends};
ghost use Rattle.nemo_io.specs.Faults.{HasCause};

use crate::memory::copy_piece;
use crate::sink::Sink;
use crate::source::{Failed, Source};
use std::marker::Model;

/// A content in memory, whose calls never fail.
#[derive(Drop)]
pub struct SureSource {
    bytes: Vec<u8>,
    at: usize,
}

// Clauses see the bytes that are left.
impl Model for SureSource {
    ghost use Rattle.std.specs.Prelude.{ℕ, List, ◌≤◌, drop, length};

    ghost Value = { List ℕ };

    ghost view = { λ s. drop s.at s.bytes.items };

    ghost invariant = { λ s. s.at ≤ length s.bytes.items };
}

impl SureSource {
    /// A source of `bytes`.
    pub fn new(bytes: Vec<u8>) -> SureSource
        ensures { result ≡ bytes.items }
    {
        SureSource { bytes, at: 0 }
    }
}

impl Source for SureSource {
    ghost left = { λ s. Some s };

    ghost faults = { λ _. 0 };

    /// As many bytes as there are and the buffer has room for.
    fn take(&mut self, buf: &mut [u8]) -> Result<usize, Failed>
        ensures bound { ReadsAtMost result buf.new }
        ensures bytes { ReadConsumes (Some self.old) (Some self.new) result buf.new }
        ensures cause { HasCause 0 0 result }

        ensures count { result ≡ Ok (min (length self.old) (length buf.old)) }
        ensures copied { IfOk result (λ n. buf.new ≡ take n self.old ++ drop n buf.old) }
        ensures ok { IfOk result (λ n. self.new ≡ drop n self.old) }
    {
        let n = copy_piece(&self.bytes, self.at, usize::MAX, buf);
        self.at += n;
        Ok(n)
    }
}

/// A sink that takes each piece whole, keeps nothing and tells nothing.
#[derive(Clone, Copy)]
pub struct SureSink;

impl Sink for SureSink {
    ghost given = { λ _. None };

    ghost faults = { λ _. 0 };

    /// The whole piece.
    fn give(&mut self, bytes: &[u8]) -> Result<usize, Failed>
        ensures bound { WritesAtMost result bytes.now }
        ensures some { IfOk result (λ n. 0 < length bytes.now → 0 < n) }
        ensures bytes { WriteAppends None None result bytes.now }
        ensures cause { HasCause 0 0 result }

        ensures whole { result ≡ Ok (length bytes.now) }
    {
        Ok(bytes.len())
    }
}
