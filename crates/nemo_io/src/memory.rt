ghost use Rattle.std.specs.Prelude.{◌≡◌, ◌<◌, ◌≤◌, ◌-◌, ◌+◌, ◌↔◌, ◌⊎◌, ◌++◌, Some, [], min, length, take, drop, IfOk, OnErr, IsErr, IsTrue, Contains};
ghost use Rattle.std.specs.Io.{ReadsAtMost, WritesAtMost};
ghost use Rattle.std.specs.Io.KnownBytes.{ReadConsumes, WriteAppends};
ghost use Rattle.nemo_io.specs.Faults.{HasCause, one_more};

use crate::sink::Sink;
use crate::source::{Failed, Source};
use std::alloc::{AllocError, Global};
use std::marker::Model;

/// A content in memory, of which each call gives a piece, and some calls fail.
#[derive(Drop)]
pub struct MemorySource {
    bytes: Vec<u8>,
    at: usize,
    most: usize,
    failing: Vec<u64>,
    calls: u64,
    faults: u64,
}

// Clauses see the bytes that are left, and no place in them.
impl Model for MemorySource {
    ghost use Rattle.std.specs.Prelude.{◌<◌, ◌≤◌, drop, length};
    ghost use Rattle.nemo_io.specs.InMemory.{SourceState};

    ghost Value = { SourceState };

    ghost view = { λ s. record {
      left = drop s.at s.bytes.items;
      most = s.most;
      failing = s.failing.items;
      calls = s.calls;
      faults = s.faults;
    } };

    ghost invariant = { λ s. (s.at ≤ length s.bytes.items) × (0 < s.most) };
}

impl MemorySource {
    /// A source of `bytes`, of which a call gives at most `most`. The calls whose numbers stand in
    /// `failing` fail; the first call has the number 0.
    pub fn new(bytes: Vec<u8>, most: usize, failing: Vec<u64>) -> MemorySource
        requires { 0 < most }
        ensures { result
            ≡ record { left = bytes.items; most = most; failing = failing.items; calls = 0; faults = 0 } }
    {
        MemorySource {
            bytes,
            at: 0,
            most,
            failing,
            calls: 0,
            faults: 0,
        }
    }
}

impl Source for MemorySource {
    ghost left = { λ s. Some s.left };

    ghost faults = { λ s. s.faults };

    /// As much as there is, at most `most` bytes. It fails exactly where the call's number is listed.
    fn take(&mut self, buf: &mut [u8]) -> Result<usize, Failed>
        ensures bound { ReadsAtMost result buf.new }
        ensures bytes { ReadConsumes (Some self.old.left) (Some self.new.left) result buf.new }
        ensures cause { HasCause self.old.faults self.new.faults result }

        ensures fails { IsErr result ↔ Contains self.old.failing self.old.calls }
        ensures count { IfOk result (λ n. n
            ≡ min self.old.most (min (length self.old.left) (length buf.old))) }
        ensures copied { IfOk result (λ n. buf.new ≡ take n self.old.left ++ drop n buf.old) }
        ensures ok { IfOk result (λ n. self.new
            ≡ record self.old { left = drop n self.old.left; calls = one_more self.old.calls }) }
        ensures err { OnErr result (self.new
            ≡ record self.old { calls = one_more self.old.calls; faults = one_more self.old.faults }) }
    {
        let call = self.calls;
        self.calls = call.saturating_add(1);
        if is_listed(&self.failing, call) {
            self.faults = self.faults.saturating_add(1);
            return Err(Failed);
        }
        let n = copy_piece(&self.bytes, self.at, self.most, buf);
        self.at += n;
        Ok(n)
    }
}

/// A sink that keeps what it is given in memory, in room that is reserved when it is made. Each call
/// takes a piece, and some calls fail.
#[derive(Drop)]
pub struct MemorySink {
    bytes: Vec<u8>,
    room: usize,
    most: usize,
    failing: Vec<u64>,
    calls: u64,
    faults: u64,
}

// Clauses see the bytes that were given, and the room that is left.
impl Model for MemorySink {
    ghost use Rattle.std.specs.Prelude.{◌+◌, ◌<◌, ◌≤◌, length, vec_len, vec_capacity};
    ghost use Rattle.nemo_io.specs.InMemory.{SinkState};

    ghost Value = { SinkState };

    ghost view = { λ s. record {
      given = s.bytes.items;
      room = s.room;
      most = s.most;
      failing = s.failing.items;
      calls = s.calls;
      faults = s.faults;
    } };

    // What is left of the room is reserved.
    ghost invariant = { λ s. (vec_len s.bytes + s.room ≤ vec_capacity s.bytes) × (0 < s.most) };
}

impl MemorySink {
    /// A sink with room for `room` bytes, of which a call takes at most `most`. The calls whose
    /// numbers stand in `failing` fail; the first call has the number 0.
    pub fn new(
        alloc: Global,
        room: usize,
        most: usize,
        failing: Vec<u64>,
    ) -> Result<MemorySink, AllocError>
        requires { 0 < most }
        ensures { IfOk result (λ s. s
            ≡ record {
              given = [];
              room = room;
              most = most;
              failing = failing.items;
              calls = 0;
              faults = 0;
            }) }
    {
        Ok(MemorySink {
            bytes: Vec::with_capacity(alloc, room)?,
            room,
            most,
            failing,
            calls: 0,
            faults: 0,
        })
    }

    /// The bytes that were given.
    pub fn bytes(&self) -> &[u8]
        ensures { result.now ≡ self.now.given }
    {
        self.bytes.as_slice()
    }
}

impl Sink for MemorySink {
    ghost given = { λ s. Some s.given };

    ghost faults = { λ s. s.faults };

    /// As much as there is room for, at most `most` bytes. It fails exactly where the call's number
    /// is listed, or a piece that has a byte meets no room. It takes no memory.
    fn give(&mut self, bytes: &[u8]) -> Result<usize, Failed>
        ensures bound { WritesAtMost result bytes.now }
        ensures some { IfOk result (λ n. 0 < length bytes.now → 0 < n) }
        ensures bytes { WriteAppends (Some self.old.given) (Some self.new.given) result bytes.now }
        ensures cause { HasCause self.old.faults self.new.faults result }

        ensures fails { IsErr result ↔ (Contains self.old.failing self.old.calls
            ⊎ ((self.old.room ≡ 0) × (0 < length bytes.now))) }
        ensures count { IfOk result (λ n. n
            ≡ min self.old.most (min self.old.room (length bytes.now))) }
        ensures ok { IfOk result (λ n. self.new
            ≡ record self.old {
              given = self.old.given ++ take n bytes.now;
              room = self.old.room - n;
              calls = one_more self.old.calls;
            }) }
        ensures err { OnErr result (self.new
            ≡ record self.old { calls = one_more self.old.calls; faults = one_more self.old.faults }) }
    {
        let call = self.calls;
        self.calls = call.saturating_add(1);
        let is_full = self.room == 0 && !bytes.is_empty();
        if is_full || is_listed(&self.failing, call) {
            self.faults = self.faults.saturating_add(1);
            return Err(Failed);
        }
        let n = self.most.min(self.room).min(bytes.len());
        self.bytes.extend_from_slice(&bytes[..n]).unwrap();
        self.room -= n;
        Ok(n)
    }
}

/// Whether a call is one of those that fail.
fn is_listed(failing: &[u64], call: u64) -> bool
    ensures { IsTrue result ↔ Contains failing.now call }
{
    failing.contains(&call)
}

/// Copies the bytes from `at` on to the front of `to`, as many as it has room for and at most `most`,
/// and answers how many.
pub(crate) fn copy_piece(bytes: &[u8], at: usize, most: usize, to: &mut [u8]) -> usize
    requires in_range { at ≤ length bytes.now }
    requires some { 0 < most }
    ensures count { result ≡ min most (min (length (drop at bytes.now)) (length to.old)) }
    ensures copied { to.new ≡ take result (drop at bytes.now) ++ drop result to.old }
    ensures moved { drop at bytes.now ≡ take result to.new ++ drop (at + result) bytes.now }
    ensures end { result ≡ 0 → 0 < length to.new → drop (at + result) bytes.now ≡ [] }
{
    let rest = &bytes[at..];
    let n = most.min(rest.len()).min(to.len());
    to[..n].copy_from_slice(&rest[..n]);
    n
}
