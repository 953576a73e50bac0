ghost use Rattle.std.specs.Prelude.{◌<◌};

use crate::parts::{bytes_of, number, text};
use nemo_io::{MemorySink, MemorySource};
use nemo_top::{Word, nemo_plain};
use serde_json::Value;
use std::alloc::{AllocError, Global};

/// Whether the top call writes and answers what is expected. A row has the `words`, one space between them, the
/// `input`, the `output` and the `status`. It may have the number of events in the history, `log`, which is else 0, the
/// most bytes of a read and of a write, `read` and `write`, and the number of the one read or write that fails,
/// `failed_read` and `failed_write`. With `cut` it is run on each proper front of its input, and expects the same each
/// time.
pub(crate) fn is_expected(alloc: Global, row: &Value) -> Result<bool, AllocError> {
    let input = bytes_of(alloc, row.get("input"))?;
    if row.get("cut").is_some() {
        cuts_are_same(alloc, row, input.as_slice())
    } else {
        is_same(alloc, row, input.as_slice())
    }
}

fn cuts_are_same(alloc: Global, row: &Value, input: &[u8]) -> Result<bool, AllocError> {
    for length in 0..input.len() {
        if !is_same(alloc, row, &input[..length])? {
            return Ok(false);
        }
    }
    Ok(true)
}

/// Whether the call writes the output and ends with the status that are expected.
fn is_same(alloc: Global, row: &Value, input: &[u8]) -> Result<bool, AllocError> {
    let words = words_of(alloc, text(row, "words"))?;
    let mut source = MemorySource::new(
        input.to_vec(alloc)?,
        at_once(row, "read"),
        failing(alloc, row, "failed_read")?,
    );
    let mut sink = MemorySink::new(
        alloc,
        1 << 20,
        at_once(row, "write"),
        failing(alloc, row, "failed_write")?,
    )?;
    let ended = nemo_plain(alloc, words.as_slice(), &mut source, &mut sink);
    let wanted = bytes_of(alloc, row.get("output"))?;
    Ok(
        sink.bytes() == wanted.as_slice()
            && u64::from(ended.status.number()) == number(row, "status")
            && ended.log.len() as u64 == number(row, "log"),
    )
}

fn words_of(alloc: Global, line: &str) -> Result<Vec<Word>, AllocError> {
    let mut words = Vec::new(alloc);
    for word in line.split(' ') {
        if !word.is_empty() {
            words.push(Word::new(String::from_str(alloc, word)?))?;
        }
    }
    Ok(words)
}

/// The most bytes of a read or a write, 4,096 where the row has none.
fn at_once(row: &Value, name: &str) -> usize
    ensures { 0 < result }
{
    match number(row, name) {
        0 => 4096,
        most => most as usize,
    }
}

/// The numbers of the reads or writes that fail: one, or none.
fn failing(alloc: Global, row: &Value, name: &str) -> Result<Vec<u64>, AllocError> {
    let mut calls = Vec::new(alloc);
    if let Some(call) = row.get(name).and_then(Value::as_u64) {
        calls.push(call)?;
    }
    Ok(calls)
}
