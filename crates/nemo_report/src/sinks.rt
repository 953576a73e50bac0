ghost use Rattle.std.specs.Prelude.{◌≡◌, ◌++◌, map, OnOk, IfOk};
ghost use Rattle.nemo_report.specs.Texts.{ended, head_line, row_line, sink_lines, sinks_lines, text_of};

use crate::lines;
use nemo_value::{List, NoMemory, Record, SinkRows};
use std::alloc::Global;

/// The room that a text starts with, in bytes.
const ROOM: usize = 65_536;

/// Appends the first line of a sink: its name and the number of its rows.
fn push_head(alloc: Global, out: &mut Vec<u8>, sink: &SinkRows) -> Result<(), NoMemory>
    ensures { OnOk result (out.new.items ≡ out.old.items ++ ended (head_line sink.now)) }
{
    let count = sink.rows.len().to_string(alloc)?;
    out.extend_from_slice(b"sink ")?;
    out.extend_from_slice(sink.name.as_str().as_bytes())?;
    out.push(b' ')?;
    out.extend_from_slice(count.as_bytes())?;
    out.push(b'\n')?;
    Ok(())
}

/// Appends the lines of the rows.
fn push_rows(alloc: Global, out: &mut Vec<u8>, rows: &List<Record>) -> Result<(), NoMemory>
    ensures { OnOk result (out.new.items ≡ out.old.items ++ text_of (map row_line rows.now)) }
{
    // A new `Writer` fills up to 16 KiB behind a long text, which costs more than the copy of a line.
    let mut line = Vec::new(alloc);
    for row in rows.as_slice() {
        line = lines::row_line(line, row)?;
        out.extend_from_slice(line.as_slice())?;
        out.push(b'\n')?;
    }
    Ok(())
}

fn push_sink(alloc: Global, out: &mut Vec<u8>, sink: &SinkRows) -> Result<(), NoMemory>
    ensures { OnOk result (out.new.items ≡ out.old.items ++ text_of (sink_lines sink.now)) }
{
    push_head(alloc, out, sink)?;
    push_rows(alloc, out, &sink.rows)
}

/// The text of the sinks, in their order. For each sink the line `sink NAME COUNT`, where `COUNT` is the number of its rows in decimal, and then a line for each row, in order: its fields as a compact JSON array. Each line ends with a newline. Equal rows stand as often as they come.
pub fn sink_text(alloc: Global, sinks: &List<SinkRows>) -> Result<Vec<u8>, NoMemory>
    ensures { IfOk result (λ text. text.items ≡ text_of (sinks_lines sinks.now)) }
{
    let mut out = Vec::with_capacity(alloc, ROOM)?;
    for sink in sinks.as_slice() {
        push_sink(alloc, &mut out, sink)?;
    }
    Ok(out)
}
