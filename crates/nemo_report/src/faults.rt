ghost use Rattle.std.specs.Prelude.{◌≡◌, ◌++◌, OnOk, IfOk};
ghost use Rattle.nemo_report.specs.Texts.{fault_words};
ghost use Rattle.nemo_report.specs.Texts as spec;

use crate::lines::row_line;
use nemo_value::{Kind, NoMemory, Record, Text};
use std::alloc::Global;

/// The line of a fault, `fault NAME KIND RECORD`, without a newline: the vertex where it arose, its kind, and the fields of the record that made it as a compact JSON array.
pub fn fault_line(alloc: Global, name: &Text, kind: Kind, rec: &Record) -> Result<Vec<u8>, NoMemory>
    ensures { IfOk result (λ line. line.items ≡ spec.fault_line name.now kind rec.now) }
{
    let mut line = Vec::from_slice(alloc, b"fault ")?;
    line.extend_from_slice(name.as_str().as_bytes())?;
    line.push(b' ')?;
    push_words(alloc, &mut line, kind, rec)?;
    Ok(line)
}

/// Appends the words of a fault, `KIND RECORD`.
fn push_words(alloc: Global, line: &mut Vec<u8>, kind: Kind, rec: &Record) -> Result<(), NoMemory>
    ensures { OnOk result (line.new.items ≡ line.old.items ++ fault_words kind rec.now) }
{
    let row = row_line(Vec::new(alloc), rec)?;
    line.extend_from_slice(kind.word().as_bytes())?;
    line.push(b' ')?;
    line.extend_from_slice(row.as_slice())?;
    Ok(())
}
