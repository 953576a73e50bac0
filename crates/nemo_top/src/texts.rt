ghost use Rattle.std.specs.Prelude.{◌≡◌, ◌++◌, ◌∷◌, [], length, false, decimal, codes, IfOk, OnErr};
ghost use Rattle.std.specs.Cow.{cow_slice_items};
ghost use Rattle.nemo_report.specs.Texts.{ended, sinks_lines, text_of};
ghost use Rattle.nemo_top.specs.Statuses.{accepted_line, is_fixed, last_lines};
ghost use Rattle.nemo_top.specs.Statuses as spec;
ghost use Rattle.nemo_top.specs.declared.status.Status.{Status};

use crate::status::Status;
use nemo_ir::IrDag;
use nemo_report::{fault_line, sink_text};
use nemo_value::{Kind, List, NoMemory, Record, SinkRows, Text};
use std::alloc::Global;
use std::borrow::CowSlice;

/// The text of a status that stands alone: its last line. Where that is always the same it takes no memory.
pub(crate) fn status_text(alloc: Global, status: &Status) -> Result<CowSlice<'static, u8>, NoMemory>
    ensures text { IfOk result (λ text. cow_slice_items text ≡ spec.status_text status.now) }
    ensures memory { OnErr result (is_fixed status.now ≡ false) }
{
    match status {
        Status::Done => Ok(CowSlice::Borrowed(b"done\n")),
        Status::Usage => Ok(CowSlice::Borrowed(b"usage\n")),
        Status::ReadFault => Ok(CowSlice::Borrowed(b"read fault\n")),
        Status::WriteFault => Ok(CowSlice::Borrowed(b"")),
        Status::NotJson => Ok(CowSlice::Borrowed(b"not json\n")),
        Status::TooLong => Ok(CowSlice::Borrowed(b"too long\n")),
        Status::BundleRefused { code, place } => {
            numbered(alloc, b"bundle refused ", u64::from(*code), *place)
        }
        Status::DagRefused { clause, index } => {
            numbered(alloc, b"dag refused V", u64::from(*clause), *index)
        }
        Status::TransformFault { name, kind, rec } => faulted(alloc, name, *kind, rec),
        Status::NoMemory => Ok(CowSlice::Borrowed(b"no memory\n")),
    }
}

/// The line of a fault, with its newline.
fn faulted(
    alloc: Global,
    name: &Text,
    kind: Kind,
    rec: &Record,
) -> Result<CowSlice<'static, u8>, NoMemory>
    ensures { IfOk result (λ text. cow_slice_items text ≡ spec.status_text (Status.TransformFault name.now kind rec.now)) }
{
    let mut line = fault_line(alloc, name, kind, rec)?;
    line.push(b'\n')?;
    Ok(CowSlice::Owned(line))
}

/// The line of a front, a number, a space and a number, with its newline.
fn numbered(alloc: Global, front: &[u8], n: u64, m: u64) -> Result<CowSlice<'static, u8>, NoMemory>
    ensures { IfOk result (λ text. cow_slice_items text ≡ ended (front.now ++ decimal n ++ codes " " ++ decimal m)) }
{
    let mut line = Vec::from_slice(alloc, front)?;
    line.extend_from_slice(n.to_string(alloc)?.as_bytes())?;
    line.push(b' ')?;
    line.extend_from_slice(m.to_string(alloc)?.as_bytes())?;
    line.push(b'\n')?;
    Ok(CowSlice::Owned(line))
}

/// The text of a check that accepts a DAG: its numbers of vertices and edges.
pub(crate) fn accepted_text(alloc: Global, dag: &IrDag) -> Result<CowSlice<'static, u8>, NoMemory>
    ensures { IfOk result (λ text. cow_slice_items text ≡ text_of (accepted_line (length dag.now.vertices) (length dag.now.edges) ∷ [])) }
{
    let (vertices, edges) = (dag.vertices.len() as u64, dag.edges.len() as u64);
    numbered(alloc, b"accepted ", vertices, edges)
}

/// The text of sinks and the last line of what is done.
pub(crate) fn done_text(
    alloc: Global,
    sinks: &List<SinkRows>,
) -> Result<CowSlice<'static, u8>, NoMemory>
    ensures { IfOk result (λ text. cow_slice_items text ≡ text_of (sinks_lines sinks.now ++ last_lines Status.Done)) }
{
    let mut text = sink_text(alloc, sinks)?;
    text.extend_from_slice(b"done\n")?;
    Ok(CowSlice::Owned(text))
}
