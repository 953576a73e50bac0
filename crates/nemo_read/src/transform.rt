ghost use Rattle.std.specs.Prelude.{◌≡◌, Some};
ghost use Rattle.serde_json.specs.View.{view};
ghost use Rattle.nemo_transform.specs.declared.transform.Transform.TheVariants.{Union};
ghost use Rattle.nemo_read.specs.Answers.{Reads};
ghost use Rattle.nemo_read.specs.Vertices as spec;

use crate::end::PartEnd;
use crate::number::read_place;
use crate::read::{FromJson, read_member};
use crate::take::{take_array, take_rows};
use nemo_transform::{Folding, Output, Transform};
use nemo_value::{Expr, List};
use serde_json::Value;
use std::alloc::Global;

/// The most expressions of a map, and the most outputs of an emit.
const MAX_OUT: usize = 16;

/// A source with the rows of `rows`.
pub(crate) fn read_source(alloc: Global, mut value: Value) -> Result<Transform, PartEnd>
    ensures { Reads result (spec.source_of (view value)) }
{
    let rows = take_array(&mut value, "rows")?;
    Ok(Transform::Source {
        rows: take_rows(alloc, rows)?,
    })
}

/// A map to the expressions of `out`.
pub(crate) fn read_map(alloc: Global, value: &Value) -> Result<Transform, PartEnd>
    ensures { Reads result (spec.map_of (view value.now)) }
{
    Ok(Transform::Map {
        out: read_few(alloc, value, "out")?,
    })
}

/// A filter by the expression of `if`.
pub(crate) fn read_filter(alloc: Global, value: &Value) -> Result<Transform, PartEnd>
    ensures { Reads result (spec.filter_of (view value.now)) }
{
    Ok(Transform::Filter {
        cond: read_member(alloc, value, "if")?,
    })
}

/// An emit of the outputs of `outs`.
pub(crate) fn read_emit(alloc: Global, value: &Value) -> Result<Transform, PartEnd>
    ensures { Reads result (spec.emit_of (view value.now)) }
{
    Ok(Transform::Emit {
        outs: read_few(alloc, value, "outs")?,
    })
}

/// The words of the field of `field`.
pub(crate) fn read_words(alloc: Global, value: &Value) -> Result<Transform, PartEnd>
    ensures { Reads result (spec.words_of (view value.now)) }
{
    Ok(Transform::Words {
        field: read_field(alloc, value)?,
    })
}

/// A union of this many ports. More than a `u32` counts are taken as more than memory holds.
pub(crate) fn union_of(ports: usize) -> Result<Transform, PartEnd>
    ensures { Reads result (Some (Union ports)) }
{
    match u32::try_from(ports) {
        Ok(ports) => Ok(Transform::Union { ports }),
        Err(_) => Err(PartEnd::NoMemory),
    }
}

/// A reduce by the folding of `fn`, at the field of `field` unless it counts.
pub(crate) fn read_reduce(alloc: Global, value: &Value) -> Result<Transform, PartEnd>
    ensures { Reads result (spec.reduce_of (view value.now)) }
{
    let by = value
        .get("fn")
        .and_then(Value::as_str)
        .and_then(folding_of)
        .ok_or(PartEnd::Malformed)?;
    let field = match by {
        Folding::Count => 0,
        Folding::Sum | Folding::Min | Folding::Max => read_field(alloc, value)?,
    };
    Ok(Transform::Reduce { by, field })
}

/// The way to fold of a word.
fn folding_of(word: &str) -> Option<Folding>
    ensures { result ≡ spec.folding_of word.now }
{
    Folding::from_word(word)
}

/// The 1 to 16 things of a member.
fn read_few<T: FromJson>(alloc: Global, value: &Value, name: &str) -> Result<List<T>, PartEnd>
    ensures { Reads result (spec.few_of name.now T.reads (view value.now)) }
{
    let list: List<T> = read_member(alloc, value, name)?;
    if 1 <= list.len() && list.len() <= MAX_OUT {
        Ok(list)
    } else {
        Err(PartEnd::Malformed)
    }
}

fn read_field(alloc: Global, value: &Value) -> Result<u32, PartEnd>
    ensures { Reads result (spec.own_place (view value.now)) }
{
    read_place(alloc, value.get("field").ok_or(PartEnd::Malformed)?)
}

/// An object of an expression `if` and 1 to 16 expressions `out`.
impl FromJson for Output {
    ghost use Rattle.nemo_read.specs.Vertices.{output_of};

    ghost reads = { output_of };

    fn from_json(alloc: Global, value: &Value) -> Result<Output, PartEnd> {
        Ok(Output {
            cond: read_member(alloc, value, "if")?,
            out: read_few(alloc, value, "out")?,
        })
    }
}
