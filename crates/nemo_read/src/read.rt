ghost use Rattle.std.specs.Prelude.{◌≡◌, Option, string_bytes, IfOk};
ghost use Rattle.serde_json.specs.Data.{Data};
ghost use Rattle.serde_json.specs.View.{view, items_view};
ghost use Rattle.nemo_read.specs.Answers.{Reads};
ghost use Rattle.nemo_read.specs.Parts.{each, member_of};

use crate::end::PartEnd;
use nemo_value::{List, NoMemory};
use serde_json::Value;
use std::alloc::Global;

/// What can be read from a JSON value.
pub trait FromJson: Drop {
    ghost reads: { Data → Option Self };

    /// What the value stands for, or that it has not the form.
    fn from_json(alloc: Global, value: &Value) -> Result<Self, PartEnd>
        ensures { Reads result (reads (view value.now)) };
}

/// An array of what can be read.
impl<T: FromJson> FromJson for List<T> {
    ghost use Rattle.nemo_read.specs.Parts.{array_of};

    ghost reads = { array_of T.reads };

    fn from_json(alloc: Global, value: &Value) -> Result<List<T>, PartEnd> {
        read_items(
            alloc,
            value.as_array().ok_or(PartEnd::Malformed)?.as_slice(),
        )
    }
}

#[tactic(auto, using(crate::proofs::Fronts::with_front_more))]
fn read_items<T: FromJson>(alloc: Global, items: &[Value]) -> Result<List<T>, PartEnd>
    ensures { Reads result (each T.reads (items_view items.now)) }
{
    let mut list = List::with_capacity(alloc, items.len())?;
    for value in items {
        list.push(T::from_json(alloc, value)?)?;
    }
    Ok(list)
}

/// What the member of a name stands for, which has to be there.
pub fn read_member<T: FromJson>(alloc: Global, value: &Value, name: &str) -> Result<T, PartEnd>
    ensures { Reads result (member_of name.now T.reads (view value.now)) }
{
    T::from_json(alloc, value.get(name).ok_or(PartEnd::Malformed)?)
}

/// The text as a string of its own.
pub(crate) fn owned(alloc: Global, text: &str) -> Result<String, NoMemory>
    ensures { IfOk result (λ s. string_bytes s ≡ text.now) }
{
    Ok(String::from_str(alloc, text)?)
}
