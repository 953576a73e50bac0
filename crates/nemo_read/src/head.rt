ghost use Rattle.std.specs.Prelude.{◌≡◌, Some, codes, option_and_then, option_map};
ghost use Rattle.serde_json.specs.Find.{as_str};
ghost use Rattle.serde_json.specs.View.{view};
ghost use Rattle.nemo_transform.specs.declared.transform.Transform.TheVariants.{Sink};
ghost use Rattle.nemo_read.specs.Answers.{Reads, ReadsAs};
ghost use Rattle.nemo_read.specs.Heads.{form_view, head_view, loop_view};
ghost use Rattle.nemo_read.specs.Parts.{member_of, whole_of};
ghost use Rattle.nemo_read.specs.Vertices as spec;

use crate::end::PartEnd;
use crate::operation::Operation;
use crate::read::read_member;
use crate::reference::read_inputs;
use crate::take::take_array;
use crate::transform::{
    read_emit, read_filter, read_map, read_reduce, read_source, read_words, union_of,
};
use nemo_job::Ref;
use nemo_transform::Transform;
use nemo_value::{List, Name, TryCopy};
use serde_json::Value;
use std::alloc::Global;

/// A vertex before the body of its loop is read.
#[derive(Drop)]
pub struct Head {
    pub name: Name,
    pub inputs: List<Ref>,
    pub form: Form,
}

/// What a vertex does.
#[derive(Drop)]
pub enum Form {
    Does(Transform),
    Loops(LoopForm),
}

/// The members of a loop, with the items of its body.
#[derive(Drop)]
pub struct LoopForm {
    pub turns: u32,
    pub carry: List<Name>,
    pub body: Vec<Value>,
    pub next: List<Ref>,
}

/// An object with `name`, `op` and the members of its op, and mostly `in`.
pub fn read_head(alloc: Global, value: Value) -> Result<Head, PartEnd>
    ensures { ReadsAs head_view result (spec.head_of (view value)) }
{
    let name: Name = read_member(alloc, &value, "name")?;
    let inputs = read_inputs(alloc, &value)?;
    let form = read_form(alloc, &name, inputs.len(), value)?;
    Ok(Head { name, inputs, form })
}

/// What a vertex of this name and this many inputs does.
fn read_form(alloc: Global, name: &Name, inputs: usize, value: Value) -> Result<Form, PartEnd>
    ensures { ReadsAs form_view result (option_and_then (spec.form_by name.now inputs (view value)) (member_of (codes "op") as_str (view value))) }
{
    let word = value
        .get("op")
        .and_then(Value::as_str)
        .ok_or(PartEnd::Malformed)?;
    if word == "loop" {
        Ok(Form::Loops(read_loop(alloc, value)?))
    } else {
        let operation = Operation::from_word(word).ok_or(PartEnd::Malformed)?;
        Ok(Form::Does(read_transform(alloc, operation, name, inputs, value)?))
    }
}

/// The transform of an operation at a vertex of this name and this many inputs.
fn read_transform(
    alloc: Global,
    operation: Operation,
    name: &Name,
    inputs: usize,
    value: Value,
) -> Result<Transform, PartEnd>
    ensures { Reads result (spec.transform_of name.now inputs (view value) operation) }
{
    match operation {
        Operation::Source => read_source(alloc, value),
        Operation::Map => read_map(alloc, &value),
        Operation::Filter => read_filter(alloc, &value),
        Operation::Emit => read_emit(alloc, &value),
        Operation::Words => read_words(alloc, &value),
        Operation::Union => union_of(inputs),
        Operation::Reduce => read_reduce(alloc, &value),
        Operation::Distinct => Ok(Transform::Distinct),
        Operation::Join => Ok(Transform::Join),
        Operation::SideJoin => Ok(Transform::SideJoin),
        Operation::Sink => sink_of(alloc, name),
    }
}

/// A sink of this name.
fn sink_of(alloc: Global, name: &Name) -> Result<Transform, PartEnd>
    ensures { Reads result (Some (Sink name.now)) }
{
    Ok(Transform::Sink {
        name: name.copy(alloc)?,
    })
}

/// The members of a loop.
fn read_loop(alloc: Global, mut value: Value) -> Result<LoopForm, PartEnd>
    ensures { ReadsAs loop_view result (spec.loop_of (view value)) }
{
    let turns = read_turns(&value)?;
    let carry = read_member(alloc, &value, "carry")?;
    let next = read_member(alloc, &value, "next")?;
    let body = take_array(&mut value, "body")?;
    Ok(LoopForm {
        turns,
        carry,
        body,
        next,
    })
}

/// The number of turns; 0, which no loop may have, where it is no number of 32 bits.
fn read_turns(value: &Value) -> Result<u32, PartEnd>
    ensures { Reads result (option_map spec.turns_in (member_of (codes "turns") whole_of (view value.now))) }
{
    let turns = value
        .get("turns")
        .and_then(Value::as_i64)
        .ok_or(PartEnd::Malformed)?;
    Ok(u32::try_from(turns).unwrap_or(0))
}
