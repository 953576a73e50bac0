ghost use Rattle.serde_json.specs.View.{view, items_view};
ghost use Rattle.nemo_read.specs.Answers.{Reads};
ghost use Rattle.nemo_read.specs.Vertices as spec;

use crate::end::PartEnd;
use crate::read::FromJson;
use nemo_job::Ref;
use nemo_value::{List, Name};
use serde_json::Value;
use std::alloc::Global;

/// A name alone, which names port 0, or an array of a name and a port.
impl FromJson for Ref {
    ghost use Rattle.nemo_read.specs.Vertices.{ref_of};

    ghost reads = { ref_of };

    fn from_json(alloc: Global, value: &Value) -> Result<Ref, PartEnd> {
        match value.as_array() {
            Some(items) => read_ref(alloc, items.as_slice()),
            None => Ok(Ref {
                name: Name::from_json(alloc, value)?,
                port: 0,
            }),
        }
    }
}

#[tactic(auto, using(crate::proofs::Lengths::ref_of_fewer, crate::proofs::Lengths::ref_of_more))]
fn read_ref(alloc: Global, items: &[Value]) -> Result<Ref, PartEnd>
    ensures { Reads result (spec.ref_from (items_view items.now)) }
{
    match items {
        [name, port] => Ok(Ref {
            name: Name::from_json(alloc, name)?,
            port: u32::from_json(alloc, port)?,
        }),
        _ => Err(PartEnd::Malformed),
    }
}

/// The references of `in`, which may be absent.
pub(crate) fn read_inputs(alloc: Global, value: &Value) -> Result<List<Ref>, PartEnd>
    ensures { Reads result (spec.inputs_of (view value.now)) }
{
    match value.get("in") {
        Some(inputs) => List::from_json(alloc, inputs),
        None => Ok(List::new(alloc)),
    }
}
