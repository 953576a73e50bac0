ghost use Rattle.std.specs.Prelude.{ℕ, Option};
ghost use Rattle.serde_json.specs.Data.{Data};
ghost use Rattle.serde_json.specs.View.{view, items_view};
ghost use Rattle.nemo_bundle.specs.Answers.{Walks};
ghost use Rattle.nemo_bundle.specs.Entries.{each_at};
ghost use Rattle.nemo_read.specs.Answers.{Reads};

use crate::end::{WalkEnd, placed};
use nemo_read::PartEnd;
use nemo_value::List;
use serde_json::Value;
use std::alloc::Global;

/// What reads the items of an array, each by its place.
pub(crate) trait ReadAt {
    type Item: Drop;

    ghost reads: { Self → ℕ → Data → Option Self.Item };

    fn read_at(&self, alloc: Global, place: usize, value: &Value) -> Result<Self::Item, PartEnd>
        ensures { Reads result (reads self.now place (view value.now)) };
}

/// The items of an array, or the place of the first that can't be read.
#[tactic(auto, using(crate::proofs::Fronts::put_front_more))]
pub(crate) fn read_items_at<R: ReadAt>(
    alloc: Global,
    reader: &R,
    items: &[Value],
) -> Result<List<R::Item>, WalkEnd>
    ensures { Walks (λ xs. xs) result (each_at (R.reads reader.now) 0 (items_view items.now)) }
{
    let mut list = List::with_capacity(alloc, items.len())?;
    for (place, value) in items.iter().enumerate() {
        let item = placed(place as u64, reader.read_at(alloc, place, value));
        list.push(item?)?;
    }
    Ok(list)
}
