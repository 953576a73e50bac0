ghost use Rattle.std.specs.Prelude.{◌≤◌, IfOk};
ghost use Rattle.serde_json.specs.View.{view};
ghost use Rattle.nemo_read.specs.Answers.{Reads};
ghost use Rattle.nemo_read.specs.Parts as part;

use crate::end::PartEnd;
use crate::read::FromJson;
use nemo_value::MAX_FIELDS;
use serde_json::Value;
use std::alloc::Global;

/// A whole number of 32 bits without a sign.
impl FromJson for u32 {
    ghost use Rattle.nemo_read.specs.Parts.{number_of};

    ghost reads = { number_of };

    fn from_json(_alloc: Global, value: &Value) -> Result<u32, PartEnd> {
        let n = value.as_i64().ok_or(PartEnd::Malformed)?;
        u32::try_from(n).map_err(|_| PartEnd::Malformed)
    }
}

/// A whole number of 16 bits without a sign.
impl FromJson for u16 {
    ghost use Rattle.nemo_read.specs.Parts.{short_of};

    ghost reads = { short_of };

    fn from_json(alloc: Global, value: &Value) -> Result<u16, PartEnd> {
        u16::try_from(u32::from_json(alloc, value)?).map_err(|_| PartEnd::Malformed)
    }
}

/// A number of at least `least` and at most `most`.
pub fn read_ranged(alloc: Global, value: &Value, least: u32, most: u32) -> Result<u32, PartEnd>
    ensures number { Reads result (part.ranged least most (view value.now)) }
    ensures range { IfOk result (λ n. (least ≤ n) × (n ≤ most)) }
{
    let n = u32::from_json(alloc, value)?;
    if least <= n && n <= most {
        Ok(n)
    } else {
        Err(PartEnd::Malformed)
    }
}

/// The place of a field, 0 to 15.
pub(crate) fn read_place(alloc: Global, value: &Value) -> Result<u32, PartEnd>
    ensures { Reads result (part.place_of (view value.now)) }
{
    let place = u32::from_json(alloc, value)?;
    if (place as usize) < MAX_FIELDS {
        Ok(place)
    } else {
        Err(PartEnd::Malformed)
    }
}
