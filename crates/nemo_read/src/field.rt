use crate::end::PartEnd;
use crate::read::{FromJson, owned};
use nemo_value::{Field, Name, Text};
use serde_json::Value;
use std::alloc::Global;

/// A whole number of 64 bits, or a text of at most 65,535 bytes.
impl FromJson for Field {
    ghost use Rattle.nemo_read.specs.Parts.{field_of};

    ghost reads = { field_of };

    fn from_json(alloc: Global, value: &Value) -> Result<Field, PartEnd> {
        if let Some(n) = value.as_i64() {
            return Ok(Field::Int(n));
        }
        let text = value.as_str().ok_or(PartEnd::Malformed)?;
        let text = Text::from_str(alloc, text)?.ok_or(PartEnd::Malformed)?;
        Ok(Field::Text(text))
    }
}

/// A text that is a name.
impl FromJson for Name {
    ghost use Rattle.nemo_read.specs.Parts.{name_of};

    ghost reads = { name_of };

    fn from_json(alloc: Global, value: &Value) -> Result<Name, PartEnd> {
        let text = value.as_str().ok_or(PartEnd::Malformed)?;
        Name::new(owned(alloc, text)?).map_err(|_| PartEnd::Malformed)
    }
}
