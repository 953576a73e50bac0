ghost use Rattle.std.specs.Prelude.{IfOk, IfErr};
ghost use Rattle.serde_json.specs.View.{view};
ghost use Rattle.nemo_top.specs.Bundles.{IsJson};
ghost use Rattle.nemo_top.specs.Reached.{IsParseEnd};

use crate::status::Status;
use serde_json::Value;
use std::alloc::Global;

/// Why bytes give no JSON value.
#[derive(Clone, Copy)]
pub(crate) enum ParseEnd {
    /// They are no JSON.
    NotJson,
    /// No memory was left.
    NoMemory,
}

impl From<ParseEnd> for Status {
    ghost use Rattle.std.specs.Prelude.{◌≡◌};
    ghost use Rattle.nemo_top.specs.Reached.{of_parse};

    ghost from_gives = { λ end status. status ≡ of_parse end };

    fn from(end: ParseEnd) -> Status {
        match end {
            ParseEnd::NotJson => Status::NotJson,
            ParseEnd::NoMemory => Status::NoMemory,
        }
    }
}

/// The value that bytes are. They are dropped then.
pub(crate) fn parse(alloc: Global, bytes: Vec<u8>) -> Result<Value, ParseEnd>
    ensures json { IfOk result (λ value. IsJson bytes.items (view value)) }
    ensures end { IfErr result (IsParseEnd bytes.items) }
{
    match Value::from_slice(alloc, bytes.as_slice()) {
        Ok(value) => Ok(value),
        Err(e) if e.is_memory() => Err(ParseEnd::NoMemory),
        Err(_) => Err(ParseEnd::NotJson),
    }
}
