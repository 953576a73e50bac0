use serde_json::Value;
use std::alloc::{AllocError, Global};

/// The bytes that a value stands for: those of a text, or of the parts of an array one after another. A part is a
/// text, a number for one byte, or an object with a `text` that comes `times` times.
pub(crate) fn bytes_of(alloc: Global, value: Option<&Value>) -> Result<Vec<u8>, AllocError> {
    let mut bytes = Vec::new(alloc);
    if let Some(text) = value.and_then(Value::as_str) {
        bytes.extend_from_slice(text.as_bytes())?;
    }
    if let Some(parts) = value.and_then(Value::as_array) {
        for part in parts {
            push_part(part, &mut bytes)?;
        }
    }
    Ok(bytes)
}

fn push_part(part: &Value, bytes: &mut Vec<u8>) -> Result<(), AllocError> {
    if let Some(text) = part.as_str() {
        bytes.extend_from_slice(text.as_bytes())?;
    }
    if let Some(byte) = part.as_u64() {
        bytes.push(byte.to_le_bytes()[0])?;
    }
    if let Some(text) = part.get("text").and_then(Value::as_str) {
        for _ in 0..number(part, "times") {
            bytes.extend_from_slice(text.as_bytes())?;
        }
    }
    Ok(())
}

/// A member that is a number, or 0.
pub(crate) fn number(value: &Value, name: &str) -> u64 {
    value.get(name).and_then(Value::as_u64).unwrap_or(0)
}

/// A member that is a text, or the empty one.
pub(crate) fn text<'a>(value: &'a Value, name: &str) -> &'a str {
    value.get(name).and_then(Value::as_str).unwrap_or("")
}
