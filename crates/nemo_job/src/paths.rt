ghost use Rattle.std.specs.Prelude.{◌≡◌, ◌++◌, string_bytes, IfOk};
ghost use Rattle.nemo_job.specs.Mean as spec;

use nemo_value::NoMemory;
use std::alloc::Global;

/// A name under the path of what it stands in.
pub(crate) fn joined(alloc: Global, path: &str, name: &str) -> Result<String, NoMemory>
    ensures { IfOk result (λ joined. string_bytes joined ≡ path.now ++ name.now) }
{
    let mut joined = String::with_capacity(alloc, path.len() + name.len())?;
    joined.push_str(path)?;
    joined.push_str(name)?;
    Ok(joined)
}

/// The path of what stands in the body of a loop at one turn, as `l[2]/`.
pub(crate) fn turn_path(alloc: Global, path: &str, turn: u32) -> Result<String, NoMemory>
    ensures { IfOk result (λ inside. string_bytes inside ≡ spec.turn_path path.now turn) }
{
    let number = turn.to_string(alloc)?;
    let mut inside = String::with_capacity(alloc, path.len() + number.len() + 3)?;
    inside.push_str(path)?;
    inside.push_str("[")?;
    inside.push_str(number.as_str())?;
    inside.push_str("]/")?;
    Ok(inside)
}
