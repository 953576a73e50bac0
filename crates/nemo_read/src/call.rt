ghost use Rattle.std.specs.Prelude.{◌≡◌, option_map};
ghost use Rattle.serde_json.specs.Find.{as_str};
ghost use Rattle.serde_json.specs.View.{view};
ghost use Rattle.nemo_read.specs.Calls.{call_of, call_view};
ghost use Rattle.nemo_read.specs.Parts as part;

use serde_json::Value;

/// An array that begins with a word: the word, and the items behind it.
#[derive(Clone, Copy)]
pub struct Call<'a> {
    pub word: &'a str,
    pub args: &'a [Value],
}

impl<'a> Call<'a> {
    /// Of a value, where it is such an array.
    pub fn of(value: &'a Value) -> Option<Call<'a>>
        ensures { option_map call_view result ≡ call_of (view value.now) }
    {
        let (word, args) = value.as_array()?.as_slice().split_first()?;
        Some(Call {
            word: word.as_str()?,
            args,
        })
    }
}

/// Whether the value is this text.
pub fn is_word(value: &Value, word: &str) -> bool
    ensures { result ≡ part.is_word word.now (as_str (view value.now)) }
{
    value.as_str() == Some(word)
}
