ghost use Rattle.std.specs.Prelude.{◌≡◌, ◌↔◌, string_bytes, length, take_while, min, IsOk, IfOk, IfErr, true};
ghost use Rattle.nemo_value.specs.Names.{is_name, name_place};
ghost use Rattle.nemo_value.specs.Names as spec;

use crate::memory::NoMemory;
use crate::same::Same;
use crate::text::Text;
use crate::try_copy::TryCopy;
use std::alloc::Global;
use std::marker::Model;

/// The most bytes of a name.
pub const MAX_NAME: usize = 64;

/// A name of 1 to 64 ASCII letters, digits, `_` and `-`. Contracts see its bytes.
#[derive(Drop)]
pub struct Name {
    inner: Text,
}

impl Model for Name {
    ghost use Rattle.std.specs.Prelude.{ℕ, List, ◌≡◌, true};
    ghost use Rattle.nemo_value.specs.Names.{is_name};

    ghost Value = { List ℕ };

    ghost view = { λ n. n.inner };

    ghost invariant = { λ n. is_name n.inner ≡ true };
}

/// A string is no name. `place` is that of the first byte that no name has there: 0 where the string is empty, and at most 64.
#[derive(Clone, Copy)]
pub struct NameRefused {
    pub place: u64,
}

fn is_name_byte(b: u8) -> bool
    ensures { result ≡ spec.is_name_byte b }
{
    b.is_ascii_alphanumeric() || b == b'_' || b == b'-'
}

/// How many bytes at the front a name may have.
fn name_bytes(bytes: &[u8]) -> usize
    ensures { result ≡ length (take_while spec.is_name_byte bytes.now) }
{
    bytes.iter().take_while(|b| is_name_byte(**b)).count()
}

impl Name {
    /// The string as a name; refused exactly where it is none.
    pub fn new(s: String) -> Result<Name, NameRefused>
        ensures ok { IfOk result (λ name. name ≡ string_bytes s) }
        ensures name { IsOk result ↔ (is_name (string_bytes s) ≡ true) }
        ensures err { IfErr result (λ e. e.place ≡ name_place (string_bytes s)) }
    {
        let place = name_bytes(s.as_bytes()).min(MAX_NAME);
        if place == 0 || place < s.len() {
            return Err(NameRefused {
                place: place as u64,
            });
        }
        Ok(Name { inner: Text::of(s) })
    }

    pub fn as_str(&self) -> &str
        ensures text { result.now ≡ self.now }
        ensures name { is_name self.now ≡ true }
    {
        self.inner.as_str()
    }
}

impl TryCopy for Name {
    fn copy(&self, alloc: Global) -> Result<Name, NoMemory> {
        Ok(Name {
            inner: self.inner.copy(alloc)?,
        })
    }
}

impl Same for Name {
    fn same(&self, other: &Name) -> bool {
        self.inner.same(&other.inner)
    }
}
