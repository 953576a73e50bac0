ghost use Rattle.std.specs.Prelude.{◌≡◌, ◌≤◌, ◌↔◌, ◌+◌, ◌++◌, length, nat_le, string_bytes, IsOk, IfOk, IfErr, IsUtf8, if◌then◌else◌, Some, None};
ghost use Rattle.nemo_value.specs.TextBytes.{bytes_in};
ghost use Rattle.nemo_value.specs.Texts.{joined};

use crate::memory::NoMemory;
use crate::same::Same;
use crate::try_copy::TryCopy;
use arrayvec::ArrayString;
use std::alloc::Global;
use std::cmp::Ordering;
use std::hash::{Hash, Hasher};
use std::marker::Model;

/// The most bytes of a text.
pub const MAX_TEXT: usize = 65_535;

/// The most bytes of a text that takes no memory.
const SHORT: usize = 16;

/// Where the bytes of a text are: in the value itself, or behind a pointer.
#[derive(Drop)]
enum Bytes {
    Short(ArrayString<16>),
    Long(String),
}

/// A text of at most 65,535 bytes; one of at most 16 takes no memory. Contracts see its bytes.
#[derive(Drop)]
pub struct Text {
    inner: Bytes,
}

impl Model for Text {
    ghost use Rattle.std.specs.Prelude.{ℕ, List, length, ◌≤◌};
    ghost use Rattle.nemo_value.specs.TextBytes.{bytes_in};

    ghost Value = { List ℕ };

    ghost view = { λ t. bytes_in t.inner };

    ghost invariant = { λ t. length (bytes_in t.inner) ≤ 65535 };
}

/// A text has `count` bytes, which are too many.
#[derive(Clone, Copy)]
pub struct LongText {
    pub count: u64,
}

impl Text {
    /// The string as a text; refused exactly where it is longer than 65,535 bytes.
    pub fn new(s: String) -> Result<Text, LongText>
        ensures ok { IfOk result (λ text. text ≡ string_bytes s) }
        ensures fits { IsOk result ↔ (length (string_bytes s) ≤ 65535) }
        ensures err { IfErr result (λ e. e.count ≡ length (string_bytes s)) }
    {
        if s.len() > MAX_TEXT {
            return Err(LongText {
                count: s.len() as u64,
            });
        }
        Ok(Text::of(s))
    }

    /// A string that is short enough, as a text.
    pub fn of(s: String) -> Text
        requires { length (string_bytes s) ≤ 65535 }
        ensures { result ≡ string_bytes s }
    {
        Text { inner: bytes_of(s) }
    }

    /// A copy of the string as a text; nothing exactly where it is longer than 65,535 bytes.
    pub fn from_str(alloc: Global, s: &str) -> Result<Option<Text>, NoMemory>
        ensures { IfOk result (λ text. text ≡ (if nat_le (length s.now) 65535 then Some s.now else None)) }
    {
        if s.len() > MAX_TEXT {
            return Ok(None);
        }
        Ok(Some(Text {
            inner: copied(alloc, s)?,
        }))
    }

    pub fn as_str(&self) -> &str
        ensures text { result.now ≡ self.now }
        ensures fits { length self.now ≤ 65535 }
        ensures utf8 { IsUtf8 self.now }
    {
        match &self.inner {
            Bytes::Short(short) => short.as_str(),
            Bytes::Long(long) => long.as_str(),
        }
    }

    /// This text and then the other, or nothing where they are too long for one text.
    pub fn join(&self, alloc: Global, other: &Text) -> Result<Option<Text>, NoMemory>
        ensures { IfOk result (λ text. text ≡ joined self.now other.now) }
    {
        let (first, second) = (self.as_str(), other.as_str());
        let size = first.len() + second.len();
        if size > MAX_TEXT {
            return Ok(None);
        }
        let inner = if size <= SHORT {
            Bytes::Short(short_joined(first, second))
        } else {
            Bytes::Long(long_joined(alloc, first, second)?)
        };
        Ok(Some(Text { inner }))
    }
}

/// The string, in the value itself where it is short.
fn bytes_of(s: String) -> Bytes
    ensures { bytes_in result ≡ string_bytes s }
{
    match ArrayString::from(s.as_str()) {
        Ok(short) => Bytes::Short(short),
        Err(_) => Bytes::Long(s),
    }
}

/// A copy of the string, in the value itself where it is short.
fn copied(alloc: Global, s: &str) -> Result<Bytes, NoMemory>
    ensures { IfOk result (λ bytes. bytes_in bytes ≡ s.now) }
{
    match ArrayString::from(s) {
        Ok(short) => Ok(Bytes::Short(short)),
        Err(_) => Ok(Bytes::Long(String::from_str(alloc, s)?)),
    }
}

/// Both strings, one after the other, where they are short.
fn short_joined(a: &str, b: &str) -> ArrayString<16>
    requires { (length a.now + length b.now) ≤ 16 }
    ensures { result.bytes ≡ a.now ++ b.now }
{
    let mut short = ArrayString::new();
    short.push_str(a);
    short.push_str(b);
    short
}

/// Both strings, one after the other.
fn long_joined(alloc: Global, a: &str, b: &str) -> Result<String, NoMemory>
    requires { (length a.now + length b.now) ≤ 65535 }
    ensures { IfOk result (λ s. string_bytes s ≡ a.now ++ b.now) }
{
    let mut long = String::with_capacity(alloc, a.len() + b.len())?;
    long.push_str(a)?;
    long.push_str(b)?;
    Ok(long)
}

impl TryCopy for Text {
    fn copy(&self, alloc: Global) -> Result<Text, NoMemory> {
        let inner = match &self.inner {
            Bytes::Short(short) => Bytes::Short(*short),
            Bytes::Long(long) => Bytes::Long(String::from_str(alloc, long.as_str())?),
        };
        Ok(Text { inner })
    }
}

impl Same for Text {
    fn same(&self, other: &Text) -> bool {
        self.as_str() == other.as_str()
    }
}

impl PartialEq for Text {
    ghost use Rattle.std.specs.Prelude.{◌==◌};
    ghost use Rattle.std.specs.Cmp.Lexicographic.{pointwise, nat_list_eq_equiv};
    ghost use Rattle.std.specs.Cmp.{partial_equiv_from_equiv};

    ghost eq = { pointwise ◌==◌ };

    ghost laws = { partial_equiv_from_equiv nat_list_eq_equiv };

    fn eq(&self, other: &Text) -> bool {
        self.as_str() == other.as_str()
    }
}

impl Eq for Text {
    ghost use Rattle.std.specs.Cmp.Lexicographic.{nat_list_eq_equiv};

    ghost laws = { nat_list_eq_equiv };
}

impl PartialOrd for Text {
    ghost use Rattle.std.specs.Prelude.{Some};
    ghost use Rattle.std.specs.Cmp.Lexicographic.{texts_po};
    ghost use Rattle.nemo_value.specs.Order.{text_cmp};

    ghost partial_cmp = { λ a b. Some (text_cmp a b) };

    ghost laws = { texts_po };

    fn partial_cmp(&self, other: &Text) -> Option<Ordering> {
        Some(self.cmp(other))
    }
}

/// By bytes, a proper prefix first.
impl Ord for Text {
    ghost use Rattle.std.specs.Prelude.{refl};
    ghost use Rattle.std.specs.Cmp.Lexicographic.{nat_list_cmp_total, texts_ties};
    ghost use Rattle.nemo_value.specs.Order.{text_cmp};

    ghost cmp = { text_cmp };

    ghost total = { nat_list_cmp_total };

    ghost matches_partial_cmp = { λ a b. refl };

    ghost matches_eq = { texts_ties };

    fn cmp(&self, other: &Text) -> Ordering {
        self.as_str().cmp(other.as_str())
    }
}

impl Hash for Text {
    ghost use Rattle.std.specs.Hash as fed;
    ghost use Rattle.std.specs.Cmp.Rules.{hashing};
    ghost use Rattle.std.proofs.Common.{rules};

    ghost hash_input = { fed.str };

    ghost respects_eq = { Prim.search (hashing, rules) };

    fn hash<H: Hasher>(&self, state: &mut H) {
        self.as_str().hash(state);
    }
}
