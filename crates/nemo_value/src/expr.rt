ghost use Rattle.std.specs.Prelude.{◌≡◌, ◌↔◌, Some};
ghost use Rattle.nemo_value.specs.declared.expr.Expr.TheVariants.{Pair, If, Len};
ghost use Rattle.nemo_value.specs.Copies.{IsCopy};
ghost use Rattle.nemo_value.specs.Words.{kind_word};

use crate::field::Field;
use crate::memory::NoMemory;
use crate::same::Same;
use crate::try_copy::TryCopy;
use sqlite_items::Boxed;
use std::alloc::Global;

/// An operator of two operands. `Same` answers whether they are equal, and `Cat` joins two texts.
#[derive(Clone, Copy, PartialEq)]
pub enum Oper {
    Add,
    Sub,
    Mul,
    Div,
    Rem,
    Less,
    Same,
    Cat,
}

/// An expression over a record: a field by its place from 0, a constant, an operator of two operands, a choice
/// (the second operand where the first isn't 0, else the third), or the number of bytes of a text.
#[derive(Drop)]
pub enum Expr {
    Get(u32),
    Const(Field),
    Pair(Oper, Boxed<Expr>, Boxed<Expr>),
    If(Boxed<Expr>, Boxed<Expr>, Boxed<Expr>),
    Len(Boxed<Expr>),
}

/// Why an expression has no value, or a transform no row: a zero divisor, a number beyond 64 bits, an operand of
/// the wrong type, a field that isn't there, too many fields, too many bytes. The kinds are ordered as they stand.
#[derive(Clone, Copy, PartialEq, Eq, PartialOrd, Ord)]
pub enum Kind {
    DivZero,
    Overflow,
    Typed,
    NoField,
    Wide,
    Long,
}

impl Kind {
    /// The word by which texts call the kind.
    pub fn word(self) -> &'static str
        ensures { result.now ≡ kind_word self }
    {
        match self {
            Kind::DivZero => "DivZero",
            Kind::Overflow => "Overflow",
            Kind::Typed => "Type",
            Kind::NoField => "NoField",
            Kind::Wide => "Wide",
            Kind::Long => "Long",
        }
    }

    /// The kind that texts call by the word, if there is one.
    #[tactic(auto, using(crate::proofs::KindWords::word_found))]
    pub fn from_word(word: &str) -> Option<Kind>
        ensures { (k : Kind) → (result ≡ Some k) ↔ (word.now ≡ kind_word k) }
    {
        if word == Kind::DivZero.word() {
            Some(Kind::DivZero)
        } else if word == Kind::Overflow.word() {
            Some(Kind::Overflow)
        } else if word == Kind::Typed.word() {
            Some(Kind::Typed)
        } else if word == Kind::NoField.word() {
            Some(Kind::NoField)
        } else if word == Kind::Wide.word() {
            Some(Kind::Wide)
        } else if word == Kind::Long.word() {
            Some(Kind::Long)
        } else {
            None
        }
    }
}

impl TryCopy for Expr {
    fn copy(&self, alloc: Global) -> Result<Expr, NoMemory> {
        match self {
            Expr::Get(place) => Ok(Expr::Get(*place)),
            Expr::Const(field) => Ok(Expr::Const(field.copy(alloc)?)),
            Expr::Pair(oper, a, b) => {
                pair(*oper, both(alloc, a.get().copy(alloc), b.get().copy(alloc)))
            }
            Expr::If(test, a, b) => choice(
                boxed(alloc, test.get().copy(alloc)),
                both(alloc, a.get().copy(alloc), b.get().copy(alloc)),
            ),
            Expr::Len(a) => length(boxed(alloc, a.get().copy(alloc))),
        }
    }
}

/// The copy of an operand, in its box.
fn boxed(alloc: Global, copy: Result<Expr, NoMemory>) -> Result<Boxed<Expr>, NoMemory>
    ensures { (x : Expr) → IsCopy copy x → IsCopy result x }
{
    Ok(Boxed::new(alloc, copy?)?)
}

/// The copies of two operands, each in its box.
fn both(
    alloc: Global,
    first: Result<Expr, NoMemory>,
    second: Result<Expr, NoMemory>,
) -> Result<(Boxed<Expr>, Boxed<Expr>), NoMemory>
    ensures { (x y : Expr) → IsCopy first x → IsCopy second y → IsCopy result (x, y) }
{
    let first = Boxed::new(alloc, first?)?;
    Ok((first, Boxed::new(alloc, second?)?))
}

fn pair(
    oper: Oper,
    operands: Result<(Boxed<Expr>, Boxed<Expr>), NoMemory>,
) -> Result<Expr, NoMemory>
    ensures { (x y : Expr) → IsCopy operands (x, y) → IsCopy result (Pair oper x y) }
{
    let (first, second) = operands?;
    Ok(Expr::Pair(oper, first, second))
}

fn choice(
    test: Result<Boxed<Expr>, NoMemory>,
    operands: Result<(Boxed<Expr>, Boxed<Expr>), NoMemory>,
) -> Result<Expr, NoMemory>
    ensures { (t x y : Expr) → IsCopy test t → IsCopy operands (x, y) → IsCopy result (If t x y) }
{
    let (first, second) = operands?;
    Ok(Expr::If(test?, first, second))
}

fn length(text: Result<Boxed<Expr>, NoMemory>) -> Result<Expr, NoMemory>
    ensures { (x : Expr) → IsCopy text x → IsCopy result (Len x) }
{
    Ok(Expr::Len(text?))
}

impl Same for Oper {
    fn same(&self, other: &Oper) -> bool {
        self == other
    }
}

impl Same for Expr {
    fn same(&self, other: &Expr) -> bool {
        match (self, other) {
            (Expr::Get(j), Expr::Get(k)) => j == k,
            (Expr::Const(x), Expr::Const(y)) => x.same(y),
            (Expr::Pair(o, a, b), Expr::Pair(p, c, d)) => {
                o.same(p) && a.get().same(c.get()) && b.get().same(d.get())
            }
            (Expr::If(t, a, b), Expr::If(u, c, d)) => {
                t.get().same(u.get()) && a.get().same(c.get()) && b.get().same(d.get())
            }
            (Expr::Len(a), Expr::Len(b)) => a.get().same(b.get()),
            _ => false,
        }
    }
}
