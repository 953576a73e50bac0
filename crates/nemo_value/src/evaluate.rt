ghost use Rattle.std.specs.Prelude.{◌≡◌, ℤ, Ok, FitsSigned, IfSome, slice_get};
ghost use Rattle.nemo_value.specs.declared.field.Field.TheVariants.{Int};
ghost use Rattle.std.specs.Cow.{cow_value};
ghost use Rattle.std.specs.Int.{w64};
ghost use Rattle.std.specs.Option.{SomeIff};
ghost use Rattle.nemo_value.specs.Answers.{Gives, Lends};
ghost use Rattle.nemo_value.specs.Val.{val, joining, field_or, quotient_of, rest_of, whole};
ghost use Rattle.nemo_value.specs.Val as spec;

use crate::expr::{Expr, Kind, Oper};
use crate::field::Field;
use crate::memory::NoMemory;
use crate::record::Record;
use crate::try_copy::TryCopy;
use std::alloc::{AllocFailed, Global};
use std::borrow::Cow;

/// Why an expression has no value: a fault of its own, or want of memory.
#[derive(Clone, Copy)]
pub enum EvalFault {
    Fault(Kind),
    NoMemory,
}

impl From<NoMemory> for EvalFault {
    ghost use Rattle.nemo_value.specs.declared.evaluate.EvalFault.TheVariants.{NoMemory};
    ghost use Rattle.std.specs.Prelude.{◌≡◌, ℤ, Ok, FitsSigned, slice_get};
    ghost use Rattle.std.specs.Cow.{cow_value};
    ghost use Rattle.std.specs.Int.{w64};
    ghost use Rattle.std.specs.Option.{SomeIff};

    ghost from_gives = { λ _ e. e ≡ NoMemory };

    fn from(_e: NoMemory) -> EvalFault {
        EvalFault::NoMemory
    }
}

impl<T: Drop> From<AllocFailed<T>> for EvalFault {
    ghost use Rattle.nemo_value.specs.declared.evaluate.EvalFault.TheVariants.{NoMemory};
    ghost use Rattle.std.specs.Prelude.{◌≡◌};

    ghost from_gives = { λ _ e. e ≡ NoMemory };

    fn from(_e: AllocFailed<T>) -> EvalFault {
        EvalFault::NoMemory
    }
}

/// The value of an expression on a record, or its first fault. Operands are evaluated from left to right, and of a
/// choice only the chosen one. Numbers are exact: `Overflow` comes only where the result doesn't fit 64 bits.
pub fn eval(alloc: Global, expr: &Expr, row: &Record) -> Result<Field, EvalFault>
    ensures { Gives result (val expr.now row.now) }
{
    value_of(alloc, expr, row.fields().as_slice())
}

/// The same on the fields of a row.
pub fn value_of(alloc: Global, expr: &Expr, row: &[Field]) -> Result<Field, EvalFault>
    ensures { Gives result (val expr.now row.now) }
{
    if let Some(n) = number_of(expr, row) {
        return Ok(Field::Int(n));
    }
    match value(alloc, expr, row)? {
        Cow::Borrowed(field) => Ok(field.copy(alloc)?),
        Cow::Owned(field) => Ok(field),
    }
}

/// The value of an expression that is a number and is made of numbers alone, which takes no memory. Nothing is said of
/// the others, which are those with texts, tests of texts and faults.
fn number_of(expr: &Expr, row: &[Field]) -> Option<i64>
    ensures { IfSome result (λ n. val expr.now row.now ≡ Ok (Int n)) }
{
    match expr {
        Expr::Get(place) => number_at(row, *place),
        Expr::Const(field) => number_in(field),
        Expr::Pair(oper, a, b) => {
            let x = number_of(a.get(), row)?;
            number_by(*oper, x, number_of(b.get(), row)?)
        }
        Expr::If(test, a, b) => {
            if number_of(test.get(), row)? != 0 {
                number_of(a.get(), row)
            } else {
                number_of(b.get(), row)
            }
        }
        Expr::Len(_) => None,
    }
}

fn number_at(row: &[Field], place: u32) -> Option<i64>
    ensures { IfSome result (λ n. field_or (slice_get row.now place) ≡ Ok (Int n)) }
{
    match row.get(place as usize) {
        Some(field) => number_in(field),
        None => None,
    }
}

fn number_in(field: &Field) -> Option<i64>
    ensures { IfSome result (λ n. field.now ≡ Int n) }
{
    match field {
        Field::Int(n) => Some(*n),
        Field::Text(_) => None,
    }
}

/// An operator on two numbers, where it gives a number.
fn number_by(oper: Oper, x: i64, y: i64) -> Option<i64>
    ensures { IfSome result (λ n. spec.on_fields oper (Int x) (Int y) ≡ Ok (Int n)) }
{
    match oper {
        Oper::Less => Some(i64::from(x < y)),
        Oper::Same => Some(i64::from(x == y)),
        Oper::Cat => None,
        Oper::Add => x.checked_add(y),
        Oper::Sub => x.checked_sub(y),
        Oper::Mul => x.checked_mul(y),
        Oper::Div => x.checked_div(y),
        Oper::Rem => x.checked_rem(y),
    }
}

/// The value of an expression on a record, lent where it stands in one of the two, or its first fault.
fn value<'a>(alloc: Global, expr: &'a Expr, row: &'a [Field]) -> Result<Cow<'a, Field>, EvalFault>
    ensures { Lends result (val expr.now row.now) }
{
    match expr {
        Expr::Get(place) => field_at(row, *place),
        Expr::Const(field) => Ok(Cow::Borrowed(field)),
        Expr::Pair(oper, a, b) => {
            let x = value(alloc, a.get(), row)?;
            let y = value(alloc, b.get(), row)?;
            on_both(alloc, *oper, x, y)
        }
        Expr::If(test, a, b) => {
            let chosen = if holds(value(alloc, test.get(), row)?)? {
                a
            } else {
                b
            };
            value(alloc, chosen.get(), row)
        }
        Expr::Len(a) => length_of(value(alloc, a.get(), row)?),
    }
}

fn field_at<'a>(row: &'a [Field], place: u32) -> Result<Cow<'a, Field>, EvalFault>
    ensures { Lends result (field_or (slice_get row.now place)) }
{
    match row.get(place as usize) {
        Some(field) => Ok(Cow::Borrowed(field)),
        None => Err(EvalFault::Fault(Kind::NoField)),
    }
}

/// Whether a test is a number other than 0.
fn holds(test: Cow<Field>) -> Result<bool, EvalFault>
    ensures { Gives result (spec.holds (cow_value test.entry)) }
{
    match &*test {
        Field::Int(n) => Ok(*n != 0),
        Field::Text(_) => Err(EvalFault::Fault(Kind::Typed)),
    }
}

fn length_of<'a>(x: Cow<Field>) -> Result<Cow<'a, Field>, EvalFault>
    ensures { Lends result (spec.length_of (Ok (cow_value x.entry))) }
{
    match &*x {
        Field::Text(text) => Ok(Cow::Owned(Field::Int(text.as_str().len() as i64))),
        Field::Int(_) => Err(EvalFault::Fault(Kind::Typed)),
    }
}

fn on_both<'a>(
    alloc: Global,
    oper: Oper,
    x: Cow<Field>,
    y: Cow<Field>,
) -> Result<Cow<'a, Field>, EvalFault>
    ensures { Lends result (spec.on_fields oper (cow_value x.entry) (cow_value y.entry)) }
{
    Ok(Cow::Owned(on_fields(alloc, oper, &x, &y)?))
}

fn on_fields(alloc: Global, oper: Oper, x: &Field, y: &Field) -> Result<Field, EvalFault>
    ensures { Gives result (spec.on_fields oper x.now y.now) }
{
    match oper {
        Oper::Less => Ok(truth(x < y)),
        Oper::Same => Ok(truth(x == y)),
        Oper::Cat => join(alloc, x, y),
        Oper::Add | Oper::Sub | Oper::Mul | Oper::Div | Oper::Rem => arithmetic(oper, x, y),
    }
}

fn truth(holds: bool) -> Field
    ensures { result ≡ spec.truth holds }
{
    Field::Int(if holds { 1 } else { 0 })
}

fn join(alloc: Global, x: &Field, y: &Field) -> Result<Field, EvalFault>
    ensures { Gives result (joining x.now y.now) }
{
    match (x, y) {
        (Field::Text(s), Field::Text(t)) => match s.join(alloc, t)? {
            Some(text) => Ok(Field::Text(text)),
            None => Err(EvalFault::Fault(Kind::Long)),
        },
        _ => Err(EvalFault::Fault(Kind::Typed)),
    }
}

fn arithmetic(oper: Oper, x: &Field, y: &Field) -> Result<Field, EvalFault>
    ensures { Gives result (spec.arithmetic oper x.now y.now) }
{
    match (x, y) {
        (Field::Int(x), Field::Int(y)) => on_numbers(oper, *x, *y),
        _ => Err(EvalFault::Fault(Kind::Typed)),
    }
}

fn on_numbers(oper: Oper, x: i64, y: i64) -> Result<Field, EvalFault>
    ensures { Gives result (spec.on_numbers oper x y) }
{
    match oper {
        Oper::Add => number(x.checked_add(y)),
        Oper::Sub => number(x.checked_sub(y)),
        Oper::Mul => number(x.checked_mul(y)),
        Oper::Div => quotient(x, y),
        Oper::Rem => rest(x, y),
        Oper::Less => Err(EvalFault::Fault(Kind::Typed)),
        Oper::Same => Err(EvalFault::Fault(Kind::Typed)),
        Oper::Cat => Err(EvalFault::Fault(Kind::Typed)),
    }
}

fn quotient(x: i64, y: i64) -> Result<Field, EvalFault>
    ensures { Gives result (quotient_of x y) }
{
    if y == 0 {
        return Err(EvalFault::Fault(Kind::DivZero));
    }
    number(x.checked_div(y))
}

fn rest(x: i64, y: i64) -> Result<Field, EvalFault>
    ensures { Gives result (rest_of x y) }
{
    if y == 0 {
        return Err(EvalFault::Fault(Kind::DivZero));
    }
    Ok(Field::Int(x.wrapping_rem(y)))
}

/// A number that is there where it fits 64 bits, as a field.
fn number(n: Option<i64>) -> Result<Field, EvalFault>
    ensures { (z : ℤ) → SomeIff n (FitsSigned w64 z) z → Gives result (whole z) }
{
    match n {
        Some(n) => Ok(Field::Int(n)),
        None => Err(EvalFault::Fault(Kind::Overflow)),
    }
}
