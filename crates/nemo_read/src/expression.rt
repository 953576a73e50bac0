ghost use Rattle.std.specs.Prelude.{◌≡◌, Some};
ghost use Rattle.serde_json.specs.View.{view, items_view};
ghost use Rattle.nemo_read.specs.Answers.{Reads, ReadsAs};
ghost use Rattle.nemo_read.specs.Exprs as spec;
ghost use Rattle.nemo_read.specs.Shapes.{shape_view};

use crate::call::Call;
use crate::end::PartEnd;
use crate::number::read_place;
use crate::read::FromJson;
use nemo_value::{Boxed, Expr, Field, Oper};
use serde_json::Value;
use std::alloc::Global;

/// An expression, at most 32 deep.
impl FromJson for Expr {
    ghost use Rattle.nemo_read.specs.Exprs.{expr_of};

    ghost reads = { expr_of };

    fn from_json(alloc: Global, value: &Value) -> Result<Expr, PartEnd> {
        read_expr(alloc, value, MAX_DEPTH)
    }
}

/// The most constructs that are open at a place of an expression.
const MAX_DEPTH: u32 = 32;

/// An expression before its operands are read.
#[derive(Drop)]
enum Shape<'a> {
    /// One that has none.
    Whole(Expr),
    Len(&'a Value),
    Pair(Oper, &'a Value, &'a Value),
    Choice(&'a Value, &'a Value, &'a Value),
}

/// An expression that is at most `depth` deep.
#[cycle(expr)]
fn read_expr(alloc: Global, value: &Value, depth: u32) -> Result<Expr, PartEnd>
    ensures { Reads result (spec.expr_within depth (view value.now)) }
{
    if depth == 0 {
        return Err(PartEnd::Malformed);
    }
    let shape = read_shape(alloc, value)?;
    read_parts(alloc, shape, depth - 1)
}

/// The expression of this shape, whose operands are at most `depth` deep.
#[cycle(expr)]
fn read_parts(alloc: Global, shape: Shape<'_>, depth: u32) -> Result<Expr, PartEnd>
    ensures { Reads result (spec.expr_by (spec.expr_within depth) (shape_view shape.entry)) }
{
    match shape {
        Shape::Whole(expr) => Ok(expr),
        Shape::Len(a) => Ok(Expr::Len(read_operand(alloc, a, depth)?)),
        Shape::Pair(oper, a, b) => {
            let first = read_operand(alloc, a, depth)?;
            let second = read_operand(alloc, b, depth)?;
            Ok(Expr::Pair(oper, first, second))
        }
        Shape::Choice(test, a, b) => {
            let test = read_operand(alloc, test, depth)?;
            let first = read_operand(alloc, a, depth)?;
            let second = read_operand(alloc, b, depth)?;
            Ok(Expr::If(test, first, second))
        }
    }
}

#[cycle(expr)]
fn read_operand(alloc: Global, value: &Value, depth: u32) -> Result<Boxed<Expr>, PartEnd>
    ensures { Reads result (spec.expr_within depth (view value.now)) }
{
    boxed(alloc, read_expr(alloc, value, depth)?)
}

fn boxed(alloc: Global, expr: Expr) -> Result<Boxed<Expr>, PartEnd>
    ensures { Reads result (Some expr) }
{
    match Boxed::new(alloc, expr) {
        Ok(boxed) => Ok(boxed),
        Err(_) => Err(PartEnd::NoMemory),
    }
}

fn read_shape<'a>(alloc: Global, value: &'a Value) -> Result<Shape<'a>, PartEnd>
    ensures { ReadsAs shape_view result (spec.shape_of (view value.now)) }
{
    let call = Call::of(value).ok_or(PartEnd::Malformed)?;
    read_called(alloc, call.word, call.args)
}

/// The shape of a word and what stands behind it.
fn read_called<'a>(alloc: Global, word: &str, args: &'a [Value]) -> Result<Shape<'a>, PartEnd>
    ensures { ReadsAs shape_view result (spec.shape_from (items_view args.now) word.now) }
{
    match args {
        [a] => read_single(alloc, word, a),
        [a, b] => match oper_of(word) {
            Some(oper) => Ok(Shape::Pair(oper, a, b)),
            None => Err(PartEnd::Malformed),
        },
        [test, a, b] => match word {
            "if" => Ok(Shape::Choice(test, a, b)),
            _ => Err(PartEnd::Malformed),
        },
        _ => Err(PartEnd::Malformed),
    }
}

/// A field, a constant, or the length of a text.
fn read_single<'a>(alloc: Global, word: &str, value: &'a Value) -> Result<Shape<'a>, PartEnd>
    ensures { ReadsAs shape_view result (spec.single_of (view value.now) word.now) }
{
    match word {
        "f" => Ok(Shape::Whole(Expr::Get(read_place(alloc, value)?))),
        "c" => Ok(Shape::Whole(Expr::Const(Field::from_json(alloc, value)?))),
        "len" => Ok(Shape::Len(value)),
        _ => Err(PartEnd::Malformed),
    }
}

/// The operator of a word.
fn oper_of(word: &str) -> Option<Oper>
    ensures { result ≡ spec.oper_of word.now }
{
    match word {
        "+" => Some(Oper::Add),
        "-" => Some(Oper::Sub),
        "*" => Some(Oper::Mul),
        "/" => Some(Oper::Div),
        "%" => Some(Oper::Rem),
        "<" => Some(Oper::Less),
        "=" => Some(Oper::Same),
        "cat" => Some(Oper::Cat),
        _ => None,
    }
}
