use crate::parts::{bytes_of, number, text};
use crate::splits::numbers_of;
use nemo_base::Cuts;
use nemo_value::{
    Boxed, EvalFault, Expr, Field, List, Name, NoMemory, Oper, Record, Text, bucket_of, eval,
};
use serde_json::Value;
use std::alloc::Global;

/// Whether a call of the library gives what is expected. A row has the `call`, what it is given, and the `value` that
/// is expected, as a text: a value, a fault's kind, or what a refusal names.
pub(crate) fn is_expected(alloc: Global, row: &Value) -> bool {
    match value_of(alloc, row) {
        Ok(value) => value.as_slice() == text(row, "value").as_bytes(),
        Err(NoMemory) => false,
    }
}

fn value_of(alloc: Global, row: &Value) -> Result<Vec<u8>, NoMemory> {
    match text(row, "call") {
        "name" => name_of(alloc, row),
        "text" => text_of(alloc, row),
        "record" => record_of(alloc, row),
        "bucket" => bucket(alloc, row),
        "eval" => eval_of(alloc, row),
        "cuts" => cuts_of(alloc, row),
        "even" => even_of(alloc, row),
        "task" => task_of(alloc, row),
        _ => Ok(Vec::new(alloc)),
    }
}

/// The string that a value stands for; the empty one where its bytes are no UTF-8.
fn string_of(alloc: Global, value: Option<&Value>) -> Result<String, NoMemory> {
    let bytes = bytes_of(alloc, value)?;
    Ok(String::from_utf8(bytes).unwrap_or(String::new(alloc)))
}

fn numbered(alloc: Global, what: &str, n: u64) -> Result<Vec<u8>, NoMemory> {
    Ok(format!(in alloc; "{what}{n}")?.into_bytes())
}

fn name_of(alloc: Global, row: &Value) -> Result<Vec<u8>, NoMemory> {
    match Name::new(string_of(alloc, row.get("input"))?) {
        Ok(name) => Ok(name.as_str().as_bytes().to_vec(alloc)?),
        Err(refused) => numbered(alloc, "place ", refused.place),
    }
}

fn text_of(alloc: Global, row: &Value) -> Result<Vec<u8>, NoMemory> {
    match Text::new(string_of(alloc, row.get("input"))?) {
        Ok(text) => numbered(alloc, "bytes ", text.as_str().len() as u64),
        Err(refused) => numbered(alloc, "count ", refused.count),
    }
}

fn record_of(alloc: Global, row: &Value) -> Result<Vec<u8>, NoMemory> {
    let mut fields = Vec::new(alloc);
    for _ in 0..number(row, "fields") {
        fields.push(Field::Int(0))?;
    }
    match Record::new(List::from_vec(fields)) {
        Ok(rec) => numbered(alloc, "fields ", rec.fields().len() as u64),
        Err(refused) => numbered(alloc, "count ", refused.count),
    }
}

/// A field: a number, or else a text.
pub(crate) fn field_of(alloc: Global, value: Option<&Value>) -> Result<Field, NoMemory> {
    if let Some(n) = value.and_then(Value::as_i64) {
        return Ok(Field::Int(n));
    }
    match Text::new(string_of(alloc, value)?) {
        Ok(text) => Ok(Field::Text(text)),
        Err(_) => Ok(Field::Int(0)),
    }
}

fn bucket(alloc: Global, row: &Value) -> Result<Vec<u8>, NoMemory> {
    let key = field_of(alloc, row.get("key"))?;
    numbered(alloc, "", u64::from(bucket_of(&key)))
}

fn cuts_of(alloc: Global, row: &Value) -> Result<Vec<u8>, NoMemory> {
    match Cuts::new(numbers_of(alloc, row.get("cuts"))?.as_slice()) {
        Ok(cuts) => numbered(alloc, "cuts ", cuts.as_slice().len() as u64),
        Err(refused) => numbered(alloc, "place ", refused.place),
    }
}

/// The even cuts of 1 to 64 tasks.
fn even_of(alloc: Global, row: &Value) -> Result<Vec<u8>, NoMemory> {
    let tasks = number(row, "tasks").max(1).min(64) as u32;
    let mut text = String::new(alloc);
    for cut in Cuts::even(tasks).as_slice() {
        text.push_str(format!(in alloc; "{cut},")?.as_str())?;
    }
    Ok(text.into_bytes())
}

/// The task on which a bucket lies, and how many tasks there are.
fn task_of(alloc: Global, row: &Value) -> Result<Vec<u8>, NoMemory> {
    let Ok(cuts) = Cuts::new(numbers_of(alloc, row.get("cuts"))?.as_slice()) else {
        return Ok(Vec::new(alloc));
    };
    let bucket = number(row, "bucket").min(255) as u8;
    Ok(format!(in alloc; "{} of {}", cuts.task_of(bucket), cuts.tasks())?.into_bytes())
}

/// An operand: the place of a field, or a constant.
fn operand(alloc: Global, row: &Value, name: &str) -> Result<Boxed<Expr>, NoMemory> {
    let value = row.get(name);
    let expr = match value.and_then(|v| v.get("field")).and_then(Value::as_u64) {
        Some(place) => Expr::Get(u32::try_from(place).unwrap_or(u32::MAX)),
        None => Expr::Const(field_of(alloc, value)?),
    };
    Ok(Boxed::new(alloc, expr)?)
}

/// The operator of a sign; any other word joins.
fn oper_of(sign: &str) -> Oper {
    match sign.as_bytes() {
        [b'+'] => Oper::Add,
        [b'-'] => Oper::Sub,
        [b'*'] => Oper::Mul,
        [b'/'] => Oper::Div,
        [b'%'] => Oper::Rem,
        [b'<'] => Oper::Less,
        [b'='] => Oper::Same,
        _ => Oper::Cat,
    }
}

fn expr_of(alloc: Global, row: &Value) -> Result<Expr, NoMemory> {
    let a = operand(alloc, row, "a")?;
    match text(row, "oper") {
        "len" => Ok(Expr::Len(a)),
        "if" => Ok(Expr::If(a, operand(alloc, row, "b")?, operand(alloc, row, "c")?)),
        oper => Ok(Expr::Pair(oper_of(oper), a, operand(alloc, row, "b")?)),
    }
}

/// The value of an expression on the record `[0]`.
fn eval_of(alloc: Global, row: &Value) -> Result<Vec<u8>, NoMemory> {
    let expr = expr_of(alloc, row)?;
    let rec = record_with(alloc, 0)?;
    answer(alloc, eval(alloc, &expr, &rec))
}

/// An answer: a number, how many bytes a text has, or the kind of a fault.
fn answer(alloc: Global, value: Result<Field, EvalFault>) -> Result<Vec<u8>, NoMemory> {
    let text = match value {
        Ok(Field::Int(n)) => n.to_string(alloc)?,
        Ok(Field::Text(text)) => return numbered(alloc, "bytes ", text.as_str().len() as u64),
        Err(EvalFault::Fault(kind)) => kind.word().to_string(alloc)?,
        Err(EvalFault::NoMemory) => return Err(NoMemory),
    };
    Ok(text.into_bytes())
}

fn record_with(alloc: Global, n: i64) -> Result<Record, NoMemory> {
    let mut fields = List::new(alloc);
    fields.push(Field::Int(n))?;
    match Record::new(fields) {
        Ok(rec) => Ok(rec),
        Err(_) => Err(NoMemory),
    }
}
