//! Runs the rows of a table, which is read from standard input as JSON, through the top call and the library, and
//! prints each row that differs, and how many did. What is expected comes from the rules, worked out by hand or by a
//! model of its own, never from this program.
#![tactic(auto)]

mod calls;
mod parts;
mod plans;
mod report;
mod splits;
mod values;

use nemo_io::{StdSource, read_to_end};
use parts::text;
use report::Tally;
use serde_json::Value;
use std::alloc::Global;
use std::io;
use std::io::Print;
use std::process::ExitCode;

fn main(rt: HostRuntime) -> io::Result<ExitCode> {
    let alloc = rt.alloc();
    let mut source = StdSource::new(rt.reader());
    let Ok(bytes) = read_to_end(alloc, &mut source) else {
        return Ok(ExitCode::from(1));
    };
    let Ok(table) = Value::from_slice(alloc, bytes.as_slice()) else {
        return Ok(ExitCode::from(1));
    };
    let Some(rows) = table.as_array() else {
        return Ok(ExitCode::from(1));
    };
    let mut tally = Tally::new();
    for row in rows {
        run(&rt, alloc, row, &mut tally)?;
    }
    println!(rt; "{} rows, {} differ", tally.rows(), tally.different())?;
    Ok(ExitCode::from(if tally.different() == 0 { 0 } else { 1 }))
}

/// Runs a row, and counts it: one with a `call` through the library, any other through the top call.
fn run(rt: &impl Print, alloc: Global, row: &Value, tally: &mut Tally) -> io::Result<()> {
    match text(row, "call") {
        "" => tally.count(rt, text(row, "name"), calls::is_expected(alloc, row)?),
        "source_part" | "hash_part" | "spread_part" => {
            let call = text(row, "call");
            tally.count(rt, call, splits::is_expected(alloc, call, row))
        }
        "plan" => tally.count(rt, text(row, "name"), plans::is_expected(alloc, row)?),
        _ => tally.count(rt, text(row, "value"), values::is_expected(alloc, row)),
    }
}
