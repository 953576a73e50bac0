use crate::parts::{bytes_of, text};
use nemo_base::{Class, Home, Read, StageRow, TaskGraph, VertexRow};
use nemo_bundle::{Bundle, read_bundle};
use nemo_check::check;
use nemo_ir::{FlatJob, IrDag};
use nemo_plan::Plan;
use nemo_value::{List, NoMemory};
use serde_json::Value;
use std::alloc::{AllocError, Global};

/// Whether the plan of the DAG that a bundle proposes is what is expected. A row has the bundle as `input`, and the
/// `output`: a line for each stage with its class, parallelism, rank, blocks and reads, and one for each vertex with its
/// stage, parallelism, whether it is hashed, its triggers, its home and whether its blocks may go. A `*` marks a wide read.
pub(crate) fn is_expected(alloc: Global, row: &Value) -> Result<bool, AllocError> {
    let input = bytes_of(alloc, row.get("input"))?;
    match Value::from_slice(alloc, input.as_slice()) {
        Ok(value) => is_planned(alloc, value, text(row, "output")),
        Err(_) => Ok(false),
    }
}

fn is_planned(alloc: Global, value: Value, wanted: &str) -> Result<bool, AllocError> {
    match read_bundle(alloc, value) {
        Ok(bundle) => is_proposed(alloc, bundle, wanted),
        Err(_) => Ok(false),
    }
}

fn is_proposed(alloc: Global, bundle: Bundle, wanted: &str) -> Result<bool, AllocError> {
    let Bundle { flat, dag, .. } = bundle;
    match dag {
        Some(dag) => is_plan(alloc, flat, dag, wanted),
        None => Ok(false),
    }
}

fn is_plan(alloc: Global, flat: FlatJob, dag: IrDag, wanted: &str) -> Result<bool, AllocError> {
    if check(alloc, &flat, &dag).is_err() {
        return Ok(false);
    }
    match Plan::new(alloc, flat, dag) {
        Ok(plan) => is_graph(alloc, plan.graph(), wanted),
        Err(NoMemory) => Ok(false),
    }
}

fn is_graph(alloc: Global, graph: &TaskGraph, wanted: &str) -> Result<bool, AllocError> {
    let mut lines = String::new(alloc);
    for (number, stage) in graph.stages.iter().enumerate() {
        push_stage(alloc, &mut lines, number, stage)?;
    }
    for (number, vertex) in graph.vertices.iter().enumerate() {
        push_vertex(alloc, &mut lines, number, vertex)?;
    }
    Ok(lines.as_str() == wanted)
}

fn push_stage(
    alloc: Global,
    lines: &mut String,
    number: usize,
    stage: &StageRow,
) -> Result<(), AllocError> {
    let class = class_word(stage.class);
    let tasks = stage.parallelism;
    let rank = stage.rank;
    lines.push_str(format!(in alloc; "s {number} {class} {tasks} {rank} blocks")?.as_str())?;
    push_numbers(alloc, lines, &stage.blocks)?;
    lines.push_str(" reads")?;
    for read in &stage.reads {
        push_read(alloc, lines, *read)?;
    }
    lines.push_str("\n")
}

fn push_read(alloc: Global, lines: &mut String, read: Read) -> Result<(), AllocError> {
    let vertex = read.vertex;
    let mark = if read.wide { "*" } else { "" };
    lines.push_str(format!(in alloc; " {vertex}{mark}")?.as_str())
}

fn push_vertex(
    alloc: Global,
    lines: &mut String,
    number: usize,
    vertex: &VertexRow,
) -> Result<(), AllocError> {
    let stage = vertex.stage;
    let tasks = vertex.parallelism;
    let home = home_word(vertex.home);
    lines.push_str(format!(in alloc; "v {number} {stage} {tasks} {home}")?.as_str())?;
    lines.push_str(if vertex.hashed { " hashed" } else { "" })?;
    lines.push_str(if vertex.discard { " discard" } else { "" })?;
    push_numbers(alloc, lines, &vertex.triggers)?;
    lines.push_str("\n")
}

fn push_numbers(alloc: Global, lines: &mut String, numbers: &List<u32>) -> Result<(), AllocError> {
    for number in numbers {
        lines.push_str(format!(in alloc; " {number}")?.as_str())?;
    }
    Ok(())
}

fn class_word(class: Class) -> &'static str {
    match class {
        Class::Reserved => "reserved",
        Class::Transient => "transient",
    }
}

fn home_word(home: Home) -> &'static str {
    match home {
        Home::Master => "master",
        Home::Pushed => "pushed",
        Home::Local => "local",
    }
}
