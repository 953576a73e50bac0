ghost use Rattle.std.specs.Prelude.{◌≡◌, None, IfOk, codes, if◌then◌else◌};
ghost use Rattle.serde_json.specs.Find.{as_str, get};
ghost use Rattle.serde_json.specs.View.{view, items_view};
ghost use Rattle.nemo_base.specs.Script.{IsScript};
ghost use Rattle.nemo_read.specs.Answers.{Reads};
ghost use Rattle.nemo_read.specs.Parts as parts;
ghost use Rattle.nemo_bundle.specs.Answers.{Walks};
ghost use Rattle.nemo_bundle.specs.Choices.{cluster_of};
ghost use Rattle.nemo_bundle.specs.Scripts as spec;

use crate::choices::Cluster;
use crate::end::{WalkEnd, placed};
use nemo_base::{Action, Cuts, ScriptLine, Settings, limits};
use nemo_read::{FromJson, PartEnd, is_word, read_ranged};
use nemo_value::List;
use serde_json::Value;
use std::alloc::Global;

/// The lines of the member `script`, which may be absent, or the place of the first that can't be read. They are a script
/// of these settings.
#[tactic(auto, using(crate::proofs::KeptScripts::lines_kept))]
pub(crate) fn read_script(
    alloc: Global,
    settings: Settings,
    value: &Value,
) -> Result<List<ScriptLine>, WalkEnd>
    ensures lines { Walks (λ lines. lines) result (spec.script_in (cluster_of settings) (get (codes "script") (view value.now))) }
    ensures script { IfOk result (λ lines. IsScript settings lines) }
{
    match value.get("script") {
        Some(script) => {
            let items = script.as_array().ok_or(WalkEnd::Malformed { place: 0 })?;
            read_lines(alloc, Cluster::of(settings), items.as_slice())
        }
        None => Ok(List::new(alloc)),
    }
}

fn read_lines(alloc: Global, cluster: Cluster, items: &[Value]) -> Result<List<ScriptLine>, WalkEnd>
    ensures { Walks (λ lines. lines) result (spec.lines_from cluster 0 0 (items_view items.now)) }
{
    let mut lines = List::with_capacity(alloc, items.len())?;
    let mut before = 0;
    for (place, value) in items.iter().enumerate() {
        let line = placed(
            place as u64,
            read_line(alloc, cluster, place, before, value),
        );
        let ScriptLine { at, action } = line?;
        lines.push(ScriptLine { at, action })?;
        before = at;
    }
    Ok(lines)
}

/// The line at this place, after a line at `before`.
fn read_line(
    alloc: Global,
    cluster: Cluster,
    place: usize,
    before: u32,
    value: &Value,
) -> Result<ScriptLine, PartEnd>
    ensures { Reads result (spec.line_of cluster place before (view value.now)) }
{
    let items = value.as_array().ok_or(PartEnd::Malformed)?;
    let line = line_from(alloc, cluster, items.as_slice())?;
    if place < limits::MAX_SCRIPT_LINES && before <= line.at {
        Ok(line)
    } else {
        Err(PartEnd::Malformed)
    }
}

fn line_from(alloc: Global, cluster: Cluster, items: &[Value]) -> Result<ScriptLine, PartEnd>
    ensures { Reads result (spec.line_from cluster (items_view items.now)) }
{
    match items {
        [at, word, slot] => evict_line(alloc, cluster, at, word, slot),
        [at, word, vertex, cuts] => repartition_line(alloc, at, word, vertex, cuts),
        _ => Err(PartEnd::Malformed),
    }
}

fn evict_line(
    alloc: Global,
    cluster: Cluster,
    at: &Value,
    word: &Value,
    slot: &Value,
) -> Result<ScriptLine, PartEnd>
    ensures { Reads result (if parts.is_word (codes "evict") (as_str (view word.now)) then spec.line_with (parts.ranged 0 1000000 (view at.now)) (spec.evict_of cluster (view slot.now)) else None) }
{
    if is_word(word, "evict") {
        Ok(ScriptLine {
            at: read_ranged(alloc, at, 0, limits::MAX_SCRIPT_AT)?,
            action: read_evict(alloc, cluster, slot)?,
        })
    } else {
        Err(PartEnd::Malformed)
    }
}

fn repartition_line(
    alloc: Global,
    at: &Value,
    word: &Value,
    vertex: &Value,
    cuts: &Value,
) -> Result<ScriptLine, PartEnd>
    ensures { Reads result (if parts.is_word (codes "repartition") (as_str (view word.now)) then spec.line_with (parts.ranged 0 1000000 (view at.now)) (spec.repartition_with (parts.number_of (view vertex.now)) (spec.cuts_of (view cuts.now))) else None) }
{
    if is_word(word, "repartition") {
        Ok(ScriptLine {
            at: read_ranged(alloc, at, 0, limits::MAX_SCRIPT_AT)?,
            action: read_repartition(alloc, vertex, cuts)?,
        })
    } else {
        Err(PartEnd::Malformed)
    }
}

/// An eviction of a slot that is transient.
fn read_evict(alloc: Global, cluster: Cluster, slot: &Value) -> Result<Action, PartEnd>
    ensures { Reads result (spec.evict_of cluster (view slot.now)) }
{
    let slot = u32::from_json(alloc, slot)?;
    if cluster.reserved <= slot
        && u64::from(slot) < u64::from(cluster.reserved) + u64::from(cluster.transient)
    {
        Ok(Action::Evict(slot))
    } else {
        Err(PartEnd::Malformed)
    }
}

fn read_repartition(alloc: Global, vertex: &Value, cuts: &Value) -> Result<Action, PartEnd>
    ensures { Reads result (spec.repartition_with (parts.number_of (view vertex.now)) (spec.cuts_of (view cuts.now))) }
{
    let vertex = u32::from_json(alloc, vertex)?;
    Ok(Action::Repartition(vertex, read_cuts(alloc, cuts)?))
}

/// Numbers that are cuts.
#[tactic(auto, using(crate::proofs::ShortCuts::cuts_by_short))]
pub(crate) fn read_cuts(alloc: Global, value: &Value) -> Result<Cuts, PartEnd>
    ensures { Reads result (spec.cuts_of (view value.now)) }
{
    let cuts: List<u16> = List::from_json(alloc, value)?;
    Cuts::new(cuts.as_slice()).map_err(|_| PartEnd::Malformed)
}
