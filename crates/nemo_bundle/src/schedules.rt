ghost use Rattle.std.specs.Prelude.{◌≡◌, codes};
ghost use Rattle.serde_json.specs.Find.{get};
ghost use Rattle.serde_json.specs.View.{view, items_view};
ghost use Rattle.nemo_read.specs.Answers.{Reads};
ghost use Rattle.nemo_bundle.specs.Answers.{Walks};
ghost use Rattle.nemo_bundle.specs.Scripts as spec;

use crate::end::WalkEnd;
use crate::entries::{ReadAt, read_items_at};
use crate::scripts::read_cuts;
use nemo_base::{BlockId, Move, TaskId, limits};
use nemo_read::{Call, FromJson, PartEnd};
use nemo_value::List;
use serde_json::Value;
use std::alloc::Global;

/// The moves of the member `schedule`, which may be absent, or the place of the first that can't be read.
pub(crate) fn read_schedule(alloc: Global, value: &Value) -> Result<List<Move>, WalkEnd>
    ensures { Walks (λ moves. moves) result (spec.schedule_in (get (codes "schedule") (view value.now))) }
{
    match value.get("schedule") {
        Some(schedule) => {
            let items = schedule.as_array().ok_or(WalkEnd::Malformed { place: 0 })?;
            read_items_at(alloc, &Moves, items.as_slice())
        }
        None => Ok(List::new(alloc)),
    }
}

/// Reads the moves of a schedule.
#[derive(Clone, Copy)]
struct Moves;

impl ReadAt for Moves {
    ghost use Rattle.nemo_bundle.specs.Scripts.{move_of};

    type Item = Move;

    ghost reads = { λ _. move_of };

    fn read_at(&self, alloc: Global, place: usize, value: &Value) -> Result<Move, PartEnd> {
        let call = Call::of(value).ok_or(PartEnd::Malformed)?;
        let read = read_move(alloc, call.word, call.args)?;
        if place < limits::MAX_SCHEDULE_MOVES {
            Ok(read)
        } else {
            Err(PartEnd::Malformed)
        }
    }
}

/// The move of a word and what stands behind it.
#[tactic(auto, using(crate::proofs::Lengths::move_of_more))]
fn read_move(alloc: Global, word: &str, args: &[Value]) -> Result<Move, PartEnd>
    ensures { Reads result (spec.move_from (items_view args.now) word.now) }
{
    match args {
        [] => move_alone(word).ok_or(PartEnd::Malformed),
        [a] => move_by_one(word, u32::from_json(alloc, a)?).ok_or(PartEnd::Malformed),
        [a, b] => read_with_two(alloc, word, a, b),
        [a, b, c] => read_with_three(alloc, word, a, b, c),
        _ => Err(PartEnd::Malformed),
    }
}

fn move_alone(word: &str) -> Option<Move>
    ensures { result ≡ spec.move_alone word.now }
{
    match word {
        "finish" => Some(Move::Finish),
        _ => None,
    }
}

fn move_by_one(word: &str, n: u32) -> Option<Move>
    ensures { result ≡ spec.move_by_one word.now n }
{
    match word {
        "compute" => Some(Move::Compute { attempt: n }),
        "commit" => Some(Move::Report { attempt: n }),
        "end" => Some(Move::End { attempt: n }),
        "giveback" => Some(Move::GiveBack { attempt: n }),
        "evict" => Some(Move::Evict { slot: n }),
        "decide" => Some(Move::Decide { vertex: n }),
        _ => None,
    }
}

fn read_with_two(alloc: Global, word: &str, a: &Value, b: &Value) -> Result<Move, PartEnd>
    ensures { Reads result (spec.move_with_two word.now (view a.now) (view b.now)) }
{
    if word == "repartition" {
        return read_repartition(alloc, a, b);
    }
    let (n, m) = read_numbers(alloc, a, b)?;
    move_by_two(word, n, m).ok_or(PartEnd::Malformed)
}

fn read_repartition(alloc: Global, vertex: &Value, cuts: &Value) -> Result<Move, PartEnd>
    ensures { Reads result (spec.move_by_cuts (view vertex.now) (view cuts.now)) }
{
    Ok(Move::Repartition {
        vertex: u32::from_json(alloc, vertex)?,
        cuts: read_cuts(alloc, cuts)?,
    })
}

fn read_numbers(alloc: Global, a: &Value, b: &Value) -> Result<(u32, u32), PartEnd>
    ensures { Reads result (spec.numbers_of (view a.now) (view b.now)) }
{
    Ok((u32::from_json(alloc, a)?, u32::from_json(alloc, b)?))
}

fn move_by_two(word: &str, n: u32, m: u32) -> Option<Move>
    ensures { result ≡ spec.move_by_two word.now n m }
{
    match word {
        "push" => Some(Move::Push {
            attempt: n,
            vertex: m,
        }),
        "drop" => Some(Move::Drop {
            block: BlockId { vertex: n, task: m },
        }),
        "spent" => Some(Move::Spent {
            task: TaskId { stage: n, index: m },
        }),
        _ => None,
    }
}

fn read_with_three(
    alloc: Global,
    word: &str,
    a: &Value,
    b: &Value,
    c: &Value,
) -> Result<Move, PartEnd>
    ensures { Reads result (spec.move_with_three word.now (view a.now) (view b.now) (view c.now)) }
{
    let (n, m) = read_numbers(alloc, a, b)?;
    let k = u32::from_json(alloc, c)?;
    move_by_three(word, n, m, k).ok_or(PartEnd::Malformed)
}

fn move_by_three(word: &str, n: u32, m: u32, k: u32) -> Option<Move>
    ensures { result ≡ spec.move_by_three word.now n m k }
{
    match word {
        "launch" => Some(Move::Launch {
            task: TaskId { stage: n, index: m },
            slot: k,
        }),
        _ => None,
    }
}
