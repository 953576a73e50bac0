ghost use Rattle.std.specs.Prelude.{◌≡◌, ◌%◌, max, slice_get, slice_index_or};
ghost use Rattle.nemo_base.specs.Places.{map_at};
ghost use Rattle.nemo_core.specs.Cell as cell;
ghost use Rattle.nemo_core.specs.Step as spec;

use crate::event::HeldBy;
use crate::grid::Grid;
use crate::row::Attempt;
use crate::task::Place;
use nemo_base::{Home, Settings, TaskGraph};
use nemo_value::List;

/// What a commit fills gone blocks with: the attempt that ran a task, and what the homes of its blocks rest on.
#[derive(Clone, Copy)]
pub(crate) struct Commit<'a> {
    pub(crate) settings: Settings,
    pub(crate) incs: &'a [u64],
    pub(crate) place: Place,
    pub(crate) attempt: Attempt,
}

/// The gone blocks of the task are held at their homes.
pub(crate) fn fill(blocks: &mut Grid<Option<HeldBy>>, graph: &TaskGraph, commit: &Commit<'_>)
    ensures { blocks.new ≡ map_at (λ v row. cell.filled_at commit.now.settings commit.now.incs.now commit.now.attempt commit.now.place.stage commit.now.place.index (slice_get graph.now.vertices v) row) 0 blocks.old }
{
    fill_rows(&mut blocks.rows, graph, commit);
}

fn fill_rows(rows: &mut Vec<List<Option<HeldBy>>>, graph: &TaskGraph, commit: &Commit<'_>)
    ensures { rows.new.items ≡ map_at (λ v row. cell.filled_at commit.now.settings commit.now.incs.now commit.now.attempt commit.now.place.stage commit.now.place.index (slice_get graph.now.vertices v) row) 0 rows.old.items }
{
    for v in 0..rows.len() {
        fill_row(&mut rows[v], v, graph, commit);
    }
}

fn fill_row(blocks: &mut List<Option<HeldBy>>, v: usize, graph: &TaskGraph, commit: &Commit<'_>)
    ensures { blocks.new ≡ cell.filled_at commit.now.settings commit.now.incs.now commit.now.attempt commit.now.place.stage commit.now.place.index (slice_get graph.now.vertices v) blocks.old }
{
    if let Some(row) = graph.vertices.get(v) {
        if row.stage as usize == commit.place.stage {
            put(blocks, commit.place.index, home_of(commit, row.home));
        }
    }
}

/// Block `i` is held so where it was gone.
fn put(blocks: &mut List<Option<HeldBy>>, i: usize, held: HeldBy)
    ensures { blocks.new ≡ cell.put held i blocks.old }
{
    if let Some(None) = blocks.as_slice().get(i).copied() {
        blocks.set(i, Some(held));
    }
}

/// Who holds the task's block of a vertex whose blocks lie there.
fn home_of(commit: &Commit<'_>, home: Home) -> HeldBy
    ensures { result ≡ spec.home_of commit.now.settings commit.now.incs.now commit.now.attempt.number commit.now.place.index home commit.now.attempt }
{
    let attempt = commit.attempt.number;
    match home {
        Home::Master => HeldBy {
            slot: None,
            inc: 0,
            attempt,
        },
        Home::Pushed => HeldBy {
            slot: Some(reserved_slot(commit.place.index, commit.settings)),
            inc: 0,
            attempt,
        },
        Home::Local => HeldBy {
            slot: Some(commit.attempt.slot),
            inc: incarnation(commit.incs, commit.attempt.slot),
            attempt,
        },
    }
}

fn incarnation(incs: &[u64], slot: u32) -> u64
    ensures { result ≡ slice_index_or incs.now slot 0 }
{
    incs.get(slot as usize).copied().unwrap_or(0)
}

fn reserved_slot(i: usize, settings: Settings) -> u32
    ensures { result ≡ i % max 1 settings.reserved }
{
    (i % settings.reserved.max(1) as usize) as u32
}
