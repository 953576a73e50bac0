ghost use Rattle.std.specs.Prelude.{◌≡◌, ◌+◌, ◌-◌, ◌<◌, ◌≤◌, length, slice_index, Some, None, IfErr, IfOk, OnOk};
ghost use Rattle.nemo_base.specs.Cuts.{bad_cut, even_cuts, task_at};

use crate::limits::MAX_CUTS;
use nemo_value::Same;
use std::marker::Model;

/// Where the tasks of a vertex begin among the buckets 0 to 255, but for the first, which begins at 0: task i takes
/// the buckets from cut i - 1 up to, but without, cut i. Contracts see the list of the cuts.
#[derive(Clone, Copy)]
pub struct Cuts {
    places: [u16; MAX_CUTS],
    count: usize,
}

impl Model for Cuts {
    ghost use Rattle.std.specs.Prelude.{ℕ, List, length, take};
    ghost use Rattle.nemo_base.specs.Cuts.{AreCuts, padded};

    ghost Value = { List ℕ };

    ghost view = { λ c. take c.count c.places };

    ghost invariant = { λ c. AreCuts c.places c.count };

    ghost inverse = { λ cuts. record { places = padded cuts; count = length cuts } };

    ghost inverse_ok = { λ c h i. record { places = h.rest i; count = h.counted i } };
}

/// A list is no cuts: `place` is that of the first entry, counted from 0, that is one too many, exceeds 256, or falls.
#[derive(Clone, Copy)]
pub struct CutsRefused {
    pub place: u64,
}

/// The most that a cut can be: the number of buckets.
const MAX_CUT: u16 = 256;

impl Cuts {
    /// The list as cuts: at most 63 numbers up to 256 that never fall.
    pub fn new(list: &[u16]) -> Result<Cuts, CutsRefused>
        ensures ok { IfOk result (λ cuts. cuts ≡ list.now) }
        ensures fits { OnOk result (bad_cut 0 0 list.now ≡ None) }
        ensures err { IfErr result (λ e. bad_cut 0 0 list.now ≡ Some e.place) }
    {
        let mut places = [0; MAX_CUTS];
        let mut before = 0;
        for (place, cut) in list.iter().enumerate() {
            if place >= MAX_CUTS || *cut > MAX_CUT || *cut < before {
                return Err(CutsRefused {
                    place: place as u64,
                });
            }
            places[place] = *cut;
            before = *cut;
        }
        Ok(Cuts {
            places,
            count: list.len(),
        })
    }

    /// The cuts that deal the buckets evenly to `n` tasks.
    pub fn even(n: u32) -> Cuts
        requires some { 1 ≤ n }
        requires few { n ≤ 64 }
        ensures { result ≡ even_cuts n }
    {
        let tasks = n as usize;
        let count = tasks - 1;
        let mut places = [0; MAX_CUTS];
        for i in 0..count {
            places[i] = (256 * (i + 1)).div_ceil(tasks) as u16;
        }
        Cuts { places, count }
    }

    /// The list of the cuts.
    pub fn as_slice(&self) -> &[u16]
        ensures list { result.now ≡ self.now }
        ensures cuts { bad_cut 0 0 result.now ≡ None }
    {
        &self.places[..self.count]
    }

    /// How many tasks the vertex has: 1 to 64.
    pub fn tasks(&self) -> u32
        ensures count { result ≡ length self.now + 1 }
        ensures few { result ≤ 64 }
    {
        self.count as u32 + 1
    }

    /// The task that takes the bucket.
    pub fn task_of(&self, bucket: u8) -> u32
        ensures counted { result ≡ task_at self.now bucket }
        ensures within { result ≤ length self.now }
        ensures above { 0 < result → slice_index self.now (result - 1) ≤ bucket }
        ensures below { result < length self.now → bucket < slice_index self.now result }
    {
        let last = self.tasks() - 1;
        for (task, cut) in self.as_slice().iter().enumerate() {
            if u16::from(bucket) < *cut {
                return task as u32;
            }
        }
        last
    }
}

impl Same for Cuts {
    fn same(&self, other: &Cuts) -> bool {
        self.as_slice() == other.as_slice()
    }
}
