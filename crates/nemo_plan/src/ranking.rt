ghost use Rattle.std.specs.Prelude.{◌≡◌, ◌≤◌, ◌<◌, ℕ, Some, suc, length, map, replicate, slice_get, IfOk};
ghost use Rattle.nemo_ir.specs.Along.{below};
ghost use Rattle.nemo_ir.specs.Flat.{IsFlat};
ghost use Rattle.nemo_ir.specs.Valid.{Valid};
ghost use Rattle.nemo_plan.specs.Graph as spec;
ghost use Rattle.nemo_plan.specs.Order.{IsForward};
ghost use Rattle.nemo_plan.specs.Stages.{count_stages, stages_of};
ghost use Rattle.nemo_plan.specs.Ranking as ranking;

use nemo_base::Read;
use nemo_ir::{FlatJob, IrDag};
use nemo_value::{List, NoMemory};
use std::alloc::Global;

/// The rank of each stage: 0 where it reads nothing, and else one more than the greatest rank that it reads. Those that
/// a stage reads stand before it in the order.
pub(crate) fn ranks(
    alloc: Global,
    flat: &FlatJob,
    dag: &IrDag,
    stages: &[u32],
    order: &[u32],
    reads: &[List<Read>],
) -> Result<Vec<u32>, NoMemory>
    requires valid { Valid flat.now dag.now }
    requires stages { stages.now ≡ stages_of flat.now dag.now }
    requires order { IsForward dag.now.edges stages.now order.now }
    requires reads { reads.now ≡ map (spec.reads_of flat.now dag.now stages.now) (below (count_stages stages.now)) }
    ensures { IfOk result (λ ranks. ranks.items ≡ map (spec.rank_of flat.now dag.now stages.now) (below (count_stages stages.now))) }
{
    let mut ranks = zeros(alloc, order.len())?;
    for stage in order {
        let at = *stage as usize;
        let rank = rank(stages, ranks.as_slice(), reads[at].as_slice());
        ranks[at] = rank;
    }
    Ok(ranks)
}

fn zeros(alloc: Global, count: usize) -> Result<Vec<u32>, NoMemory>
    ensures { IfOk result (λ ranks. ranks.items ≡ replicate count 0) }
{
    let mut ranks = Vec::with_capacity(alloc, count)?;
    for _ in 0..count {
        ranks.push(0)?;
    }
    Ok(ranks)
}

/// One more than the greatest rank of the stages that are read, and 0 where none is.
fn rank(stages: &[u32], ranks: &[u32], reads: &[Read]) -> u32
    requires { (i n : ℕ) → slice_get ranks.now i ≡ Some n → n ≤ 4096 }
    ensures { result ≡ spec.greatest (map (ranking.rank_over stages.now ranks.now) reads.now) }
{
    let mut most = 0;
    for read in reads {
        let over = rank_over(stages, ranks, read);
        if most < over {
            most = over;
        }
    }
    most
}

/// One more than the rank of the stage that is read.
fn rank_over(stages: &[u32], ranks: &[u32], read: &Read) -> u32
    requires { (i n : ℕ) → slice_get ranks.now i ≡ Some n → n ≤ 4096 }
    ensures { result ≡ ranking.rank_over stages.now ranks.now read.now }
{
    match stages.get(read.vertex as usize) {
        Some(stage) => match ranks.get(*stage as usize) {
            Some(rank) => *rank + 1,
            None => 1,
        },
        None => 1,
    }
}
