ghost use Rattle.std.specs.Prelude.{◌≡◌, ◌^◌, ◌-◌, min};
ghost use Rattle.nemo_flat.specs.Counts.{copies, work_copies};

use nemo_job::{JobVertex, Work};

/// How many copies the vertices have; a number beyond 2^64-1 is given as that.
#[cycle(count)]
pub(crate) fn count_copies(vertices: &[JobVertex]) -> u64
    ensures { result ≡ min (copies vertices.now) (2 ^ 64 - 1) }
{
    let mut count: u64 = 0;
    for v in vertices {
        count = count.saturating_add(count_work(&v.work));
    }
    count
}

/// Those of an operation, or of a loop's body at each turn.
#[cycle(count)]
fn count_work(work: &Work) -> u64
    ensures { result ≡ min (work_copies work.now) (2 ^ 64 - 1) }
{
    match work {
        Work::Op(_) => 1,
        Work::Loop { turns, body, .. } => {
            u64::from(*turns).saturating_mul(count_copies(body.as_slice()))
        }
    }
}
