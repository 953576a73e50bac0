ghost use Rattle.std.specs.Prelude.{◌≡◌, option_map, slice_get, IfOk};
ghost use Rattle.nemo_value.specs.Ascending.{ascending};
ghost use Rattle.nemo_transform.specs.ArisenOrder.{place_cmp};
ghost use Rattle.nemo_transform.specs.Brought.{arisen};
ghost use Rattle.nemo_transform.specs.FaultOrder.{fault_cmp};
ghost use Rattle.nemo_transform.specs.FirstFault.{arisen_at, lesser_by};

use nemo_value::{Kind, List, NoMemory, Record};
use std::alloc::Global;
use std::collections::BTreeSet;

/// A fault of a transform: its kind, and the record that made it. Faults are ordered by kind, and then by record.
#[derive(PartialEq, Eq, PartialOrd, Ord, Drop)]
pub struct Fault {
    pub kind: Kind,
    pub rec: Record,
}

/// A fault, with the place of the vertex where it arose. Faults are ordered by place, kind and record.
#[derive(PartialEq, Eq, PartialOrd, Ord, Drop)]
pub struct Located {
    pub place: usize,
    pub kind: Kind,
    pub rec: Record,
}

/// The different faults, in order.
pub fn in_order(alloc: Global, faults: Vec<Fault>) -> Result<List<Fault>, NoMemory>
    ensures { IfOk result (λ all. all ≡ ascending fault_cmp faults.items) }
{
    let mut seen: BTreeSet<Fault> = BTreeSet::new(alloc);
    for fault in faults {
        seen.insert(fault)?;
    }
    let mut all = Vec::with_capacity(alloc, seen.len())?;
    for fault in seen {
        all.push(fault)?;
    }
    Ok(List::from_vec(all))
}

/// The first of the own faults of the vertex of a place, which are in order.
pub fn first_own(place: usize, faults: List<Fault>) -> Option<Located>
    ensures { option_map arisen_at result ≡ option_map (arisen place) (slice_get faults 0) }
{
    let first = faults.into_vec().into_iter().next()?;
    Some(Located {
        place,
        kind: first.kind,
        rec: first.rec,
    })
}

/// The earlier of two faults that may be there.
pub fn earlier(a: Option<Located>, b: Option<Located>) -> Option<Located>
    ensures { option_map arisen_at result ≡ lesser_by place_cmp (option_map arisen_at a) (option_map arisen_at b) }
{
    match (a, b) {
        (Some(x), Some(y)) => Some(x.min(y)),
        (Some(x), None) => Some(x),
        (None, b) => b,
    }
}
