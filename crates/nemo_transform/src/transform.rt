use crate::shape::PortKind;
use nemo_value::{Expr, List, Name, NoMemory, Record, Same, TryCopy};
use std::alloc::Global;

/// How a reduce folds the rows of a key.
#[derive(Clone, Copy, PartialEq)]
pub enum Folding {
    Sum,
    Min,
    Max,
    Count,
}

impl Folding {
    ghost use Rattle.std.specs.Prelude.{◌≡◌, ◌↔◌, Some};
    ghost use Rattle.nemo_transform.specs.Words.{folding_word};

    /// The word by which a bundle names the way to fold.
    pub fn word(self) -> &'static str
        ensures { result.now ≡ folding_word self }
    {
        match self {
            Folding::Sum => "sum",
            Folding::Min => "min",
            Folding::Max => "max",
            Folding::Count => "count",
        }
    }

    /// The way to fold that a bundle names by the word, if there is one.
    #[tactic(auto, using(crate::proofs::FoldingWords::word_found))]
    pub fn from_word(word: &str) -> Option<Folding>
        ensures { (by : Folding) → (result ≡ Some by) ↔ (word.now ≡ folding_word by) }
    {
        if word == Folding::Sum.word() {
            Some(Folding::Sum)
        } else if word == Folding::Min.word() {
            Some(Folding::Min)
        } else if word == Folding::Max.word() {
            Some(Folding::Max)
        } else if word == Folding::Count.word() {
            Some(Folding::Count)
        } else {
            None
        }
    }
}

/// An output of an emit: a row of the values of `out` where `cond` isn't 0.
#[derive(Drop)]
pub struct Output {
    pub cond: Expr,
    pub out: List<Expr>,
}

/// What a vertex does to the rows of its ports.
#[derive(Drop)]
pub enum Transform {
    /// These rows; it has no port.
    Source { rows: List<Record> },
    /// Of each row the row of the values of `out`, 1 to 16 expressions.
    Map { out: List<Expr> },
    /// Each row for which `cond` isn't 0.
    Filter { cond: Expr },
    /// Of each row the rows of 1 to 16 outputs.
    Emit { outs: List<Output> },
    /// Of each row the words of the text at place `field`, each as a row of one field.
    Words { field: u32 },
    /// The rows of 1 to 16 ports, port by port.
    Union { ports: u32 },
    /// For each key, in ascending order, the key and the fold of the fields at place `field`.
    Reduce { by: Folding, field: u32 },
    /// Each different row once, in ascending order.
    Distinct,
    /// Of each left row the rows with the right rows of its key.
    Join,
    /// As a join, with all right rows in each task.
    SideJoin,
    /// All rows, under the sink's name.
    Sink { name: Name },
}

impl Transform {
    ghost use Rattle.std.specs.Prelude.{◌≡◌, slice_get};
    ghost use Rattle.nemo_transform.specs.Ports.{kinds_of};
    ghost use Rattle.nemo_transform.specs.RowByRow.{goes_by_row};

    /// The kind of port `k`, counted from 0, if there is one.
    pub fn port(&self, k: u32) -> Option<PortKind>
        ensures { result ≡ slice_get (kinds_of self.now) k }
    {
        match self {
            Transform::Source { .. } => None,
            Transform::Map { .. }
            | Transform::Filter { .. }
            | Transform::Emit { .. }
            | Transform::Words { .. }
            | Transform::Sink { .. } => (k < 1).then_some(PortKind::Main),
            Transform::Union { ports } => (k < *ports).then_some(PortKind::Main),
            Transform::Reduce { .. } | Transform::Distinct => { (k < 1).then_some(PortKind::Keyed) }
            Transform::Join => (k < 2).then_some(PortKind::Keyed),
            Transform::SideJoin => match k {
                0 => Some(PortKind::Main),
                1 => Some(PortKind::Side),
                _ => None,
            },
        }
    }

    /// Whether the transform gives of each row what it gives of that alone, and has one port.
    pub fn goes_by_row(&self) -> bool
        ensures { result ≡ goes_by_row self.now }
    {
        match self {
            Transform::Map { .. }
            | Transform::Filter { .. }
            | Transform::Emit { .. }
            | Transform::Words { .. } => true,
            Transform::Source { .. }
            | Transform::Union { .. }
            | Transform::Reduce { .. }
            | Transform::Distinct
            | Transform::Join
            | Transform::SideJoin
            | Transform::Sink { .. } => false,
        }
    }
}

impl TryCopy for Output {
    fn copy(&self, alloc: Global) -> Result<Output, NoMemory> {
        Ok(Output {
            cond: self.cond.copy(alloc)?,
            out: self.out.copy(alloc)?,
        })
    }
}

impl TryCopy for Transform {
    fn copy(&self, alloc: Global) -> Result<Transform, NoMemory> {
        match self {
            Transform::Source { rows } => Ok(Transform::Source {
                rows: rows.copy(alloc)?,
            }),
            Transform::Map { out } => Ok(Transform::Map {
                out: out.copy(alloc)?,
            }),
            Transform::Filter { cond } => Ok(Transform::Filter {
                cond: cond.copy(alloc)?,
            }),
            Transform::Emit { outs } => Ok(Transform::Emit {
                outs: outs.copy(alloc)?,
            }),
            Transform::Words { field } => Ok(Transform::Words { field: *field }),
            Transform::Union { ports } => Ok(Transform::Union { ports: *ports }),
            Transform::Reduce { by, field } => Ok(Transform::Reduce {
                by: *by,
                field: *field,
            }),
            Transform::Distinct => Ok(Transform::Distinct),
            Transform::Join => Ok(Transform::Join),
            Transform::SideJoin => Ok(Transform::SideJoin),
            Transform::Sink { name } => Ok(Transform::Sink {
                name: name.copy(alloc)?,
            }),
        }
    }
}

impl Same for Output {
    fn same(&self, other: &Output) -> bool {
        self.cond.same(&other.cond) && self.out.same(&other.out)
    }
}

impl Same for Transform {
    fn same(&self, other: &Transform) -> bool {
        match self {
            Transform::Source { rows: a } => {
                if let Transform::Source { rows: b } = other {
                    a.same(b)
                } else {
                    false
                }
            }
            Transform::Map { out: a } => {
                if let Transform::Map { out: b } = other {
                    a.same(b)
                } else {
                    false
                }
            }
            Transform::Filter { cond: a } => {
                if let Transform::Filter { cond: b } = other {
                    a.same(b)
                } else {
                    false
                }
            }
            Transform::Emit { outs: a } => {
                if let Transform::Emit { outs: b } = other {
                    a.same(b)
                } else {
                    false
                }
            }
            Transform::Words { field: a } => {
                if let Transform::Words { field: b } = other {
                    a == b
                } else {
                    false
                }
            }
            Transform::Union { ports: a } => {
                if let Transform::Union { ports: b } = other {
                    a == b
                } else {
                    false
                }
            }
            Transform::Reduce { by: a, field: i } => {
                if let Transform::Reduce { by: b, field: j } = other {
                    a == b && i == j
                } else {
                    false
                }
            }
            Transform::Distinct => matches!(other, Transform::Distinct),
            Transform::Join => matches!(other, Transform::Join),
            Transform::SideJoin => matches!(other, Transform::SideJoin),
            Transform::Sink { name: a } => {
                if let Transform::Sink { name: b } = other {
                    a.same(b)
                } else {
                    false
                }
            }
        }
    }
}
