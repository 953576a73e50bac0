/// A clause of a valid DAG, in the order in which they are looked at. Each is met or not at a place: that of an edge, of
/// a vertex, or, where a flat vertex needs one that stands for it, that of the flat vertex.
#[derive(Clone, Copy)]
pub enum Clause {
    /// Each edge leads to a later vertex.
    V1,
    /// Each utility vertex has an out-edge.
    V2,
    /// Each port of a vertex has exactly one in-edge, and no in-edge names another port.
    V3,
    /// `rep` names for each flat vertex, and no more, an Op of its transform, and the Ops behind the ports of that one
    /// are those named for its inputs. Where `rep` is longer, the place is the number of flat vertices.
    V4,
    /// Each Op is named for a flat vertex.
    V5,
    /// Main ports take OneToOne, Hash and Spread, Keyed ports Hash, and Side ports Broadcast.
    V6,
    /// The ends of a OneToOne edge have equal parallelism.
    V7,
    /// Each out-edge of a Trigger is Hash.
    V8,
    /// A vertex has a number below 4,096 and 1 to 64 tasks.
    V9,
}

impl Clause {
    ghost use Rattle.std.specs.Prelude.{◌≡◌};
    ghost use Rattle.nemo_ir.specs.Valid.{number_of};

    /// Its number, from 1 on.
    pub fn number(self) -> u32
        ensures { result ≡ number_of self }
    {
        match self {
            Clause::V1 => 1,
            Clause::V2 => 2,
            Clause::V3 => 3,
            Clause::V4 => 4,
            Clause::V5 => 5,
            Clause::V6 => 6,
            Clause::V7 => 7,
            Clause::V8 => 8,
            Clause::V9 => 9,
        }
    }
}
