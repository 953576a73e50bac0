ghost use Rattle.std.specs.Prelude.{◌≡◌};
ghost use Rattle.nemo_read.specs.Operations as spec;

/// What the member `op` of a vertex that is no loop may say.
#[derive(Clone, Copy)]
pub(crate) enum Operation {
    Source,
    Map,
    Filter,
    Emit,
    Words,
    Union,
    Reduce,
    Distinct,
    Join,
    SideJoin,
    Sink,
}

impl Operation {
    /// The one of this word.
    pub fn from_word(word: &str) -> Option<Operation>
        ensures { result ≡ spec.operation_of word.now }
    {
        match word {
            "source" => Some(Operation::Source),
            "map" => Some(Operation::Map),
            "filter" => Some(Operation::Filter),
            "emit" => Some(Operation::Emit),
            "words" => Some(Operation::Words),
            "union" => Some(Operation::Union),
            "reduce" => Some(Operation::Reduce),
            "distinct" => Some(Operation::Distinct),
            "join" => Some(Operation::Join),
            "sidejoin" => Some(Operation::SideJoin),
            "sink" => Some(Operation::Sink),
            _ => None,
        }
    }
}
