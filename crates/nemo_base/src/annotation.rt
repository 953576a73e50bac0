ghost use Rattle.std.specs.Prelude.{◌≡◌, Some, IfSome};
ghost use Rattle.nemo_base.specs.Words as spec;

/// The machines that a vertex's tasks run on. Where none is transient, all tasks run on reserved ones.
#[derive(Clone, Copy)]
pub enum Class {
    /// They stay.
    Reserved,
    /// They may be evicted at any moment.
    Transient,
}

impl Class {
    /// Its word, by which bundles name it.
    pub fn word(self) -> &'static str
        ensures word { result.now ≡ spec.class_word self }
        ensures back { spec.class_named result.now ≡ Some self }
    {
        match self {
            Class::Reserved => "reserved",
            Class::Transient => "transient",
        }
    }

    /// The one of this word.
    pub fn from_word(word: &str) -> Option<Class>
        ensures named { result ≡ spec.class_named word.now }
        ensures word { IfSome result (λ it. spec.class_word it ≡ word.now) }
    {
        match word {
            "reserved" => Some(Class::Reserved),
            "transient" => Some(Class::Transient),
            _ => None,
        }
    }
}

/// Which tasks of a producer a consumer's task reads.
#[derive(Clone, Copy, PartialEq, Eq)]
pub enum Pattern {
    /// The task of its own number.
    OneToOne,
    /// All tasks, all rows.
    Broadcast,
    /// All tasks, the rows whose key's bucket lies on the consumer's task.
    Hash,
    /// All tasks, row k of task j where `j + k` modulo the number of the consumer's tasks is the task.
    Spread,
}

impl Pattern {
    /// Its word, by which bundles name it.
    pub fn word(self) -> &'static str
        ensures word { result.now ≡ spec.pattern_word self }
        ensures back { spec.pattern_named result.now ≡ Some self }
    {
        match self {
            Pattern::OneToOne => "one",
            Pattern::Broadcast => "broadcast",
            Pattern::Hash => "hash",
            Pattern::Spread => "spread",
        }
    }

    /// The one of this word.
    pub fn from_word(word: &str) -> Option<Pattern>
        ensures named { result ≡ spec.pattern_named word.now }
        ensures word { IfSome result (λ it. spec.pattern_word it ≡ word.now) }
    {
        match word {
            "one" => Some(Pattern::OneToOne),
            "broadcast" => Some(Pattern::Broadcast),
            "hash" => Some(Pattern::Hash),
            "spread" => Some(Pattern::Spread),
            _ => None,
        }
    }
}

/// Who moves the blocks of an edge.
#[derive(Clone, Copy)]
pub enum Flow {
    /// The producer sends them to reserved machines.
    Push,
    /// The consumer fetches them.
    Pull,
}

impl Flow {
    /// Its word, by which bundles name it.
    pub fn word(self) -> &'static str
        ensures word { result.now ≡ spec.flow_word self }
        ensures back { spec.flow_named result.now ≡ Some self }
    {
        match self {
            Flow::Push => "push",
            Flow::Pull => "pull",
        }
    }

    /// The one of this word.
    pub fn from_word(word: &str) -> Option<Flow>
        ensures named { result ≡ spec.flow_named word.now }
        ensures word { IfSome result (λ it. spec.flow_word it ≡ word.now) }
    {
        match word {
            "push" => Some(Flow::Push),
            "pull" => Some(Flow::Pull),
            _ => None,
        }
    }
}

/// Whether the blocks of an edge stay once nobody wants them.
#[derive(Clone, Copy)]
pub enum Keep {
    Keep,
    Discard,
}

impl Keep {
    /// Its word, by which bundles name it.
    pub fn word(self) -> &'static str
        ensures word { result.now ≡ spec.keep_word self }
        ensures back { spec.keep_named result.now ≡ Some self }
    {
        match self {
            Keep::Keep => "keep",
            Keep::Discard => "discard",
        }
    }

    /// The one of this word.
    pub fn from_word(word: &str) -> Option<Keep>
        ensures named { result ≡ spec.keep_named word.now }
        ensures word { IfSome result (λ it. spec.keep_word it ≡ word.now) }
    {
        match word {
            "keep" => Some(Keep::Keep),
            "discard" => Some(Keep::Discard),
            _ => None,
        }
    }
}

/// Which compile-time passes a job goes through.
#[derive(Clone, Copy)]
pub enum Policy {
    Plain,
    Pado,
    Skew,
    PadoSkew,
}

impl Policy {
    /// Its word, by which bundles name it.
    pub fn word(self) -> &'static str
        ensures word { result.now ≡ spec.policy_word self }
        ensures back { spec.policy_named result.now ≡ Some self }
    {
        match self {
            Policy::Plain => "plain",
            Policy::Pado => "pado",
            Policy::Skew => "skew",
            Policy::PadoSkew => "pado_skew",
        }
    }

    /// The one of this word.
    pub fn from_word(word: &str) -> Option<Policy>
        ensures named { result ≡ spec.policy_named word.now }
        ensures word { IfSome result (λ it. spec.policy_word it ≡ word.now) }
    {
        match word {
            "plain" => Some(Policy::Plain),
            "pado" => Some(Policy::Pado),
            "skew" => Some(Policy::Skew),
            "pado_skew" => Some(Policy::PadoSkew),
            _ => None,
        }
    }
}
