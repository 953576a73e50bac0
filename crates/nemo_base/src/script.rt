use crate::cuts::Cuts;

/// What a line of a script does.
#[derive(Clone, Copy)]
pub enum Action {
    /// The slot goes, and comes back empty.
    Evict(u32),
    /// The cuts of the vertex change, where that is allowed.
    Repartition(u32, Cuts),
}

/// A line of a script: what is done once so many commits were made.
#[derive(Clone, Copy)]
pub struct ScriptLine {
    pub at: u32,
    pub action: Action,
}
