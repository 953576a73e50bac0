/// What the rows of a port have to do.
#[derive(Clone, Copy)]
pub enum PortKind {
    /// They may come in any split.
    Main,
    /// All that have a key have to meet.
    Keyed,
    /// All of them have to be everywhere.
    Side,
}

/// How many ports of each kind a transform has. Main ports come first, then Keyed ones, then Side ones.
#[derive(Clone, Copy)]
pub struct Ports {
    pub main: u32,
    pub keyed: u32,
    pub side: u32,
}
