//! The activity of connections.

/// What happened to connections since the last report.
#[derive(Clone, Copy, Default, PartialEq, Eq)]
pub struct Activity {
    pub answered: bool,
    /// A connection ended to which no byte was ever written.
    pub unanswered: bool,
    /// A connection could not be accepted or held, for lack of descriptors or memory.
    pub exhausted: bool,
    /// Connections that ended unanswered while memory was short, and registrations refused for lack of memory.
    pub refused: u64,
    pub resets: u64,
}
