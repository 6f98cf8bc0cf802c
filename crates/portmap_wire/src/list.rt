use crate::name::Name;

/// A line of the reply to NAMES_REQ.
#[derive(Drop)]
pub struct Line {
    pub name: Name,
    pub port: u16,
}

/// A line of the reply to DUMP_REQ.
#[derive(Drop)]
pub struct DumpLine {
    pub name: Name,
    pub port: u16,
    /// The slot of the connection that owns the name, or `None` for a retired name.
    pub slot: Option<u64>,
}
