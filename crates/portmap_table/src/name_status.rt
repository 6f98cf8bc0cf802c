/// The status of a name: whether it may be registered, and which creation is remembered for it.
#[derive(Clone, Copy, PartialEq, Eq)]
pub enum NameStatus {
    Active,
    /// The name is not known, and as many names are active as may be known.
    NoRoom,
    /// The name may be registered. If it is retired, this is the creation remembered for it. A new name may replace the
    /// name that was retired longest ago.
    Free(Option<u32>),
}
