//! Nodes, lines and replies as numbers. A text is given by its offset in bytes of the caller.

/// The numbers of a node, by the fields of ALIVE2_REQ in the ERTS User's Guide. Each field accepts any number.
#[repr(C)]
#[derive(Clone, Copy)]
pub struct EpmdNode {
    /// PortNo: the port that the node listens on.
    pub port: u16,
    /// HighestVersion of the distribution protocol that the node supports.
    pub highest: u16,
    /// LowestVersion.
    pub lowest: u16,
    /// NodeType: 77 is a normal node, 72 is a hidden node.
    pub kind: u8,
    /// Protocol: 0 is TCP over IPv4.
    pub protocol: u8,
}

/// A text in bytes.
#[repr(C)]
#[derive(Clone, Copy)]
pub struct EpmdText {
    /// The offset of the first byte.
    pub at: usize,
    /// The number of bytes.
    pub size: usize,
}

/// A node that is registered under a name.
#[repr(C)]
#[derive(Clone, Copy)]
pub struct EpmdFound {
    pub name: EpmdText,
    pub extra: EpmdText,
    pub node: EpmdNode,
}

/// The reply of a port mapper to a registration.
#[repr(C)]
#[derive(Clone, Copy)]
pub struct EpmdAlive {
    /// The creation of the name, or 0 if the registration was refused.
    pub creation: u32,
    /// Result: 0 for a registered name, above 0 for a refused registration.
    pub code: u8,
}

/// A line of the list of names.
#[repr(C)]
#[derive(Clone, Copy)]
pub struct EpmdLine {
    pub name: EpmdText,
    /// The port that the node listens on.
    pub port: u16,
}
