//! The roles of peers: their requests, how they send and read, when they return, and which answers they are owed.

/// What a peer does with names.
#[derive(Clone, Copy, PartialEq, Eq)]
pub enum Naming {
    /// The request has no name.
    Nameless,
    /// Asks for a node.
    Asks,
    /// Registers a name of its own, and holds it for a while.
    Holds,
    /// Registers a name of its own, and continues to send.
    Talks,
    /// Registers the name of a node, and leaves after the answer.
    Tries,
}

/// What a peer does after its request.
#[derive(Clone, Copy)]
pub enum RoleStep {
    Waits,
    /// Stays for a while, whatever the answer is.
    Stays,
    /// Sends the first byte again, now and then.
    Drips,
}

/// The number of bytes that a peer reads at once.
#[derive(Clone, Copy, PartialEq, Eq)]
pub enum ReadHabit {
    Nothing = 0,
    /// With delays.
    Slowly = 1,
    AtOnce = 65_536,
}

/// When a peer returns.
#[derive(Clone, Copy)]
pub enum Comes {
    Alone,
    /// With the next burst.
    Together,
    /// A quarter of a burst interval after the next burst.
    Apart,
}

/// Whether a local peer is owed an answer.
#[derive(Clone, Copy, PartialEq, Eq)]
pub enum Owed {
    Never,
    /// If it has sent its request in time.
    IfPrompt,
    Always,
}

/// Which idle or unreading peers of a role the daemon must close in time.
#[derive(Clone, Copy)]
pub enum GivenUp {
    Nobody,
    Remote,
    Anybody,
}

pub struct Role {
    /// The request, up to the name that follows.
    pub asks: &'static [u8],
    /// The request ends with fewer than this many random bytes.
    pub noise: u64,
    pub naming: Naming,
    /// The most bytes of a chunk, if the peer does not choose the size of each chunk.
    pub piece: Option<usize>,
    /// The peer sends the next part of its request within this many microseconds, and at most twenty milliseconds
    /// before their end. Without them, it sends that part about when the timeout comes, or with the next burst.
    pub pause_us: Option<u64>,
    pub next: RoleStep,
    pub reading: ReadHabit,
    pub comes: Comes,
    /// The most microseconds until the peer returns.
    pub away_us: u64,
    /// The peer sends one request, arrives with a burst from the start, and may half-close its connection after the
    /// request.
    pub asks_once: bool,
    pub owed: Owed,
    pub given_up: GivenUp,
}

impl Role {
    /// Returns whether the peer registers a name of its own.
    pub fn owns(&self) -> bool {
        matches!(self.naming, Naming::Holds | Naming::Talks)
    }

    pub fn registers(&self) -> bool {
        self.owns() || self.naming == Naming::Tries
    }
}

/// The beginning of a registration, up to the name.
pub const REGISTRATION: &[u8] = &[0, 15, 0x78, 0x13, 0x88, 0x4D, 0, 0, 6, 0, 5, 0, 2];

/// The defaults of a role.
const USUAL: Role = Role {
    asks: &[0, 1, 0x6E],
    noise: 0,
    naming: Naming::Nameless,
    piece: None,
    pause_us: Some(3000),
    next: RoleStep::Waits,
    reading: ReadHabit::AtOnce,
    comes: Comes::Together,
    away_us: 300_000,
    asks_once: false,
    owed: Owed::IfPrompt,
    given_up: GivenUp::Nobody,
};

/// A role by its differences from another role.
macro_rules! role {
    ($other:ident, $($field:ident: $value:expr),*) => {
        Role { $($field: $value,)* ..$other }
    };
}

/// Registers a name of its own at once, holds it for a while, leaves and returns at once.
pub const NODE: Role =
    role!(USUAL, asks: REGISTRATION, naming: Naming::Holds, piece: Some(usize::MAX), comes: Comes::Alone, away_us: 200);

pub const RIVAL: Role = role!(NODE, naming: Naming::Tries, piece: None, away_us: 500_000);

pub const TALKER: Role = role!(NODE, naming: Naming::Talks, piece: None, away_us: 1000);

pub const SEEKER: Role = role!(USUAL, asks: &[0, 3, 0x7A], naming: Naming::Asks, asks_once: true);

pub const LISTER: Role = role!(USUAL, asks_once: true);

pub const DUMPER: Role = role!(USUAL, asks: &[0, 1, 0x64], asks_once: true);

/// Asks for the list of names, and reads it byte by byte or late.
pub const SLOW: Role = role!(USUAL, reading: ReadHabit::Slowly);

/// Asks for the list of names, with three and a half seconds between two bytes.
pub const PLODDER: Role =
    role!(USUAL, piece: Some(1), pause_us: Some(3_500_000), owed: Owed::Always);

pub const UNREADING: Role =
    role!(USUAL, reading: ReadHabit::Nothing, owed: Owed::Never, given_up: GivenUp::Anybody);

pub const KILLER: Role = role!(USUAL, asks: &[0, 1, 0x6B]);

pub const STOPPER: Role =
    role!(USUAL, asks: &[0, 3, 0x73], naming: Naming::Asks, owed: Owed::Never);

pub const SILENT: Role =
    role!(USUAL, asks: &[], next: RoleStep::Stays, comes: Comes::Apart, owed: Owed::Never, given_up: GivenUp::Anybody);

/// Sends a byte of a request now and then, and never completes it.
pub const DRIPPER: Role =
    role!(USUAL, asks: &[0, 200], piece: Some(1), next: RoleStep::Drips, owed: Owed::Never, given_up: GivenUp::Remote);

pub const BABBLER: Role =
    role!(USUAL, asks: &[], noise: 40, next: RoleStep::Stays, owed: Owed::Never);

/// Asks for the list of names, and sends the last byte about when the timeout comes, or with a burst.
pub const TARDY: Role =
    role!(USUAL, piece: Some(2), pause_us: None, comes: Comes::Alone, owed: Owed::Never);
