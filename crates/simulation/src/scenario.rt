//! The type of a scenario: who connects, in which conditions, with which limits.
use crate::roles::{BABBLER, DUMPER, LISTER, NODE, Naming, Role, SEEKER, SILENT, SLOW};
use crate::scenario::Crowd::{Local, Remote};
use crate::weather::{Chances, Fault};

/// A number of peers of a role, on this host or on another host. Remote peers connect to the first listener only.
#[derive(Clone, Copy)]
pub enum Crowd {
    Local(&'static Role, u16),
    Remote(&'static Role, u16),
}

impl Crowd {
    /// Returns the role, the number of peers, and whether they are local.
    pub fn parts(&self) -> (&'static Role, u16, bool) {
        match *self {
            Local(role, count) => (role, count, true),
            Remote(role, count) => (role, count, false),
        }
    }
}

/// The numbers of registrations, restarts of nodes, answers, and refused registrations.
pub type Deeds = [u32; 4];

pub struct Scenario {
    pub name: &'static str,
    /// The usual peers if this is empty.
    pub people: &'static [Crowd],
    /// The least deeds in all cases of a run together: about two thirds of the deeds in ten cases when the row was
    /// written.
    pub least: Deeds,
    pub chances: Chances,
    /// The daemon runs with relaxed checks: a peer may end it, and stop names.
    pub is_relaxed: bool,
    pub timeout_us: u64,
    pub backlog_most: usize,
    pub conn_max: u32,
    /// The number of connections that the descriptors allow.
    pub descriptors: u32,
    /// The limit of unread bytes over all connections.
    pub unsent_bytes_most: u64,
    pub file_bytes_most: u64,
    /// The recording is a plain file, and not a pipe.
    pub is_plain: bool,
    /// Polls report only the edges that they must report, and no wake that ended a wait.
    pub is_sparing: bool,
    pub full_us: u64,
    /// The storm ends the daemon once the log has this weight.
    pub end_bytes: u64,
    /// A node that returns is registered within this time.
    pub patience_us: u64,
    /// The interval of bursts. Peers that ask arrive together and nodes leave then, so several workers accept. Silent
    /// peers arrive a quarter of the interval later.
    pub burst_us: u64,
    /// The name of another node is refused within this time.
    pub refusal_us: u64,
    /// The usual limit of the time for which a node holds its name.
    pub hold_us: u64,
    /// The number of bytes that a talking peer sends at once.
    pub talk_bytes: usize,
    /// The time at rest after the storm.
    pub rest_us: u64,
    /// The longest wait of a local peer.
    pub limit_ms: u64,
    /// Each local request is answered, and each node that left can register again.
    pub is_strict: bool,
    /// The daemon may end before it is asked to end.
    pub may_end: bool,
}

impl Scenario {
    /// Returns the crowds. The usual crowds are not in the rows, since that would make a constant too large.
    pub fn crowds(&self) -> &'static [Crowd] {
        if self.people.is_empty() {
            BUSTLE
        } else {
            self.people
        }
    }

    /// Returns whether a fault may happen.
    pub fn has(&self, fault: Fault) -> bool {
        self.chances.iter().any(|chance| chance.0 == fault)
    }

    /// Returns the most connections that can be open at once.
    pub fn places(&self) -> u32 {
        self.conn_max.min(self.descriptors)
    }

    /// Returns whether a peer registers the name of a node.
    pub fn has_rivals(&self) -> bool {
        let mut roles = self.crowds().iter().map(|crowd| crowd.parts().0);
        roles.any(|role| role.naming == Naming::Tries)
    }

    /// Returns the time of the next burst, or `time` without bursts.
    pub fn burst_after(&self, time: u64) -> u64 {
        let burst = self.burst_us;
        if burst > 1 {
            (time / burst).saturating_add(1).saturating_mul(burst)
        } else {
            time
        }
    }
}

/// The usual crowds.
const BUSTLE: &[Crowd] = &[
    Local(&NODE, 6),
    Local(&SEEKER, 4),
    Remote(&SEEKER, 2),
    Local(&LISTER, 3),
    Local(&DUMPER, 1),
    Local(&SLOW, 2),
    Local(&SILENT, 2),
    Local(&BABBLER, 2),
];

/// The defaults of a scenario.
pub const USUAL: Scenario = Scenario {
    name: "",
    least: [0; 4],
    people: &[],
    chances: &[],
    is_relaxed: false,
    timeout_us: 5_000_000,
    backlog_most: 512,
    conn_max: 64,
    descriptors: u32::MAX,
    unsent_bytes_most: u64::MAX,
    file_bytes_most: 100_000_000,
    is_plain: true,
    is_sparing: false,
    full_us: u64::MAX,
    end_bytes: u64::MAX,
    patience_us: u64::MAX,
    burst_us: 1,
    refusal_us: 200_000,
    hold_us: 2_000_000,
    talk_bytes: 3,
    rest_us: 20_000_000,
    limit_ms: 1000,
    is_strict: true,
    may_end: false,
};
