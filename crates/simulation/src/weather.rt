//! Faults, and how often they happen.
use crate::random::Random;
use std::io::ErrorKind;

/// What the system does to a daemon, and peers to each other.
#[derive(Clone, Copy, PartialEq, Eq)]
pub enum Fault {
    /// A signal interrupts a call of a stream, or an accept.
    Interrupted,
    /// A write takes fewer bytes than there is room for.
    Short,
    /// The peer closed the connection before its accept.
    Aborted,
    /// No connection can be accepted for a while, since descriptors ran out.
    Exhausted,
    /// No connection can be accepted for a while, since memory ran out.
    Unable,
    /// The poll refuses to watch a stream, or a listener.
    Unwatched,
    /// The poll continues to report a listener that is left.
    Unleft,
    /// The daemon sees an act of a peer some milliseconds later.
    Late,
    /// The daemon sees an act of a peer up to three seconds later, since a packet was lost.
    Lost,
    /// The process is stopped for up to ten seconds when it reads the clock.
    Stopped,
    /// The poll reports all streams, also those without an event.
    Spurious,
    /// A thread is held for up to half a second between two steps.
    Held,
    /// A thread is held for up to half a minute.
    Stuck,
    /// One thread hangs for half a minute, once.
    Hung,
    /// The first of several workers hangs for half a minute at its start.
    Delayed,
    /// The drain hangs for half a minute.
    Behind,
    /// A step takes up to two milliseconds.
    Slow,
    /// The clock jumps forward by up to an hour.
    Jump,
    /// The clock cannot be read for a while.
    Unread,
    /// Memory runs out for a while.
    Starved,
    /// Memory runs out for a minute.
    Famine,
    /// The recording thread stalls for up to three seconds.
    Stalled,
    /// The disk is full for the time of the scenario.
    Full,
    /// A peer resets its connection instead of closing it.
    Reset,
    /// A call on a reset connection returns `BrokenPipe`.
    Broken,
    /// A peer half-closes its connection after its request.
    Shut,
    /// A peer sends its bytes one by one.
    Dripped,
    /// A poll fails.
    Deaf,
    /// The poll refuses to watch a stream.
    Unreported,
    /// One thread sees an arrival a millisecond before the others. The others lose the event once the backlog is empty.
    Taken,
    /// A poll reverses the order of a thread's streams. The order matters if it reports its most events.
    Reversed,
    /// A write of times fails.
    Timeless,
    /// A worker is held for up to a fifth of a second before a poll that can't report all events.
    Drowsy,
}

/// The names of the faults, in the order of their declaration.
pub const FAULTS: &str = "\
    interrupted short aborted exhausted unable unwatched unleft late lost stopped spurious held \
    stuck hung delayed behind slow jumps unread starved famine stalled full reset broken shut dripped \
    deaf unreported taken reversed timeless drowsy";

/// The chances of faults, per mille.
pub type Chances = &'static [(Fault, u32)];

pub type FaultCounts = [u32; 33];

/// The faults of a case, by the choices of its seed.
#[derive(Drop)]
pub struct Weather {
    pub random: Random,
    pub(crate) chances: Chances,
    pub happened: FaultCounts,
    /// No connection can be accepted before this time in microseconds, with this error.
    pub(crate) exhausted: (u64, ErrorKind),
}

/// Adds one to a count.
pub fn count(number: &mut u32) {
    *number = number.saturating_add(1);
}

impl Weather {
    pub fn happens(&mut self, fault: Fault) -> bool {
        let chance = self.chances.iter().find(|chance| chance.0 == fault);
        let happens = chance.is_some_and(|chance| self.random.happens(chance.1));
        if happens {
            count(&mut self.happened[fault as usize]);
        }
        happens
    }

    pub fn has_happened(&self, fault: Fault) -> bool {
        self.happened[fault as usize] > 0
    }
}
