//! The clock and the memory of a world.
use crate::weather::Fault;
use crate::world::World;

/// No famine begins before this time, so that the daemon can start.
const FAMINE_US: u64 = 1_300_000;

/// A clock. Times are in microseconds.
#[derive(Clone, Copy, Default)]
pub struct Clock {
    /// The clock cannot be read before this time.
    pub unread_until: u64,
    /// The sum of all jumps.
    jumped: u64,
    /// The sum of the times in which the process was stopped.
    pub stopped: u64,
    /// The world was at rest long enough for every notice.
    pub has_rested: bool,
}

/// The memory of the daemon and of the world.
#[derive(Clone, Copy, Default)]
pub struct Memory {
    /// No request for memory succeeds before this time.
    pub starved_until: u64,
    /// When the last shortage began.
    pub starved_since: u64,
    /// A worker held its first connection, for which it has no memory, while memory was short.
    pub is_overdrawn: bool,
    /// A worker served a registration that it had kept back, while memory was short.
    pub is_ignored: bool,
    /// The world itself ran out of memory, so the case shows nothing.
    pub is_lost: bool,
}

impl Memory {
    pub fn note(&mut self, is_kept: bool) {
        self.is_lost = self.is_lost || !is_kept;
    }
}

impl World {
    /// Returns the time that a readable clock shows.
    pub(crate) fn shown(&self) -> u64 {
        self.now.saturating_add(self.clock.jumped)
    }

    /// Reads the clock. The process may be stopped, and the clock may jump.
    pub fn time(&mut self) -> Option<u64> {
        if self.happens(Fault::Jump) {
            let jump = self.weather.random.below(3_600_000_000);
            self.clock.jumped = self.clock.jumped.saturating_add(jump);
        }
        if self.happens(Fault::Stopped) {
            let stop = self.weather.random.below(10_000_000);
            self.now = self.now.saturating_add(stop);
            self.clock.stopped = self.clock.stopped.saturating_add(stop);
            self.land();
        }
        let until = self.lasts(Fault::Unread, 2_000_000);
        self.clock.unread_until = until.unwrap_or(self.clock.unread_until);
        (self.now >= self.clock.unread_until).then_some(self.shown())
    }

    /// Reads the calendar. No fault happens meanwhile.
    pub fn date(&mut self) -> Option<u64> {
        let is_read = self.now >= self.clock.unread_until;
        self.disk.times.has_failed = self.disk.times.has_failed || !is_read;
        is_read.then_some(self.shown())
    }

    /// Returns whether a connection is younger than `age` by the daemon's clock. A clock that was unreadable excuses
    /// the daemon.
    pub fn is_early(&self, number: usize, age: u64) -> Option<bool> {
        let (_, accepted) = self.network.wires.get(number)?.accepted?;
        let is_young = self.shown().saturating_sub(accepted) < age;
        Some(is_young && !self.weather.has_happened(Fault::Unread))
    }

    /// Notes a timeout event. Returns whether the last such event of this connection is at least `age` ago, or the
    /// clock was unreadable.
    pub fn note_late(&mut self, number: usize, age: u64) -> Option<bool> {
        let now = self.shown();
        let wire = self.network.wires.get_mut(number)?;
        let before = wire.daemon.late_at.replace(now);
        let is_anew = before.is_none_or(|at| now.saturating_sub(at) >= age);
        Some(is_anew || self.weather.has_happened(Fault::Unread))
    }

    /// Returns whether a request for memory succeeds.
    pub fn has_memory(&mut self) -> bool {
        let was_starved = self.is_starved();
        let until = self.lasts(Fault::Starved, 2_000_000);
        self.memory.starved_until = until.unwrap_or(self.memory.starved_until);
        if self.now > FAMINE_US && self.happens(Fault::Famine) {
            self.memory.starved_until = self.now.saturating_add(60_000_000);
        }
        let is_starved = self.is_starved();
        if is_starved {
            self.notices.refused_at = self.now;
        }
        if is_starved && !was_starved {
            self.memory.starved_since = self.now;
        }
        !is_starved
    }

    /// Notes that a worker serves a registration that was kept back. A worker looks at its memory before each poll, and
    /// refuses such a registration while memory is short, unless its peer has ended meanwhile.
    pub fn note_registration(&mut self, worker: usize, number: usize) {
        let thread = self.threads.get(worker);
        let since = self.memory.starved_since;
        let was_short = thread.is_some_and(|thread| since < thread.polled_at);
        let wire = self.network.wires.get(number);
        let is_there = wire.is_some_and(|wire| wire.peer.ended.is_none());
        let is_ignored = self.is_starved() && was_short && is_there;
        self.memory.is_ignored = self.memory.is_ignored || is_ignored;
    }
}
