//! The world of a daemon: network, threads, clock, memory and disk, all of which are values.
use crate::clock::{Clock, Memory};
use crate::disk::Disk;
use crate::network::Network;
use crate::notices::{Notices, Refusals};
use crate::polls::Thread;
use crate::random::Random;
use crate::run::Case;
use crate::scenario::Scenario;
use crate::weather::{Fault, Weather};
use portmap_operator::Notice;
use std::alloc::Global;
use std::io::ErrorKind;

pub const LISTENERS: usize = 2;

/// A world. Times are in microseconds.
pub struct World {
    pub scenario: &'static Scenario,
    pub weather: Weather,
    pub now: u64,
    pub network: Network,
    pub threads: Vec<Thread>,
    pub clock: Clock,
    pub memory: Memory,
    pub disk: Disk,
    pub notices: Notices,
    /// The notices of refused requests of other hosts.
    pub refusals: Vec<Refusals>,
}

impl Drop for World {
    fn drop(self) {
        let World {
            scenario: _,
            weather: _,
            now: _,
            network: _,
            threads: _,
            clock: _,
            memory: _,
            disk: _,
            notices: _,
            refusals: _,
        } = self;
    }
}

impl World {
    /// Returns the world of a case before its first step.
    pub fn of(alloc: Global, case: &Case) -> Option<World> {
        let scenario = case.scenario;
        let threads = (0..=case.workers).map(|_| Thread::new(alloc));
        let threads = threads.collect(alloc).ok()?;
        Some(World {
            scenario,
            weather: Weather {
                random: Random::new(case.seed),
                chances: scenario.chances,
                happened: [0; 33],
                exhausted: (0, ErrorKind::Other),
            },
            now: 1_000_000,
            network: Network::new(alloc),
            threads,
            clock: Clock::default(),
            memory: Memory::default(),
            disk: Disk::new(alloc),
            notices: Notices::default(),
            refusals: Vec::new(alloc),
        })
    }

    /// Returns a random time within `most` microseconds.
    pub fn after(&mut self, most: u64) -> u64 {
        self.now.saturating_add(self.weather.random.below(most))
    }

    pub fn happens(&mut self, fault: Fault) -> bool {
        self.weather.happens(fault)
    }

    /// Fails with this error if a fault happens now.
    pub fn fail_by(&mut self, fault: Fault, kind: ErrorKind) -> Result<(), ErrorKind> {
        (!self.happens(fault)).then_some(()).ok_or(kind)
    }

    /// Returns whether a fault happens now for the first time.
    pub fn happens_first(&mut self, fault: Fault) -> bool {
        !self.weather.has_happened(fault) && self.happens(fault)
    }

    /// If a fault happens now, returns until when it lasts.
    pub fn lasts(&mut self, fault: Fault, most: u64) -> Option<u64> {
        self.happens(fault).then(|| self.after(most))
    }

    /// Ends all faults.
    pub fn calm(&mut self) {
        self.weather.chances = &[];
        self.weather.exhausted.0 = 0;
        self.clock.unread_until = 0;
        self.memory.starved_until = 0;
        self.disk.stalled_until = 0;
        if self.disk.full_until < u64::MAX {
            self.disk.full_until = 0;
        }
        for thread in &mut self.threads {
            thread.held_until = 0;
        }
    }

    pub fn is_disk_full(&self) -> bool {
        self.now < self.disk.full_until
    }

    pub fn is_starved(&self) -> bool {
        self.now < self.memory.starved_until
    }

    pub fn notify(&mut self, notice: &Notice<'_>) {
        self.notices.hear(self.now, notice);
        if let Notice::Remote(refused) = notice {
            let (first, count) = (refused.first(), refused.count());
            let is_kept = self.refusals.push(Refusals { first, count }).is_ok();
            self.memory.note(is_kept);
        }
    }
}
