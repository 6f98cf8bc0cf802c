//! The checks of a daemon at rest, and its end.
use crate::checks::is_right;
use crate::daemon::Daemon;
use crate::network::Ending;
use crate::world::LISTENERS;
use portmap_worker::LinkSource;
use std::sync::Wait;
use std::sync::ledger::Ledger;

const REST_STEPS: u32 = 200_000;

/// A daemon that must end has ended within this time.
const END_US: u64 = 200_000;

/// A request at rest is answered within this many rounds.
const ROUNDS: u32 = 20;

const ROUND_US: u64 = 25_000;

/// A connection of this age may be evicted.
const OLD_US: u64 = 3_000_000;

/// Closed connections may be in flight for this time.
const SETTLING_US: u64 = 10_000_000;

/// The number of connections that arrive one after another.
const TRICKLE: usize = 20;

/// The registration of a node with a name of its own.
const REGISTRATION: &[u8] = &[
    0, 15, 0x78, 0x13, 0x88, 0x4D, 0, 0, 6, 0, 5, 0, 2, 0x7A, 0x7A, 0, 0,
];

/// The outer `None` of a result is a lack of memory.
impl<'a, L: Ledger, S: LinkSource + Drop, R: Wait + Drop> Daemon<'a, L, S, R> {
    /// Lets time pass, and fails if the actors never wait.
    pub(crate) fn pass(&mut self, time: u64) -> Option<()> {
        let until = self.scene.now().saturating_add(time);
        for _ in 0..REST_STEPS {
            self.step(until)?;
            if self.has_ended() || self.scene.now() >= until {
                return Some(());
            }
        }
        self.scene.check(false, "it never rests");
        Some(())
    }

    /// Checks the daemon after the storm. If a permit is free, peers that connect now are accepted, registered and
    /// listed.
    pub(crate) fn rest(&mut self) -> Option<()> {
        let scenario = self.scene.scenario;
        let mut world = self.scene.world()?;
        world.calm();
        for person in &mut self.scene.people {
            person.retire(&mut world);
        }
        drop(world);
        self.pass(SETTLING_US)?;
        let (polls, drains) = (self.scene.polls()?, self.scene.drains);
        self.pass(scenario.rest_us)?;
        self.scene.judge_sleep(scenario.rest_us, polls, drains)?;
        let is_written = !self.is_writing || self.around.queue.is_idle(self.around.host);
        let is_out = self.weight() == 0 && is_written;
        let is_looked_into = !self.around.shared.noted.is_unanswered();
        let records = !self.around.queue.has_failed(self.around.host);
        self.scene.judge_rest(records, is_out, is_looked_into)?;
        if self.scene.holding() < scenario.places() as usize {
            self.trickle()?;
            self.let_in()?;
            self.list()?;
        }
        self.fill(scenario.places())
    }

    /// Opens connections one after another, alternately at each listener. Few workers have such a listener watched
    /// then.
    fn trickle(&mut self) -> Option<()> {
        let mut are_accepted = true;
        for turn in 0..TRICKLE {
            let connected = self.scene.world()?.connect(turn % LISTENERS, true);
            let Some(number) = connected else {
                // The backlog is full.
                are_accepted = false;
                break;
            };
            self.pass(ROUND_US)?;
            let mut world = self.scene.world()?;
            world.end(number, Ending::Gone);
            are_accepted &= world.network.wires.get(number)?.accepted.is_some();
        }
        self.pass(ROUND_US)?;
        self.scene.judge_trickle(are_accepted)
    }

    /// Receives on these connections for as long as an answer takes at rest.
    fn hear(&mut self, numbers: &[usize]) -> Option<()> {
        for _ in 0..ROUNDS {
            self.pass(ROUND_US)?;
            let mut world = self.scene.world()?;
            for number in numbers {
                world.receive(*number, usize::MAX);
            }
        }
        Some(())
    }

    /// Registers a node, which leaves then.
    fn let_in(&mut self) -> Option<()> {
        let number = self.open(REGISTRATION)?;
        self.hear(&[number])?;
        self.scene.judge_let_in(number)?;
        self.pass(ROUND_US)
    }

    /// Lists the names, which must be those of the holders.
    fn list(&mut self) -> Option<()> {
        let number = self.open(&[0, 1, 0x6E])?;
        self.hear(&[number])?;
        self.scene.judge_names(number)
    }

    /// Opens a local connection, and sends these bytes.
    fn open(&mut self, bytes: &[u8]) -> Option<usize> {
        let mut opened = self.scene.world()?.connect(0, true);
        if opened.is_none() {
            // The backlog is full: try again.
            self.pass(ROUND_US)?;
            opened = self.scene.world()?.connect(0, true);
        }
        self.scene.world()?.send(opened?, bytes);
        opened
    }

    /// Takes each free permit, and then completes all requests. Each must be answered.
    fn fill(&mut self, places: u32) -> Option<()> {
        let mut numbers = Vec::new(self.scene.alloc);
        for _ in self.scene.holding()..places as usize {
            numbers.push(self.open(&[0, 1])?).ok()?;
        }
        // Each connection becomes old enough for an eviction if any peer still waited for a permit, and not so old that
        // it times out.
        let old_us = OLD_US.min(self.scene.scenario.timeout_us / 5 * 3);
        self.pass(old_us)?;
        let mut world = self.scene.world()?;
        for number in &numbers {
            world.send(*number, &[0x6E]);
        }
        drop(world);
        self.hear(&numbers)?;
        self.scene.judge_places(&numbers)
    }

    /// Ends the daemon if it has not ended, and waits until all parts have ended.
    pub(crate) fn end(&mut self) -> Option<()> {
        let has_ended = self.has_ended();
        let may_end = self.scene.scenario.may_end;
        self.scene.check(!has_ended || may_end, "it has ended");
        let mut world = self.scene.world()?;
        let is_right = is_right(&world.weather, self.around.shared.ending.failure(), may_end);
        self.scene
            .check(is_right, "it tells another reason than why it ends");
        self.scene.is_ending = true;
        world.calm();
        let until = world.now.saturating_add(END_US);
        drop(world);
        if !has_ended {
            self.around.shared.stop_all();
        }
        for _ in 0..REST_STEPS {
            if (self.is_drained && !self.is_writing) || self.scene.now() >= until {
                break;
            }
            self.step(until)?;
        }
        if !self.is_drained || self.is_writing {
            self.scene.wrong = self.scene.wrong.or(Some("it does not end"));
        }
        Some(())
    }
}
