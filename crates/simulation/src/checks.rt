//! Checks of each step, of the state at rest, and of the end, with the text that is printed if a check fails.
use crate::network::Ending;
use crate::notices::Subject;
use crate::people::{Person, PersonState};
use crate::roles::{GivenUp, Owed, ReadHabit};
use crate::scene::Scene;
use crate::weather::{Fault, Weather};
use crate::wire::{Received, Wire};
use crate::world::World;
use portmap_wire::{Line, read_names};
use portmap_worker::ShutdownCause;

/// The text of a failed check.
pub type Wrong = &'static str;

pub fn expect(holds: bool, wrong: Wrong) -> Result<(), Wrong> {
    holds.then_some(()).ok_or(wrong)
}

/// A peer that asks within this time, by the clock that the daemon reads, is owed an answer however late the daemon
/// reads the request.
const PROMPT_US: u64 = 1_000_000;

/// An idle or unreading connection is closed within this time after its timeout: a scan and a second.
const GIVEN_UP_US: u64 = 1_500_000;

/// The connection of a stopped node is closed within this time: by the next scan.
const STOPPED_US: u64 = 500_000;

/// One of this many permits is reserved for this host.
const KEPT_SHARE: u32 = 8;

/// The most bytes of the log for each worker, by its own weight.
const LOG_BYTES_MOST: u64 = 600_000;

/// The drain runs before the workers have read this many bytes for the log, and `WEIGH_BYTES` more for each worker. No
/// entry takes fewer bytes than were read for it.
const LOG_BYTES_HEAVY: u64 = 262_144;

const WEIGH_BYTES: u64 = 73_728;

/// The longest wait of the drain while memory is short.
const SHORT_OF_MEMORY_MS: u64 = 50;

/// The most polls of a worker in an hour at rest: three for each scan, since a poll of the world returns at once, and
/// another after its wait.
const POLLS_MOST: u64 = 25_000;

const HOUR_US: u64 = 3_600_000_000;

/// The most steps of a worker between two polls: 64 turns, each of which may defer a link.
const STEPS_MOST: u32 = 130;

/// The drain looks at the log once in this time at rest.
const SECOND_US: u64 = 1_000_000;

/// After a trickle of connections, the poll of at most this many workers reports the next connection: one worker, and
/// one that it called for help.
const LISTENING_MOST: usize = 2;

/// Checks by a peer. Of the four calls `judge_*`, a lenient peer fails only `judge_let_in`.
impl Person {
    /// Returns when the daemon must have closed this connection, which it accepted at `accepted`. Reasons are an idle
    /// peer, an unreading peer, and a stopped node.
    fn kept_until(&self, world: &World, accepted: u64) -> Option<u64> {
        let is_useless = match self.role.given_up {
            GivenUp::Nobody => false,
            GivenUp::Remote => !self.is_local,
            GivenUp::Anybody => true,
        };
        if is_useless {
            let over = accepted.saturating_add(self.scenario.timeout_us);
            return Some(over.saturating_add(GIVEN_UP_US));
        }
        if !self.holds() {
            return None;
        }
        let stopped = world.network.stopped_after(self.node, self.held_since)?;
        Some(stopped.saturating_add(STOPPED_US))
    }

    /// Returns for how much longer the daemon has kept the connection.
    fn overdue(&self, world: &World) -> Option<u64> {
        let wire = self.own(world)?;
        let (_, accepted) = wire.accepted?;
        let until = self.kept_until(world, accepted)?;
        (!wire.is_down_ended).then_some(world.now.saturating_sub(until))
    }

    /// Returns whether this peer waits for an answer for longer than `limit`, not counting the time in which the
    /// process is stopped or the worker of the connection is held.
    fn is_late(&self, world: &World, limit: u64) -> bool {
        let worker = self.own(world).and_then(|wire| wire.worker());
        let since = world.held_until(worker).saturating_add(limit);
        let reads = self.is_local && self.role.reading == ReadHabit::AtOnce;
        reads && world.now > since && self.waited_awake(world) > limit
    }

    pub(crate) fn judge_unanswered(&self, heard: Received) -> Option<Wrong> {
        let is_owed = match self.role.owed {
            Owed::Never => false,
            Owed::IfPrompt => self.asked_after < PROMPT_US,
            Owed::Always => true,
        };
        let is_closed = heard.bytes == 0 && !heard.is_reset && !heard.is_refused;
        let is_wrong = is_closed && is_owed && self.is_local && !self.is_lenient;
        is_wrong.then_some("closed without an answer")
    }

    pub(crate) fn judge_lost(&self, heard: Received) -> Option<Wrong> {
        let wrong = if self.stage == PersonState::Sending && self.role.owed == Owed::Always {
            Some("a connection was given up that sends")
        } else {
            self.holds().then_some("a registered connection was closed")
        };
        wrong.filter(|_| !heard.is_reset && !heard.is_refused && !self.is_lenient)
    }

    pub(crate) fn judge_refused(&self, now: u64) -> Option<Wrong> {
        let wrong = if self.role.owns() {
            Some("a node that closed first was refused")
        } else {
            let is_late = self.waited(now) > self.scenario.refusal_us;
            is_late.then_some("a duplicate was refused too late")
        };
        wrong.filter(|_| !self.is_lenient)
    }

    pub(crate) fn judge_let_in(&self, now: u64) -> Option<Wrong> {
        let is_late = self.waited(now) > self.scenario.patience_us;
        is_late.then_some("a node waited too long for its name")
    }
}

impl<'a> Scene<'a> {
    /// Keeps the text of the first check that fails.
    pub(crate) fn check(&mut self, holds: bool, wrong: Wrong) {
        self.note((!holds).then_some(wrong));
    }

    pub(crate) fn note(&mut self, wrong: Option<Wrong>) {
        if !self.is_ending {
            self.wrong = self.wrong.or(wrong);
        }
    }

    // ---- checks at a step

    /// Checks a timeout event: the timeout of an idle connection, or an eviction.
    pub(crate) fn judge_late(&mut self, late: usize, has_news: bool) -> Option<()> {
        let timeout = self.scenario.timeout_us;
        let mut world = self.world()?;
        let is_early = world.is_early(late, timeout)?;
        let is_unread = world.was_unread(late)?;
        if is_early && is_unread {
            let now = world.now;
            world.notices.note(Subject::Unread, now);
        }
        let is_early = is_early && !is_unread;
        let given_up = self.given_up.saturating_add(u32::from(is_early));
        let is_wanted = given_up <= world.network.wanting;
        let is_old = !is_early || world.is_old(late)?;
        let is_first = !is_early || world.goes_first(late, has_news)?;
        let is_anew = world.note_late(late, timeout)? || world.network.wanting > 0 || is_unread;
        let is_spared = !is_early || world.spares_local(late)?;
        let is_called_for = !is_early || world.network.wanting > 0 || world.is_local(late)?;
        drop(world);
        self.given_up = given_up;
        self.check(is_called_for, "one of another host was given up for no one");
        if self.scenario.is_strict {
            let is_idle = is_early || is_unread || !has_news;
            self.check(is_idle, "one was told late of whom there was news");
            self.check(is_wanted, "a connection was given up for no one");
            self.check(is_old, "one was given up that is young");
            self.check(is_first, "one was given up before who goes first");
            self.check(is_spared, "one of this host was given up before others");
            self.check(is_anew, "one was told late twice within its time");
        }
        Some(())
    }

    /// Checks a wait of the drain. `is_owed` says that a peer was refused for lack of memory, and `is_out` that the log
    /// is empty.
    pub(crate) fn judge_wait(&mut self, timeout: u64, is_owed: bool, is_out: bool) -> Option<()> {
        let is_soon = !is_owed || timeout <= SHORT_OF_MEMORY_MS;
        self.check(timeout > 0, "who takes the log out does not sleep");
        self.check(is_soon, "no memory is given back for who goes unanswered");
        self.world()?.wait_out(self.workers, timeout, is_out);
        Some(())
    }

    /// Returns whether a peer waits for too long, or a connection is kept for too long.
    fn complaint(&self, world: &World, slack: u64) -> Option<Wrong> {
        let is_late = |person: &Person| person.is_late(world, slack);
        let is_kept = |person: &Person| person.overdue(world).is_some_and(|time| time > slack);
        if self.people.iter().any(is_late) {
            Some("an answer took too long")
        } else if self.people.iter().any(is_kept) {
            Some("a connection of no use is kept for too long")
        } else if world.keeps_unwatched(slack) {
            Some("a connection that no poll reports is kept")
        } else {
            None
        }
    }

    /// Returns what is wrong with the world, if the log has this weight.
    fn fault(&self, world: &World, weight: u64) -> Option<Wrong> {
        let workers = self.workers as u64;
        let heavy = LOG_BYTES_HEAVY.saturating_add(WEIGH_BYTES.saturating_mul(workers));
        let is_unread = world.network.read_bytes > heavy && !world.is_due(self.workers);
        let mut threads = world.workers().iter();
        let is_busy = threads.any(|thread| thread.steps > STEPS_MOST);
        let unsent_most = self.scenario.unsent_bytes_most;
        // Each worker may have a connection that waits for a permit.
        let conn_max = self.scenario.conn_max;
        let most = conn_max.saturating_sub(conn_max / KEPT_SHARE) as usize;
        let are_many = world.network.remote as usize > most.saturating_add(self.workers);
        if is_unread || weight / LOG_BYTES_MOST > workers {
            Some("the log is not taken out")
        } else if world.memory.is_overdrawn {
            Some("a connection is held without memory")
        } else if world.memory.is_ignored {
            Some("a registration is served though memory is short")
        } else if is_busy {
            Some("a worker does not poll")
        } else if world.unsent() > unsent_most.saturating_add(unsent_most / 2) {
            Some("too many bytes wait to be read")
        } else {
            self.complaint(world, self.scenario.limit_ms.saturating_mul(1000))
                .or(are_many.then_some("other hosts have more places than they may"))
        }
    }

    /// Checks the world after a step. Returns whether the storm continues.
    pub(crate) fn look(&mut self, weight: u64) -> Option<bool> {
        let wrong = self.fault(&*self.world()?, weight);
        self.note(wrong);
        Some(self.wrong.is_none() && weight < self.scenario.end_bytes)
    }

    // ---- checks at rest

    /// Checks how often the threads polled in this time at rest. `polls` and `drains` are the counts before it.
    pub(crate) fn judge_sleep(&mut self, time: u64, polls: u64, drains: u64) -> Option<()> {
        let polls = self.polls()?.saturating_sub(polls).saturating_mul(HOUR_US);
        let most = POLLS_MOST.saturating_mul(self.workers as u64);
        let drains = self.drains.saturating_sub(drains);
        let are_few = drains <= (time / SECOND_US).saturating_add(1);
        let sleep = polls <= most.saturating_mul(time);
        self.check(sleep, "a worker does not sleep");
        self.check(are_few, "who takes the log out does not sleep");
        Some(())
    }

    /// Checks the state at rest: the recording runs unless its disk is full or it failed, the log is empty, no
    /// connection that ended unanswered waits for the drain, and the poll watches exactly the open connections.
    pub(crate) fn judge_rest(
        &mut self,
        records: bool,
        is_out: bool,
        is_looked_into: bool,
    ) -> Option<()> {
        let mut world = self.world()?;
        world.clock.has_rested = true;
        let may_fail = world.is_disk_full();
        let watched = world.threads.iter().map(|thread| thread.watched.len());
        let are_watched = watched.fold(0, usize::saturating_add) == self.holding();
        let goes_on = records || may_fail;
        self.check(goes_on, "a recording that failed never begins anew");
        self.check(is_out, "the log at rest is not taken out");
        self.check(is_looked_into, "who went unanswered is never looked into");
        self.check(are_watched, "what is watched at rest is not what is open");
        Some(())
    }

    pub(crate) fn judge_trickle(&mut self, are_accepted: bool) -> Option<()> {
        let world = self.world()?;
        let delivered = world.threads.iter().filter(|thread| thread.listens());
        let are_few = delivered.count() <= LISTENING_MOST;
        self.check(are_accepted, "a listener at rest gives no connection");
        self.check(are_few, "more workers are told of connections than needed");
        Some(())
    }

    /// Checks that the node with this connection was registered, and closes the connection.
    pub(crate) fn judge_let_in(&mut self, number: usize) -> Option<()> {
        let mut world = self.world()?;
        let is_in = world.network.wires.get(number)?.received.get(1) == Some(&0);
        world.end(number, Ending::Gone);
        self.check(is_in, "a node at rest is not let in");
        Some(())
    }

    /// Checks that this connection received exactly the names of the holders.
    pub(crate) fn judge_names(&mut self, number: usize) -> Option<()> {
        let world = self.world()?;
        let delivered = &world.network.wires.get(number)?.received;
        let names = read_names(self.alloc, delivered);
        let is_told = names.is_ok_and(|(_, lines)| self.are_holders(&lines));
        self.check(is_told, "the names at rest are not those of who holds them");
        Some(())
    }

    fn are_holders(&self, lines: &[Line]) -> bool {
        let is_told = |person: &Person| !person.holds() || has_name(lines, &person.name());
        self.people.iter().all(is_told) && self.holding() == lines.len()
    }

    pub(crate) fn judge_places(&mut self, numbers: &[usize]) -> Option<()> {
        let world = self.world()?;
        let wires = &world.network.wires;
        let are_answered = numbers.iter().all(|number| is_answered(wires.get(*number)));
        self.check(are_answered, "a place at rest can't be had");
        Some(())
    }
}

/// Returns whether the fault that the daemon reports is a fault that happened.
pub(crate) fn is_right(weather: &Weather, failure: Option<ShutdownCause>, may_end: bool) -> bool {
    let is_deaf = weather.has_happened(Fault::Deaf);
    let is_starved = may_end && weather.has_happened(Fault::Famine);
    match failure {
        None => !is_deaf && !is_starved,
        Some(ShutdownCause::Poll) => is_deaf,
        Some(ShutdownCause::NoMemory) => is_starved || weather.has_happened(Fault::Starved),
    }
}

fn has_name(lines: &[Line], name: &[u8]) -> bool {
    lines.iter().any(|line| line.name.bytes() == name)
}

fn is_answered(wire: Option<&Wire>) -> bool {
    wire.is_some_and(|wire| wire.is_down_ended && !wire.received.is_empty())
}
