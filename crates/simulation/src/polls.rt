//! The polls of the threads: listeners, streams, and wakes by other threads.
use crate::weather::Fault;
use crate::wire::{Watch, Wire};
use crate::world::{LISTENERS, World};
use portmap_worker::{Report, Turn};
use std::alloc::Global;
use std::io::ErrorKind;
use std::mem;

/// The longest time for which `Fault::Held` holds a thread.
const HELD_US: u64 = 500_000;

const HUNG_US: u64 = 30_000_000;

/// The longest time for which `Fault::Drowsy` holds a worker.
const DROWSY_US: u64 = 200_000;

/// The least time between two such times.
const AWAKE_US: u64 = 500_000;

pub(crate) const EVENTS_MOST: usize = 256;

/// The faults that stop all accepts, with their errors.
const EXHAUSTIONS: [(Fault, ErrorKind); 2] = [
    (Fault::Exhausted, ErrorKind::Other),
    (Fault::Unable, ErrorKind::OutOfMemory),
];

/// A listener in the poll of a thread.
#[derive(Clone, Copy, Default)]
struct Listening {
    /// The poll watches the listener.
    is_on: bool,
    /// From when on the poll reports an unreported arrival.
    news_at: Option<u64>,
}

pub struct Thread {
    listeners: [Listening; LISTENERS],
    pub(crate) watched: Vec<usize>,
    pub(crate) is_woken: bool,
    pub(crate) reports: Vec<Report>,
    /// Until when the thread waits in its poll.
    pub(crate) until: Option<u64>,
    pub(crate) held_until: u64,
    work: Work,
    /// The time of the last poll, the number of polls, and the steps of the source since the last poll.
    pub polled_at: u64,
    pub polls: u64,
    pub steps: u32,
}

impl Drop for Thread {
    fn drop(self) {
        let Thread {
            listeners: _,
            watched: _,
            is_woken: _,
            reports: _,
            until: _,
            held_until: _,
            work: _,
            polled_at: _,
            polls: _,
            steps: _,
        } = self;
    }
}

/// What a worker has done. The connection of a turn is `None` if the turn had no connection.
#[derive(Clone, Copy, Default)]
struct Work {
    has_ended: bool,
    /// The worker has held a connection. It has memory for the next connection then.
    has_held: bool,
    /// The last turn of the worker's source, and the connection of that turn with whether it had unread input.
    turn: Option<Turn>,
    met: Option<(usize, bool)>,
}

impl Thread {
    pub fn new(alloc: Global) -> Thread {
        Thread {
            listeners: [Listening::default(); LISTENERS],
            watched: Vec::new(alloc),
            is_woken: false,
            reports: Vec::new(alloc),
            until: None,
            held_until: 0,
            work: Work::default(),
            polled_at: 0,
            polls: 0,
            steps: 0,
        }
    }

    pub fn listens(&self) -> bool {
        self.listeners.iter().any(|listener| listener.is_on)
    }

    pub fn on_arrival(&mut self, place: usize, now: u64) {
        if let Some(listener) = self.listeners.get_mut(place) {
            if listener.is_on && listener.news_at.is_none() {
                listener.news_at = Some(now);
            }
        }
    }

    /// Takes a wake, and returns whether the poll reports it. A sparing poll does not report a wake that ended a wait.
    fn take_wake(&mut self, now: u64, is_sparing: bool) -> bool {
        let has_waited = self.until.is_some_and(|until| now < until);
        mem::replace(&mut self.is_woken, false) && !(is_sparing && has_waited)
    }

    /// Reports a wake, the listeners, and the streams with an event, or all streams if `is_spurious`. Returns `None` if
    /// memory runs out.
    fn report(
        &mut self,
        wires: &mut [Wire],
        now: u64,
        is_woken: bool,
        is_spurious: bool,
    ) -> Option<()> {
        self.reports.clear();
        if is_woken {
            self.reports.push(Report::Woken).ok()?;
        }
        for (place, listener) in self.listeners.iter_mut().enumerate() {
            if listener.news_at.is_some_and(|at| at <= now) {
                listener.news_at = None;
                self.reports.push(Report::Listener(place)).ok()?;
            }
        }
        for number in &self.watched {
            let has_room = self.reports.len() < EVENTS_MOST;
            if let Some(wire) = wires.get_mut(*number) {
                if let Some(report) = wire.report(now, has_room, is_spurious) {
                    self.reports.push(report).ok()?;
                }
            }
        }
        Some(())
    }
}

impl World {
    /// Returns when a thread is due. An ended thread never is.
    pub fn due_at(&self, number: usize) -> Option<u64> {
        let thread = self.threads.get(number)?;
        let waits_until = thread.until.filter(|_| !thread.is_woken);
        let mut at = waits_until.unwrap_or(self.now);
        for listener in thread.listeners {
            at = at.min(listener.news_at.unwrap_or(at));
        }
        for number in &thread.watched {
            if let Some(wire) = self.network.wires.get(*number) {
                at = at.min(wire.readiness.news_at.unwrap_or(at));
            }
        }
        (!thread.work.has_ended).then_some(at.max(thread.held_until))
    }

    pub fn note_turn(&mut self, number: usize, turn: Option<Turn>, met: Option<(usize, bool)>) {
        let is_starved = self.is_starved();
        if let Some(thread) = self.threads.get_mut(number) {
            thread.work.turn = turn;
            thread.work.met = met;
            thread.steps = thread.steps.saturating_add(1);
            if let (Some(Turn::Fresh { .. }), Some((fresh, _))) = (turn, met) {
                self.memory.is_overdrawn |= is_starved && !thread.work.has_held;
                thread.work.has_held = true;
                if let Some(wire) = self.network.wires.get_mut(fresh) {
                    wire.daemon.came_at = Some(self.now);
                }
            }
        }
    }

    pub fn last_turn(&self, number: usize) -> Option<Turn> {
        let work = self.threads.get(number)?.work;
        work.turn.filter(|_| !work.has_ended)
    }

    /// Notes whether a worker or the drain continues after a turn. Returns the last turn of a worker's source with its
    /// connection.
    pub fn met(&mut self, number: usize, goes_on: bool) -> Option<(Turn, (usize, bool))> {
        let work = &mut self.threads.get_mut(number)?.work;
        work.has_ended = !goes_on;
        work.turn.zip(work.met)
    }

    pub fn is_due(&self, number: usize) -> bool {
        self.due_at(number).is_none_or(|at| at <= self.now)
    }

    fn until(&self, timeout_ms: u64) -> u64 {
        self.now.saturating_add(timeout_ms.saturating_mul(1000))
    }

    /// Lets the drain wait. `is_out` says that the log is empty.
    pub fn wait_out(&mut self, number: usize, timeout_ms: u64, is_out: bool) {
        if is_out {
            self.network.read_bytes = 0;
        }
        let until = self.until(timeout_ms);
        if let Some(thread) = self.threads.get_mut(number) {
            thread.until = Some(until);
            thread.is_woken = false;
        }
    }

    /// Returns whether more streams of a worker have an event than its poll can report, and it was not held lately.
    fn is_flooded(&self, worker: usize) -> bool {
        let Some(thread) = self.threads.get(worker) else {
            return false;
        };
        let is_due = |number: &&usize| {
            let wire = self.network.wires.get(**number);
            wire.and_then(|wire| wire.readiness.news_at)
                .is_some_and(|at| at <= self.now)
        };
        let was_held = self.now < thread.held_until.saturating_add(AWAKE_US);
        !was_held && thread.watched.iter().filter(is_due).count() > EVENTS_MOST
    }

    pub fn wake(&mut self, number: usize) {
        if let Some(thread) = self.threads.get_mut(number) {
            thread.is_woken = true;
        }
    }

    /// Returns until when a fault holds a worker, if a fault happens.
    fn held(&mut self, worker: usize, workers: usize) -> Option<u64> {
        let is_drowsy = self.scenario.has(Fault::Drowsy) && self.is_flooded(worker);
        if is_drowsy && self.happens(Fault::Drowsy) {
            return Some(self.after(DROWSY_US));
        }
        let is_first = worker == 0 && self.happens_first(Fault::Delayed) && workers > 1;
        if is_first || self.happens_first(Fault::Hung) {
            return Some(self.now.saturating_add(HUNG_US));
        }
        let until = self.lasts(Fault::Held, HELD_US);
        until.or_else(|| self.lasts(Fault::Stuck, HUNG_US))
    }

    /// Holds an actor if a fault happens: a worker, the drain, or the recording thread.
    pub fn keeps(&mut self, actor: usize, workers: usize) -> bool {
        let until = match actor.checked_sub(workers) {
            None => self.held(actor, workers),
            Some(0) if self.happens(Fault::Behind) => Some(self.now.saturating_add(HUNG_US)),
            Some(1) => self.lasts(Fault::Stalled, 3_000_000),
            Some(_) => None,
        };
        if let Some(until) = until {
            match self.threads.get_mut(actor) {
                Some(thread) => thread.held_until = until,
                // The recording thread has no poll.
                None => self.disk.stalled_until = until,
            }
        }
        until.is_some()
    }

    /// The threads of the workers, without the drain.
    pub fn workers(&self) -> &[Thread] {
        let count = self.threads.len().saturating_sub(1);
        &self.threads[..count]
    }

    /// Returns until when this worker is held. Without a worker, returns until when all workers are held.
    pub fn held_until(&self, worker: Option<usize>) -> u64 {
        if let Some(thread) = worker.and_then(|worker| self.threads.get(worker)) {
            return thread.held_until;
        }
        let workers = self.workers().iter();
        workers.fold(u64::MAX, |least: u64, thread| least.min(thread.held_until))
    }

    /// Polls. Without a report the thread waits for this time.
    pub fn poll(&mut self, number: usize, timeout_ms: u64) -> bool {
        if self.happens(Fault::Deaf) {
            return false;
        }
        self.land();
        let is_spurious = self.happens(Fault::Spurious);
        let is_reversed = self.happens(Fault::Reversed);
        let (now, until) = (self.now, self.until(timeout_ms));
        let Some(thread) = self.threads.get_mut(number) else {
            return false;
        };
        thread.polled_at = now;
        thread.polls = thread.polls.saturating_add(1);
        thread.steps = 0;
        if is_reversed {
            thread.watched.reverse();
        }
        let is_woken = thread.take_wake(now, self.scenario.is_sparing);
        let reported = thread.report(&mut self.network.wires, now, is_woken, is_spurious);
        self.memory.note(reported.is_some());
        thread.until = thread.reports.is_empty().then_some(until);
        let count = thread.reports.len();
        for place in 0..count {
            let other = self.weather.random.below(count as u64) as usize;
            thread.reports.swap(place, other);
        }
        true
    }

    pub fn watch(&mut self, number: usize, watch: Watch) -> Result<(), ErrorKind> {
        let is_refused = self.happens(Fault::Unwatched) || self.happens(Fault::Unreported);
        let wire = self.network.wires.get_mut(number).ok_or(ErrorKind::Other)?;
        if is_refused {
            wire.daemon.refused_at = wire.daemon.refused_at.or(Some(self.now));
            return Err(ErrorKind::OutOfMemory);
        }
        let is_new = wire.begin_watch(watch, self.now);
        let thread = self.threads.get_mut(watch.thread);
        let watched = &mut thread.ok_or(ErrorKind::Other)?.watched;
        self.memory.note(!is_new || watched.push(number).is_ok());
        Ok(())
    }

    /// Returns whether a connection stays open for longer than `limit` after the poll refused to watch it, not counting
    /// the time in which its worker is held.
    pub fn keeps_unwatched(&self, limit: u64) -> bool {
        let is_kept = |wire: &Wire| {
            let refused_at = wire.daemon.refused_at.unwrap_or(u64::MAX);
            let since = refused_at.max(self.held_until(wire.worker()));
            !wire.is_down_ended && self.now > since.saturating_add(limit)
        };
        let happens = [Fault::Unwatched, Fault::Unreported];
        let may_be = happens
            .iter()
            .any(|fault| self.weather.has_happened(*fault));
        may_be && self.network.wires.iter().any(is_kept)
    }

    fn listener(&mut self, number: usize, place: usize) -> Option<&mut Listening> {
        self.threads.get_mut(number)?.listeners.get_mut(place)
    }

    pub fn listen(&mut self, number: usize, place: usize) -> Result<(), ErrorKind> {
        if self.happens(Fault::Unwatched) {
            self.notices.on_unaccepted(self.now);
            return Err(ErrorKind::OutOfMemory);
        }
        let waiting = self.network.backlogs.get(place);
        let are_there = waiting.is_some_and(|waiting| !waiting.is_empty());
        let news_at = are_there.then_some(self.now);
        let listener = self.listener(number, place).ok_or(ErrorKind::Other)?;
        if listener.is_on {
            return Err(ErrorKind::AlreadyExists);
        }
        listener.is_on = true;
        listener.news_at = news_at;
        Ok(())
    }

    pub fn leave(&mut self, number: usize, place: usize) {
        if self.happens(Fault::Unleft) {
            return;
        }
        if let Some(listener) = self.listener(number, place) {
            *listener = Listening::default();
        }
    }

    /// Returns the error of an accept if no connection can be accepted now.
    fn exhaustion(&mut self) -> Option<ErrorKind> {
        for (fault, kind) in EXHAUSTIONS {
            if let Some(until) = self.lasts(fault, 200_000) {
                self.weather.exhausted = (until, kind);
            }
        }
        let (until, kind) = self.weather.exhausted;
        let is_full = self.network.connected >= self.scenario.descriptors;
        let mut backlogs = self.network.backlogs.iter();
        let has_comer = backlogs.any(|waiting| !waiting.is_empty());
        if self.now >= until && !(is_full && has_comer) {
            return None;
        }
        self.notices.on_unaccepted(self.now);
        // The connection may be of any host, so a worker may evict any other connection for it.
        self.network.wanting = self.network.wanting.saturating_add(1);
        Some(kind)
    }

    /// Counts a connection that was accepted and needs a permit.
    fn count_comer(&mut self, is_local: bool) {
        let network = &mut self.network;
        // Local peers have an eighth of all permits for themselves, but at most half of the permits that they leave.
        let places = self.scenario.conn_max;
        let local = network.connected.saturating_sub(network.remote);
        let left = places.saturating_sub(local);
        let share = (places / 8).min(left / 2);
        let kept = if is_local { 0 } else { share };
        if network.remote >= left.saturating_sub(kept) {
            network.wanting = network.wanting.saturating_add(1);
        }
        network.connected = network.connected.saturating_add(1);
        network.remote = network.remote.saturating_add(u32::from(!is_local));
    }

    /// Accepts the next connection of a listener. Returns whether it is of this host.
    pub fn accept(&mut self, thread: usize, place: usize) -> Result<(usize, bool), ErrorKind> {
        self.fail_by(Fault::Interrupted, ErrorKind::Interrupted)?;
        if let Some(kind) = self.exhaustion() {
            return Err(kind);
        }
        let waiting = self.network.backlogs.get_mut(place);
        let waiting = waiting.ok_or(ErrorKind::WouldBlock)?;
        let number = waiting.pop_front().ok_or(ErrorKind::WouldBlock)?;
        if waiting.is_empty() && self.happens(Fault::Taken) {
            for thread in &mut self.threads {
                if let Some(listener) = thread.listeners.get_mut(place) {
                    listener.news_at = None;
                }
            }
        }
        if self.happens(Fault::Aborted) {
            self.reset(number);
            return Err(ErrorKind::ConnectionAborted);
        }
        let wire = self.network.wires.get_mut(number).ok_or(ErrorKind::Other)?;
        wire.accepted = Some((thread, self.now));
        let is_local = wire.is_local;
        self.count_comer(is_local);
        Ok((number, is_local))
    }
}
