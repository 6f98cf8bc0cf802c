//! A worker's shares of the listening sockets.
ghost use Rattle.std.specs.Prelude.{◌≡◌, ◌+◌, ◌-◌, ◌<◌, ◌≤◌, ◌^◌, min, false, IfOk};
ghost use Rattle.portmap_worker.specs.Listening.{accept_error};
ghost use Rattle.portmap_worker.specs.declared.limits.TheConstants.{ACCEPT_BACKOFF_MS};

use crate::limits::{ACCEPT_BACKOFF_MS, IDLE_REPORTS_MOST};
use crate::system::System;
use portmap_link::NoMemory;
use std::alloc::Global;
use std::io::ErrorKind;
use std::mem;
use std::net::IpAddr;

#[derive(Clone, Copy, PartialEq, Eq)]
enum ListenerState {
    Off,
    On,
    /// The poll is asked to report it from this time on, in milliseconds.
    From(u64),
}

#[derive(Clone, Copy, PartialEq, Eq)]
enum AcceptError {
    Aborted,
    WouldBlock,
    Exhausted,
}

fn accept_error(kind: ErrorKind) -> AcceptError
    ensures { result ≡ accept_error kind }
{
    match kind {
        ErrorKind::ConnectionAborted | ErrorKind::Interrupted => AcceptError::Aborted,
        ErrorKind::WouldBlock => AcceptError::WouldBlock,
        _ => AcceptError::Exhausted,
    }
}

/// One worker's share of a socket. Each worker that watches the socket gets its reports, and one gets the connection.
#[derive(Clone, Copy, PartialEq, Eq)]
struct Listener {
    place: usize,
    watch: ListenerState,
    waiting: bool,
    /// A connection was accepted since the last report.
    took: bool,
}

impl Listener {
    /// Records a report. While connections may still wait, it continues the report before.
    fn on_report(&mut self) {
        self.took = self.took && self.waiting;
        self.waiting = true;
    }

    fn fail<S: System>(&mut self, system: &mut S, now: u64, kind: ErrorKind) -> AcceptError
        ensures error { result ≡ accept_error kind }
        ensures aborted { result ≡ AcceptError.Aborted → self.new ≡ self.old }
        ensures would_block { result ≡ AcceptError.WouldBlock
            → (self.new.waiting ≡ false) × (self.new.watch ≡ self.old.watch) × (self.new.took ≡ self.old.took) }
        ensures exhausted { result ≡ AcceptError.Exhausted
            → (self.new.waiting ≡ false)
            × (self.new.watch ≡ ListenerState.From (min (now + ACCEPT_BACKOFF_MS) (2 ^ 64 - 1))) }
    {
        let error = accept_error(kind);
        match error {
            AcceptError::Aborted => {}
            AcceptError::WouldBlock => self.waiting = false,
            // Connections that wait are not reported again, so the poll is asked again later.
            AcceptError::Exhausted => {
                self.leave(system);
                self.watch = ListenerState::From(now.saturating_add(ACCEPT_BACKOFF_MS));
            }
        }
        error
    }

    fn leave<S: System>(&mut self, system: &mut S)
        ensures { self.new.waiting ≡ false }
    {
        if self.watch == ListenerState::On {
            system.leave(self.place);
        }
        self.watch = ListenerState::Off;
        self.waiting = false;
    }

    /// Watches the socket, if it is time. Returns true if the poll refused.
    fn rewatch<S: System>(&mut self, system: &mut S, now: u64) -> bool {
        let ListenerState::From(time) = self.watch else {
            return false;
        };
        if now < time {
            return false;
        }
        self.watch = match system.listen(self.place) {
            Ok(()) => ListenerState::On,
            // The poll never left this socket, so connections that wait are not reported again.
            Err(error) if error.kind() == ErrorKind::AlreadyExists => {
                self.on_report();
                ListenerState::On
            }
            Err(_) => ListenerState::From(now.saturating_add(ACCEPT_BACKOFF_MS)),
        };
        self.watch != ListenerState::On
    }
}

#[derive(Drop)]
pub(crate) struct Listeners {
    listeners: Vec<Listener>,
    /// The index of the next listener to ask. It follows the last listener asked, so none is served before the others.
    first: usize,
    is_on: bool,
    idle_reports: u32,
    exhausted: bool,
    lacks_descriptor: bool,
}

impl Listeners {
    pub(crate) fn new(alloc: Global, count: usize, is_on: bool) -> Result<Listeners, NoMemory>
        ensures { IfOk result (λ listeners. listeners.is_on ≡ is_on) }
    {
        let watch = if is_on {
            ListenerState::From(0)
        } else {
            ListenerState::Off
        };
        let mut listeners = Vec::new(alloc);
        for place in 0..count {
            listeners.push(Listener {
                place,
                watch,
                waiting: false,
                took: false,
            })?;
        }
        Ok(Listeners {
            listeners,
            first: 0,
            is_on,
            idle_reports: 0,
            exhausted: false,
            lacks_descriptor: false,
        })
    }

    pub(crate) fn is_waiting(&self) -> bool {
        self.listeners.iter().any(|listener| listener.waiting)
    }

    pub(crate) fn len(&self) -> usize {
        self.listeners.len()
    }

    pub(crate) fn until(&self, time: u64) -> u64 {
        let mut until = time;
        for listener in &self.listeners {
            if let ListenerState::From(from) = listener.watch {
                until = until.min(from);
            }
        }
        until
    }

    pub(crate) fn report(&mut self, place: usize) {
        if let Some(listener) = self.listeners.get_mut(place) {
            listener.on_report();
        }
    }

    pub(crate) fn accept<S: System>(
        &mut self,
        system: &mut S,
        now: u64,
    ) -> Option<(S::Stream, IpAddr)> {
        for _ in 0..self.listeners.len() {
            let place = self.first;
            self.first = next_index(place, self.listeners.len());
            let accepted = self.accept_at(place, system, now);
            if accepted.is_some() {
                return accepted;
            }
        }
        None
    }

    fn accept_at<S: System>(
        &mut self,
        place: usize,
        system: &mut S,
        now: u64,
    ) -> Option<(S::Stream, IpAddr)> {
        let listener = self.listeners.get_mut(place)?;
        if !listener.waiting {
            return None;
        }
        match system.accept(place) {
            Ok(accepted) => {
                listener.took = true;
                self.idle_reports = 0;
                return Some(accepted);
            }
            Err(error) => match listener.fail(system, now, error.kind()) {
                AcceptError::Aborted => {}
                AcceptError::WouldBlock if listener.took => {}
                AcceptError::WouldBlock => self.idle_reports = self.idle_reports.saturating_add(1),
                AcceptError::Exhausted => {
                    self.exhausted = true;
                    self.lacks_descriptor = true;
                }
            },
        }
        None
    }

    /// Returns true once for every `IDLE_REPORTS_MOST` reports that came to nothing.
    pub(crate) fn take_idle(&mut self) -> bool {
        let is_idle = self.idle_reports >= IDLE_REPORTS_MOST;
        if is_idle {
            self.idle_reports = 0;
        }
        is_idle
    }

    /// Returns whether connections could not be accepted, or a listener not watched, since the last call.
    pub(crate) fn take_exhausted(&mut self) -> bool
        ensures taken { result ≡ self.old.exhausted }
        ensures asked { self.new.exhausted ≡ false }
    {
        mem::replace(&mut self.exhausted, false)
    }

    pub(crate) fn take_lack(&mut self) -> bool
        ensures taken { result ≡ self.old.lacks_descriptor }
        ensures asked { self.new.lacks_descriptor ≡ false }
    {
        mem::replace(&mut self.lacks_descriptor, false)
    }

    /// Begins to watch the listeners or leaves them, when `is_on` changes, and watches those that are due.
    pub(crate) fn pass<S: System>(&mut self, system: &mut S, now: u64, is_on: bool) {
        let turns = is_on != self.is_on;
        if turns {
            self.is_on = is_on;
            self.idle_reports = 0;
        }
        for listener in &mut self.listeners {
            if turns && !is_on {
                listener.leave(system);
            } else if turns && listener.watch == ListenerState::Off {
                listener.watch = ListenerState::From(now);
            }
            if listener.rewatch(system, now) {
                self.exhausted = true;
            }
        }
    }
}

fn next_index(place: usize, count: usize) -> usize
    ensures next { place + 1 < count → result ≡ place + 1 }
    ensures first { count ≤ place + 1 → result ≡ 0 }
{
    let next = place.saturating_add(1);
    if next < count { next } else { 0 }
}
