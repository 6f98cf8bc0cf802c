//! The sockets of one worker, and what its poll reports of them.
ghost use Rattle.std.specs.Prelude.{◌≡◌, ◌<◌, ◌+◌, ◌-◌, ◌^◌, ◌==◌, ℕ, [], true, min, take, IfOk, IfSome};
ghost use Rattle.portmap_worker.specs.IdleLinks.{AreNoted, Keeps, hears, noted_at};
ghost use Rattle.portmap_worker.specs.declared.limits.TheConstants.{EVENTS_MOST};

use crate::limits::EVENTS_MOST;
use crate::listener::Listeners;
use crate::open_link::{Links, report};
use crate::system::{Report, System};
use portmap_link::NoMemory;
use std::alloc::Global;

/// The sockets of one worker.
pub struct Sockets<S: System> {
    /// The index of the worker, from 0.
    pub worker: usize,
    /// The time after which a connection times out, in milliseconds.
    pub timeout: u64,
    pub(crate) system: S,
    pub(crate) listeners: Listeners,
}

impl<S: System> Drop for Sockets<S> {
    fn drop(self) {
        let Sockets {
            worker: _,
            timeout: _,
            system: _,
            listeners: _,
        } = self;
    }
}

impl<S: System> Sockets<S> {
    /// Returns the sockets of a worker. At first the worker with index 0 accepts alone.
    pub fn new(
        alloc: Global,
        worker: usize,
        system: S,
        timeout: u64,
    ) -> Result<Sockets<S>, NoMemory>
        ensures worker { IfOk result (λ sockets. sockets.worker ≡ worker) }
        ensures is_on { IfOk result (λ sockets. sockets.listeners.is_on ≡ (worker == 0)) }
        ensures timeout { IfOk result (λ sockets. sockets.timeout ≡ timeout) }
    {
        let listeners = Listeners::new(alloc, system.listeners(), worker == 0)?;
        Ok(Sockets {
            worker,
            timeout,
            system,
            listeners,
        })
    }

    /// Returns the number of the worker's seat. Seats are numbered from 1.
    pub fn number(&self) -> u32
        ensures { result ≡ min (self.now.worker + 1) (2 ^ 32 - 1) }
    {
        u32::try_from(self.worker.saturating_add(1)).unwrap_or(u32::MAX)
    }

    /// Polls, and handles the reports. It waits only while no link is queued. Returns false if the poll failed.
    pub(crate) fn ask(&mut self, links: &mut Links<'_, S::Stream>, timeout: u64) -> bool
        requires { 0 < timeout → links.old.queue ≡ [] }
        ensures noted { result ≡ true → IfSome (S.reports self.new.system)
            (λ reports. AreNoted (take EVENTS_MOST reports) links.old links.new) }
        ensures links { Keeps links.old links.new }
    {
        if !self.system.poll(timeout) {
            return false;
        }
        self.handle_events(links);
        true
    }

    fn handle_events(&mut self, links: &mut Links<'_, S::Stream>)
        ensures system { self.new.system ≡ self.old.system }
        ensures noted { IfSome (S.reports self.old.system)
            (λ reports. AreNoted (take EVENTS_MOST reports) links.old links.new) }
        ensures links { Keeps links.old links.new }
    {
        for place in 0..EVENTS_MOST {
            let Some(event) = self.system.report(place) else {
                return;
            };
            self.handle_event(links, event);
        }
    }

    fn handle_event(&mut self, links: &mut Links<'_, S::Stream>, event: Report)
        ensures system { self.new.system ≡ self.old.system }
        ensures noted { (key : ℕ) → noted_at links.new key ≡ hears key (noted_at links.old key) event }
        ensures links { Keeps links.old links.new }
    {
        match event {
            Report::Woken => {}
            Report::Listener(place) => self.listeners.report(place),
            Report::Stream { key, is_closed } => report(links, key, is_closed),
        }
    }

    /// Polls without a wait until nothing is left to report. The poll reports events in order, so as many calls are
    /// enough as hold one report of each stream and listener. Returns false if a poll failed.
    pub(crate) fn poll_all(&mut self, links: &mut Links<'_, S::Stream>) -> bool
        ensures { Keeps links.old links.new }
    {
        let watched = links.len().saturating_add(self.listeners.len());
        for _ in 0..watched / EVENTS_MOST + 1 {
            if !self.ask(links, 0) {
                return false;
            }
            if !self.system.is_full() {
                break;
            }
        }
        true
    }
}
