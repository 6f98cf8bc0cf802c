//! Poll epochs, by which all workers look for connections that have ended.
//!
//! Epochs have numbers from 1. When an epoch begins, connections may have ended without any worker knowing. A worker
//! passes the epoch once it has served all that its poll reported after the epoch began. By then it knows of each end
//! that came before the epoch.
ghost use Rattle.std.specs.Prelude.{◌≡◌, ◌↔◌, ◌-◌, ◌<◌, [], true, cond, IfSome};
ghost use Rattle.portmap_worker.specs.IdleLinks.{Keeps};

use crate::shared::{Shared, WorkerState};
use crate::socket_source::SocketSource;
use crate::system::{System, Wake};
use portmap_operator::Host;
use std::rt::Clock;
use std::sync::Wait;
use std::sync::atomic::Ordering;
use std::sync::ledger::Ledger;

/// The epoch of a worker without connections. It passes every epoch, since it can miss no end.
pub(crate) const NO_CONNECTIONS: u64 = u64::MAX;

impl<W: Wake> Shared<W> {
    /// Begins an epoch, wakes the other workers, and returns the number of the epoch. This worker polls soon.
    pub(crate) fn begin_epoch(&self, worker: usize) -> u64 {
        let epoch = self.epoch.fetch_add(1, Ordering::SeqCst).saturating_add(1);
        self.wake_others(worker);
        epoch
    }

    pub(crate) fn have_passed(&self, epoch: u64) -> bool {
        self.workers.iter().all(|state| state.has_passed(epoch))
    }

    fn last_epoch(&self) -> u64 {
        self.epoch.load(Ordering::SeqCst)
    }
}

impl<W: Wake> WorkerState<W> {
    fn has_passed(&self, epoch: u64) -> bool {
        self.epoch.load(Ordering::SeqCst) >= epoch
    }

    /// Records that the worker takes its first connection. It has passed all epochs so far, and no later epoch.
    pub(crate) fn take_first(&self, shared: &Shared<W>) {
        self.epoch.store(shared.last_epoch(), Ordering::SeqCst);
    }

    pub(crate) fn end_last(&self) {
        self.epoch.store(NO_CONNECTIONS, Ordering::SeqCst);
    }
}

#[derive(Clone, Copy)]
pub(crate) struct Begun {
    epoch: u64,
}

impl Begun {
    pub(crate) fn is_passed<W: Wake>(self, state: &WorkerState<W>) -> bool {
        state.has_passed(self.epoch)
    }
}

/// An epoch that began before a poll, which has returned since. Only `poll_after` makes this value.
#[derive(Drop)]
pub(crate) struct Polled {
    epoch: u64,
}

#[derive(Default, Drop)]
pub(crate) struct Pass {
    /// The epoch that the worker passes once it has served `left` more links.
    epoch: u64,
    left: usize,
}

impl Pass {
    pub(crate) fn begun(&self) -> Begun
        ensures { result.epoch ≡ self.now.epoch }
    {
        Begun { epoch: self.epoch }
    }

    pub(crate) fn on_turn(&mut self, has_link: bool)
        ensures { self.new ≡ record self.old { left = cond has_link (self.old.left - 1) 0 } }
    {
        self.left = if has_link {
            self.left.saturating_sub(1)
        } else {
            0
        };
    }

    /// Returns whether all links are served that were queued when the poll returned.
    pub(crate) fn is_over(&self) -> bool
        ensures { (result ≡ true) ↔ (self.now.left ≡ 0) }
    {
        self.left == 0
    }

    /// Records that the worker has passed its epoch, and returns the epoch that has begun last.
    pub(crate) fn end<W: Wake>(
        &self,
        shared: &Shared<W>,
        state: &WorkerState<W>,
        has_links: bool,
    ) -> Begun {
        if has_links {
            state.epoch.fetch_max(self.epoch, Ordering::SeqCst);
        }
        Begun {
            epoch: shared.last_epoch(),
        }
    }

    pub(crate) fn begin(&mut self, polled: Polled, backlog: usize)
        ensures epoch { self.new.epoch ≡ polled.epoch }
        ensures left { self.new.left ≡ backlog }
    {
        self.epoch = polled.epoch;
        self.left = backlog;
    }
}

impl<L: Ledger, S: System, R: Host + Wait + Clock> SocketSource<'_, L, S, R> {
    pub(crate) fn poll_after(&mut self, begun: Begun, timeout: u64) -> Option<Polled>
        requires { 0 < timeout → self.old.links.queue ≡ [] }
        ensures epoch { IfSome result (λ polled. polled.epoch ≡ begun.epoch) }
        ensures links { Keeps self.old.links self.new.links }
        ensures schedule { self.new.schedule ≡ self.old.schedule }
    {
        let is_well = self.sockets.ask(&mut self.links, timeout);
        is_well.then_some(Polled { epoch: begun.epoch })
    }
}
