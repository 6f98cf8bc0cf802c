//! The source of a worker over sockets.
ghost use Rattle.std.specs.Prelude.{◌≡◌, ◌<◌, ℕ, [], Some, None, false, slice_get, is_some, IfNone, IfSome};
ghost use Rattle.portmap_worker.specs.Link.{IsOf};
ghost use Rattle.portmap_worker.specs.IdleLinks.{AllQuiet, Changes, Has, Keeps, Returns, ReturnsLinks};
ghost use Rattle.portmap_worker.specs.Keys.{Comes, Ends, Stay};
ghost use Rattle.portmap_worker.specs.Schedule.{Does, HasAccepted, IsSpent, IsStep, IsTurn, Leaves, Lends, Nears};
ghost use Rattle.portmap_worker.specs.Schedule.{Passes, scene};
ghost use Rattle.portmap_worker.specs.declared.limits.TheConstants.{TURNS_MOST};

use crate::admission::Admission;
use crate::limits::{LOG_BYTES_HEAVY, POLLS_MOST};
use crate::link::Link;
use crate::loop_state::LoopState;
use crate::news::WorkerActivity;
use crate::open_link::{Links, OpenLink, finish_turn};
use crate::schedule::Schedule;
use crate::shared::{Shared, WorkerState};
use crate::sockets::Sockets;
use crate::system::System;
use crate::{LinkSource, Next, Serve, Turn};
use portmap_book::Desk;
use portmap_operator::Host;
use portmap_scheduler::Scheduler;
use std::alloc::Global;
use std::rt::Clock;
use std::sync::Wait;
use std::sync::atomic::Ordering;
use std::sync::ledger::Ledger;

/// A worker's sockets, its links and what it shares. Times are in milliseconds since the daemon began.
#[derive(Drop)]
pub struct SocketSource<'a, L: Ledger, S: System, R: Host + Wait + Clock> {
    pub(crate) rt: &'a R,
    pub(crate) alloc: Global,
    pub(crate) desk: &'a Desk<L>,
    pub(crate) shared: &'a Shared<S::Waker>,
    pub(crate) state: &'a WorkerState<S::Waker>,
    pub(crate) sockets: Sockets<S>,
    pub(crate) links: Links<'a, S::Stream>,
    pub(crate) admission: Admission<S::Stream>,
    pub(crate) schedule: Schedule,
    pub(crate) loop_state: LoopState,
    pub(crate) activity: WorkerActivity,
    /// More bytes may wait to be written, over all connections, than the limit allows.
    pub(crate) looks_for_unread: bool,
}

impl<'a, L: Ledger, S: System, R: Host + Wait + Clock> SocketSource<'a, L, S, R> {
    /// Returns the source of a worker without links, or `None` if `shared` has no worker of this number.
    pub fn new(
        rt: &'a R,
        alloc: Global,
        desk: &'a Desk<L>,
        shared: &'a Shared<S::Waker>,
        sockets: Sockets<S>,
    ) -> Option<SocketSource<'a, L, S, R>>
        ensures quiet { IfSome result (λ source. AllQuiet source.links) }
        ensures none { IfSome result (λ source. (key : ℕ) → Has source.links key false) }
    {
        let state = shared.workers.get(sockets.worker)?;
        Some(SocketSource {
            rt,
            alloc,
            desk,
            shared,
            state,
            sockets,
            links: Scheduler::new(alloc),
            admission: Admission::new(),
            schedule: Schedule::new(),
            loop_state: LoopState::new(),
            activity: WorkerActivity::default(),
            looks_for_unread: false,
        })
    }

    /// Returns the microseconds since the daemon began. Without a clock, each poll takes a millisecond.
    pub(crate) fn time_us(&self) -> u64 {
        let next = self.loop_state.time.saturating_add(1).saturating_mul(1000);
        self.shared.time_us(self.rt).unwrap_or(next)
    }

    fn on_moved(&mut self, bytes: usize)
        ensures links { self.new.links ≡ self.old.links }
        ensures schedule { self.new.schedule ≡ self.old.schedule }
    {
        if self.activity.on_moved(bytes) && self.desk.weight(self.rt) >= LOG_BYTES_HEAVY {
            self.shared.wake_drain();
        }
    }

    /// Publishes the end of a link that has left the scheduler, and wakes workers with pending registrations.
    fn on_end(&mut self, mut held: OpenLink<'a, S::Stream>)
        ensures links { self.new.links ≡ self.old.links }
        ensures schedule { self.new.schedule ≡ self.old.schedule }
    {
        self.on_moved(held.link.take_moved_bytes());
        self.activity.on_written(held.link.take_written());
        if !held.link.is_answered() {
            self.activity.on_unanswered(self.shared);
        }
        drop(held);
        self.shared.wake_pending(self.sockets.worker);
        if self.links.is_empty() {
            self.state.end_last();
        }
    }

    /// Ends the turn of the current link: it is queued again, or left until the poll reports it.
    fn requeue(&mut self)
        ensures current { self.new.links.current ≡ None }
        ensures links { Keeps self.old.links self.new.links }
        ensures schedule { self.new.schedule ≡ self.old.schedule }
    {
        let Some(key) = self.links.current() else {
            return;
        };
        let now = self.loop_state.time;
        let moved = finish_turn(&mut self.links, &mut self.sockets.system, key, now);
        self.looks_for_unread = self.looks_for_unread || moved.is_unread;
        self.on_moved(moved.bytes);
        self.activity.on_written(moved.has_written);
    }

    /// Returns a turn without a poll. New connections and queued links alternate. If a connection still waits after
    /// all turns, a further worker is to accept.
    fn next(&mut self) -> Option<Turn>
        requires { self.old.links.current ≡ None }
        ensures none { IfNone result (self.new.links.current ≡ None) }
        ensures most { IfSome result (λ _. self.old.schedule.turns < TURNS_MOST) }
        ensures links { ReturnsLinks self.old.links self.new.links result }
        ensures nears { IfSome result (λ turn. Nears turn
            (scene self.old.links self.old.schedule) (scene self.new.links self.new.schedule)) }
        ensures spent { IfNone result
            (IsSpent (scene self.old.links self.old.schedule) (scene self.new.links self.new.schedule)) }
    {
        if !self.schedule.take_turn() {
            if self.sockets.listeners.is_waiting() {
                self.shared.add_acceptor(self.sockets.worker);
            }
            return None;
        }
        let accepted = self.accept();
        if accepted.is_some() {
            return accepted;
        }
        self.schedule.set_accepted(false);
        self.pop()
    }

    /// Returns the turn of a new connection, or of a link that is evicted for it, if admission is next.
    fn accept(&mut self) -> Option<Turn>
        ensures current { self.new.links.current ≡ self.old.links.current }
        ensures links { Returns self.old.links self.new.links result }
        ensures none { IfNone result (self.new.schedule ≡ self.old.schedule) }
        ensures some { IfSome result (λ _. HasAccepted self.old.schedule self.new.schedule) }
    {
        if !self.schedule.is_accept_next() {
            return None;
        }
        let turn = self.admit()?;
        self.schedule.set_accepted(true);
        Some(turn)
    }

    /// Returns the link with this key, to look at.
    pub fn held(&self, key: u64) -> Option<&Link<S::Stream>> {
        Some(&self.links.get(key as usize)?.link)
    }

    /// Returns the next turn, or `None` after a poll that yields none.
    pub fn step(&mut self) -> Option<Turn>
        ensures links { ReturnsLinks self.old.links self.new.links result }
        ensures nears { IsStep
            (scene self.old.links self.old.schedule) (scene self.new.links self.new.schedule) result }
    {
        let held_back = self.defer_request();
        if held_back.is_some() {
            return held_back;
        }
        self.requeue();
        let unread = self.reset_unread();
        if unread.is_some() {
            return unread;
        }
        let next = self.next();
        if next.is_some() {
            return next;
        }
        self.poll()
    }

    /// Returns the turn of the first link in the queue, after it has become the current link.
    fn pop(&mut self) -> Option<Turn>
        requires { self.old.links.current ≡ None }
        ensures first { IfSome result (λ turn. IsOf (slice_get self.old.links.queue 0) turn) }
        ensures none { IfNone result ((self.old.links.queue ≡ []) × (self.new.links.current ≡ None)) }
        ensures links { ReturnsLinks self.old.links self.new.links result }
        ensures passes { IfSome result (λ turn. Passes turn self.old.links self.new.links) }
        ensures schedule { self.new.schedule ≡ self.old.schedule }
    {
        let is_short = self.shared.short.load(Ordering::SeqCst);
        let key = self.links.next();
        self.loop_state.pass.on_turn(key.is_some());
        let key = key?;
        let Some(held) = self.links.get_mut(key) else {
            return Some(Turn::Ready(key as u64));
        };
        if is_short {
            held.link.expire_partial_request();
        }
        Some(held.link.turn(key))
    }
}

impl<L: Ledger, S: System, R: Host + Wait + Clock> LinkSource for SocketSource<'_, L, S, R> {
    type Link = Link<S::Stream>;

    ghost use Rattle.portmap_worker.specs.IdleLinks.{Has};

    ghost has = { λ source. Has source.links };

    fn turn(&mut self) -> Turn
        ensures links { ReturnsLinks self.old.links self.new.links (Some result) }
        ensures nears { IsTurn result
            (scene self.old.links self.old.schedule) (scene self.new.links self.new.schedule) }
        ensures comes { Comes (Has self.old.links) (Has self.new.links) result }
    {
        for _ in 0..POLLS_MOST {
            if let Some(turn) = self.step() {
                return turn;
            }
        }
        Turn::Idle
    }

    /// The link is queued first, so that no event of it is missed, whatever is done to it.
    fn lend<U: Serve<Self::Link>>(
        &mut self,
        key: u64,
        is_last: bool,
        server: &mut U,
    ) -> Option<Next>
        ensures there { Has self.old.links key (is_some result) }
        ensures links { Keeps self.old.links self.new.links }
        ensures waits { Does Lends
            (scene self.old.links self.old.schedule) (scene self.new.links self.new.schedule) }
        ensures stay { Stay (Has self.old.links) (Has self.new.links) }
        ensures served { IfSome result (λ _. U.becomes server.old server.new) }
        ensures none { IfNone result (server.new ≡ server.old) }
    {
        self.links.report(key as usize);
        let held = self.links.get_mut(key as usize)?;
        Some(server.serve(key, is_last, &mut held.link))
    }

    fn end(&mut self, key: u64)
        ensures links { Changes key false self.old.links self.new.links }
        ensures waits { Does (Leaves key)
            (scene self.old.links self.old.schedule) (scene self.new.links self.new.schedule) }
        ensures ends { Ends key (Has self.old.links) (Has self.new.links) }
    {
        if let Some(held) = self.links.remove(key as usize) {
            self.on_end(held);
        }
    }
}
