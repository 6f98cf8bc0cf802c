//! The polls of a worker, and the handling of their reports.
ghost use Rattle.std.specs.Prelude.{◌≡◌, ◌<◌, ◌≤◌, [], None, true, length};
ghost use Rattle.portmap_worker.specs.IdleLinks.{Keeps, Returns};

use crate::Turn;
use crate::ending::ShutdownCause;
use crate::epochs::Begun;
use crate::loop_state::poll_timeout;
use crate::open_link::look;
use crate::shared::IDLE;
use crate::socket_source::SocketSource;
use crate::system::System;
use portmap_operator::Host;
use std::rt::Clock;
use std::sync::Wait;
use std::sync::atomic::Ordering;
use std::sync::ledger::Ledger;

impl<L: Ledger, S: System, R: Host + Wait + Clock> SocketSource<'_, L, S, R> {
    /// Polls, and scans all links if that is due. Returns `Stop` if the poll failed or the daemon ends. Returns `Late`
    /// for a link that is evicted for another worker, and otherwise `Idle` after a scan.
    pub(crate) fn poll(&mut self) -> Option<Turn>
        requires { self.old.links.current ≡ None }
        ensures links { Returns self.old.links self.new.links result }
        ensures schedule { self.new.schedule ≡ record self.old.schedule { turns = 0 } }
    {
        self.retry_pending();
        self.state.busy_since.store(IDLE, Ordering::SeqCst);
        let is_well = self.wait();
        self.loop_state.time = self.time_us() / 1000;
        self.state
            .busy_since
            .store(self.loop_state.time, Ordering::SeqCst);
        self.looks_for_unread = true;
        if !is_well {
            return Some(self.fail());
        }
        if self.shared.ending.is_stopping() {
            return Some(Turn::Stop);
        }
        self.pass_listeners();
        let is_due = self.loop_state.is_scan_due();
        if !self.scan_links(is_due) {
            return Some(self.fail());
        }
        match self.evict_for_other_worker() {
            None if is_due => Some(Turn::Idle),
            turn => turn,
        }
    }

    fn pass_listeners(&mut self)
        ensures links { self.new.links ≡ self.old.links }
        ensures schedule { self.new.schedule ≡ self.old.schedule }
    {
        let is_on = self.shared.accepts(self.sockets.worker);
        let listeners = &mut self.sockets.listeners;
        listeners.pass(&mut self.sockets.system, self.loop_state.time, is_on);
        if listeners.take_exhausted() {
            self.activity.news.exhausted = true;
        }
    }

    fn fail(&self) -> Turn
        ensures { result ≡ Turn.Stop }
    {
        self.shared.ending.set_cause(ShutdownCause::Poll);
        Turn::Stop
    }

    /// Returns the time until which the poll may wait: a moment, if a peer waits for a permit.
    fn until(&self) -> u64 {
        if !self.admission.accepts() {
            return self.loop_state.time;
        }
        let is_idle = self.links.is_empty() && self.activity.is_published();
        self.sockets.listeners.until(self.loop_state.until(is_idle))
    }

    /// Returns for how many milliseconds the poll may wait: not at all if there is anything to do.
    fn timeout(&self, begun: Begun) -> u64
        ensures queue { 0 < result → self.now.links.queue ≡ [] }
    {
        let is_behind = !begun.is_passed(self.state);
        let is_waiting = self.sockets.listeners.is_waiting();
        let is_busy = is_behind
            || self.links.backlog() > 0
            || self.admission.is_busy(is_waiting, self.loop_state.time);
        poll_timeout(is_busy, self.loop_state.time, self.until())
    }

    fn wait(&mut self) -> bool
        ensures links { Keeps self.old.links self.new.links }
        ensures schedule { self.new.schedule ≡ record self.old.schedule { turns = 0 } }
        ensures counted { result ≡ true → self.old.loop_state.pass.left ≡ 0
            → length self.new.links.queue ≤ self.new.loop_state.pass.left }
    {
        self.schedule.end_turns();
        if !self.loop_state.pass.is_over() {
            let timeout = self.timeout(self.loop_state.pass.begun());
            return self.sockets.ask(&mut self.links, timeout);
        }
        let has_links = !self.links.is_empty();
        let begun = self.loop_state.pass.end(self.shared, self.state, has_links);
        let timeout = self.timeout(begun);
        let Some(polled) = self.poll_after(begun, timeout) else {
            return false;
        };
        let is_all = !self.sockets.system.is_full() || self.sockets.poll_all(&mut self.links);
        self.loop_state.pass.begin(polled, self.links.backlog());
        is_all
    }

    /// Scans all links if that is due. The time was read before, and all reports are handled first, however long this
    /// thread was stopped. Returns false if the poll failed.
    fn scan_links(&mut self, is_due: bool) -> bool
        ensures links { Keeps self.old.links self.new.links }
        ensures schedule { self.new.schedule ≡ self.old.schedule }
    {
        if !is_due {
            return true;
        }
        if !self.sockets.poll_all(&mut self.links) {
            return false;
        }
        for key in 0..self.links.keys() {
            look(
                &mut self.links,
                key,
                self.loop_state.time,
                self.sockets.timeout,
            );
        }
        self.loop_state.on_scan();
        self.activity.publish(self.shared);
        true
    }
}
