//! The times of a worker's polls and scans, in milliseconds since the daemon began.
ghost use Rattle.std.specs.Prelude.{◌≡◌, ◌↔◌, ◌+◌, ◌-◌, ◌/◌, ◌≤◌, ◌<◌, ◌^◌, true, false, cond, min, max, Some};
ghost use Rattle.portmap_worker.specs.Pending.{earliest};
ghost use Rattle.portmap_worker.specs.declared.limits.TheConstants.{IDLE_TIMEOUT_MS, SCAN_INTERVAL_MS};
ghost use Rattle.portmap_worker.specs.declared.limits.TheConstants.{SHORT_TIMEOUT_MS};

use crate::epochs::Pass;
use crate::limits::{IDLE_TIMEOUT_MS, SCAN_INTERVAL_MS, SHORT_TIMEOUT_MS};

pub(crate) fn poll_timeout(is_busy: bool, now: u64, until: u64) -> u64
    ensures busy { is_busy ≡ true → result ≡ 0 }
    ensures waits { is_busy ≡ false → result ≡ max (until - now) SHORT_TIMEOUT_MS }
{
    if is_busy {
        0
    } else {
        until.saturating_sub(now).max(SHORT_TIMEOUT_MS)
    }
}

fn earliest(time: Option<u64>, other: u64) -> u64
    ensures { result ≡ earliest time other }
{
    match time {
        Some(time) => time.min(other),
        None => other,
    }
}

#[derive(Drop)]
pub(crate) struct LoopState {
    pub(crate) time: u64,
    pub(crate) pass: Pass,
    pub(crate) pending_until: Option<u64>,
    look_due: u64,
    /// The time from which on a list that waits may be served.
    list_due: u64,
}

impl LoopState {
    pub(crate) fn new() -> LoopState {
        LoopState {
            time: 0,
            pass: Pass::default(),
            pending_until: None,
            look_due: SCAN_INTERVAL_MS,
            list_due: 0,
        }
    }

    /// Takes the turn of a list that waits. There is one in a millisecond.
    pub(crate) fn take_list(&mut self) -> bool
        ensures due { (result ≡ true) ↔ (self.old.list_due ≤ self.old.time) }
        ensures taken { result ≡ true
            → self.new ≡ record self.old { list_due = min (self.old.time + 1) (2 ^ 64 - 1) } }
        ensures none { result ≡ false → self.new ≡ self.old }
    {
        let is_due = self.time >= self.list_due;
        if is_due {
            self.list_due = self.time.saturating_add(1);
        }
        is_due
    }

    pub(crate) fn set_deadline(&mut self, until: u64)
        ensures { self.new ≡ record self.old { pending_until = Some (earliest self.old.pending_until until) } }
    {
        self.pending_until = Some(earliest(self.pending_until, until));
    }

    /// Returns the time until which a poll may wait, for pending registrations and for the next scan.
    pub(crate) fn until(&self, is_idle: bool) -> u64
        ensures { result ≡ earliest self.now.pending_until
            (cond is_idle (min (self.now.time + IDLE_TIMEOUT_MS) (2 ^ 64 - 1)) self.now.look_due) }
    {
        let look = if is_idle {
            self.time.saturating_add(IDLE_TIMEOUT_MS)
        } else {
            self.look_due
        };
        earliest(self.pending_until, look)
    }

    pub(crate) fn is_scan_due(&self) -> bool
        ensures { (result ≡ true) ↔ (self.now.look_due ≤ self.now.time) }
    {
        self.time >= self.look_due
    }

    pub(crate) fn on_scan(&mut self)
        ensures { self.new ≡ record self.old { look_due = min (self.old.time + SCAN_INTERVAL_MS) (2 ^ 64 - 1) } }
    {
        self.look_due = self.time.saturating_add(SCAN_INTERVAL_MS);
    }
}
