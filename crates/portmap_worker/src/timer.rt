//! The time that a peer has.
ghost use Rattle.std.specs.Prelude.{◌≡◌, ◌↔◌, ◌-◌, ◌≤◌, ℕ, Some, None, true, false};
ghost use Rattle.portmap_worker.specs.Link.{IsOver};

/// Returns when the time of a connection began, at a scan at `now`. Moved bytes renew the time of a local peer alone. A
/// remote peer that sends a byte now and then would otherwise keep its permit without end.
fn since_at(since: Option<u64>, is_timed: bool, renews: bool, now: u64) -> Option<u64>
    ensures untimed { is_timed ≡ false → result ≡ None }
    ensures begins { is_timed ≡ true → since ≡ None → result ≡ Some now }
    ensures renewed { is_timed ≡ true → renews ≡ true → result ≡ Some now }
    ensures goes_on { (begun : ℕ) → is_timed ≡ true → renews ≡ false → since ≡ Some begun → result ≡ Some begun }
{
    if !is_timed {
        None
    } else if renews {
        Some(now)
    } else {
        since.or(Some(now))
    }
}

fn is_over(since: Option<u64>, then: u64, timeout: u64) -> bool
    ensures { (result ≡ true) ↔ IsOver since then timeout }
{
    match since {
        Some(since) => then.saturating_sub(since) >= timeout,
        None => false,
    }
}

/// The time that a peer has for its request, or to read the bytes that wait to be written.
///
/// Only scans restart it. A scan reads the clock before it polls for all that there is to report. If the time of a
/// connection is over by that reading, no event arrived before it, whatever paused the process. Timeouts therefore come
/// up to about a second late, and never early.
#[derive(Clone, Copy, Default)]
pub(crate) struct Timer {
    pub(crate) since: Option<u64>,
    pub(crate) has_moved: bool,
    /// The time is over, no event was reported since, and the timeout is not delivered yet.
    pub(crate) is_late: bool,
}

impl Timer {
    pub(crate) fn begin(&mut self, is_timed: bool, is_local: bool, now: u64) {
        let renews = self.has_moved && is_local;
        self.has_moved = false;
        self.since = since_at(self.since, is_timed, renews, now);
    }

    pub(crate) fn expire(&mut self, then: u64, timeout: u64) -> bool
        ensures over { (result ≡ true) ↔ IsOver self.old.since then timeout }
        ensures late { self.new ≡ record self.old { is_late = result } }
    {
        self.is_late = is_over(self.since, then, timeout);
        self.is_late
    }

    /// Takes the timeout, if it is due. The time then begins again at the next scan.
    pub(crate) fn take_late(&mut self) -> bool
        ensures late { result ≡ self.old.is_late }
        ensures anew { result ≡ true → self.new ≡ record self.old { since = None; is_late = false } }
        ensures same { result ≡ false → self.new ≡ self.old }
    {
        let is_late = self.is_late;
        if is_late {
            self.is_late = false;
            self.since = None;
        }
        is_late
    }
}
