//! Why and when the workers of a daemon end.
ghost use Rattle.std.specs.Prelude.{◌≡◌, true, false, Some, None};

use std::sync::atomic::{AtomicBool, AtomicU64, Ordering};

/// The failure for which all workers end.
#[derive(Clone, Copy, PartialEq, Eq)]
pub enum ShutdownCause {
    /// The poll has failed.
    Poll,
    /// Lack of memory lets nothing through any more.
    NoMemory,
}

fn cause_of(is_starved: bool, has_poll_failed: bool) -> Option<ShutdownCause>
    ensures starved { is_starved ≡ true → result ≡ Some ShutdownCause.NoMemory }
    ensures poll { is_starved ≡ false → has_poll_failed ≡ true → result ≡ Some ShutdownCause.Poll }
    ensures none { is_starved ≡ false → has_poll_failed ≡ false → result ≡ None }
{
    if is_starved {
        Some(ShutdownCause::NoMemory)
    } else if has_poll_failed {
        Some(ShutdownCause::Poll)
    } else {
        None
    }
}

/// The number of workers that run, and whether they are to end. At first no worker runs.
#[derive(Default, Drop)]
pub struct Shutdown {
    running: AtomicU64,
    stopping: AtomicBool,
    poll_failed: AtomicBool,
    starved: AtomicBool,
}

impl Shutdown {
    /// Counts a worker that begins.
    pub fn begin_one(&self) {
        self.running.fetch_add(1, Ordering::SeqCst);
    }

    /// Counts a worker that has ended, or could not begin.
    pub fn end_one(&self) {
        self.running.fetch_sub(1, Ordering::SeqCst);
    }

    pub(crate) fn are_done(&self) -> bool {
        self.running.load(Ordering::SeqCst) == 0
    }

    pub(crate) fn stop(&self) {
        self.stopping.store(true, Ordering::SeqCst);
    }

    pub(crate) fn is_stopping(&self) -> bool {
        self.stopping.load(Ordering::SeqCst)
    }

    pub(crate) fn set_cause(&self, failure: ShutdownCause) {
        let failed = match failure {
            ShutdownCause::Poll => &self.poll_failed,
            ShutdownCause::NoMemory => &self.starved,
        };
        failed.store(true, Ordering::SeqCst);
    }

    /// Returns the failure for which the workers end or have ended, if there was a failure.
    pub fn failure(&self) -> Option<ShutdownCause> {
        let is_starved = self.starved.load(Ordering::SeqCst);
        cause_of(is_starved, self.poll_failed.load(Ordering::SeqCst))
    }
}
