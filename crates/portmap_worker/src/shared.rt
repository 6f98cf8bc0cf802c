//! The values that the threads of a daemon share.
ghost use Rattle.std.specs.Prelude.{◌≡◌, vec_len, IfOk};

use crate::ending::Shutdown;
use crate::epochs::NO_CONNECTIONS;
use crate::news::SharedActivity;
use crate::quota::Quota;
use crate::system::Wake;
use crate::unsent::AllUnsent;
use portmap_link::NoMemory;
use std::alloc::Global;
use std::rt::Clock;
use std::sync::atomic::{AtomicBool, AtomicU64, Ordering};
use std::time::Duration;

/// The value of `busy_since` while a worker waits at its poll.
pub(crate) const IDLE: u64 = u64::MAX;

/// The part of a worker that the other threads know.
#[derive(Drop)]
pub struct WorkerState<W: Wake> {
    waker: W,
    pub(crate) pending: AtomicU64,
    pub(crate) epoch: AtomicU64,
    /// The time since which the worker is busy, in milliseconds, or `IDLE`.
    pub(crate) busy_since: AtomicU64,
    pub(crate) served: AtomicU64,
}

impl<W: Wake> WorkerState<W> {
    /// Returns the state of a worker that has not begun. Until its first poll it counts as busy since the daemon began.
    pub fn new(waker: W) -> WorkerState<W> {
        WorkerState {
            waker,
            pending: AtomicU64::new(0),
            epoch: AtomicU64::new(NO_CONNECTIONS),
            busy_since: AtomicU64::new(0),
            served: AtomicU64::new(0),
        }
    }

    pub(crate) fn wake(&self) {
        self.waker.wake();
    }
}

/// The values that the threads of a daemon share. Workers have indices from 0.
pub struct Shared<W: Wake> {
    pub workers: Vec<WorkerState<W>>,
    /// The waker of the main thread, which drains the log.
    drain: W,
    /// The time when the daemon began, by the monotonic clock, or 0 if that could not be read.
    begun: Duration,
    pub(crate) quota: Quota,
    pub(crate) unsent: AllUnsent,
    /// The number of workers that accept connections: at least 1, and those with the lowest indices.
    pub(crate) acceptors: AtomicU64,
    pub(crate) epoch: AtomicU64,
    /// The reserve of memory is freed, for the log and for lookups. Registrations are refused.
    pub(crate) short: AtomicBool,
    pub ending: Shutdown,
    pub noted: SharedActivity,
}

impl<W: Wake> Drop for Shared<W> {
    fn drop(self) {
        let Shared {
            workers: _,
            drain: _,
            begun: _,
            quota: _,
            unsent: _,
            acceptors: _,
            epoch: _,
            short: _,
            ending: _,
            noted: _,
        } = self;
    }
}

impl<W: Wake> Shared<W> {
    /// Returns what the threads of a new daemon share. It has `places` permits, and resets connections if more than
    /// `unsent_bytes_most` bytes wait to be written.
    pub fn new<R: Clock>(
        rt: &R,
        workers: Vec<WorkerState<W>>,
        drain: W,
        places: u32,
        unsent_bytes_most: u64,
    ) -> Shared<W>
        ensures { vec_len result.workers ≡ vec_len workers }
    {
        Shared {
            workers,
            drain,
            begun: rt.monotonic().unwrap_or(Duration::ZERO),
            quota: Quota::new(places),
            unsent: AllUnsent::new(unsent_bytes_most),
            acceptors: AtomicU64::new(1),
            epoch: AtomicU64::new(0),
            short: AtomicBool::new(false),
            ending: Shutdown::default(),
            noted: SharedActivity::default(),
        }
    }

    pub(crate) fn time_us<R: Clock>(&self, rt: &R) -> Option<u64> {
        let time = rt.monotonic().ok()?.saturating_sub(self.begun);
        u64::try_from(time.as_micros()).ok()
    }

    pub(crate) fn wake_others(&self, worker: usize) {
        for (other, state) in self.workers.iter().enumerate() {
            if other != worker {
                state.wake();
            }
        }
    }

    /// Wakes the other workers that have pending registrations, since an ended connection may have freed a name.
    pub(crate) fn wake_pending(&self, worker: usize) {
        for (other, state) in self.workers.iter().enumerate() {
            if other != worker && state.pending.load(Ordering::SeqCst) > 0 {
                state.wake();
            }
        }
    }

    pub(crate) fn wake_drain(&self) {
        self.drain.wake();
    }

    /// Records that a worker has ended after `served` acts, and stops all others.
    pub fn end_worker(&self, worker: usize, served: u64) {
        if let Some(state) = self.workers.get(worker) {
            state.served.store(served, Ordering::SeqCst);
        }
        self.ending.end_one();
        self.stop_all();
    }

    /// Stops every worker, and wakes the main thread.
    pub fn stop_all(&self) {
        self.ending.stop();
        for state in &self.workers {
            state.wake();
        }
        self.wake_drain();
    }

    /// Returns how many acts each worker made.
    pub fn counts(&self, alloc: Global) -> Result<Vec<u64>, NoMemory>
        ensures { IfOk result (λ counts. vec_len counts ≡ vec_len self.now.workers) }
    {
        self.workers
            .iter()
            .map(|state| state.served.load(Ordering::SeqCst))
            .collect(alloc)
    }
}
