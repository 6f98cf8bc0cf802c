//! Gates that hold a worker until another worker arrives, for a bounded time.
use portmap_testing::books::is_raised;
use portmap_worker::{Gate, Point};
use std::rt::Clock;
use std::sync::atomic::{AtomicU64, Ordering};

/// A gate that also holds the second worker until it may begin.
pub trait Order: Gate {
    fn follow(&self);
}

/// A gate at which two workers meet while neither holds the lock. It holds the first worker at `Answered` until a
/// worker with another number passes. After ten seconds it lets the worker pass, and counts that.
#[derive(Drop)]
pub struct Meet<'a, R: Clock> {
    rt: &'a R,
    /// The number of the first worker plus 1, or 0.
    first: AtomicU64,
    others: AtomicU64,
    noted: AtomicU64,
}

impl<'a, R: Clock> Meet<'a, R> {
    pub fn new(rt: &'a R) -> Meet<'a, R> {
        Meet {
            rt,
            first: AtomicU64::new(0),
            others: AtomicU64::new(0),
            noted: AtomicU64::new(0),
        }
    }

    /// Returns true if two workers have met, and no wait was too long.
    pub fn have_met(&self) -> bool {
        self.others.load(Ordering::SeqCst) > 0 && self.noted.load(Ordering::SeqCst) == 0
    }

    /// Returns true if no worker with another number was first.
    fn is_first(&self, worker: u32) -> bool {
        let own = u64::from(worker) + 1;
        match self
            .first
            .compare_exchange(0, own, Ordering::SeqCst, Ordering::SeqCst)
        {
            Ok(_) => true,
            Err(first) => first == own,
        }
    }
}

impl<R: Clock> Gate for Meet<'_, R> {
    fn pass(&self, worker: u32, point: Point) {
        if point == Point::Sent {
            return;
        }
        if !self.is_first(worker) {
            self.others.store(1, Ordering::SeqCst);
        } else if !is_raised(self.rt, &self.others) {
            self.noted.fetch_add(1, Ordering::SeqCst);
        }
    }
}

impl<R: Clock> Order for Meet<'_, R> {
    fn follow(&self) {}
}

/// A gate that holds worker 0 at `Sent` until the other worker is there too. After ten seconds it lets the worker pass,
/// and counts that.
#[derive(Drop)]
pub struct Relay<'a, R: Clock> {
    rt: &'a R,
    ahead: AtomicU64,
    behind: AtomicU64,
    noted: AtomicU64,
}

impl<'a, R: Clock> Relay<'a, R> {
    pub fn new(rt: &'a R) -> Relay<'a, R> {
        Relay {
            rt,
            ahead: AtomicU64::new(0),
            behind: AtomicU64::new(0),
            noted: AtomicU64::new(0),
        }
    }

    /// Returns the number of waits that were too long.
    pub fn noted(&self) -> u64 {
        self.noted.load(Ordering::SeqCst)
    }

    fn wait(&self, flag: &AtomicU64) {
        if !is_raised(self.rt, flag) {
            self.noted.fetch_add(1, Ordering::SeqCst);
        }
    }
}

impl<R: Clock> Gate for Relay<'_, R> {
    fn pass(&self, worker: u32, point: Point) {
        match (worker, point) {
            (_, Point::Answered) => {}
            (0, Point::Sent) => {
                self.ahead.store(1, Ordering::SeqCst);
                self.wait(&self.behind);
            }
            (_, Point::Sent) => self.behind.store(1, Ordering::SeqCst),
        }
    }
}

impl<R: Clock> Order for Relay<'_, R> {
    /// Waits until worker 0 is at `Sent`.
    fn follow(&self) {
        self.wait(&self.ahead);
    }
}
