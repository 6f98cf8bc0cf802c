//! The workers that accept connections: those with the lowest indices, as many as there is work for. Each new
//! connection wakes all of them.
ghost use Rattle.std.specs.Prelude.{◌≡◌, ◌↔◌, ◌≢◌, ◌-◌, ◌<◌, ◌≤◌, true};
ghost use Rattle.portmap_worker.specs.declared.limits.TheConstants.{HELD_MS};
ghost use Rattle.portmap_worker.specs.declared.shared.TheConstants.{IDLE};

use crate::limits::HELD_MS;
use crate::shared::{IDLE, Shared};
use crate::system::Wake;
use std::rt::Clock;
use std::sync::atomic::Ordering;

impl<W: Wake> Shared<W> {
    pub(crate) fn accepts(&self, worker: usize) -> bool {
        (worker as u64) < self.acceptors.load(Ordering::SeqCst)
    }

    pub(crate) fn add_acceptor(&self, worker: usize) {
        let next = worker.saturating_add(1);
        let Some(state) = self.workers.get(next) else {
            return;
        };
        let now = next as u64;
        let more = now.saturating_add(1);
        let added = self
            .acceptors
            .compare_exchange(now, more, Ordering::SeqCst, Ordering::SeqCst);
        if added.is_ok() {
            state.wake();
        }
    }

    /// Stops this worker and those after it from accepting. The first worker continues.
    pub(crate) fn stop_accepting(&self, worker: usize) {
        self.acceptors
            .fetch_min(acceptors_without(worker), Ordering::SeqCst);
    }

    pub(crate) fn add_for_held<R: Clock>(&self, rt: &R) {
        let now = self.time_us(rt).unwrap_or(0) / 1000;
        let acceptors = self.acceptors.load(Ordering::SeqCst) as usize;
        let are_held = self.workers.iter().take(acceptors).all(|state| is_held(
            state.busy_since.load(Ordering::SeqCst),
            now,
        ));
        if are_held {
            self.add_acceptor(acceptors.saturating_sub(1));
        }
    }
}

fn acceptors_without(worker: usize) -> u64
    ensures first { worker ≡ 0 → result ≡ 1 }
    ensures others { 0 < worker → result ≡ worker }
{
    (worker as u64).max(1)
}

fn is_held(since: u64, now: u64) -> bool
    ensures { (result ≡ true) ↔ ((since ≢ IDLE) × (HELD_MS ≤ now - since)) }
{
    since != IDLE && now.saturating_sub(since) >= HELD_MS
}
