//! Which connection a worker may evict, or reset for its unread replies.
use crate::wire::Wire;
use crate::world::World;

/// A younger connection is not evicted.
const YOUNG_US: u64 = 1_000_000;

/// A remote connection of this age is evicted by its worker before any worker evicts a local one.
const SPARED_US: u64 = 1_200_000;

/// Writes of a worker within this time count as simultaneous.
const TOGETHER_US: u64 = 100_000;

/// The resolution of a worker's clock. Connections within one tick count as simultaneous.
const TICK_US: u64 = 1000;

/// A connection has many unread bytes if it has more than a 1,024th of the limit. While a remote connection has many,
/// a worker resets a local connection only beyond the limit and a quarter of it.
const MANY_SHARE: u64 = 1024;

const SPARED_SHARE: u64 = 4;

impl World {
    /// Returns when the worker of a connection polled last. It reads its clock then.
    fn polled_at(&self, wire: &Wire) -> Option<u64> {
        Some(self.threads.get(wire.worker()?)?.polled_at)
    }

    /// Returns whether an evicted connection was old enough by the clock of its worker.
    pub fn is_old(&self, number: usize) -> Option<bool> {
        let given_up = self.network.wires.get(number)?;
        let came = given_up.daemon.came_at?;
        Some(self.polled_at(given_up)?.saturating_sub(came) >= YOUNG_US)
    }

    /// Returns whether no other unanswered connection of the worker goes before an evicted connection. The order is: 1.
    /// remote before local, 2. without unread input before with it, 3. oldest first.
    pub fn goes_first(&self, number: usize, has_news: bool) -> Option<bool> {
        let given_up = self.network.wires.get(number)?;
        let (worker, came) = (given_up.worker()?, given_up.daemon.came_at?);
        let young = self.polled_at(given_up)?.saturating_sub(YOUNG_US);
        let goes_before = |wire: &Wire| {
            let is_alike = wire.is_local == given_up.is_local;
            let until = match (is_alike, wire.readiness.is_reported == has_news) {
                (true, true) => came,
                (true, false) if has_news => young,
                (false, _) if given_up.is_local => young,
                _ => 0,
            };
            let since = wire.waits_since(worker).unwrap_or(u64::MAX);
            since.saturating_add(TICK_US) < until
        };
        Some(!self.network.wires.iter().any(goes_before))
    }

    pub fn is_local(&self, number: usize) -> Option<bool> {
        Some(self.network.wires.get(number)?.is_local)
    }

    /// Returns whether an evicted connection is remote, or no worker had a remote one to evict in its place. Such a
    /// worker is not held, and its connection was old enough for some time.
    pub fn spares_local(&self, number: usize) -> Option<bool> {
        let is_local = self.is_local(number)?;
        let could_go = |wire: &Wire| {
            let worker = wire.worker().unwrap_or(usize::MAX);
            let held_until = self.held_until(Some(worker));
            let since = wire.waits_since(worker).unwrap_or(u64::MAX).max(held_until);
            !wire.is_local && since.saturating_add(SPARED_US) < self.now
        };
        Some(!is_local || !self.network.wires.iter().any(could_go))
    }

    /// Returns the number of unread bytes of all connections.
    pub fn unsent(&self) -> u64 {
        let wires = self.network.wires.iter();
        let open = wires.filter(|wire| wire.unread_at(0).is_some());
        let unsent = open.map(|wire| wire.daemon.unsent as u64);
        unsent.fold(0, u64::saturating_add)
    }

    /// Returns whether a connection was reset rightly for its unread replies. It had many unread bytes, and no other
    /// connection goes before it: a remote connection of any worker, or an older unread connection of its worker.
    pub fn was_unread(&self, number: usize) -> Option<bool> {
        let given_up = self.network.wires.get(number)?;
        let worker = given_up.worker()?;
        let most = self.scenario.unsent_bytes_most;
        let (many, own) = (most / MANY_SHARE, given_up.daemon.unsent as u64);
        let unsent = self.unsent().saturating_add(own);
        let spares = given_up.is_local && unsent <= most.saturating_add(most / SPARED_SHARE);
        let goes_before = |wire: &Wire| {
            let since = wire.daemon.unread_since.saturating_add(TOGETHER_US);
            match wire.unread_at(many) {
                Some(_) if !wire.is_local && given_up.is_local => spares && since < self.now,
                Some(at) if at == worker && wire.is_local == given_up.is_local => since
                    < given_up.daemon.unread_since,
                _ => false,
            }
        };
        let is_due = given_up.is_down_ended && own > many && unsent > most;
        Some(is_due && !self.network.wires.iter().any(goes_before))
    }
}
