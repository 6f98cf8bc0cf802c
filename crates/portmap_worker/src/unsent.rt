//! Bytes of replies that wait to be written since their peers don't read, over all connections of a daemon.
ghost use Rattle.std.specs.Prelude.{◌≡◌, ◌↔◌, ◌-◌, ◌<◌, ◌≤◌, ℕ, true, false, IfSome};
ghost use Rattle.portmap_worker.specs.IdleLinks.{Returns};
ghost use Rattle.portmap_worker.specs.Unsent.{AreMany, MayReset};
ghost use Rattle.portmap_worker.specs.declared.limits.TheConstants.{YOUNG_MS};

use crate::Turn;
use crate::admission::evict;
use crate::limits::{UNSENT_CROWDED_SHARE, UNSENT_HEAVY_SHARE, UNSENT_SPARED_SHARE, YOUNG_MS};
use crate::open_link::Links;
use crate::quota::{EvictionCandidate, first_of};
use crate::socket_source::SocketSource;
use crate::system::{Stream, System};
use portmap_operator::Host;
use std::mem;
use std::rt::Clock;
use std::sync::Wait;
use std::sync::atomic::{AtomicBool, AtomicU64, Ordering};
use std::sync::ledger::Ledger;

fn are_many(most: u64, bytes: u64) -> bool
    ensures { (result ≡ true) ↔ AreMany most bytes }
{
    bytes > most / UNSENT_HEAVY_SHARE
}

/// Returns whether a connection with many unsent bytes may be reset. Its peer `is_young` if it may still read. `remote`
/// of the `total` bytes wait for remote peers that have many each.
fn may_reset(is_local: bool, is_young: bool, most: u64, total: u64, remote: u64) -> bool
    ensures { (result ≡ true) ↔ MayReset is_local is_young most total remote }
{
    if total <= most {
        return false;
    }
    total - most > most / UNSENT_SPARED_SHARE || (!is_young && (!is_local || remote == 0))
}

fn is_young(since: u64, now: u64) -> bool
    ensures { (result ≡ true) ↔ (now - since < YOUNG_MS) }
{
    now.saturating_sub(since) < YOUNG_MS
}

fn counted(is_local: bool, most: u64, bytes: u64) -> u64
    ensures local { is_local ≡ true → result ≡ 0 }
    ensures many { is_local ≡ false → AreMany most bytes → result ≡ bytes }
    ensures few { (AreMany most bytes → ⊥) → result ≡ 0 }
{
    if !is_local && are_many(most, bytes) {
        bytes
    } else {
        0
    }
}

fn unread_since(since: u64, before: u64, bytes: u64, now: u64) -> u64
    ensures read { bytes < before → result ≡ now }
    ensures begins { before ≡ 0 → result ≡ now }
    ensures goes_on { 0 < before → before ≤ bytes → result ≡ since }
{
    if before == 0 || bytes < before {
        now
    } else {
        since
    }
}

#[derive(Drop)]
pub(crate) struct AllUnsent {
    most: u64,
    total: AtomicU64,
    /// The bytes that wait for remote peers with many bytes each.
    remote: AtomicU64,
    is_asked: AtomicBool,
}

impl AllUnsent {
    pub(crate) fn new(most: u64) -> AllUnsent {
        AllUnsent {
            most,
            total: AtomicU64::new(0),
            remote: AtomicU64::new(0),
            is_asked: AtomicBool::new(false),
        }
    }

    fn total(&self) -> u64 {
        self.total.load(Ordering::SeqCst)
    }

    pub(crate) fn is_crowded(&self) -> bool {
        self.total() > self.most / UNSENT_CROWDED_SHARE
    }

    fn may_reset(&self, is_local: bool, is_young: bool) -> bool {
        let remote = self.remote.load(Ordering::SeqCst);
        may_reset(is_local, is_young, self.most, self.total(), remote)
    }

    fn change(&self, is_local: bool, before: u64, bytes: u64) {
        self.total.fetch_add(bytes, Ordering::SeqCst);
        self.total.fetch_sub(before, Ordering::SeqCst);
        let (before, bytes) = (
            counted(is_local, self.most, before),
            counted(is_local, self.most, bytes),
        );
        self.remote.fetch_add(bytes, Ordering::SeqCst);
        self.remote.fetch_sub(before, Ordering::SeqCst);
    }
}

/// The bytes that wait for one connection, which count among all until this value is dropped.
pub(crate) struct Unsent<'a> {
    all: &'a AllUnsent,
    is_local: bool,
    bytes: u64,
    /// The time since which the peer has read nothing, in milliseconds.
    since: u64,
}

impl Drop for Unsent<'_> {
    fn drop(self) {
        let Unsent {
            all,
            is_local,
            bytes,
            since: _,
        } = self;
        all.change(is_local, bytes, 0);
    }
}

impl<'a> Unsent<'a> {
    pub(crate) fn new(all: &'a AllUnsent, is_local: bool, now: u64) -> Unsent<'a> {
        Unsent {
            all,
            is_local,
            bytes: 0,
            since: now,
        }
    }

    /// Sets how many bytes wait. Returns true if they are more than before.
    pub(crate) fn set(&mut self, bytes: u64, now: u64) -> bool {
        let before = self.bytes;
        if bytes == before {
            return false;
        }
        self.since = unread_since(self.since, before, bytes, now);
        self.bytes = bytes;
        self.all.change(self.is_local, before, bytes);
        bytes > before
    }
}

impl<L: Ledger, S: System, R: Host + Wait + Clock> SocketSource<'_, L, S, R> {
    /// Resets a connection if more bytes wait than may. Remote peers come first, then those that have read nothing for
    /// the longest time. If this worker has no such connection, it wakes the others.
    pub(crate) fn reset_unread(&mut self) -> Option<Turn>
        ensures current { self.new.links.current ≡ self.old.links.current }
        ensures links { Returns self.old.links self.new.links result }
        ensures late { IfSome result (λ turn. (k : ℕ) × (turn ≡ Turn.Late k)) }
        ensures schedule { self.new.schedule ≡ self.old.schedule }
    {
        if !mem::replace(&mut self.looks_for_unread, false) {
            return None;
        }
        let all = &self.shared.unsent;
        if !all.may_reset(false, false) {
            all.is_asked.store(false, Ordering::SeqCst);
            return None;
        }
        let Some(key) = first_unread(&self.links, all, self.loop_state.time) else {
            if !all.is_asked.swap(true, Ordering::SeqCst) {
                self.shared.wake_others(self.sockets.worker);
            }
            return None;
        };
        self.looks_for_unread = true;
        self.activity.note_reset();
        Some(evict(&mut self.links, key, self.loop_state.time))
    }
}

fn first_unread<S: Stream>(links: &Links<'_, S>, all: &AllUnsent, now: u64) -> Option<usize> {
    let mut first: Option<EvictionCandidate> = None;
    for key in 0..links.keys() {
        if let Some(held) = links.get(key) {
            let unsent = &held.unsent;
            let is_young = is_young(unsent.since, now);
            if are_many(all.most, unsent.bytes) && all.may_reset(unsent.is_local, is_young) {
                let candidate = EvictionCandidate {
                    is_local: unsent.is_local,
                    is_ready: false,
                    came: unsent.since,
                    key,
                };
                first = first_of(first, candidate);
            }
        }
    }
    Some(first?.key)
}
