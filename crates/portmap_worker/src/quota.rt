//! The permits for connections, and the order of eviction.
ghost use Rattle.std.specs.Prelude.{◌≡◌, ◌↔◌, ◌<◌, true, Some, None, IfSome};
ghost use Rattle.portmap_worker.specs.Quota.{remote_most, IsFree, IsEvictedBefore};
ghost use Rattle.portmap_worker.specs.declared.limits.TheConstants.{REMOTE_FIRST_MS};
ghost use Rattle.portmap_worker.specs.declared.quota.EvictionCandidate.{EvictionCandidate};

use crate::limits::{REMOTE_FIRST_MS, RESERVED_SHARE};
use std::sync::atomic::{AtomicBool, AtomicU64, Ordering};

#[derive(Clone, Copy, PartialEq, Eq)]
pub(crate) struct EvictionCandidate {
    pub(crate) is_local: bool,
    /// It is queued, and not because of a timeout.
    pub(crate) is_ready: bool,
    /// The time at which the worker took it, or since which its peer has read nothing, in milliseconds.
    pub(crate) came: u64,
    pub(crate) key: usize,
}

/// Returns how many permits remote peers may have together, while local peers have `local`. These are all others but
/// the reserved share, or but half of the others if that is less.
fn remote_most(most: u64, local: u64) -> u64
    ensures { result ≡ remote_most most local }
{
    let left = most.saturating_sub(local);
    left - (most / RESERVED_SHARE).min(left / 2)
}

fn is_free(is_local: bool, most: u64, local: u64, remote: u64) -> bool
    ensures { (result ≡ true) ↔ IsFree is_local most local remote }
{
    if is_local {
        local < most && remote < most - local
    } else {
        remote < remote_most(most, local)
    }
}

/// Returns whether `one` goes first: remote before local, then without an event before with one, then the older.
fn is_evicted_before(one: EvictionCandidate, other: EvictionCandidate) -> bool
    ensures { (result ≡ true) ↔ IsEvictedBefore one other }
{
    if one.is_local != other.is_local {
        other.is_local
    } else if one.is_ready != other.is_ready {
        other.is_ready
    } else {
        one.came < other.came
    }
}

pub(crate) fn first_of(
    first: Option<EvictionCandidate>,
    other: EvictionCandidate,
) -> Option<EvictionCandidate>
    ensures only { first ≡ None → result ≡ Some other }
    ensures before { (one : EvictionCandidate) → first ≡ Some one → IsEvictedBefore other one → result ≡ Some other }
    ensures behind { (one : EvictionCandidate) → first ≡ Some one → (IsEvictedBefore other one → ⊥) → result
        ≡ Some one }
{
    match first {
        Some(one) if !is_evicted_before(other, one) => first,
        _ => Some(other),
    }
}

/// Returns whether a local peer still spares local connections, as another worker may evict a remote connection.
pub(crate) fn spares_local(waited: u64, remote: u64) -> bool
    ensures { (result ≡ true) ↔ ((waited < REMOTE_FIRST_MS) × (0 < remote)) }
{
    waited < REMOTE_FIRST_MS && remote > 0
}

/// A permit for one connection. Only `Quota::take` makes it, and dropping it releases it.
pub(crate) struct Permit<'a> {
    quota: &'a Quota,
    is_local: bool,
}

impl Drop for Permit<'_> {
    fn drop(self) {
        self.quota
            .taken_by(self.is_local)
            .fetch_sub(1, Ordering::SeqCst);
        let Permit {
            quota: _,
            is_local: _,
        } = self;
    }
}

#[derive(Drop)]
pub(crate) struct Quota {
    most: u64,
    local: AtomicU64,
    remote: AtomicU64,
    /// A worker asks the others to evict a remote connection.
    wants_remote: AtomicBool,
    /// A worker asks the others to evict any connection.
    wants_any: AtomicBool,
}

impl Quota {
    pub(crate) fn new(most: u32) -> Quota {
        Quota {
            most: u64::from(most),
            local: AtomicU64::new(0),
            remote: AtomicU64::new(0),
            wants_remote: AtomicBool::new(false),
            wants_any: AtomicBool::new(false),
        }
    }

    pub(crate) fn take(&self, is_local: bool) -> Option<Permit<'_>>
        ensures { IfSome result (λ permit. permit.is_local ≡ is_local) }
    {
        let taken = self.taken_by(is_local).fetch_add(1, Ordering::SeqCst);
        let permit = Permit {
            quota: self,
            is_local,
        };
        let (local, remote) = if is_local {
            (taken, self.remote())
        } else {
            (self.local.load(Ordering::SeqCst), taken)
        };
        is_free(is_local, self.most, local, remote).then_some(permit)
    }

    pub(crate) fn remote(&self) -> u64 {
        self.remote.load(Ordering::SeqCst)
    }

    /// Asks the other workers to evict a connection. Returns true if that was not asked already.
    pub(crate) fn want(&self, is_remote: bool) -> bool {
        let wanted = if is_remote {
            &self.wants_remote
        } else {
            &self.wants_any
        };
        !wanted.swap(true, Ordering::SeqCst)
    }

    /// Returns whether an eviction is asked for, and whether a local connection will do.
    pub(crate) fn wanted(&self) -> (bool, bool) {
        let is_any = self.wants_any.load(Ordering::SeqCst);
        (is_any || self.wants_remote.load(Ordering::SeqCst), is_any)
    }

    /// Ends all demands: a connection was evicted, or no peer waits.
    pub(crate) fn want_none(&self) {
        self.wants_remote.store(false, Ordering::SeqCst);
        self.wants_any.store(false, Ordering::SeqCst);
    }

    fn taken_by(&self, is_local: bool) -> &AtomicU64 {
        if is_local { &self.local } else { &self.remote }
    }
}
