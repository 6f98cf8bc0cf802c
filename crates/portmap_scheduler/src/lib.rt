//! A scheduler for the links of one worker: a run queue and a list of pending links.
//!
//! # Guarantees
//! - No link is lost (`no_link_is_lost`, always): each link is in exactly one state, and is idle, queued, pending or
//!   current (`Current`). The queue has each queued link once and no other key. The same holds for pending links. At
//!   most one link is current, and `current` names it.
//! - The wait is bounded (`queue_wait_is_bounded`): a link with `n` others ahead in the queue is returned within
//!   `n + 1` calls of `next`, whatever is called in between, unless it is removed. `pending_wait_is_bounded` is the law
//!   of pending links.
//! - The queue is FIFO (`queue_is_fifo`): no link is returned before a link that was queued earlier. The same holds for
//!   pending links.
//! - Each call leaves exactly what its clause says.
//! - Only `insert` may allocate. If it is refused, no link changes. If `has_room` holds, it is not refused.
//!
//! # Not covered
//! Which links are ready, and that the caller continues to take turns.
//!
//! The `README.md` of this crate shows a proved caller, and lists errors and allocation.
#![tactic(auto)]

ghost use Rattle.std.specs.Prelude.{◌≡◌, ◌≤◌, ◌<◌, ◌==◌, ℕ, [], true, false, Some, None, IfOk, IfErr, IsOk, OnErr};
ghost use Rattle.std.specs.Prelude.{OnOk, IsSome, is_some, option_map, option_copied, slice_get, length};
ghost use Rattle.std.specs.Option.{option_copied_mut};
ghost use Rattle.std.specs.Borrow.{sem};
ghost use Rattle.std.specs.FinMap as map;
ghost use Rattle.std.specs.VecDeque.{deque_capacity};
ghost use Rattle.slab.specs.Slab.{Updates, get, slab_len};
ghost use Rattle.portmap_scheduler.specs.Links.{is_pending, is_queued, is_current, not_key, pushed, times, without};
ghost use Rattle.portmap_scheduler.specs.declared.LinkState.TheVariants.{Idle, Pending, Queued};
ghost use Rattle.portmap_scheduler.specs.Tracked.{link_of, with_link_state};

use slab::Slab;
use std::alloc::{AllocError, AllocFailed, Global};
use std::collections::VecDeque;
use std::marker::Model;

/// The scheduling state of a link.
#[derive(Clone, Copy, PartialEq, Eq)]
pub enum LinkState {
    /// The link is in no list until it is reported.
    Idle,
    /// The link is in the run queue.
    Queued,
    /// The link waits for something other than a report. The caller asks about pending links in FIFO order.
    Pending,
    /// The link was taken last, and is in the caller's hands.
    Current,
}

/// A link with its state.
#[derive(Drop)]
struct Tracked<T> {
    value: T,
    state: LinkState,
}

/// A scheduler: links by key, each in one link state. Each list has the keys of the links in its state.
#[derive(Drop)]
pub struct Scheduler<T> {
    held: Slab<Tracked<T>>,
    queue: VecDeque<usize>,
    pending: VecDeque<usize>,
    current: Option<usize>,
}

impl<T> Model for Scheduler<T> {
    ghost use Rattle.portmap_scheduler.specs.Links.{Links, links_code};
    ghost use Rattle.portmap_scheduler.specs.contracts.LinkState as state;

    ghost Value = { Links T };

    ghost coded = { links_code T.code state.the_row.coded };

    ghost use Rattle.portmap_scheduler.specs.Whole.{IsWhole, seen};

    ghost view = { seen };

    ghost invariant = { IsWhole };
}

impl LinkState {
    fn is_queued(self) -> bool
        ensures { result ≡ is_queued self }
    {
        matches!(self, LinkState::Queued)
    }

    fn is_pending(self) -> bool
        ensures { result ≡ is_pending self }
    {
        matches!(self, LinkState::Pending)
    }
}

fn forget(current: Option<usize>, key: usize) -> Option<usize>
    ensures { result ≡ not_key key current }
{
    match current {
        Some(other) if other == key => None,
        _ => current,
    }
}

fn widen(keys: &mut VecDeque<usize>, most: usize) -> Result<(), AllocError>
    ensures items { keys.new.items ≡ keys.old.items }
    ensures kept { deque_capacity keys.old ≤ deque_capacity keys.new }
    ensures room { OnOk result (most ≤ deque_capacity keys.new) }
    ensures succeeds { most ≤ deque_capacity keys.old → IsOk result }
{
    keys.reserve(most.saturating_sub(keys.len()))
}

fn push_if(keys: &mut VecDeque<usize>, key: usize, is_wanted: bool)
    requires { is_wanted ≡ true → length keys.old.items < deque_capacity keys.old }
    ensures items { keys.new.items ≡ pushed is_wanted key keys.old.items }
    ensures room { deque_capacity keys.new ≡ deque_capacity keys.old }
{
    if is_wanted {
        keys.push_back_reserved(key);
    }
}

/// Removes the key from a list that has it only if `is_listed`.
fn cut_if(keys: &mut VecDeque<usize>, key: usize, is_listed: bool)
    requires { is_listed ≡ false → times key keys.old.items ≡ 0 }
    ensures items { keys.new.items ≡ without key keys.old.items }
    ensures room { deque_capacity keys.new ≡ deque_capacity keys.old }
{
    if is_listed {
        keys.retain(|other| *other != key);
    }
}

fn set_state<T>(held: &mut Slab<Tracked<T>>, key: usize, state: LinkState)
    ensures held { Updates held.old held.new key (with_link_state state (get held.old key)) }
    ensures len { slab_len held.new ≡ slab_len held.old }
    ensures capacity { held.new.capacity ≡ held.old.capacity }
{
    if let Some(link) = held.get_mut(key) {
        link.state = state;
    }
}

#[tactic(auto, using(crate::proofs::Calls::looks, crate::proofs::Turns::laws))]
impl<T: Drop> Scheduler<T> {
    ghost use Rattle.portmap_scheduler.specs.Lends.{lends_link, lends_value};
    ghost use Rattle.portmap_scheduler.specs.Runs.{QueueIsFifo, WaitIsBounded};
    ghost use Rattle.portmap_scheduler.specs.Runs as line;
    ghost use Rattle.portmap_scheduler.specs.Links.{IsButForRoom, IsConsistent, inserted, link_at, moved, state_at};
    ghost use Rattle.portmap_scheduler.specs.Links.{removed, reported, after_next_pending, after_next};
    ghost use Rattle.portmap_scheduler.specs.Tracked.{is_free};

    pub fn new(alloc: Global) -> Scheduler<T>
        ensures links { result.links ≡ map.empty }
        ensures queue { result.queue ≡ [] }
        ensures pending { result.pending ≡ [] }
        ensures current { result.current ≡ None }
    {
        Scheduler {
            held: Slab::new(alloc),
            queue: VecDeque::new(alloc),
            pending: VecDeque::new(alloc),
            current: None,
        }
    }

    /// Law: each list holds the keys of the links in its state, each once, and no other key. `current` names the link
    /// in state `Current`. The law holds of every value of this type between any two calls.
    pub fn no_link_is_lost(&self)
        ensures { IsConsistent self.now }
    {
        let _ = &self.current;
    }

    /// Returns the key of the current link: the link that was taken last, until its state changes.
    pub fn current(&self) -> Option<usize>
        ensures { result ≡ self.now.current }
    {
        self.current
    }

    pub fn len(&self) -> usize
        ensures { result ≡ map.len self.now.links }
    {
        self.held.len()
    }

    pub fn is_empty(&self) -> bool
        ensures { result ≡ (map.len self.now.links == 0) }
    {
        self.held.is_empty()
    }

    /// Returns the number of queued links.
    pub fn backlog(&self) -> usize
        ensures { result ≡ length self.now.queue }
    {
        self.queue.len()
    }

    /// Returns the number of pending links.
    pub fn pending(&self) -> usize
        ensures { result ≡ length self.now.pending }
    {
        self.pending.len()
    }

    /// Returns a number above every key in use.
    pub fn keys(&self) -> usize
        ensures { (k : ℕ) → IsSome (link_at self.now k) → k < result }
    {
        self.held.capacity()
    }

    /// Returns true if the next `insert` does not allocate, and therefore is not refused.
    pub fn has_room(&self) -> bool
        ensures { result ≡ self.now.has_room }
    {
        let most = self.held.capacity();
        self.held.len() < most && most <= self.queue.capacity().min(self.pending.capacity())
    }

    pub fn state(&self, key: usize) -> Option<LinkState>
        ensures { result ≡ state_at self.now key }
    {
        Some(self.held.get(key)?.state)
    }

    pub fn get(&self, key: usize) -> Option<&T>
        ensures { option_copied result ≡ option_map (λ link. link.0) (link_at self.now key) }
    {
        Some(&self.held.get(key)?.value)
    }

    /// Returns the link under `key` for writing. Its state does not change.
    pub fn get_mut(&mut self, key: usize) -> Option<&mut T>
        ensures* writes_back { sem 𝓛 (lends_link T.row self.entry key result) }
        ensures value { option_copied_mut result ≡ option_map (λ link. link.0) (link_at self.old key) }
    {
        if self.contains(key) {
            Some(self.value_mut(key))
        } else {
            None
        }
    }

    pub fn contains(&self, key: usize) -> bool
        ensures { result ≡ is_some (link_at self.now key) }
    {
        self.state(key).is_some()
    }

    fn value_mut(&mut self, key: usize) -> &mut T
        requires { IsSome (link_at self.old key) }
        ensures* writes_back { sem 𝓛 (lends_value T.row self.entry key result) }
        ensures value { option_map (λ link. link.0) (link_at self.old key) ≡ Some result.now }
    {
        &mut self.held[key].value
    }

    /// Reserves space for one link in both lists, so that no other call allocates.
    fn take_room(&mut self) -> Result<(), AllocError>
        ensures same { IsButForRoom self.new self.old }
        ensures room { OnOk result (self.new.has_room ≡ true) }
        ensures succeeds { self.old.has_room ≡ true → IsOk result }
    {
        self.held.reserve(1)?;
        let most = self.held.capacity();
        widen(&mut self.queue, most)?;
        widen(&mut self.pending, most)
    }

    fn insert_reserved(&mut self, value: T) -> usize
        requires { self.old.has_room ≡ true }
        ensures fresh { link_at self.old result ≡ None }
        ensures inserted { IsButForRoom self.new (inserted result value self.old) }
    {
        let key = self.held.insert_reserved(Tracked {
            value,
            state: LinkState::Queued,
        });
        self.queue.push_back_reserved(key);
        key
    }

    /// Inserts a link at the end of the run queue, and returns its key. If memory runs out, returns the value, and no
    /// link changes.
    pub fn insert(&mut self, value: T) -> Result<usize, AllocFailed<T>>
        ensures fresh { IfOk result (λ key. link_at self.old key ≡ None) }
        ensures inserted { IfOk result (λ key. IsButForRoom self.new (inserted key value self.old)) }
        ensures succeeds { self.old.has_room ≡ true → IsOk result }
        ensures err { OnErr result (IsButForRoom self.new self.old) }
        ensures returned { IfErr result (λ failed. failed.value ≡ value) }
    {
        if self.take_room().is_err() {
            return Err(AllocFailed { value });
        }
        Ok(self.insert_reserved(value))
    }

    fn put(&mut self, key: usize, state: LinkState)
        requires from { is_free (state_at self.old key) ≡ true }
        requires to { is_current state ≡ false }
        ensures { self.new ≡ moved state key self.old }
    {
        set_state(&mut self.held, key, state);
        push_if(&mut self.queue, key, state.is_queued());
        push_if(&mut self.pending, key, state.is_pending());
        self.current = forget(self.current, key);
    }

    /// Queues the link under `key` if it is idle. Otherwise changes nothing.
    pub fn report(&mut self, key: usize)
        ensures { self.new ≡ reported key self.old }
    {
        if let Some(LinkState::Idle) = self.state(key) {
            self.put(key, LinkState::Queued);
        }
    }

    /// Takes the first link of the run queue, which becomes current. The last current link must have left that state.
    pub fn next(&mut self) -> Option<usize>
        requires { self.old.current ≡ None }
        ensures key { result ≡ slice_get self.old.queue 0 }
        ensures current { self.new ≡ after_next self.old }
    {
        let key = self.queue.pop_front()?;
        set_state(&mut self.held, key, LinkState::Current);
        self.current = Some(key);
        Some(key)
    }

    /// Takes the first pending link, which becomes current. The caller decides if it continues to wait. The last
    /// current link must have left that state.
    pub fn next_pending(&mut self) -> Option<usize>
        requires { self.old.current ≡ None }
        ensures key { result ≡ slice_get self.old.pending 0 }
        ensures current { self.new ≡ after_next_pending self.old }
    {
        let key = self.pending.pop_front()?;
        set_state(&mut self.held, key, LinkState::Current);
        self.current = Some(key);
        Some(key)
    }

    /// Makes the current link idle until it is reported.
    pub fn leave(&mut self, key: usize)
        requires { self.old.current ≡ Some key }
        ensures { self.new ≡ moved Idle key self.old }
    {
        self.no_link_is_lost();
        self.put(key, LinkState::Idle);
    }

    /// Appends the current link to the run queue.
    pub fn requeue(&mut self, key: usize)
        requires { self.old.current ≡ Some key }
        ensures { self.new ≡ moved Queued key self.old }
    {
        self.no_link_is_lost();
        self.put(key, LinkState::Queued);
    }

    /// Appends the current link to the pending links.
    pub fn hold(&mut self, key: usize)
        requires { self.old.current ≡ Some key }
        ensures { self.new ≡ moved Pending key self.old }
    {
        self.no_link_is_lost();
        self.put(key, LinkState::Pending);
    }

    /// Removes the link under `key`, whatever its state, and returns it.
    pub fn remove(&mut self, key: usize) -> Option<T>
        ensures value { result ≡ option_map (λ link. link.0) (link_at self.old key) }
        ensures removed { IsButForRoom self.new (removed key self.old) }
    {
        let link = self.held.try_remove(key)?;
        cut_if(&mut self.queue, key, link.state.is_queued());
        cut_if(&mut self.pending, key, link.state.is_pending());
        self.current = forget(self.current, key);
        Some(link.value)
    }

    /// Law: `next` serves a link with `n` other links queued ahead within `n + 1` calls. Other calls may come in
    /// between, but none may remove the link.
    pub fn queue_wait_is_bounded()
        ensures { WaitIsBounded T line.Queue }
    {}

    /// Law: `next_pending` returns a link with `n` other links pending ahead within `n + 1` calls. Other calls may come
    /// in between, but none may remove the link.
    pub fn pending_wait_is_bounded()
        ensures { WaitIsBounded T line.PendingQueue }
    {}

    /// Law: while a link is queued or pending, only links that were ahead of it are taken from that list. A caller that
    /// requeues each served link therefore serves queued links in FIFO order.
    pub fn queue_is_fifo()
        ensures queue { QueueIsFifo T line.Queue }
        ensures pending { QueueIsFifo T line.PendingQueue }
    {}
}
