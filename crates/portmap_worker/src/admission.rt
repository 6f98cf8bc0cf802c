//! The admission of connections, and the evictions for them.
ghost use Rattle.std.specs.Prelude.{◌≡◌, ◌↔◌, ◌⊎◌, ◌+◌, ◌-◌, ◌^◌, ◌<◌, ◌≤◌, true, false, min, None, IfSome, IfNone};
ghost use Rattle.portmap_worker.specs.declared.limits.TheConstants.{EVICTION_BACKOFF_MS};
ghost use Rattle.portmap_worker.specs.Listening.{IsFreshFrom};
ghost use Rattle.portmap_worker.specs.Peers.{is_local_by};
ghost use Rattle.portmap_worker.specs.IdleLinks.{Keeps, Returns};

use crate::Turn;
use crate::limits::{EVICTION_BACKOFF_MS, PERMIT_TIMEOUT_MS};
use crate::link::Link;
use crate::open_link::{Links, OpenLink};
use crate::peer::{is_local_by, own_ip};
use crate::pending::Waiting;
use crate::quota::{EvictionCandidate, Permit, first_of, spares_local};
use crate::shared::Shared;
use crate::socket_source::SocketSource;
use crate::sockets::Sockets;
use crate::system::{Stream, System};
use crate::unsent::Unsent;
use portmap_operator::Host;
use portmap_scheduler::LinkState;
use std::net::IpAddr;
use std::rt::Clock;
use std::sync::Wait;
use std::sync::ledger::Ledger;

#[derive(Drop)]
pub(crate) struct Incoming<S: Stream> {
    stream: S,
    is_local: bool,
    came: u64,
}

impl<S: Stream> Incoming<S> {
    fn new(stream: S, peer: IpAddr, own: Option<IpAddr>, now: u64) -> Incoming<S>
        ensures { result.is_local ≡ is_local_by peer own }
    {
        Incoming {
            stream,
            is_local: is_local_by(peer, own),
            came: now,
        }
    }
}

#[derive(Drop)]
pub(crate) struct Admission<S: Stream> {
    /// The connection that waits for a permit. No other is accepted meanwhile.
    pub(crate) newcomer: Option<Incoming<S>>,
    eviction_backoff: u64,
    /// The time since which a listener has a connection that can't be accepted, for lack of descriptors or memory.
    lacking: Option<u64>,
}

impl<S: Stream> Admission<S> {
    pub(crate) fn new() -> Admission<S> {
        Admission {
            newcomer: None,
            eviction_backoff: 0,
            lacking: None,
        }
    }

    pub(crate) fn accepts(&self) -> bool
        ensures { (result ≡ true) ↔ (self.now.newcomer ≡ None) }
    {
        self.newcomer.is_none()
    }

    /// Returns whether there is something to do at once.
    pub(crate) fn is_busy(&self, is_waiting: bool, now: u64) -> bool
        ensures none { IfNone self.now.newcomer (result ≡ is_waiting) }
        ensures some { IfSome self.now.newcomer (λ _. (result ≡ true) ↔ (self.now.eviction_backoff ≤ now)) }
    {
        if self.accepts() {
            is_waiting
        } else {
            now >= self.eviction_backoff
        }
    }

    fn candidate(&mut self, links: &Links<'_, S>, with_local: bool, now: u64) -> Option<usize>
        ensures early { now < self.old.eviction_backoff → (result ≡ None) × (self.new ≡ self.old) }
        ensures found { IfSome result (λ _. self.new ≡ self.old) }
        ensures later { self.old.eviction_backoff ≤ now
            → IfNone result (self.new
            ≡ record self.old { eviction_backoff = min (now + EVICTION_BACKOFF_MS) (2 ^ 64 - 1) }) }
    {
        if now < self.eviction_backoff {
            return None;
        }
        let first = first_to_evict(links, with_local, now);
        if first.is_none() {
            self.eviction_backoff = now.saturating_add(EVICTION_BACKOFF_MS);
        }
        first
    }
}

impl<S: System> Sockets<S> {
    fn accept(&mut self, shared: &Shared<S::Waker>, now: u64) -> Option<Incoming<S::Stream>> {
        let accepted = self.listeners.accept(&mut self.system, now);
        if self.listeners.take_idle() {
            shared.stop_accepting(self.worker);
        }
        let (stream, peer) = accepted?;
        let own = own_ip(&stream, peer);
        Some(Incoming::new(stream, peer, own, now))
    }
}

impl<'a, L: Ledger, S: System, R: Host + Wait + Clock> SocketSource<'a, L, S, R> {
    pub(crate) fn admit(&mut self) -> Option<Turn>
        ensures current { self.new.links.current ≡ self.old.links.current }
        ensures links { Returns self.old.links self.new.links result }
        ensures schedule { self.new.schedule ≡ self.old.schedule }
    {
        let waiting = self.admission.newcomer.take();
        let has_waited = waiting.is_some();
        let newcomer = match waiting {
            Some(newcomer) => newcomer,
            None => match self.sockets.accept(self.shared, self.loop_state.time) {
                Some(newcomer) => newcomer,
                None => return self.free_descriptor(),
            },
        };
        self.end_lack();
        let turn = match self.shared.quota.take(newcomer.is_local) {
            Some(permit) => self.take(newcomer, permit),
            None => self.evict_for(newcomer),
        };
        // A peer at another worker that still waits asks again within a millisecond.
        if has_waited && self.admission.accepts() {
            self.shared.quota.want_none();
        }
        turn
    }

    fn take(&mut self, newcomer: Incoming<S::Stream>, permit: Permit<'a>) -> Option<Turn>
        ensures fresh { IfSome result (λ turn. IsFreshFrom newcomer.is_local turn) }
        ensures current { self.new.links.current ≡ self.old.links.current }
        ensures links { Returns self.old.links self.new.links result }
        ensures schedule { self.new.schedule ≡ self.old.schedule }
    {
        let is_first = self.links.is_empty();
        let fresh = self.hold(newcomer, permit);
        if fresh.is_none() {
            self.activity.news.exhausted = true;
            self.activity.on_unanswered(self.shared);
            self.activity.on_no_memory(self.shared);
        } else if is_first {
            self.state.take_first(self.shared);
        }
        fresh
    }

    /// Holds a new connection. Its link is queued without a poll, since its request has probably arrived. A worker
    /// holds more links than ever before only while other memory is left.
    fn hold(&mut self, newcomer: Incoming<S::Stream>, permit: Permit<'a>) -> Option<Turn>
        ensures fresh { IfSome result (λ turn. IsFreshFrom newcomer.is_local turn) }
        ensures current { self.new.links.current ≡ self.old.links.current }
        ensures links { Returns self.old.links self.new.links result }
        ensures schedule { self.new.schedule ≡ self.old.schedule }
    {
        let local = newcomer.is_local;
        let now = self.time_us() / 1000;
        if !self.links.has_room() && !self.rt.has_memory(self.alloc) {
            return None;
        }
        let held = OpenLink {
            link: Link::new(self.alloc, newcomer.stream, local, now),
            waiting: Waiting::Come,
            permit,
            unsent: Unsent::new(&self.shared.unsent, local, self.loop_state.time),
        };
        let Ok(key) = self.links.insert(held) else {
            return None;
        };
        Some(Turn::Fresh {
            key: key as u64,
            local,
        })
    }

    /// Evicts a connection for a peer without a permit. A local peer may wait for another worker to do so. If nobody
    /// can, the connection of the peer is closed.
    fn evict_for(&mut self, newcomer: Incoming<S::Stream>) -> Option<Turn>
        ensures current { self.new.links.current ≡ self.old.links.current }
        ensures links { Returns self.old.links self.new.links result }
        ensures schedule { self.new.schedule ≡ self.old.schedule }
    {
        let waited = self.loop_state.time.saturating_sub(newcomer.came);
        let remote_first = spares_local(waited, self.shared.quota.remote());
        let with_local = newcomer.is_local && !remote_first;
        let candidate = self
            .admission
            .candidate(&self.links, with_local, self.loop_state.time);
        if let Some(key) = candidate {
            self.admission.newcomer = Some(newcomer);
            return Some(evict(&mut self.links, key, self.loop_state.time));
        }
        if newcomer.is_local && waited < PERMIT_TIMEOUT_MS {
            if self.shared.quota.want(remote_first) {
                self.shared.wake_others(self.sockets.worker);
            }
            self.admission.newcomer = Some(newcomer);
        } else {
            self.activity.on_unanswered(self.shared);
        }
        None
    }

    /// Evicts a connection, remote before local, if none can be accepted for lack of descriptors or memory.
    fn free_descriptor(&mut self) -> Option<Turn>
        ensures current { self.new.links.current ≡ self.old.links.current }
        ensures links { Returns self.old.links self.new.links result }
        ensures schedule { self.new.schedule ≡ self.old.schedule }
    {
        if !self.sockets.listeners.take_lack() {
            self.end_lack();
            return None;
        }
        let now = self.loop_state.time;
        let waited = now.saturating_sub(*self.admission.lacking.get_or_insert(now));
        let remote_first = spares_local(waited, self.shared.quota.remote());
        if let Some(key) = self.admission.candidate(&self.links, !remote_first, now) {
            return Some(evict(&mut self.links, key, now));
        }
        if self.shared.quota.want(remote_first) {
            self.shared.wake_others(self.sockets.worker);
        }
        None
    }

    /// Withdraws the demand of `free_descriptor`: connections can be accepted again, or none waits.
    fn end_lack(&mut self)
        ensures links { self.new.links ≡ self.old.links }
        ensures schedule { self.new.schedule ≡ self.old.schedule }
    {
        if self.admission.lacking.take().is_some() {
            self.shared.quota.want_none();
        }
    }

    pub(crate) fn evict_for_other_worker(&mut self) -> Option<Turn>
        ensures links { Returns self.old.links self.new.links result }
        ensures schedule { self.new.schedule ≡ self.old.schedule }
    {
        let (is_wanted, is_any) = self.shared.quota.wanted();
        if !is_wanted || !self.admission.accepts() {
            return None;
        }
        let key = self
            .admission
            .candidate(&self.links, is_any, self.loop_state.time)?;
        self.shared.quota.want_none();
        Some(evict(&mut self.links, key, self.loop_state.time))
    }
}

pub(crate) fn evict<S: Stream>(links: &mut Links<'_, S>, key: usize, now: u64) -> Turn
    ensures current { links.new.current ≡ links.old.current }
    ensures links { Keeps links.old links.new }
    ensures late { result ≡ Turn.Late key }
{
    if let Some(held) = links.get_mut(key) {
        held.link.evict(now);
    }
    Turn::Late(key as u64)
}

/// Returns the link to evict first: a remote link, or with `with_local` any link. A link that keeps a registration back
/// is spared: it waits for its name, or is queued to be answered.
fn first_to_evict<S: Stream>(links: &Links<'_, S>, with_local: bool, now: u64) -> Option<usize> {
    let mut first: Option<EvictionCandidate> = None;
    for key in 0..links.keys() {
        let is_queued = links.state(key) == Some(LinkState::Queued);
        if let Some(OpenLink { link, .. }) = links.get(key) {
            let candidate = EvictionCandidate {
                is_local: link.is_local,
                is_ready: is_queued && !link.is_late(),
                came: link.came,
                key,
            };
            let is_spared = link.asked_name().is_some() || !link.is_evictable(now);
            if !is_spared && (with_local || !candidate.is_local) {
                first = first_of(first, candidate);
            }
        }
    }
    Some(first?.key)
}
