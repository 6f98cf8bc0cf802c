//! Requests that wait: registrations for their names, and lists for their turn.
//!
//! If a name is active when a node asks for it, the connection that owns it may have ended, or may be ending. The name
//! is then free soon. What the machine answers after the wait is final. A list waits while many bytes wait to be
//! written.
ghost use Rattle.std.specs.Prelude.{◌≡◌, ◌↔◌, ◌<◌, ◌≤◌, true, false, Some, None, IfSome};
ghost use Rattle.portmap_scheduler.specs.Links.{link_at};
ghost use Rattle.portmap_worker.specs.Pending.{Awaits, StopsWaiting, GoesOn, earliest, until};
ghost use Rattle.portmap_worker.specs.IdleLinks.{Keeps, Returns};
ghost use Rattle.portmap_worker.specs.Link.{IsOf};

use crate::Turn;
use crate::limits::{EPOCH_RETRIES_MOST, EPOCH_TIMEOUT_MS, NAME_TIMEOUT_MS};
use crate::loop_state::LoopState;
use crate::open_link::{Links, watch};
use crate::shared::Shared;
use crate::socket_source::SocketSource;
use crate::system::{Stream, System, Wake};
use portmap_operator::Host;
use std::rt::Clock;
use std::sync::Wait;
use std::sync::atomic::Ordering;
use std::sync::ledger::Ledger;

/// The wait of a pending link. Times are in milliseconds since the daemon began.
#[derive(Clone, Copy)]
pub(crate) enum Waiting {
    /// A list, of which one is served in a millisecond.
    List,
    /// It became pending after the last poll began.
    Come,
    /// A poll was begun since then. Its time begins when that poll returns, however long ago the last one did.
    Asked,
    /// It waits for its name alone until this time.
    Name { until: u64 },
    /// It has waited for its name, and now waits for this epoch. It was retried `rounds` times since: time alone also
    /// passes while the process is stopped.
    Epoch { until: u64, epoch: u64, rounds: u32 },
}

impl Waiting {
    fn until(self, now: u64) -> u64
        ensures { result ≡ until self now }
    {
        match self {
            Waiting::List | Waiting::Come | Waiting::Asked => now,
            Waiting::Name { until } | Waiting::Epoch { until, .. } => until,
        }
    }

    /// Returns the epoch to wait for, if there is any. Once the time for the name is over, it begins an epoch.
    fn awaited<W: Wake>(self, now: u64, shared: &Shared<W>, worker: usize) -> Option<u64>
        ensures { Awaits self now result }
    {
        match self {
            Waiting::Name { until } if now >= until => Some(shared.begin_epoch(worker)),
            Waiting::Epoch { epoch, .. } if !shared.have_passed(epoch) => Some(epoch),
            _ => None,
        }
    }

    /// Returns how a list, or a registration of an active name, waits from now on, if it does.
    fn next(self, now: u64, epoch: Option<u64>) -> Option<Waiting>
        ensures { GoesOn self now epoch result }
    {
        match self {
            Waiting::List => Some(self),
            Waiting::Come => Some(Waiting::Asked),
            Waiting::Asked => Some(Waiting::Name {
                until: now.saturating_add(NAME_TIMEOUT_MS),
            }),
            Waiting::Name { until } if now < until => Some(self),
            Waiting::Name { until } => Some(Waiting::Epoch {
                until,
                epoch: epoch?,
                rounds: 0,
            }),
            Waiting::Epoch { until, rounds, .. } if stops_waiting(rounds, now, until) => None,
            Waiting::Epoch { until, rounds, .. } => Some(Waiting::Epoch {
                until,
                epoch: epoch?,
                rounds: rounds.saturating_add(1),
            }),
        }
    }
}

/// Returns the turn of a link that keeps a request back, or `None` if it waits. Permits limit how many wait.
fn immediate_turn(key: u64, is_short: bool, waits: bool) -> Option<Turn>
    ensures short { is_short ≡ true → result ≡ Some (Turn.Late key) }
    ensures free { is_short ≡ false → waits ≡ false → result ≡ Some (Turn.Ready key) }
    ensures waits { is_short ≡ false → waits ≡ true → result ≡ None }
{
    if is_short {
        Some(Turn::Late(key))
    } else if waits {
        None
    } else {
        Some(Turn::Ready(key))
    }
}

fn stops_waiting(rounds: u32, now: u64, until: u64) -> bool
    ensures { (result ≡ true) ↔ StopsWaiting rounds now until }
{
    rounds >= EPOCH_RETRIES_MOST && now >= until.saturating_add(EPOCH_TIMEOUT_MS)
}

impl<L: Ledger, S: System, R: Host + Wait + Clock> SocketSource<'_, L, S, R> {
    fn is_name_active(&self, key: usize) -> Option<bool> {
        let name = self.links.get(key)?.link.asked_name()?;
        Some(self.desk.is_active(self.rt, name))
    }

    fn asks_list(&self, key: usize) -> bool {
        self.links
            .get(key)
            .is_some_and(|held| held.link.asks_list())
    }

    /// Returns whether the request that a link keeps back is refused for lack of memory. A list never is. Counts what
    /// this worker alone finds.
    fn refuses(&mut self, key: usize) -> bool
        ensures links { self.new.links ≡ self.old.links }
        ensures schedule { self.new.schedule ≡ self.old.schedule }
    {
        if self.asks_list(key) {
            return false;
        }
        if self.shared.short.load(Ordering::SeqCst) {
            return true;
        }
        let is_short = !self.rt.has_memory(self.alloc);
        if is_short {
            self.activity.note_refused();
        }
        is_short
    }

    /// Makes the current link pending if what it keeps back has to wait: a registration while its name is active, or a
    /// list while many bytes wait to be written. Otherwise, or if memory is short for a registration, returns its turn.
    /// The poll watches the link before it is answered, so that no name is registered whose end is not reported.
    pub(crate) fn defer_request(&mut self) -> Option<Turn>
        ensures links { Returns self.old.links self.new.links result }
        ensures again { IfSome result (λ turn. IsOf self.old.links.current turn) }
        ensures schedule { self.new.schedule ≡ self.old.schedule }
    {
        let key = self.links.current()?;
        let is_list = self.asks_list(key);
        let waits = if is_list {
            self.shared.unsent.is_crowded()
        } else {
            self.is_name_active(key)?
        };
        if !watch(&mut self.links, &mut self.sockets.system, key) {
            return Some(Turn::Ready(key as u64));
        }
        let turn = immediate_turn(key as u64, self.refuses(key), waits);
        if turn.is_some() {
            return turn;
        }
        self.links.get_mut(key)?.waiting = if is_list {
            Waiting::List
        } else {
            Waiting::Come
        };
        self.links.hold(key);
        self.publish_pending();
        None
    }

    /// Queues pending links whose names are free, or that have waited long enough. A poll has to follow.
    pub(crate) fn retry_pending(&mut self)
        requires { self.old.links.current ≡ None }
        ensures links { Keeps self.old.links self.new.links }
        ensures schedule { self.new.schedule ≡ self.old.schedule }
    {
        self.loop_state.pending_until = None;
        if self.links.pending() == 0 {
            return;
        }
        for _turn in 0..self.links.pending() {
            let Some(key) = self.links.next_pending() else {
                break;
            };
            match self.goes_on(key) {
                Some(waiting) => wait_on(&mut self.links, &mut self.loop_state, key, waiting),
                None => {
                    let is_short = self.refuses(key);
                    resume(&mut self.links, key, is_short);
                }
            }
        }
        self.publish_pending();
    }

    /// Returns how a pending link waits from now on, if it does. The first list in a millisecond does not.
    fn goes_on(&mut self, key: usize) -> Option<Waiting>
        ensures links { self.new.links ≡ self.old.links }
        ensures schedule { self.new.schedule ≡ self.old.schedule }
    {
        let is_over = if self.asks_list(key) {
            self.loop_state.take_list()
        } else {
            self.is_name_active(key) != Some(true)
        };
        if is_over {
            return None;
        }
        let waiting = self.links.get(key)?.waiting;
        let now = self.loop_state.time;
        waiting.next(now, waiting.awaited(now, self.shared, self.sockets.worker))
    }

    fn publish_pending(&self) {
        let count = self.links.pending() as u64;
        self.state.pending.store(count, Ordering::SeqCst);
    }
}

fn wait_on<S: Stream>(
    links: &mut Links<'_, S>,
    rounds: &mut LoopState,
    key: usize,
    waiting: Waiting,
)
    requires { links.old.current ≡ Some key }
    ensures current { links.new.current ≡ None }
    ensures links { Keeps links.old links.new }
    ensures until { rounds.new ≡ record rounds.old
        { pending_until = Some (earliest rounds.old.pending_until (until waiting rounds.old.time)) } }
{
    if let Some(held) = links.get_mut(key) {
        held.waiting = waiting;
    }
    links.hold(key);
    rounds.set_deadline(waiting.until(rounds.time));
}

/// Queues the current link, to serve what it keeps back, or to time out if memory is short.
fn resume<S: Stream>(links: &mut Links<'_, S>, key: usize, is_short: bool)
    requires { links.old.current ≡ Some key }
    ensures current { links.new.current ≡ None }
    ensures links { Keeps links.old links.new }
    ensures late { IfSome (link_at links.new key) (λ l. l.0.link.timer.is_late ≡ is_short) }
{
    if let Some(held) = links.get_mut(key) {
        held.link.set_late(is_short);
    }
    links.requeue(key);
}
