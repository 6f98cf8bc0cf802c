//! The links that a worker holds, each in one link state.
ghost use Rattle.std.specs.Prelude.{◌≡◌, ◌≢◌, ℕ, [], drop, false, Some, None};
ghost use Rattle.portmap_scheduler.specs.Links.{link_at};
ghost use Rattle.portmap_worker.specs.IdleLinks.{IsReported, Keeps};

use crate::link::Link;
use crate::pending::Waiting;
use crate::quota::Permit;
use crate::system::{Stream, System};
use crate::unsent::Unsent;
use portmap_scheduler::Scheduler;

/// A link that a worker holds. If it is dropped while bytes wait to be written, its connection ends with a reset.
pub(crate) struct OpenLink<'a, S: Stream> {
    pub(crate) link: Link<S>,
    pub(crate) waiting: Waiting,
    pub(crate) permit: Permit<'a>,
    pub(crate) unsent: Unsent<'a>,
}

impl<S: Stream> Drop for OpenLink<'_, S> {
    fn drop(mut self) {
        self.link.reset_unsent();
        let OpenLink {
            link: _link,
            waiting: _,
            permit: _permit,
            unsent: _unsent,
        } = self;
    }
}

pub(crate) type Links<'a, S> = Scheduler<OpenLink<'a, S>>;

#[derive(Clone, Copy)]
pub(crate) struct Moved {
    pub(crate) bytes: usize,
    pub(crate) has_written: bool,
    /// More bytes wait to be written than before the turn.
    pub(crate) is_unread: bool,
}

/// Ends the turn of the current link: it is queued, or left to the poll. Returns what it has moved.
pub(crate) fn finish_turn<S: System>(
    links: &mut Links<'_, S::Stream>,
    system: &mut S,
    key: usize,
    now: u64,
) -> Moved
    requires { links.old.current ≡ Some key }
    ensures current { links.new.current ≡ None }
    ensures links { Keeps links.old links.new }
{
    let Some(held) = links.get_mut(key) else {
        links.leave(key);
        return Moved {
            bytes: 0,
            has_written: false,
            is_unread: false,
        };
    };
    let bytes = held.link.take_moved_bytes();
    let has_written = held.link.take_written();
    let is_unread = held.unsent.set(held.link.unsent_bytes() as u64, now);
    if held.link.await_report(system, key) {
        links.leave(key);
    } else {
        links.requeue(key);
    }
    Moved {
        bytes,
        has_written,
        is_unread,
    }
}

/// Has the poll watch the link with this key. Returns false if the poll has refused.
pub(crate) fn watch<S: System>(links: &mut Links<'_, S::Stream>, system: &mut S, key: usize) -> bool
    ensures current { links.new.current ≡ links.old.current }
    ensures links { Keeps links.old links.new }
{
    match links.get_mut(key) {
        Some(held) => held.link.watch(system, key),
        None => true,
    }
}

/// Records a report of the poll. The link is queued if it was idle.
pub(crate) fn report<S: Stream>(links: &mut Links<'_, S>, key: usize, is_closed: bool)
    ensures reported { IsReported (link_at links.old key) (link_at links.new key) }
    ensures others { (k : ℕ) → k ≢ key → link_at links.new k ≡ link_at links.old k }
    ensures links { Keeps links.old links.new }
{
    let Some(held) = links.get_mut(key) else {
        return;
    };
    held.link.on_event(is_closed);
    links.report(key);
}

pub(crate) fn look<S: Stream>(links: &mut Links<'_, S>, key: usize, now: u64, timeout: u64)
    ensures { Keeps links.old links.new }
{
    if let Some(held) = links.get_mut(key) {
        if held.link.look(now, timeout) {
            links.report(key);
        }
    }
}
