//! The next thing that a worker does: admit a new connection, serve its run queue, or poll.
ghost use Rattle.std.specs.Prelude.{◌≡◌, ◌↔◌, ◌+◌, ◌<◌, true, false};
ghost use Rattle.portmap_worker.specs.declared.limits.TheConstants.{TURNS_MOST};

use crate::limits::TURNS_MOST;

/// The number of turns since the last poll, and whether the run queue is next, since a connection was accepted last.
#[derive(Drop)]
pub(crate) struct Schedule {
    turns: u32,
    has_accepted: bool,
}

impl Schedule {
    pub(crate) fn new() -> Schedule {
        Schedule {
            turns: 0,
            has_accepted: false,
        }
    }

    /// Counts a turn. Returns false if the worker has to poll first.
    pub(crate) fn take_turn(&mut self) -> bool
        ensures most { (result ≡ true) ↔ (self.old.turns < TURNS_MOST) }
        ensures counted { result ≡ true → self.new ≡ record self.old { turns = self.old.turns + 1 } }
        ensures none { result ≡ false → self.new ≡ self.old }
    {
        let is_left = self.turns < TURNS_MOST;
        if is_left {
            self.turns = self.turns.saturating_add(1);
        }
        is_left
    }

    pub(crate) fn end_turns(&mut self)
        ensures { self.new ≡ record self.old { turns = 0 } }
    {
        self.turns = 0;
    }

    pub(crate) fn is_accept_next(&self) -> bool
        ensures { (result ≡ true) ↔ (self.now.has_accepted ≡ false) }
    {
        !self.has_accepted
    }

    /// Records whether this turn accepts a connection. After one that does, the run queue is next.
    pub(crate) fn set_accepted(&mut self, has_accepted: bool)
        ensures { self.new ≡ record self.old { has_accepted = has_accepted } }
    {
        self.has_accepted = has_accepted;
    }
}
