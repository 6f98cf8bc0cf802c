ghost use Rattle.std.specs.Prelude.{◌≡◌};
ghost use Rattle.portmap_core.specs.Held.{stage_held};
ghost use Rattle.portmap_core.specs.State.{phase_of_stage};

use portmap_feed::Feed;

#[derive(Clone, Copy, Debug, PartialEq, Eq)]
pub enum Phase {
    /// The request is incomplete.
    Waiting,
    /// The connection owns an active name.
    Holding,
    /// The connection is to be closed.
    Done,
}

/// A phase with the bytes received so far.
#[derive(Drop)]
pub(crate) enum Stage {
    Waiting(Feed),
    Holding,
    Done,
}

#[derive(Drop)]
pub(crate) struct Connection {
    pub(crate) local: bool,
    pub(crate) stage: Stage,
}

impl Stage {
    pub(crate) fn phase(&self) -> Phase
        ensures { result ≡ phase_of_stage self.now }
    {
        match self {
            Stage::Waiting(_) => Phase::Waiting,
            Stage::Holding => Phase::Holding,
            Stage::Done => Phase::Done,
        }
    }
}

impl Phase {
    pub(crate) fn stage(self, feed: Feed) -> Stage
        ensures { result ≡ stage_held self feed }
    {
        match self {
            Phase::Waiting => Stage::Waiting(feed),
            Phase::Holding => Stage::Holding,
            Phase::Done => Stage::Done,
        }
    }
}
