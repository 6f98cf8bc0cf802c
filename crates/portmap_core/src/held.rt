ghost use Rattle.std.specs.Prelude.{◌≡◌, ◌↔◌, IfOk, IsTrue};
ghost use Rattle.portmap_core.specs.Connections.{at_stage};
ghost use Rattle.portmap_core.specs.Held.{IsHeld, connection_held, entry_held};

use crate::connection::{Phase, Stage};
use portmap_wire::NoMemory;
use std::alloc::Global;
use std::marker::Model;

/// An open connection of a plain state.
#[derive(Drop)]
pub struct Held {
    pub slot: u64,
    /// True if the peer is on this host.
    pub local: bool,
    pub phase: Phase,
    /// The bytes received while the request is incomplete, otherwise none.
    pub bytes: Vec<u8>,
}

impl Model for Held {
    ghost use Rattle.portmap_core.specs.Held.{HeldValue};

    ghost Value = { HeldValue };

    ghost view = { λ h. record { slot = h.slot; local = h.local; phase = h.phase; bytes = h.bytes.items } };
}

impl Held {
    pub fn try_copy(&self, alloc: Global) -> Result<Held, NoMemory>
        ensures same { IfOk result (λ copy. copy ≡ self.now) }
    {
        Ok(Held {
            slot: self.slot,
            local: self.local,
            phase: self.phase,
            bytes: Vec::from_slice(alloc, self.bytes.as_slice())?,
        })
    }

    pub(crate) fn is_same(&self, other: &Held) -> bool
        ensures { IsTrue result ↔ (self.now ≡ other.now) }
    {
        self.slot == other.slot
            && self.local == other.local
            && self.phase == other.phase
            && self.bytes.as_slice() == other.bytes.as_slice()
    }

    pub(crate) fn is_held(&self) -> bool
        ensures { IsTrue result ↔ IsHeld self.now }
    {
        self.bytes.is_empty() || matches!(self.phase, Phase::Waiting)
    }

    pub(crate) fn turn(&mut self, stage: Stage)
        ensures entry { entry_held self.new ≡ (self.old.slot, at_stage (connection_held self.old) stage) }
        ensures held { IsHeld self.new }
    {
        self.phase = stage.phase();
        self.bytes = match stage {
            Stage::Waiting(feed) => feed.into_bytes(),
            Stage::Holding | Stage::Done => Vec::new(*self.bytes.allocator()),
        };
    }
}
