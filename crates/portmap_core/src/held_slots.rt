ghost use Rattle.std.specs.Prelude.{◌≡◌, ◌↔◌, [], Some, None, IfOk, IfSome, IsTrue, MatchResult, OnErr, OnOk};
ghost use Rattle.std.specs.Prelude.{option_map};
ghost use Rattle.std.specs.FinMap as map;
ghost use Rattle.portmap_core.specs.declared.connection.Connection.{Connection};
ghost use Rattle.portmap_core.specs.declared.connection.Stage.TheVariants as stage;
ghost use Rattle.portmap_core.specs.Connections.{IsHolding, SlotsRise, at_stage, stopped_in};
ghost use Rattle.portmap_core.specs.Held.{AreHeld, IsAt, IsGapFor, connection_held, connections_held, entries_held};

use crate::connection::{Connection, Phase, Stage};
use crate::connections::Connections;
use crate::held::Held;
use portmap_wire::NoMemory;
use std::alloc::Global;
use std::marker::Model;

/// The open connections of a plain state, by rising slot. Slots may be any numbers.
#[derive(Drop)]
pub(crate) struct Slots {
    held: Vec<Held>,
}

impl Model for Slots {
    ghost use Rattle.std.specs.Coded.{coded_ℕ};
    ghost use Rattle.std.specs.FinMap as map;
    ghost use Rattle.portmap_core.specs.Connections.{ConnectionMap};
    ghost use Rattle.portmap_core.specs.Held.{AreHeld, connections_held};
    ghost use Rattle.portmap_core.specs.contracts.connection.Connection as connection;

    ghost Value = { ConnectionMap };

    ghost coded = { map.code coded_ℕ connection.the_row.coded };

    ghost view = { λ s. connections_held s.held.items };

    ghost invariant = { λ s. AreHeld s.held.items };
}

fn index_of_slot(held: &[Held], slot: u64) -> Result<usize, usize>
    requires { SlotsRise (entries_held held.now) }
    ensures { MatchResult result (IsAt held.now slot) (IsGapFor held.now slot) }
{
    held.binary_search_by_key(&slot, |h| h.slot)
}

fn are_held(held: &[Held]) -> bool
    ensures { IsTrue result ↔ AreHeld held.now }
{
    held.is_sorted_by(|before, here| before.slot < here.slot) && held.iter().all(|h| h.is_held())
}

#[tactic(auto, using(crate::proofs::HeldLaws::held_laws))]
impl Slots {
    pub(crate) fn new(alloc: Global) -> Slots
        ensures { result ≡ map.empty }
    {
        let held = Vec::new(alloc);
        Slots { held }
    }

    pub(crate) fn len(&self) -> usize
        ensures { result ≡ map.len self.now }
    {
        self.held.len()
    }

    pub(crate) fn held(&self) -> &[Held]
        ensures entries { entries_held result.now ≡ map.entries self.now }
        ensures held { AreHeld result.now }
    {
        self.held.as_slice()
    }

    pub(crate) fn get(&self, slot: u64) -> Option<&Held>
        ensures { option_map (λ h. connection_held h.now) result ≡ map.get self.now slot }
    {
        let at = index_of_slot(self.held.as_slice(), slot).ok()?;
        Some(&self.held[at])
    }

    /// Returns these connections, or `None` if the slots do not rise or a connection that is not waiting has bytes.
    pub(crate) fn of(held: Vec<Held>) -> Option<Slots>
        ensures same { IfSome result (λ s. s ≡ connections_held held.items) }
        ensures fit { IfSome result (λ s. AreHeld held.items) }
        ensures none { result ≡ None → AreHeld held.items → ⊥ }
    {
        if !are_held(held.as_slice()) {
            return None;
        }
        Some(Slots { held })
    }

    pub(crate) fn holds(&self, slot: u64) -> bool
        ensures { IsTrue result ↔ IsHolding (map.get self.now slot) }
    {
        matches!(self.get(slot), Some(held) if held.phase == Phase::Holding)
    }

    pub(crate) fn open(&mut self, alloc: Global, slot: u64, local: bool) -> Result<(), NoMemory>
        requires { map.get self.old slot ≡ None }
        ensures ok { OnOk result (self.new ≡ map.insert self.old slot
            (record { local = local; stage = stage.Waiting [] })) }
        ensures err { OnErr result (self.new ≡ self.old) }
    {
        let Err(at) = index_of_slot(self.held.as_slice(), slot) else {
            unreachable!()
        };
        self.held.insert(
            at,
            Held {
                slot,
                local,
                phase: Phase::Waiting,
                bytes: Vec::new(alloc),
            },
        )?;
        Ok(())
    }

    pub(crate) fn remove(&mut self, slot: u64)
        ensures { self.new ≡ map.remove self.old slot }
    {
        if let Ok(at) = index_of_slot(self.held.as_slice(), slot) {
            self.held.remove(at);
        }
    }

    pub(crate) fn put(&mut self, slot: u64, stage: Stage)
        ensures open { (connection : Connection) → map.get self.old slot ≡ Some connection
            → self.new ≡ map.insert self.old slot (at_stage connection stage) }
        ensures free { map.get self.old slot ≡ None → self.new ≡ self.old }
    {
        if let Ok(at) = index_of_slot(self.held.as_slice(), slot) {
            self.held[at].turn(stage);
        }
    }

    pub(crate) fn stop(&mut self, stopped: Option<u64>)
        ensures { self.new ≡ stopped_in stopped self.old }
    {
        if let Some(owner) = stopped {
            self.put(owner, Stage::Done);
        }
    }

    pub(crate) fn copy_of(alloc: Global, source: &Connections) -> Result<Slots, NoMemory>
        ensures { IfOk result (λ s. s ≡ source.now) }
    {
        let mut held = Vec::new(alloc);
        for (slot, connection) in source.iter() {
            let bytes = match &connection.stage {
                Stage::Waiting(feed) => Vec::from_slice(alloc, feed.kept())?,
                Stage::Holding | Stage::Done => Vec::new(alloc),
            };
            held.push(Held {
                slot: slot as u64,
                local: connection.local,
                phase: connection.stage.phase(),
                bytes,
            })?;
        }
        Ok(Slots { held })
    }

    pub(crate) fn try_copy(&self, alloc: Global) -> Result<Slots, NoMemory>
        ensures { IfOk result (λ copy. copy ≡ self.now) }
    {
        let mut held = Vec::new(alloc);
        held.reserve(self.held.len())?;
        for h in self.held.as_slice() {
            held.push(h.try_copy(alloc)?)?;
        }
        Ok(Slots { held })
    }

    pub(crate) fn same(&self, other: &Slots) -> bool
        ensures { IsTrue result ↔ (self.now ≡ other.now) }
    {
        let (held, others) = (self.held.as_slice(), other.held.as_slice());
        held.len() == others.len() && held.iter().zip(others).all(|(h, other)| h.is_same(other))
    }
}
