ghost use Rattle.std.specs.Prelude.{◌≡◌, Some, None, IfOk, OnErr, IsSome};
ghost use Rattle.std.specs.Option.{option_copied};
ghost use Rattle.portmap_core.specs.Connections.{at_stage, stopped_in};
ghost use Rattle.std.specs.FinMap as map;
ghost use Rattle.portmap_core.specs.declared.connection.Connection.{Connection};
ghost use Rattle.portmap_core.specs.declared.connection.Stage.TheVariants.{Done};

use crate::connection::{Connection, Stage};
use portmap_wire::NoMemory;
use slab::{Iter, Slab};
use std::alloc::Global;
use std::marker::Model;

/// The open connections by slot. A slot is a key of the slab.
#[derive(Drop)]
pub(crate) struct Connections {
    open: Slab<Connection>,
}

impl Model for Connections {
    ghost use Rattle.std.specs.Coded.{coded_ℕ};
    ghost use Rattle.std.specs.FinMap as map;
    ghost use Rattle.portmap_core.specs.Connections.{ConnectionMap, connections_of};
    ghost use Rattle.portmap_core.specs.contracts.connection.Connection as connection;

    ghost Value = { ConnectionMap };

    ghost coded = { map.code coded_ℕ connection.the_row.coded };

    ghost view = { λ s. connections_of s.open.slots };
}

#[tactic(auto, using(crate::proofs::Slots::slot_laws))]
impl Connections {
    pub(crate) fn new(alloc: Global) -> Connections
        ensures { result ≡ map.empty }
    {
        let open = Slab::new(alloc);
        Connections { open }
    }

    pub(crate) fn len(&self) -> usize
        ensures { result ≡ map.len self.now }
    {
        self.open.len()
    }

    pub(crate) fn iter(&self) -> Iter<'_, Connection>
        ensures { result ≡ map.entries self.now }
    {
        self.open.iter()
    }

    pub(crate) fn get(&self, slot: u64) -> Option<&Connection>
        ensures { option_copied result ≡ map.get self.now slot }
    {
        self.open.get(slot as usize)
    }

    /// Opens a connection in a free slot: the slot that was freed last, if there is one.
    pub(crate) fn add(&mut self, connection: Connection) -> Result<u64, NoMemory>
        ensures fresh { IfOk result (λ slot. map.get self.old slot ≡ None) }
        ensures added { IfOk result (λ slot. self.new ≡ map.insert self.old slot connection) }
        ensures err { OnErr result (self.new ≡ self.old) }
    {
        Ok(self.open.insert(connection)? as u64)
    }

    pub(crate) fn remove(&mut self, slot: u64)
        ensures { self.new ≡ map.remove self.old slot }
    {
        self.open.try_remove(slot as usize);
    }

    pub(crate) fn stop(&mut self, stopped: Option<u64>)
        ensures { self.new ≡ stopped_in stopped self.old }
    {
        if let Some(owner) = stopped {
            self.put(owner, Stage::Done);
        }
    }

    /// Takes the stage from an open slot. The connection is `Done` until another stage is put there.
    pub(crate) fn take(&mut self, slot: u64) -> Connection
        requires { IsSome (map.get self.old slot) }
        ensures was { map.get self.old slot ≡ Some result }
        ensures done { self.new ≡ map.insert self.old slot (at_stage result Done) }
    {
        let connection = &mut self.open[slot as usize];
        let local = connection.local;
        let stage = std::mem::replace(&mut connection.stage, Stage::Done);
        Connection { local, stage }
    }

    pub(crate) fn put(&mut self, slot: u64, stage: Stage)
        ensures open { (connection : Connection) → map.get self.old slot ≡ Some connection
            → self.new ≡ map.insert self.old slot (at_stage connection stage) }
        ensures free { map.get self.old slot ≡ None → self.new ≡ self.old }
    {
        if let Some(connection) = self.open.get_mut(slot as usize) {
            connection.stage = stage;
        }
    }
}
