ghost use Rattle.std.specs.Prelude.{◌≡◌, false, length, slice_get, option_copied, option_map, Ok, Err, None, IfOk};
ghost use Rattle.std.specs.Prelude.{IfSome, OnOk, OnErr, IsOk, ◌^◌, ◌<◌, ◌≤◌};
ghost use Rattle.portmap_table.specs.Creation.{IsCounter, IsCreationFor, IsLegalCreation};
ghost use Rattle.portmap_table.specs.Rows.{AreKept, active_row, and_retired, is_active, is_full_for, is_known};
ghost use Rattle.portmap_table.specs.Rows.{known_len, owner_of, owns_name, registered, remembered, retired_name};
ghost use Rattle.portmap_table.specs.Rows.{retired_of, name_status, with_room};
ghost use Rattle.portmap_table.specs.Table.{GivesOffer, new_table, offered, with_names, with_registration};

use crate::creation::{COUNTER_LEAST, counter_after, creation_for, is_creation_for};
use crate::entries::Entries;
use crate::inserting::{settle, take_out};
use crate::name_status::NameStatus;
use crate::row::{Old, Retired, Row};
use indexmap::IndexMap;
use portmap_wire::{Name, NoMemory, Reg};
use std::alloc::Global;
use std::marker::Model;

#[derive(Clone, Copy, Debug, PartialEq, Eq)]
pub enum RegFault {
    /// The name is active.
    Taken,
    /// The name is not known, and as many names are active as may be known.
    NoRoom,
    NoMemory,
}

impl From<NoMemory> for RegFault {
    ghost use Rattle.portmap_table.specs.declared.table.RegFault.TheVariants as fault;

    ghost from_gives = { λ _ e. e ≡ fault.NoMemory };

    fn from(_e: NoMemory) -> RegFault {
        RegFault::NoMemory
    }
}

/// The names that a port mapper knows, and the counter for creations. Each name has an index of its own, and two lists
/// of indices hold the orders.
pub struct Table {
    entries: Entries,
    // Indices of the active names, in order of registration.
    active: Vec<u32>,
    // Indices of the retired names, in order of retirement. The list has room for each active name too, so that
    // retiring never allocates.
    retired: Vec<u32>,
    // By slot, the index of the active name that the slot owns.
    owners: IndexMap<u64, u32>,
    known_max: u32,
    // The source of the next wide creation.
    counter: u32,
}

impl Drop for Table {
    fn drop(self) {
        let Table {
            entries: _,
            active: _,
            retired: _,
            owners: _,
            known_max: _,
            counter: _,
        } = self;
    }
}

impl Model for Table {
    ghost use Rattle.std.specs.Prelude.{◌≤◌, ◌+◌, ◌^◌, ◌<◌, nat_eq, vec_len, vec_capacity};
    ghost use Rattle.indexmap.specs.IndexMap.{get};
    ghost use Rattle.portmap_table.specs.Table.{TableState};
    ghost use Rattle.portmap_table.specs.Indexes.{IsIndex, names_at};
    ghost use Rattle.portmap_table.specs.Rows.{AreKept};
    ghost use Rattle.portmap_table.specs.Creation.{IsCounter};

    ghost Value = { TableState };

    ghost view = { λ t. record {
      names = names_at t.entries t.active.items t.retired.items;
      known_max = t.known_max;
      counter = t.counter;
    } };

    ghost invariant = { λ t. IsIndex t.entries t.active.items t.retired.items (get nat_eq t.owners)
        × (vec_len t.active + vec_len t.retired ≤ vec_capacity t.retired)
        × AreKept t.known_max (names_at t.entries t.active.items t.retired.items) × IsCounter t.counter
        × (t.known_max < 2 ^ 32) };
}

impl Table {
    /// Creates an empty table for at most `known_max` names. The counter starts at `first`, or at 4 if `first` is less.
    pub fn new(alloc: Global, known_max: u32, first: u32) -> Result<Table, NoMemory>
        ensures empty { IfOk result (λ t. t ≡ new_table known_max first) }
        ensures kept { IfOk result (λ t. AreKept t.known_max t.names) }
    {
        Ok(Table {
            entries: Entries::new(alloc),
            active: Vec::new(alloc),
            retired: Vec::new(alloc),
            owners: IndexMap::new(alloc),
            known_max,
            counter: first.max(COUNTER_LEAST),
        })
    }

    /// Returns a table of these names in these orders, or `None` if and only if they break the invariant of a table.
    pub fn of(
        alloc: Global,
        known_max: u32,
        first: u32,
        active: &[Row],
        retired: &[Old],
    ) -> Result<Option<Table>, NoMemory>
        ensures same { IfOk result (λ o. IfSome o
            (λ t. t ≡ with_names (new_table known_max first) (record { active = active.now; retired = retired.now }))) }
        ensures kept { IfOk result (λ o. IfSome o
            (λ t. AreKept known_max (record { active = active.now; retired = retired.now }))) }
        ensures none { result ≡ Ok None → AreKept known_max
            (record { active = active.now; retired = retired.now }) → ⊥ }
    {
        if active.len().saturating_add(retired.len()) > known_max as usize {
            return Ok(None);
        }
        let mut table = Table::new(alloc, known_max, first)?;
        for old in retired {
            if old.creation == 0 || table.is_known(&old.name) {
                return Ok(None);
            }
            table.append(old)?;
        }
        for row in active {
            if table.is_known(&row.reg.name)
                || table.holds(row.slot)
                || !is_creation_for(row.reg.high, row.creation)
            {
                return Ok(None);
            }
            table.enter(row.try_copy(alloc)?)?;
        }
        Ok(Some(table))
    }

    /// Adds a retired name that is not known. Allocates before any change.
    fn append(&mut self, old: &Old) -> Result<(), NoMemory>
        requires unknown { is_known old.now.name self.old.names ≡ false }
        requires room { known_len self.old.names < self.old.known_max }
        requires creation { (1 ≤ old.now.creation) × (old.now.creation < 2 ^ 32) }
        ensures ok { OnOk result (self.new ≡ with_names self.old (and_retired self.old.names old.now)) }
        ensures kept { AreKept self.new.known_max self.new.names }
    {
        self.retired.reserve(self.active.len() + 1)?;
        let index = self.entries.len() as u32;
        self.entries.append(old)?;
        self.retired.push_reserved(index);
        Ok(())
    }

    /// Makes a name active. If `known_max` names are known, a new name replaces the name that was retired longest ago.
    /// Allocates before any change.
    fn enter(&mut self, row: Row) -> Result<(), NoMemory>
        requires name { is_active row.reg.name self.old.names ≡ false }
        requires room { is_full_for self.old.known_max row.reg.name self.old.names ≡ false }
        requires slot { owns_name row.slot self.old.names ≡ false }
        requires creation { IsCreationFor row.reg.high row.creation }
        ensures ok { OnOk result (self.new ≡ with_names self.old
            (registered row.reg row.creation row.slot (with_room self.old.known_max row.reg.name self.old.names))) }
        ensures err { OnErr result (self.new ≡ self.old) }
        ensures kept { AreKept self.new.known_max self.new.names }
    {
        self.retired.reserve(self.active.len() + 1)?;
        self.active.reserve(1)?;
        self.owners.reserve(1)?;
        let slot = row.slot;
        let index = settle(&mut self.entries, &mut self.retired, self.known_max, row)?;
        self.active.push_reserved(index);
        match self.owners.insert(slot, index) {
            Ok(_) => Ok(()),
            Err(_) => unreachable!(),
        }
    }

    /// Returns the source of the next wide creation, at least 4.
    pub fn counter(&self) -> u32
        ensures same { result ≡ self.now.counter }
        ensures counter { IsCounter result }
    {
        self.counter
    }

    /// Returns the creation that `name` would get from a node of this highest version, or the reason for a refusal.
    pub fn offer(&self, name: &Name, high: u16) -> Result<u32, RegFault>
        ensures exact { result ≡ offered self.now name.now high }
        ensures legal { IfOk result (λ c. IsLegalCreation high (remembered name.now self.now.names) c) }
        ensures kept { AreKept self.now.known_max self.now.names }
    {
        match self.name_status(name) {
            NameStatus::Active => Err(RegFault::Taken),
            NameStatus::NoRoom => Err(RegFault::NoRoom),
            NameStatus::Free(last) => Ok(creation_for(None, self.counter, high, last)),
        }
    }

    /// Registers a name for the connection in `slot` and returns its creation.
    ///
    /// If the limit is reached, a new name replaces the name that was retired longest ago. An error changes nothing.
    /// `NoMemory` is the last error: it is returned only if there is an offer for the name.
    pub fn register(&mut self, reg: Reg, slot: u64) -> Result<u32, RegFault>
        requires { owns_name slot self.old.names ≡ false }
        ensures gives { GivesOffer result (offered self.old reg.name reg.high) }
        ensures ok { IfOk result (λ c. self.new ≡ with_registration self.old reg slot c) }
        ensures err { OnErr result (self.new ≡ self.old) }
        ensures legal { IfOk result (λ c. IsLegalCreation reg.high (remembered reg.name self.old.names) c) }
        ensures memory { result ≡ Err RegFault.NoMemory → IsOk (offered self.old reg.name reg.high) }
        ensures kept { AreKept self.new.known_max self.new.names }
    {
        let creation = self.offer(&reg.name, reg.high)?;
        self.admit(reg, creation, slot)?;
        Ok(creation)
    }

    /// Registers a free name for the connection in `slot`, with this creation. An error changes nothing.
    pub fn admit(&mut self, reg: Reg, creation: u32, slot: u64) -> Result<(), NoMemory>
        requires active { is_active reg.name self.old.names ≡ false }
        requires room { is_full_for self.old.known_max reg.name self.old.names ≡ false }
        requires legal { IsLegalCreation reg.high (remembered reg.name self.old.names) creation }
        requires slot { owns_name slot self.old.names ≡ false }
        ensures ok { OnOk result (self.new ≡ with_registration self.old reg slot creation) }
        ensures err { OnErr result (self.new ≡ self.old) }
        ensures kept { AreKept self.new.known_max self.new.names }
    {
        let counter = counter_after(self.counter, reg.high, creation);
        self.enter(Row {
            reg,
            creation,
            slot,
        })?;
        self.counter = counter;
        Ok(())
    }

    /// Retires the name that `slot` owns, and returns true if and only if it owned a name. Never allocates.
    pub fn retire(&mut self, slot: u64) -> bool
        ensures found { result ≡ owns_name slot self.old.names }
        ensures retired { self.new ≡ with_names self.old (retired_of slot self.old.names) }
        ensures none { result ≡ false → self.new ≡ self.old }
        ensures kept { AreKept self.new.known_max self.new.names }
    {
        let Some(index) = self.owners.swap_remove(&slot) else {
            return false;
        };
        self.entries.retire(index as usize);
        take_out(&mut self.active, index);
        self.retired.push_reserved(index);
        true
    }

    pub fn name_status(&self, name: &Name) -> NameStatus
        ensures { result ≡ name_status self.now.known_max name.now self.now.names }
    {
        match self.entries.index(name) {
            Some(index) => match self.entries.retired(index) {
                Some(retired) => NameStatus::Free(Some(retired.creation)),
                None => NameStatus::Active,
            },
            None if self.active.len() >= self.known_max as usize => NameStatus::NoRoom,
            None => NameStatus::Free(None),
        }
    }

    fn is_known(&self, name: &Name) -> bool
        ensures { result ≡ is_known name.now self.now.names }
    {
        !matches!(
            self.name_status(name),
            NameStatus::NoRoom | NameStatus::Free(None)
        )
    }

    pub fn is_active(&self, name: &Name) -> bool
        ensures { result ≡ is_active name.now self.now.names }
    {
        self.find(name).is_some()
    }

    /// Returns the slot that owns `name`, if the name is active.
    pub fn owner(&self, name: &Name) -> Option<u64>
        ensures { result ≡ owner_of name.now self.now.names }
    {
        self.find(name).map(|row| row.slot)
    }

    /// Returns the row of `name`, if the name is active.
    pub fn find(&self, name: &Name) -> Option<&Row>
        ensures { option_copied result ≡ active_row name.now self.now.names }
    {
        self.entries.row(self.entries.index(name)?)
    }

    /// Returns true if and only if `slot` owns an active name.
    pub fn holds(&self, slot: u64) -> bool
        ensures { result ≡ owns_name slot self.now.names }
    {
        self.owners.contains_key(&slot)
    }

    pub fn active_len(&self) -> usize
        ensures len { result ≡ length self.now.names.active }
        // The invariant of every table.
        ensures kept { AreKept self.now.known_max self.now.names }
        ensures known_max { self.now.known_max < 2 ^ 32 }
        ensures counter { IsCounter self.now.counter }
    {
        self.active.len()
    }

    /// Returns the active name at position `i` in order of registration, from 0.
    pub fn active_at(&self, i: usize) -> Option<&Row>
        ensures { option_copied result ≡ slice_get self.now.names.active i }
    {
        let index = self.active.get(i)?;
        self.entries.row(*index as usize)
    }

    pub fn retired_len(&self) -> usize
        ensures { result ≡ length self.now.names.retired }
    {
        self.retired.len()
    }

    /// Returns the retired name at position `i` in order of retirement, from 0.
    pub fn retired_at(&self, i: usize) -> Option<Retired<'_>>
        ensures { option_map retired_name result ≡ slice_get self.now.names.retired i }
    {
        let index = self.retired.get(i)?;
        self.entries.retired(*index as usize)
    }
}
