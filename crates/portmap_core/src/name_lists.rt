ghost use Rattle.std.specs.Prelude.{◌≡◌, ◌==◌, ◌↔◌, ◌<◌, Some, false, position, vec_len, vec_capacity, IfOk, IsTrue};
ghost use Rattle.std.specs.Prelude.{OnErr, OnOk};
ghost use Rattle.portmap_table.specs.Rows.{is_active, owner_of, registered, retired_at, retired_of, same_name};
ghost use Rattle.portmap_table.specs.Rows.{with_room};
ghost use Rattle.portmap_core.specs.Names.{left_by};

use portmap_table::{Old, Row, Table};
use portmap_wire::{Name, NoMemory};
use std::alloc::Global;
use std::marker::Model;

/// The known names of a plain state. They need not be valid: a name or a slot may occur twice.
pub(crate) struct NameLists {
    /// In order of registration.
    pub(crate) active: Vec<Row>,
    /// In order of retirement. Rows that are registered or copied here reserve room, so that in practice retiring them
    /// does not allocate. No clause states this.
    pub(crate) retired: Vec<Old>,
}

impl Drop for NameLists {
    fn drop(self) {
        let NameLists {
            active: _,
            retired: _,
        } = self;
    }
}

impl Model for NameLists {
    ghost use Rattle.portmap_table.specs.Rows.{Names};

    ghost Value = { Names };

    ghost view = { λ n. record { active = n.active.items; retired = n.retired.items } };
}

fn slot_index(rows: &[Row], slot: u64) -> Option<usize>
    ensures { result ≡ position (λ row. row.slot == slot) rows.now }
{
    rows.iter().position(|row| row.slot == slot)
}

fn retired_index(names: &[Old], name: &Name) -> Option<usize>
    ensures { result ≡ position (λ old. same_name old.name name.now) names.now }
{
    names.iter().position(|old| old.name == *name)
}

fn leave(active: &mut Vec<Row>, retired: &mut Vec<Old>, at: usize)
    requires index_of_slot { at < vec_len active.old }
    requires room { vec_len retired.old < vec_capacity retired.old }
    ensures { retired_at (Some at) (record { active = active.old.items; retired = retired.old.items })
        ≡ record { active = active.new.items; retired = retired.new.items } }
{
    let row = active.remove(at);
    retired.push_reserved(Old::of(row));
}

/// Removes `name` from the retired names. If it is not there and the limit is reached, removes the name that was
/// retired longest ago.
fn make_way(retired: &mut Vec<Old>, name: &Name, is_full: bool)
    ensures { retired.new.items ≡ left_by
        (position (λ old. same_name old.name name.now) retired.old.items) is_full retired.old.items }
{
    match retired_index(retired.as_slice(), name) {
        Some(at) => drop(retired.remove(at)),
        None if is_full && !retired.is_empty() => drop(retired.remove(0)),
        None => {}
    }
}

impl NameLists {
    pub(crate) fn of_table(alloc: Global, table: &Table) -> Result<NameLists, NoMemory>
        ensures { IfOk result (λ names. names ≡ table.now.names) }
    {
        let mut active = Vec::new(alloc);
        active.reserve(table.active_len())?;
        for i in 0..table.active_len() {
            let Some(row) = table.active_at(i) else {
                unreachable!()
            };
            active.push(row.try_copy(alloc)?)?;
        }
        let mut retired = Vec::new(alloc);
        retired.reserve(table.retired_len().saturating_add(table.active_len()))?;
        for k in 0..table.retired_len() {
            let Some(old) = table.retired_at(k) else {
                unreachable!()
            };
            retired.push(old.try_copy(alloc)?)?;
        }
        Ok(NameLists { active, retired })
    }

    pub(crate) fn try_copy(&self, alloc: Global) -> Result<NameLists, NoMemory>
        ensures { IfOk result (λ copy. copy ≡ self.now) }
    {
        let mut active = Vec::new(alloc);
        active.reserve(self.active.len())?;
        for row in &self.active {
            active.push(row.try_copy(alloc)?)?;
        }
        let mut retired = Vec::new(alloc);
        retired.reserve(self.retired.len().saturating_add(self.active.len()))?;
        for old in &self.retired {
            retired.push(old.try_copy(alloc)?)?;
        }
        Ok(NameLists { active, retired })
    }

    pub(crate) fn same(&self, other: &NameLists) -> bool
        ensures { IsTrue result ↔ (self.now ≡ other.now) }
    {
        self.active == other.active && self.retired == other.retired
    }

    pub(crate) fn owner(&self, name: &Name) -> Option<u64>
        ensures { result ≡ owner_of name.now self.now }
    {
        self.active
            .iter()
            .find(|row| row.reg.name == *name)
            .map(|row| row.slot)
    }

    /// Makes a name active. If the limit is reached, a new name replaces the name that was retired longest ago.
    /// Allocates before any change.
    pub(crate) fn register(&mut self, known_max: u32, row: Row) -> Result<(), NoMemory>
        requires { is_active row.reg.name self.old ≡ false }
        ensures ok { OnOk result (self.new ≡ registered row.reg row.creation row.slot
            (with_room known_max row.reg.name self.old)) }
        ensures err { OnErr result (self.new ≡ self.old) }
    {
        self.retired.reserve(self.active.len() + 1)?;
        self.active.reserve(1)?;
        let is_full = self.active.len() + self.retired.len() >= known_max as usize;
        make_way(&mut self.retired, &row.reg.name, is_full);
        self.active.push_reserved(row);
        Ok(())
    }

    /// Retires the name that a slot owns, if any. Allocates before any change.
    pub(crate) fn retire(&mut self, slot: u64) -> Result<(), NoMemory>
        ensures ok { OnOk result (self.new ≡ retired_of slot self.old) }
        ensures err { OnErr result (self.new ≡ self.old) }
    {
        let Some(at) = slot_index(self.active.as_slice(), slot) else {
            return Ok(());
        };
        self.retired.reserve(1)?;
        leave(&mut self.active, &mut self.retired, at);
        Ok(())
    }
}
