//! The known names with their rows. A name keeps its index for as long as it is known.
ghost use Rattle.std.specs.Prelude.{◌≡◌, ◌<◌, ◌^◌, ℕ, length, slice_get, option_copied, option_map, Some, None, IfSome};
ghost use Rattle.std.specs.Prelude.{IfOk, OnOk, OnErr, [], ◌++◌, ◌∷◌};
ghost use Rattle.portmap_table.specs.declared.entries.NameEntry.{NameEntry};
ghost use Rattle.portmap_table.specs.declared.row.Row.{Row};
ghost use Rattle.portmap_table.specs.Indexes.{AreNamed, IsActiveAt, IsNamed, IsNew, Puts, StandsAs, active_entry};
ghost use Rattle.portmap_table.specs.Indexes.{active_in, retired_entry, retired_in};
ghost use Rattle.portmap_table.specs.Rows.{old_name, retired_name};

use crate::row::{Old, Retired, Row};
use indexmap::IndexMap;
use portmap_wire::{Name, NoMemory};
use std::alloc::Global;
use std::marker::Model;

/// The row of an active name, or what is remembered of a retired name.
#[derive(Drop)]
pub(crate) enum NameEntry {
    Active(Row),
    Retired { port: u16, creation: u32 },
}

#[derive(Drop)]
pub(crate) struct Entries {
    kept: IndexMap<Name, NameEntry>,
}

impl Model for Entries {
    ghost use Rattle.std.specs.Prelude.{List};
    ghost use Rattle.std.specs.Coded.{coded_list, coded_ℕ, coded×};
    ghost use Rattle.portmap_table.specs.contracts.entries.NameEntry as what;
    ghost use Rattle.portmap_table.specs.Indexes.{AreNamed, Entry};

    ghost Value = { List Entry };

    ghost coded = { coded_list (coded× (coded_list coded_ℕ) what.the_row.coded) };

    ghost view = { λ e. e.kept.entries };

    ghost invariant = { λ e. AreNamed e.kept.entries };
}

impl Entries {
    pub(crate) fn new(alloc: Global) -> Entries
        ensures { result ≡ [] }
    {
        Entries {
            kept: IndexMap::new(alloc),
        }
    }

    pub(crate) fn len(&self) -> usize
        ensures len { result ≡ length self.now }
        ensures small { result < 2 ^ 63 }
        ensures named { AreNamed self.now }
    {
        self.kept.len()
    }

    pub(crate) fn index(&self, name: &Name) -> Option<usize>
        ensures found { IfSome result (λ index. StandsAs name.now self.now index) }
        ensures within { IfSome result (λ index. index < length self.now) }
        ensures only { (index : ℕ) (kept : NameEntry) → slice_get self.now index ≡ Some (name.now, kept)
            → result ≡ Some index }
    {
        self.kept.get_index_of(name)
    }

    pub(crate) fn at(&self, index: usize) -> Option<(&Name, &NameEntry)>
        ensures { option_map (λ e. (e.0.now, e.1.now)) result ≡ slice_get self.now index }
    {
        self.kept.get_index(index)
    }

    pub(crate) fn row(&self, index: usize) -> Option<&Row>
        ensures { option_copied result ≡ active_in (slice_get self.now index) }
    {
        match self.at(index)? {
            (_, NameEntry::Active(row)) => Some(row),
            (_, NameEntry::Retired { .. }) => None,
        }
    }

    pub(crate) fn retired(&self, index: usize) -> Option<Retired<'_>>
        ensures { option_map retired_name result ≡ retired_in (slice_get self.now index) }
    {
        match self.at(index)? {
            (_, NameEntry::Active(_)) => None,
            (name, NameEntry::Retired { port, creation }) => Some(Retired {
                name,
                port: *port,
                creation: *creation,
            }),
        }
    }

    pub(crate) fn append(&mut self, old: &Old) -> Result<(), NoMemory>
        requires { IsNew old.now.name self.old }
        ensures ok { OnOk result (self.new ≡ self.old ++ retired_entry old.now ∷ []) }
        ensures err { OnErr result (self.new ≡ self.old) }
    {
        let name = old.name.try_copy(*self.kept.allocator())?;
        self.insert(
            name,
            NameEntry::Retired {
                port: old.port,
                creation: old.creation,
            },
        )
    }

    fn insert(&mut self, name: Name, kept: NameEntry) -> Result<(), NoMemory>
        requires new { IsNew name self.old }
        requires named { IsNamed (name, kept) }
        ensures ok { OnOk result (self.new ≡ self.old ++ (name, kept) ∷ []) }
        ensures err { OnErr result (self.new ≡ self.old) }
    {
        match self.kept.insert(name, kept) {
            Ok(_) => Ok(()),
            Err(_) => Err(NoMemory),
        }
    }

    pub(crate) fn push(&mut self, row: Row) -> Result<(), NoMemory>
        requires { IsNew row.reg.name self.old }
        ensures ok { OnOk result (self.new ≡ self.old ++ active_entry row ∷ []) }
        ensures err { OnErr result (self.new ≡ self.old) }
    {
        let name = row.reg.name.try_copy(*self.kept.allocator())?;
        self.insert(name, NameEntry::Active(row))
    }

    /// Replaces the name at `index`, which is forgotten, by a new name. Allocates before any change.
    pub(crate) fn replace(&mut self, index: usize, row: Row) -> Result<(), NoMemory>
        requires index { index < length self.old }
        requires name { IsNew row.reg.name self.old }
        ensures ok { OnOk result (Puts self.old self.new index (active_entry row)) }
        ensures len { OnOk result (length self.new ≡ length self.old) }
        ensures err { OnErr result (self.new ≡ self.old) }
    {
        self.push(row)?;
        self.kept.swap_remove_index(index);
        Ok(())
    }

    pub(crate) fn activate(&mut self, index: usize, row: Row)
        requires { StandsAs row.reg.name self.old index }
        ensures puts { Puts self.old self.new index (active_entry row) }
        ensures len { length self.new ≡ length self.old }
    {
        self.kept[index] = NameEntry::Active(row);
    }

    pub(crate) fn retire(&mut self, index: usize)
        requires { IsActiveAt self.old index }
        ensures puts { (row : Row) → slice_get self.old index ≡ Some (active_entry row)
            → Puts self.old self.new index (retired_entry (old_name row)) }
        ensures len { length self.new ≡ length self.old }
    {
        let NameEntry::Active(row) = &self.kept[index] else {
            unreachable!()
        };
        self.kept[index] = NameEntry::Retired {
            port: row.reg.port,
            creation: row.creation,
        };
    }
}
