ghost use Rattle.std.specs.Prelude.{◌≡◌, ◌↔◌, IfOk, IsTrue};
ghost use Rattle.portmap_table.specs.Rows.{old_name, retired_name};

use portmap_wire::{Name, NoMemory, Reg};
use std::alloc::Global;

/// An active name.
#[derive(Drop, PartialEq, Eq)]
pub struct Row {
    pub reg: Reg,
    pub creation: u32,
    /// The slot of the connection that owns the name.
    pub slot: u64,
}

impl Row {
    pub fn try_copy(&self, alloc: Global) -> Result<Row, NoMemory>
        ensures same { IfOk result (λ copy. copy ≡ self.now) }
    {
        Ok(Row {
            reg: self.reg.try_copy(alloc)?,
            creation: self.creation,
            slot: self.slot,
        })
    }
}

/// A retired name.
#[derive(Drop, PartialEq, Eq)]
pub struct Old {
    pub name: Name,
    /// The port that its node listened on.
    pub port: u16,
    /// The last creation of its node.
    pub creation: u32,
}

/// A retired name, borrowed from a table.
#[derive(Clone, Copy)]
pub struct Retired<'a> {
    pub name: &'a Name,
    pub port: u16,
    pub creation: u32,
}

impl Old {
    /// Returns what is remembered of a row.
    pub fn of(row: Row) -> Old
        ensures { result ≡ old_name row }
    {
        let Row { reg, creation, .. } = row;
        let Reg { name, port, .. } = reg;
        Old {
            name,
            port,
            creation,
        }
    }

    pub fn try_copy(&self, alloc: Global) -> Result<Old, NoMemory>
        ensures same { IfOk result (λ copy. copy ≡ self.now) }
    {
        let lent = Retired {
            name: &self.name,
            port: self.port,
            creation: self.creation,
        };
        lent.try_copy(alloc)
    }
}

impl Retired<'_> {
    pub fn try_copy(&self, alloc: Global) -> Result<Old, NoMemory>
        ensures same { IfOk result (λ copy. copy ≡ retired_name self.now) }
    {
        Ok(Old {
            name: self.name.try_copy(alloc)?,
            port: self.port,
            creation: self.creation,
        })
    }
}
