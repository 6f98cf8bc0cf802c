//! Registrations that were refused since their names are in use, and the line that names them.
ghost use Rattle.std.specs.Prelude.{◌≡◌, ◌+◌, ◌-◌, ◌^◌, ◌⊎◌, ◌++◌, min, Some, None, IfSome};
ghost use Rattle.std.specs.Prelude.{OnOk};
ghost use Rattle.portmap_core.specs.Entry.{entry_in};
ghost use Rattle.portmap_operator.specs.Refused.{AsksToRegister, and_more, in_use_line};

use crate::outcome::Outcome;
use crate::showing::put_shown;
use itoa::Buffer;
use portmap_core::{Entry, Name, NoMemory, name_to_register};
use std::alloc::Global;

/// The registrations of names in use that were refused since the last notice of them.
#[derive(Drop)]
pub struct Refused {
    /// The first name that could be read from a request. A request has to arrive in one chunk for that.
    name: Option<Name>,
    count: u64,
}

impl Refused {
    pub fn new() -> Refused
        ensures name { result.name ≡ None }
        ensures count { result.count ≡ 0 }
    {
        Refused {
            name: None,
            count: 0,
        }
    }

    pub fn count(&self) -> u64
        ensures { result ≡ self.now.count }
    {
        self.count
    }

    /// Counts an entry of the log with this outcome if that is a name in use.
    pub fn note(&mut self, alloc: Global, outcome: Outcome, entry: &Entry)
        ensures counted { outcome ≡ Outcome.InUse → self.new.count ≡ min (self.old.count + 1) (2 ^ 64 - 1) }
        ensures passed { (outcome ≡ Outcome.InUse → ⊥) → self.new ≡ self.old }
        ensures first { IfSome self.old.name (λ name. self.new.name ≡ Some name) }
        ensures named { IfSome self.new.name (λ name.
            (self.old.name ≡ Some name) ⊎ AsksToRegister (entry_in entry.now) name) }
    {
        if outcome != Outcome::InUse {
            return;
        }
        self.count = self.count.saturating_add(1);
        match entry {
            Entry::Piece { bytes, .. } if self.name.is_none() => {
                self.name = name_to_register(alloc, bytes.as_slice());
            }
            _ => {}
        }
    }

    /// Appends the line that names the first refused name, and says how many more there were.
    pub fn put(&self, line: &mut Vec<u8>) -> Result<(), NoMemory>
        ensures { OnOk result (line.new.items ≡ line.old.items ++ in_use_line self.now.name (self.now.count - 1)) }
    {
        line.extend_from_slice(b"epmd: ")?;
        match &self.name {
            Some(name) => {
                line.extend_from_slice(b"name ")?;
                put_shown(line, name.bytes())?;
            }
            None => line.extend_from_slice(b"a name")?,
        }
        line.extend_from_slice(b" is in use")?;
        put_more(line, self.count)?;
        line.extend_from_slice(b"\n")
    }
}

pub(crate) fn put_more(line: &mut Vec<u8>, count: u64) -> Result<(), NoMemory>
    ensures { OnOk result (line.new.items ≡ line.old.items ++ and_more (count - 1)) }
{
    if count > 1 {
        line.extend_from_slice(b", and ")?;
        line.extend_from_slice(Buffer::new().format(count - 1).as_bytes())?;
        line.extend_from_slice(b" more")?;
    }
    Ok(())
}
