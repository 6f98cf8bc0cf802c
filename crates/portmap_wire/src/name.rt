ghost use Rattle.std.specs.Prelude.{◌≡◌, ◌≢◌, position, IfOk, Ok, Err, IsOk, MatchBool, MatchResult};
ghost use Rattle.portmap_wire.specs.Name.{IsName, is_control};
ghost use Rattle.portmap_wire.specs.RequestReading.{GivesName, name_in};

use crate::NoMemory;
use std::alloc::Global;
use std::hash::{Hash, Hasher};
use std::marker::Model;

/// The largest length of a name, in bytes.
pub const NAME_MOST: usize = 1_020;

#[derive(Clone, Copy, Debug, PartialEq, Eq)]
pub enum NameFault {
    Empty,
    /// There are more than [`NAME_MOST`] bytes.
    TooLong,
    /// The offset of the first control character: a byte below 32, or 127.
    BadByte(usize),
    NoMemory,
}

impl From<NoMemory> for NameFault {
    ghost use Rattle.std.specs.Prelude.{◌≡◌};
    ghost use Rattle.portmap_wire.specs.declared.name.NameFault.TheVariants as fault;

    ghost from_gives = { λ _ e. e ≡ fault.NoMemory };

    fn from(_refused: NoMemory) -> NameFault {
        NameFault::NoMemory
    }
}

/// A node's name: 1 to [`NAME_MOST`] bytes without control characters. Bytes from 128 up pass unchecked.
#[derive(Debug, Drop)]
pub struct Name {
    bytes: Vec<u8>,
}

impl Model for Name {
    ghost use Rattle.std.specs.Prelude.{List, ℕ};
    ghost use Rattle.portmap_wire.specs.Name.{IsName};

    ghost Value = { List ℕ };

    ghost view = { λ n. n.bytes.items };

    ghost invariant = { λ n. IsName n.bytes.items };
}

fn first_control(bytes: &[u8]) -> Option<usize>
    ensures { result ≡ position is_control bytes.now }
{
    bytes.iter().position(|b| *b < 32 || *b == 127)
}

/// Returns the first fault, in the order of `NameFault`.
fn check_name(bytes: &[u8]) -> Result<(), NameFault>
    ensures name { MatchResult result (λ _. IsName bytes.now) (λ _. IsName bytes.now → ⊥) }
    ensures exact { MatchResult result (λ _. name_in bytes.now ≡ Ok bytes.now)
        (λ fault. name_in bytes.now ≡ Err fault) }
    ensures memory { result ≢ Err NameFault.NoMemory }
{
    if bytes.is_empty() {
        return Err(NameFault::Empty);
    }
    if bytes.len() > NAME_MOST {
        return Err(NameFault::TooLong);
    }
    match first_control(bytes) {
        Some(at) => Err(NameFault::BadByte(at)),
        None => Ok(()),
    }
}

pub(crate) fn is_name(bytes: &[u8]) -> bool
    ensures { MatchBool result (IsName bytes.now) (IsName bytes.now → ⊥) }
{
    check_name(bytes).is_ok()
}

impl Name {
    /// Copies `bytes` into a name, or returns the first fault in the order of `NameFault`.
    pub fn read(alloc: Global, bytes: &[u8]) -> Result<Name, NameFault>
        ensures found { IfOk result (λ n. (n ≡ bytes.now) × IsName bytes.now) }
        ensures only { IsName bytes.now → GivesName result (Ok bytes.now) }
        ensures exact { GivesName result (name_in bytes.now) }
        ensures memory { result ≡ Err NameFault.NoMemory → IsOk (name_in bytes.now) }
    {
        check_name(bytes)?;
        Ok(Name {
            bytes: Vec::from_slice(alloc, bytes)?,
        })
    }

    pub fn bytes(&self) -> &[u8]
        ensures bytes { result.now ≡ self.now }
        ensures name { IsName self.now }
    {
        self.bytes.as_slice()
    }

    /// Copies the name. `Clone` is not derived, because its contract could not say which error it returns.
    pub fn try_copy(&self, alloc: Global) -> Result<Name, NoMemory>
        ensures same { IfOk result (λ n. n ≡ self.now) }
    {
        Ok(Name {
            bytes: Vec::from_slice(alloc, self.bytes())?,
        })
    }
}

impl PartialEq for Name {
    ghost use Rattle.std.specs.Prelude.{◌==◌};
    ghost use Rattle.std.specs.Cmp.Lexicographic.{pointwise};
    ghost use Rattle.std.proofs.Common.{rules};
    ghost use Rattle.std.specs.Cmp.Rules.{comparing};

    ghost eq = { pointwise ◌==◌ };

    ghost laws = { Prim.search (comparing, rules) };

    fn eq(&self, other: &Name) -> bool {
        self.bytes() == other.bytes()
    }
}

impl Eq for Name {
    ghost use Rattle.std.proofs.Common.{rules};
    ghost use Rattle.std.specs.Cmp.Rules.{comparing};

    ghost laws = { Prim.search (comparing, rules) };
}

impl Hash for Name {
    ghost use Rattle.std.proofs.Common.{rules};
    ghost use Rattle.std.specs.Hash as fed;
    ghost use Rattle.std.specs.Cmp.Rules.{hashing};

    ghost hash_input = { λ n. fed.slice fed.u8 n };

    ghost respects_eq = { Prim.search (hashing, rules) };

    fn hash<H: Hasher>(&self, state: &mut H) {
        self.bytes.hash(state);
    }
}
