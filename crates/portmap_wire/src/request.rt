ghost use Rattle.portmap_wire.specs.Request.{SpellsOneRequest, HasOneBody};

use crate::NoMemory;
use crate::name::{Name, NameFault};
use crate::registration::Reg;

/// The largest length of a request's body, in bytes. The least is 1.
pub const BODY_MOST: u16 = 8_192;

// The first byte of each request's body.
pub const ALIVE2_REQ: u8 = 120;

pub const PORT_PLEASE2_REQ: u8 = 122;

pub const NAMES_REQ: u8 = 110;

pub const DUMP_REQ: u8 = 100;

pub const KILL_REQ: u8 = 107;

pub const STOP_REQ: u8 = 115;

#[derive(Drop)]
pub enum Request {
    /// ALIVE2_REQ: registers a node.
    Alive(Reg),
    /// PORT_PLEASE2_REQ: looks up a name.
    Port(Name),
    /// NAMES_REQ: lists the active names.
    Names,
    /// DUMP_REQ: lists all known names.
    Dump,
    /// KILL_REQ: ends the port mapper.
    Kill,
    /// STOP_REQ: ends the registration of a name.
    Stop(Name),
}

#[derive(Clone, Copy, Debug, PartialEq, Eq)]
pub enum Malformed {
    /// The body is empty, or is an ALIVE2_REQ of fewer than 13 bytes.
    Short,
    /// The first byte is not 100, 107, 110, 115, 120 or 122.
    UnknownTag,
    /// An ALIVE2_REQ has more than 8,192 bytes or its lengths do not add up to its size, or bytes follow a request of a
    /// single byte.
    LengthsDisagree,
    /// The name is not a name. The fault is never `NameFault::NoMemory`.
    Name(NameFault),
    NoMemory,
}

impl From<NameFault> for Malformed {
    ghost use Rattle.std.specs.Prelude.{◌≡◌};
    ghost use Rattle.portmap_wire.specs.RequestReading.{in_request};

    ghost from_gives = { λ fault malformed. malformed ≡ in_request fault };

    fn from(fault: NameFault) -> Malformed {
        match fault {
            NameFault::NoMemory => Malformed::NoMemory,
            other => Malformed::Name(other),
        }
    }
}

impl From<NoMemory> for Malformed {
    ghost use Rattle.std.specs.Prelude.{◌≡◌};
    ghost use Rattle.portmap_wire.specs.declared.request.Malformed.TheVariants as malformed;

    ghost from_gives = { λ _ fault. fault ≡ malformed.NoMemory };

    fn from(_refused: NoMemory) -> Malformed {
        Malformed::NoMemory
    }
}

/// Law: a body spells at most one request.
pub fn spelling_is_one()
    ensures { SpellsOneRequest }
{}

/// Law: a request has exactly one body.
pub fn bodies_are_one()
    ensures { HasOneBody }
{}
