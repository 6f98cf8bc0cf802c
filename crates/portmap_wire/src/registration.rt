ghost use Rattle.std.specs.Prelude.{◌≡◌, ◌↔◌, ◌+◌, ◌<◌, ◌≤◌, length, IfOk, OnOk};

use crate::NoMemory;
use crate::name::Name;
use crate::request::BODY_MOST;
use std::alloc::Global;
use std::marker::Model;

#[derive(Clone, Copy, Debug, PartialEq, Eq)]
pub enum ExtraFault {
    /// The request would have more than 8,192 bytes with these extra bytes.
    TooLong,
    NoMemory,
}

impl From<NoMemory> for ExtraFault {
    ghost use Rattle.std.specs.Prelude.{◌≡◌};
    ghost use Rattle.portmap_wire.specs.declared.registration.ExtraFault.TheVariants as fault;

    ghost from_gives = { λ _ e. e ≡ fault.NoMemory };

    fn from(_refused: NoMemory) -> ExtraFault {
        ExtraFault::NoMemory
    }
}

/// A node's registration, with the fields of ALIVE2_REQ in the ERTS User's Guide. Each number may have any value. A
/// request with this registration has at most 8,192 bytes.
#[derive(Debug, Drop)]
pub struct Reg {
    /// PortNo, the port that the node listens on.
    pub port: u16,
    /// NodeType: 77 is a normal node, 72 a hidden node.
    pub kind: u8,
    /// Protocol: 0 is TCP over IPv4.
    pub proto: u8,
    /// HighestVersion of the distribution protocol that the node speaks.
    pub high: u16,
    pub low: u16,
    /// NodeName, the part of the node's name before the `@`.
    pub name: Name,
    /// Extra, which the port mapper stores and returns unread.
    pub extra: Vec<u8>,
}

impl Model for Reg {
    ghost use Rattle.portmap_wire.specs.Node.{Node, IsNode};

    ghost Value = { Node };

    ghost view = { λ g. record {
      port = g.port;
      kind = g.kind;
      proto = g.proto;
      high = g.high;
      low = g.low;
      name = g.name;
      extra = g.extra.items;
    } };

    ghost invariant = { λ g. IsNode (record {
      port = g.port;
      kind = g.kind;
      proto = g.proto;
      high = g.high;
      low = g.low;
      name = g.name;
      extra = g.extra.items;
    }) };
}

impl Reg {
    /// Builds a registration.
    ///
    /// # Errors
    /// `TooLong` if and only if the request would have more than [`BODY_MOST`] bytes.
    pub fn new(
        alloc: Global,
        port: u16,
        kind: u8,
        proto: u8,
        high: u16,
        low: u16,
        name: Name,
        extra: &[u8],
    ) -> Result<Reg, ExtraFault>
        ensures ok { IfOk result (λ g. g ≡ record
            { port = port; kind = kind; proto = proto; high = high; low = low; name = name; extra = extra.now }) }
        ensures fits { OnOk result (13 + length name + length extra.now ≤ BODY_MOST) }
        ensures too_long { result ≡ Err ExtraFault.TooLong ↔ (BODY_MOST < 13 + length name + length extra.now) }
    {
        if 13 + name.bytes().len() + extra.len() > BODY_MOST as usize {
            return Err(ExtraFault::TooLong);
        }
        Ok(Reg::fitting(alloc, port, kind, proto, high, low, name, extra)?)
    }

    pub(crate) fn fitting(
        alloc: Global,
        port: u16,
        kind: u8,
        proto: u8,
        high: u16,
        low: u16,
        name: Name,
        extra: &[u8],
    ) -> Result<Reg, NoMemory>
        requires fits { 13 + length name + length extra.now ≤ BODY_MOST }
        ensures { IfOk result (λ g. g ≡ record {
          port = port;
          kind = kind;
          proto = proto;
          high = high;
          low = low;
          name = name;
          extra = extra.now;
        }) }
    {
        let extra = Vec::from_slice(alloc, extra)?;
        Ok(Reg {
            port,
            kind,
            proto,
            high,
            low,
            name,
            extra,
        })
    }

    pub fn try_copy(&self, alloc: Global) -> Result<Reg, NoMemory>
        ensures same { IfOk result (λ g. g ≡ self.now) }
    {
        let name = self.name.try_copy(alloc)?;
        Reg::fitting(
            alloc,
            self.port,
            self.kind,
            self.proto,
            self.high,
            self.low,
            name,
            &self.extra,
        )
    }
}

impl PartialEq for Reg {
    ghost use Rattle.std.specs.Prelude.{◌≡◌, ◌↔◌, nat_eq, IsTrue};
    ghost use Rattle.std.specs.Cmp.Lexicographic.{pointwise};
    ghost use Rattle.std.specs.Ordering.{on, eq_of_both};
    ghost use Rattle.std.proofs.Common.{rules};
    ghost use Rattle.std.specs.Cmp.Rules.{comparing};
    ghost use Rattle.portmap_wire.specs.Node.{are_same};

    ghost eq = { are_same };

    ghost laws = { Prim.search (comparing, rules) };

    fn eq(&self, other: &Reg) -> bool
        ensures eq { result ≡ are_same self.now other.now }
        ensures same { IsTrue result ↔ (self.now ≡ other.now) }
    {
        self.port == other.port
            && self.kind == other.kind
            && self.proto == other.proto
            && self.high == other.high
            && self.low == other.low
            && self.name == other.name
            && self.extra.as_slice() == other.extra.as_slice()
    }
}

impl Eq for Reg {
    ghost use Rattle.std.proofs.Common.{rules};
    ghost use Rattle.std.specs.Cmp.Rules.{comparing};

    ghost laws = { Prim.search (comparing, rules) };
}
