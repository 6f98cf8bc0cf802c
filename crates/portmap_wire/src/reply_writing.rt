ghost use Rattle.std.specs.Prelude.{◌≡◌, ◌<◌, ◌^◌, IfOk, option_map};
ghost use Rattle.portmap_wire.specs.Reply.{alive_reply, port2_reply};

use crate::NoMemory;
use crate::fields_writing::put_fields;
use crate::registration::Reg;
use std::alloc::Global;

// The first byte of each reply.
pub const ALIVE2_X_RESP: u8 = 118;

pub const ALIVE2_RESP: u8 = 121;

pub const PORT2_RESP: u8 = 119;

/// The lowest HighestVersion that gets ALIVE2_X_RESP, with a creation of 4 bytes.
pub const WIDE_VERSION: u16 = 6;

/// Writes the reply to a registration of a node whose highest version is `high`.
///
/// The reply is ALIVE2_X_RESP with a creation of 4 bytes from version 6 on, and ALIVE2_RESP with 2 bytes below it. Code
/// 0 is success. With any other code the daemon passes creation 0.
pub fn write_alive(alloc: Global, high: u16, code: u8, creation: u32) -> Result<Vec<u8>, NoMemory>
    requires { high < WIDE_VERSION → creation < 2 ^ 16 }
    ensures { IfOk result (λ v. v.items ≡ alive_reply high code creation) }
{
    if high < WIDE_VERSION {
        let [a, b] = (creation as u16).to_be_bytes();
        Vec::from_slice(alloc, &[ALIVE2_RESP, code, a, b])
    } else {
        let [a, b, c, d] = creation.to_be_bytes();
        Vec::from_slice(alloc, &[ALIVE2_X_RESP, code, a, b, c, d])
    }
}

/// Writes the reply to a lookup, PORT2_RESP: the registration, or result 1 for `None`.
pub fn write_port2(alloc: Global, found: Option<&Reg>) -> Result<Vec<u8>, NoMemory>
    ensures { IfOk result (λ v. v.items ≡ port2_reply (option_map (λ g. g.now) found.entry)) }
{
    let mut out = Vec::new(alloc);
    out.push(PORT2_RESP)?;
    match found {
        None => out.push(1)?,
        Some(reg) => {
            out.push(0)?;
            put_fields(&mut out, reg)?;
        }
    }
    Ok(out)
}
