//! The replies to a registration and to a lookup as bytes.
use crate::requests::Fields;
use crate::words::{Digits, by_name, bytes, digits_of, number, shown, text, wrong};
use anyhow::Result;
use portmap_wire::{
    Reg, WIDE_VERSION, alive_missing, port2_missing, read_alive, read_port2, write_alive,
    write_port2,
};
use std::alloc::Global;

/// Prints the reply to a registration by a node of this highest version.
pub fn registered(alloc: Global, high: &str, code: &str, creation: &str) -> Result<String> {
    let (high, creation) = (number::<u16>(high)?, number::<u32>(creation)?);
    if high < WIDE_VERSION && creation > 0xFFFF {
        return wrong("a creation of more than 2 bytes");
    }
    digits_of(alloc, &write_alive(alloc, high, number(code)?, creation)?)
}

pub fn read_registered(alloc: Global, reply: &str) -> Result<String> {
    shown(alloc, read_alive(&bytes(alloc, reply)?))
}

/// Prints the fields of a reply to a lookup, and the bytes that it is written as.
pub fn read_found(alloc: Global, reply: &str) -> Result<String> {
    let found = match read_port2(alloc, &bytes(alloc, reply)?) {
        Ok(found) => found,
        Err(fault) => return by_name(alloc, &fault),
    };
    let written = write_port2(alloc, found.as_ref())?;
    match &found {
        Some(reg) => text(format!(in alloc; "{} sent {}", Fields(reg), Digits(&written))),
        None => text(format!(in alloc; "None sent {}", Digits(&written))),
    }
}

/// Prints a lower bound of the missing bytes for each prefix of a reply, from the empty prefix on.
pub fn missing(alloc: Global, reply: &str, to_registration: bool) -> Result<String> {
    let reply = bytes(alloc, reply)?;
    let mut counts = String::new(alloc);
    for len in 0..=reply.len() {
        let prefix = reply.get(..len).unwrap_or(&[]);
        let count = if to_registration {
            alive_missing(prefix)
        } else {
            port2_missing(prefix)
        };
        write!(counts, "{count} ")?;
    }
    text(String::from_str(alloc, counts.as_str().trim_end()))
}
