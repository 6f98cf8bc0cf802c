//! Names, registrations and requests as bytes.
use crate::words::{Digits, answer, by_name, bytes, digits_of, name, number, text, wanted, wrong};
use anyhow::{Result, ensure};
use portmap_wire::{
    ExtraFault, Name, Reg, Request, read_request, write_lookup, write_registration, write_request,
    write_stop,
};
use std::alloc::{AllocError, Global};
use std::fmt;

#[derive(Clone, Copy)]
pub struct Fields<'a>(pub &'a Reg);

impl<'a> fmt::Display for Fields<'a> {
    fn fmt<W: fmt::Write>(&self, f: &mut fmt::Formatter<W>) -> fmt::Result {
        let reg = self.0;
        let (name, extra) = (Digits(reg.name.bytes()), Digits(&reg.extra));
        write!(
            f,
            "{} {} {} {} {} {name} {extra}",
            reg.port, reg.kind, reg.proto, reg.high, reg.low
        )
    }
}

/// Prints the bytes of a copy of a name, or the fault of the bytes.
pub fn named(alloc: Global, word: &str) -> Result<String> {
    let name = Name::read(alloc, &bytes(alloc, word)?);
    match name {
        Ok(name) => digits_of(alloc, name.try_copy(alloc)?.bytes()),
        Err(fault) => by_name(alloc, &fault),
    }
}

/// Prints a request. The fields of a registration are those of its copy.
fn asks(alloc: Global, request: &Request) -> Result<String, AllocError> {
    match request {
        Request::Alive(reg) => format!(in alloc; "Alive {}", Fields(&reg.try_copy(alloc)?)),
        Request::Port(name) => format!(in alloc; "Port {}", Digits(name.bytes())),
        Request::Stop(name) => format!(in alloc; "Stop {}", Digits(name.bytes())),
        Request::Names => String::from_str(alloc, "Names"),
        Request::Dump => String::from_str(alloc, "Dump"),
        Request::Kill => String::from_str(alloc, "Kill"),
    }
}

/// Writes a request by the call for its kind.
fn sent(alloc: Global, request: &Request) -> Result<Vec<u8>, AllocError> {
    match request {
        Request::Alive(reg) => write_registration(alloc, reg),
        Request::Port(name) => write_lookup(alloc, name),
        Request::Stop(name) => write_stop(alloc, name),
        Request::Names | Request::Dump | Request::Kill => write_request(alloc, request),
    }
}

/// Prints a request and the bytes that it is written as, or its fault.
pub fn asked(alloc: Global, word: &str) -> Result<String> {
    let request = match read_request(alloc, &bytes(alloc, word)?) {
        Ok(request) => request,
        Err(fault) => return by_name(alloc, &fault),
    };
    let written = write_request(alloc, &request)?;
    let is_same = sent(alloc, &request)?.as_slice() == written.as_slice();
    ensure!(is_same, "it is sent in two ways");
    text(format!(in alloc; "{} sent {}", asks(alloc, &request)?, Digits(&written)))
}

/// Prints whether two lookups have equal names, or two registrations equal nodes.
pub fn are_equal(alloc: Global, one: &str, other: &str) -> Result<String> {
    match (read(alloc, one)?, read(alloc, other)?) {
        (Request::Port(name), Request::Port(wanted)) => answer(alloc, name == wanted),
        (Request::Alive(reg), Request::Alive(wanted)) => answer(alloc, reg == wanted),
        _ => wrong("no two look-ups or registrations"),
    }
}

fn read(alloc: Global, word: &str) -> Result<Request> {
    wanted(read_request(alloc, &bytes(alloc, word)?), "no request")
}

/// Returns a normal node whose lowest version is 5, or the fault of too many extra bytes.
fn made(
    alloc: Global,
    port: u16,
    high: u16,
    word: &str,
    extra: &[u8],
) -> Result<Result<Reg, ExtraFault>> {
    let name = name(alloc, word)?;
    Ok(Reg::new(alloc, port, 77, 0, high, 5, name, extra))
}

pub fn registration(alloc: Global, port: u16, high: u16, word: &str, extra: &[u8]) -> Result<Reg> {
    wanted(made(alloc, port, high, word, extra)?, "no node")
}

/// Prints the registration of a normal node for versions 5 to 6.
pub fn node(alloc: Global, port: &str, word: &str, extra: &str) -> Result<String> {
    let made = made(alloc, number(port)?, 6, word, &bytes(alloc, extra)?)?;
    match made {
        Ok(reg) => digits_of(alloc, &write_registration(alloc, &reg)?),
        Err(fault) => by_name(alloc, &fault),
    }
}
