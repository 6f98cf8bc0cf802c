//! Writes requests into the caller's buffer.
//!
//! `size` is set to the number of bytes of the request, even if the buffer is too small and nothing is written. If the
//! request cannot be encoded, `size` is set to 0.
ghost use Rattle.std.specs.Prelude.{◌≡◌, ◌≢◌, ◌+◌, ◌≤◌, ◌^◌, ◌++◌, ℤ, Ok, Result, length};
ghost use Rattle.portmap_wire.specs.Request.{sent};
ghost use Rattle.portmap_wire.specs.RequestReading.{name_in};
ghost use Rattle.portmap_wire.specs.declared.request.Request.{Request};
ghost use Rattle.portmap_wire.specs.declared.request.Request.TheVariants as request;
ghost use Rattle.portmap_client_c.specs.Writing.{LacksMemory, Makes, MakesName, MakesNode, Puts, Writes, alive_said};
ghost use Rattle.portmap_client_c.specs.Writing.{named_said, node_said, unmade_status};

use crate::node::EpmdNode;
use crate::status::{
    EPMD_BUFFER_TOO_SMALL, EPMD_EXTRA_TOO_LONG, EPMD_NO_MEMORY, EPMD_OK, name_status,
};
use portmap_wire::{BODY_MOST, ExtraFault, Name, NameFault, Reg, Request, write_request};
use std::alloc::Global;

/// The reason for which there is no request.
#[derive(Clone, Copy)]
pub(crate) enum Unmade {
    /// The request cannot be encoded, for the reason of this status.
    Refused(i32),
    /// Memory ran out. The request has this many bytes as it is sent.
    NoMemory(usize),
}

pub(crate) fn unmade_status(unmade: Unmade) -> i32
    ensures { result ≡ unmade_status unmade }
{
    match unmade {
        Unmade::Refused(status) => status,
        Unmade::NoMemory(_) => EPMD_NO_MEMORY,
    }
}

/// Puts two texts, one after the other, at the beginning of a buffer.
pub(crate) fn put(head: &[u8], tail: &[u8], out: &mut [u8]) -> i32
    ensures puts { Puts (head.now ++ tail.now) out.old out.new (length head.now + length tail.now) result }
    ensures memory { result ≢ EPMD_NO_MEMORY }
{
    let size = head.len() + tail.len();
    if out.len() < size {
        return EPMD_BUFFER_TOO_SMALL;
    }
    out[..head.len()].copy_from_slice(head);
    out[head.len()..size].copy_from_slice(tail);
    EPMD_OK
}

/// Reports the number of bytes for which memory ran out. A buffer that is too small is reported first.
pub(crate) fn lack_memory(bytes: usize, out: &[u8], size: &mut usize) -> i32
    ensures { LacksMemory out.now bytes size.new result }
{
    *size = bytes;
    if out.len() < bytes {
        EPMD_BUFFER_TOO_SMALL
    } else {
        EPMD_NO_MEMORY
    }
}

fn sent_size(request: &Request) -> usize
    ensures { result ≡ length (sent request.now) }
{
    match request {
        Request::Alive(reg) => 15 + reg.name.bytes().len() + reg.extra.len(),
        Request::Port(name) | Request::Stop(name) => 3 + name.bytes().len(),
        Request::Names | Request::Dump | Request::Kill => 3,
    }
}

fn write(alloc: Global, request: &Request, out: &mut [u8], size: &mut usize) -> i32
    ensures { Puts (sent request.now) out.old out.new size.new result }
{
    match write_request(alloc, request) {
        Ok(bytes) => {
            *size = bytes.len();
            put(&bytes, &[], out)
        }
        Err(_) => lack_memory(sent_size(request), out, size),
    }
}

fn write_made(alloc: Global, made: Result<Request, Unmade>, out: &mut [u8], size: &mut usize) -> i32
    ensures { (said : Result Request ℤ) → Makes made said → Writes said out.old out.new size.new result }
{
    match made {
        Ok(request) => write(alloc, &request, out, size),
        Err(Unmade::NoMemory(bytes)) => lack_memory(bytes, out, size),
        Err(Unmade::Refused(status)) => {
            *size = 0;
            status
        }
    }
}

/// Reads a name. The request has `beside` other bytes.
pub(crate) fn made_name(alloc: Global, bytes: &[u8], beside: usize) -> Result<Name, Unmade>
    requires { beside ≤ 2 ^ 63 + 15 }
    ensures { MakesName beside result (name_in bytes.now) }
{
    match Name::read(alloc, bytes) {
        Ok(name) => Ok(name),
        Err(NameFault::NoMemory) => Err(Unmade::NoMemory(bytes.len() + beside)),
        Err(fault) => Err(Unmade::Refused(name_status(fault))),
    }
}

fn made_lookup(alloc: Global, name: &[u8]) -> Result<Request, Unmade>
    ensures { Makes result (named_said request.Port name.now) }
{
    match made_name(alloc, name, 3) {
        Ok(name) => Ok(Request::Port(name)),
        Err(unmade) => Err(unmade),
    }
}

fn made_stop(alloc: Global, name: &[u8]) -> Result<Request, Unmade>
    ensures { Makes result (named_said request.Stop name.now) }
{
    match made_name(alloc, name, 3) {
        Ok(name) => Ok(Request::Stop(name)),
        Err(unmade) => Err(unmade),
    }
}

pub(crate) fn made_node(
    alloc: Global,
    node: &EpmdNode,
    name: &[u8],
    extra: &[u8],
) -> Result<Reg, Unmade>
    ensures { MakesNode result (node_said node.now name.now extra.now) }
{
    let name = match made_name(alloc, name, 15 + extra.len()) {
        Ok(name) => name,
        Err(Unmade::NoMemory(bytes)) if bytes > BODY_MOST as usize + 2 => {
            return Err(Unmade::Refused(EPMD_EXTRA_TOO_LONG));
        }
        Err(unmade) => return Err(unmade),
    };
    let size = 15 + name.bytes().len() + extra.len();
    match Reg::new(
        alloc,
        node.port,
        node.kind,
        node.protocol,
        node.highest,
        node.lowest,
        name,
        extra,
    ) {
        Ok(reg) => Ok(reg),
        Err(ExtraFault::TooLong) => Err(Unmade::Refused(EPMD_EXTRA_TOO_LONG)),
        Err(ExtraFault::NoMemory) => Err(Unmade::NoMemory(size)),
    }
}

fn made_registration(
    alloc: Global,
    node: &EpmdNode,
    name: &[u8],
    extra: &[u8],
) -> Result<Request, Unmade>
    ensures { Makes result (alive_said node.now name.now extra.now) }
{
    match made_node(alloc, node, name, extra) {
        Ok(reg) => Ok(Request::Alive(reg)),
        Err(unmade) => Err(unmade),
    }
}

/// Writes NAMES_REQ with its length.
#[unsafe(no_mangle)]
pub extern "C" fn epmd_write_names(alloc: Global, out: &mut [u8], size: &mut usize) -> i32
    ensures { Writes (Ok request.Names) out.old out.new size.new result }
{
    write(alloc, &Request::Names, out, size)
}

/// Writes DUMP_REQ with its length.
#[unsafe(no_mangle)]
pub extern "C" fn epmd_write_dump(alloc: Global, out: &mut [u8], size: &mut usize) -> i32
    ensures { Writes (Ok request.Dump) out.old out.new size.new result }
{
    write(alloc, &Request::Dump, out, size)
}

/// Writes KILL_REQ with its length.
#[unsafe(no_mangle)]
pub extern "C" fn epmd_write_kill(alloc: Global, out: &mut [u8], size: &mut usize) -> i32
    ensures { Writes (Ok request.Kill) out.old out.new size.new result }
{
    write(alloc, &Request::Kill, out, size)
}

/// Writes PORT_PLEASE2_REQ with its length.
#[unsafe(no_mangle)]
pub extern "C" fn epmd_write_lookup(
    alloc: Global,
    name: &[u8],
    out: &mut [u8],
    size: &mut usize,
) -> i32
    ensures { Writes (named_said request.Port name.now) out.old out.new size.new result }
{
    let made = made_lookup(alloc, name);
    write_made(alloc, made, out, size)
}

/// Writes STOP_REQ with its length.
#[unsafe(no_mangle)]
pub extern "C" fn epmd_write_stop(
    alloc: Global,
    name: &[u8],
    out: &mut [u8],
    size: &mut usize,
) -> i32
    ensures { Writes (named_said request.Stop name.now) out.old out.new size.new result }
{
    let made = made_stop(alloc, name);
    write_made(alloc, made, out, size)
}

/// Writes ALIVE2_REQ with its length.
#[unsafe(no_mangle)]
pub extern "C" fn epmd_write_register(
    alloc: Global,
    node: &EpmdNode,
    name: &[u8],
    extra: &[u8],
    out: &mut [u8],
    size: &mut usize,
) -> i32
    ensures { Writes (alive_said node.now name.now extra.now) out.old out.new size.new result }
{
    let made = made_registration(alloc, node, name, extra);
    write_made(alloc, made, out, size)
}
