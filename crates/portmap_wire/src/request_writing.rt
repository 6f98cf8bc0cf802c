ghost use Rattle.std.specs.Prelude.{◌≡◌, ◌+◌, ◌≤◌, [], ◌∷◌, ◌++◌, length, IfOk};
ghost use Rattle.portmap_wire.specs.Name.{IsName};
ghost use Rattle.portmap_wire.specs.Node.{be2};
ghost use Rattle.portmap_wire.specs.Request.{IsRequest, Spells, body_of, sent};
ghost use Rattle.portmap_wire.specs.declared.request.TheConstants.{BODY_MOST};
ghost use Rattle.portmap_wire.specs.declared.request.Request.TheVariants.{Alive, Port, Stop};

use crate::NoMemory;
use crate::fields_writing::put_fields;
use crate::name::Name;
use crate::registration::Reg;
use crate::request::{
    ALIVE2_REQ, DUMP_REQ, KILL_REQ, NAMES_REQ, PORT_PLEASE2_REQ, Request, STOP_REQ,
};
use std::alloc::Global;

fn head(alloc: Global, length: u16, tag: u8) -> Result<Vec<u8>, NoMemory>
    ensures { IfOk result (λ v. v.items ≡ be2 length ++ tag ∷ []) }
{
    let mut out = Vec::with_capacity(alloc, 2 + length as usize)?;
    out.extend_from_slice(&length.to_be_bytes())?;
    out.push(tag)?;
    Ok(out)
}

/// Writes ALIVE2_REQ with its length field.
pub fn write_registration(alloc: Global, reg: &Reg) -> Result<Vec<u8>, NoMemory>
    ensures text { IfOk result (λ v. v.items ≡ sent (Alive reg.now)) }
    ensures is_request { IsRequest (Alive reg.now) }
{
    let length = 13 + reg.name.bytes().len() + reg.extra.len();
    let mut out = head(alloc, length as u16, ALIVE2_REQ)?;
    put_fields(&mut out, reg)?;
    Ok(out)
}

fn write_named(alloc: Global, tag: u8, name: &Name) -> Result<Vec<u8>, NoMemory>
    ensures text { IfOk result (λ v. v.items ≡ be2 (1 + length name.now) ++ tag ∷ name.now) }
    ensures name { IsName name.now }
{
    let mut out = head(alloc, (1 + name.bytes().len()) as u16, tag)?;
    out.extend_from_slice(name.bytes())?;
    Ok(out)
}

/// Writes PORT_PLEASE2_REQ with its length field.
pub fn write_lookup(alloc: Global, name: &Name) -> Result<Vec<u8>, NoMemory>
    ensures text { IfOk result (λ v. v.items ≡ sent (Port name.now)) }
    ensures is_request { IsRequest (Port name.now) }
{
    write_named(alloc, PORT_PLEASE2_REQ, name)
}

/// Writes STOP_REQ with its length field.
pub fn write_stop(alloc: Global, name: &Name) -> Result<Vec<u8>, NoMemory>
    ensures text { IfOk result (λ v. v.items ≡ sent (Stop name.now)) }
    ensures is_request { IsRequest (Stop name.now) }
{
    write_named(alloc, STOP_REQ, name)
}

/// Writes a request: the length of its body in two bytes, then the body.
pub fn write_request(alloc: Global, request: &Request) -> Result<Vec<u8>, NoMemory>
    ensures text { IfOk result (λ v. v.items ≡ sent request.now) }
    ensures small { length (body_of request.now) ≤ BODY_MOST }
    // `read_request` reads the body back as this request, unless memory runs out.
    ensures spells { Spells (body_of request.now) request.now }
{
    match request {
        Request::Alive(reg) => write_registration(alloc, reg),
        Request::Port(name) => write_lookup(alloc, name),
        Request::Names => head(alloc, 1, NAMES_REQ),
        Request::Dump => head(alloc, 1, DUMP_REQ),
        Request::Kill => head(alloc, 1, KILL_REQ),
        Request::Stop(name) => write_stop(alloc, name),
    }
}
