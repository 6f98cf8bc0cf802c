ghost use Rattle.std.specs.Prelude.{◌≡◌, ◌≢◌, IfOk, IfErr, Err, IsOk};
ghost use Rattle.portmap_wire.specs.RequestReading.{Gives, request_in, alive_in, alone, by_tag};
ghost use Rattle.portmap_wire.specs.Request.{Spells, IsMalformed};

use crate::fields_reading::{fields_at, registration_of};
use crate::name::Name;
use crate::request::{
    ALIVE2_REQ, BODY_MOST, DUMP_REQ, KILL_REQ, Malformed, NAMES_REQ, PORT_PLEASE2_REQ, Request,
    STOP_REQ,
};
use std::alloc::Global;

#[tactic(auto, unfolding(crate::specs::RequestReading::alive_in))]
fn read_alive_request(alloc: Global, rest: &[u8]) -> Result<Request, Malformed>
    ensures exact { Gives result (alive_in rest.now) }
    ensures memory { result ≡ Err Malformed.NoMemory → IsOk (alive_in rest.now) }
{
    if rest.len() < 12 {
        return Err(Malformed::Short);
    }
    if 1 + rest.len() > BODY_MOST as usize {
        return Err(Malformed::LengthsDisagree);
    }
    let Ok(fields) = fields_at(rest) else {
        return Err(Malformed::LengthsDisagree);
    };
    if !fields.rest.is_empty() {
        return Err(Malformed::LengthsDisagree);
    }
    let name = Name::read(alloc, fields.name)?;
    Ok(Request::Alive(registration_of(alloc, &fields, name)?))
}

/// Returns a request whose body is its tag.
fn read_alone(request: Request, rest: &[u8]) -> Result<Request, Malformed>
    ensures exact { Gives result (alone request rest.now) }
    ensures memory { result ≢ Err Malformed.NoMemory }
{
    if rest.is_empty() {
        Ok(request)
    } else {
        Err(Malformed::LengthsDisagree)
    }
}

#[tactic(auto, unfolding(crate::specs::RequestReading::by_tag))]
fn read_tagged(alloc: Global, tag: u8, rest: &[u8]) -> Result<Request, Malformed>
    ensures exact { Gives result (by_tag tag rest.now) }
    ensures memory { result ≡ Err Malformed.NoMemory → IsOk (by_tag tag rest.now) }
{
    match tag {
        ALIVE2_REQ => read_alive_request(alloc, rest),
        PORT_PLEASE2_REQ => Ok(Request::Port(Name::read(alloc, rest)?)),
        NAMES_REQ => read_alone(Request::Names, rest),
        DUMP_REQ => read_alone(Request::Dump, rest),
        KILL_REQ => read_alone(Request::Kill, rest),
        STOP_REQ => Ok(Request::Stop(Name::read(alloc, rest)?)),
        _ => Err(Malformed::UnknownTag),
    }
}

fn read_by_tag(alloc: Global, body: &[u8]) -> Result<Request, Malformed>
    ensures exact { Gives result (request_in body.now) }
    ensures memory { result ≡ Err Malformed.NoMemory → IsOk (request_in body.now) }
{
    match body {
        [] => Err(Malformed::Short),
        [tag, rest @ ..] => read_tagged(alloc, *tag, rest),
    }
}

/// Returns the request that `body` spells, all of it: a request without its length field.
pub fn read_request(alloc: Global, body: &[u8]) -> Result<Request, Malformed>
    // The body spells the request.
    ensures found { IfOk result (λ request. Spells body.now request) }
    // At any fault but `NoMemory`, the body spells no request.
    ensures refused { IfErr result (λ fault. fault ≢ Malformed.NoMemory → IsMalformed body.now) }
    // The fault is the first from left to right.
    ensures exact { Gives result (request_in body.now) }
    // `NoMemory` is the last fault.
    ensures memory { result ≡ Err Malformed.NoMemory → IsOk (request_in body.now) }
{
    read_by_tag(alloc, body)
}
