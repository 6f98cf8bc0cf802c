ghost use Rattle.std.specs.Prelude.{◌≡◌, ◌≢◌, ◌+◌, ◌<◌, ◌≤◌, List, ℕ, ◌++◌, length, Err, IsOk, IfOk, IfSome};
ghost use Rattle.portmap_wire.specs.ReplyReading.{wide_answer, short_answer, alive_answer, registered_answer};
ghost use Rattle.portmap_wire.specs.ReplyReading.{port2_result, port2_answer};
ghost use Rattle.portmap_wire.specs.ReplyReading.{GivesReply, IsFound, AlivesAreReadBack, LookUpsAreReadBack};
ghost use Rattle.portmap_wire.specs.RequestReading.{fields_in};

use crate::NoMemory;
use crate::fields_reading::{fields_at, registration_of};
use crate::name::{Name, NameFault};
use crate::registration::Reg;
use crate::reply_writing::{ALIVE2_RESP, ALIVE2_X_RESP, PORT2_RESP};
use crate::request::BODY_MOST;
use std::alloc::Global;

/// A port mapper's reply to a registration.
#[derive(Clone, Copy, Debug, PartialEq, Eq)]
pub enum AliveReply {
    /// The name is registered with this creation.
    Given(u32),
    /// The name is not registered. The result is above 0.
    Refused(u8),
}

#[derive(Clone, Copy, Debug, PartialEq, Eq)]
pub enum ReplyFault {
    /// The bytes end before the reply does.
    Short,
    /// The first byte, which begins no such reply.
    BadTag(u8),
    /// No registration has these fields.
    Strange,
    NoMemory,
}

impl From<NameFault> for ReplyFault {
    ghost use Rattle.std.specs.Prelude.{◌≡◌};
    ghost use Rattle.portmap_wire.specs.ReplyReading.{in_reply};

    ghost from_gives = { λ fault e. e ≡ in_reply fault };

    fn from(fault: NameFault) -> ReplyFault {
        match fault {
            NameFault::NoMemory => ReplyFault::NoMemory,
            _ => ReplyFault::Strange,
        }
    }
}

impl From<NoMemory> for ReplyFault {
    ghost use Rattle.std.specs.Prelude.{◌≡◌};
    ghost use Rattle.portmap_wire.specs.declared.reply_reading.ReplyFault.TheVariants as fault;

    ghost from_gives = { λ _ e. e ≡ fault.NoMemory };

    fn from(_refused: NoMemory) -> ReplyFault {
        ReplyFault::NoMemory
    }
}

fn read_wide(rest: &[u8]) -> Result<AliveReply, ReplyFault>
    ensures { result ≡ wide_answer rest.now }
{
    match rest {
        [] => Err(ReplyFault::Short),
        [0, a, b, c, d, ..] => Ok(AliveReply::Given(u32::from_be_bytes([*a, *b, *c, *d]))),
        [0, ..] => Err(ReplyFault::Short),
        [code, ..] => Ok(AliveReply::Refused(*code)),
    }
}

fn read_short(rest: &[u8]) -> Result<AliveReply, ReplyFault>
    ensures { result ≡ short_answer rest.now }
{
    match rest {
        [] => Err(ReplyFault::Short),
        [0, a, b, ..] => Ok(AliveReply::Given(u32::from(u16::from_be_bytes([*a, *b])))),
        [0, ..] => Err(ReplyFault::Short),
        [code, ..] => Ok(AliveReply::Refused(*code)),
    }
}

/// Returns the reply to a registration at the beginning of `bytes`. Later bytes are ignored.
pub fn read_alive(bytes: &[u8]) -> Result<AliveReply, ReplyFault>
    ensures { result ≡ alive_answer bytes.now }
{
    match bytes {
        [] => Err(ReplyFault::Short),
        [ALIVE2_X_RESP, rest @ ..] => read_wide(rest),
        [ALIVE2_RESP, rest @ ..] => read_short(rest),
        [tag, ..] => Err(ReplyFault::BadTag(*tag)),
    }
}

fn read_registered(alloc: Global, rest: &[u8]) -> Result<Option<Reg>, ReplyFault>
    ensures exact { GivesReply result (registered_answer (fields_in rest.now)) }
    ensures memory { result ≡ Err ReplyFault.NoMemory → IsOk (registered_answer (fields_in rest.now)) }
{
    let Ok(fields) = fields_at(rest) else {
        return Err(ReplyFault::Short);
    };
    if 13 + fields.name.len() + fields.extra.len() > BODY_MOST as usize {
        return Err(ReplyFault::Strange);
    }
    let name = Name::read(alloc, fields.name)?;
    Ok(Some(registration_of(alloc, &fields, name)?))
}

fn read_result(alloc: Global, rest: &[u8]) -> Result<Option<Reg>, ReplyFault>
    ensures exact { GivesReply result (port2_result rest.now) }
    ensures memory { result ≡ Err ReplyFault.NoMemory → IsOk (port2_result rest.now) }
{
    match rest {
        [] => Err(ReplyFault::Short),
        [0, rest @ ..] => read_registered(alloc, rest),
        [_, ..] => Ok(None),
    }
}

fn read_tagged(alloc: Global, bytes: &[u8]) -> Result<Option<Reg>, ReplyFault>
    ensures exact { GivesReply result (port2_answer bytes.now) }
    ensures memory { result ≡ Err ReplyFault.NoMemory → IsOk (port2_answer bytes.now) }
{
    match bytes {
        [] => Err(ReplyFault::Short),
        [PORT2_RESP, rest @ ..] => read_result(alloc, rest),
        [tag, ..] => Err(ReplyFault::BadTag(*tag)),
    }
}

/// Returns the reply to a lookup at the beginning of `bytes`: the registration, or `None` if the result is above 0.
/// Later bytes are ignored.
pub fn read_port2(alloc: Global, bytes: &[u8]) -> Result<Option<Reg>, ReplyFault>
    ensures found { IfOk result (λ found. IfSome found (λ g. IsFound bytes.now g)) }
    ensures exact { GivesReply result (port2_answer bytes.now) }
    ensures memory { result ≡ Err ReplyFault.NoMemory → IsOk (port2_answer bytes.now) }
{
    read_tagged(alloc, bytes)
}

/// Returns the least number of bytes that are missing from the reply to a registration. The number is 0 if and only if
/// `read_alive` does not return `Short`.
pub fn alive_missing(bytes: &[u8]) -> usize
    ensures none { result ≡ 0 → alive_answer bytes.now ≢ Err ReplyFault.Short }
    ensures missing { (more : List ℕ) → length more < result → alive_answer (bytes.now ++ more) ≡ Err ReplyFault.Short }
    ensures most { 0 < result → length bytes.now + result ≤ 6 }
{
    match bytes {
        [] | [ALIVE2_X_RESP | ALIVE2_RESP] => 1,
        [ALIVE2_X_RESP, 0, rest @ ..] => 4usize.saturating_sub(rest.len()),
        [ALIVE2_RESP, 0, rest @ ..] => 2usize.saturating_sub(rest.len()),
        _ => 0,
    }
}

/// Returns the least number of bytes that are missing from the reply to a lookup. The number is 0 if and only if
/// `read_port2` does not return `Short`.
pub fn port2_missing(bytes: &[u8]) -> usize
    ensures none { result ≡ 0 → port2_answer bytes.now ≢ Err ReplyFault.Short }
    ensures missing { (more : List ℕ) → length more < result → port2_answer (bytes.now ++ more) ≡ Err ReplyFault.Short }
    ensures most { 0 < result → length bytes.now + result ≤ 131084 }
{
    match bytes {
        [] | [PORT2_RESP] => 1,
        [PORT2_RESP, 0, rest @ ..] => fields_at(rest).err().unwrap_or(0),
        _ => 0,
    }
}

/// Law: the output of `write_alive` is read back as its creation for code 0, otherwise as a refusal with its code.
pub fn alives_are_read_back()
    ensures { AlivesAreReadBack }
{}

/// Law: the output of `write_port2` is read back as its argument.
pub fn look_ups_are_read_back()
    ensures { LookUpsAreReadBack }
{}
