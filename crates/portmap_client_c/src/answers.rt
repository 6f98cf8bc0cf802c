//! Reads the replies to a registration and to a lookup in the caller's bytes. Bytes after a reply are ignored.
ghost use Rattle.std.specs.Prelude.{◌≡◌, ◌≢◌, ◌+◌, ◌<◌, ◌≤◌, List, ℕ, ◌++◌, length, Err, IsOk};
ghost use Rattle.portmap_wire.specs.ReplyReading.{alive_answer, port2_answer};
ghost use Rattle.portmap_client_c.specs.Answers.{OffsetsIn, ReportsAlive, ReportsFound};

use crate::node::{EpmdAlive, EpmdFound, EpmdNode, EpmdText};
use crate::status::{EPMD_NO_MEMORY, EPMD_NOT_REGISTERED, EPMD_OK, EPMD_REFUSED, reply_status};
use portmap_wire::{
    AliveReply, Reg, ReplyFault, alive_missing, port2_missing, read_alive, read_port2,
};
use std::alloc::Global;

/// Returns a lower bound of the bytes that the reply to a registration still needs after `bytes`. Returns 0 if the
/// reply is complete, or if `bytes` begin no such reply.
#[unsafe(no_mangle)]
pub extern "C" fn epmd_alive_missing(bytes: &[u8]) -> usize
    ensures none { result ≡ 0 → alive_answer bytes.now ≢ Err ReplyFault.Short }
    ensures missing { (more : List ℕ) → length more < result → alive_answer (bytes.now ++ more) ≡ Err ReplyFault.Short }
    ensures most { 0 < result → length bytes.now + result ≤ 6 }
{
    alive_missing(bytes)
}

/// Returns a lower bound of the bytes that the reply to a lookup still needs after `bytes`. Returns 0 if the reply is
/// complete, or if `bytes` begin no such reply.
#[unsafe(no_mangle)]
pub extern "C" fn epmd_port2_missing(bytes: &[u8]) -> usize
    ensures none { result ≡ 0 → port2_answer bytes.now ≢ Err ReplyFault.Short }
    ensures missing { (more : List ℕ) → length more < result → port2_answer (bytes.now ++ more) ≡ Err ReplyFault.Short }
    ensures most { 0 < result → length bytes.now + result ≤ 131084 }
{
    port2_missing(bytes)
}

/// Reads the reply to a registration.
#[unsafe(no_mangle)]
pub extern "C" fn epmd_read_alive(bytes: &[u8], alive: &mut EpmdAlive) -> i32
    ensures { ReportsAlive (alive_answer bytes.now) alive.old alive.new result }
{
    match read_alive(bytes) {
        Ok(AliveReply::Given(creation)) => {
            *alive = EpmdAlive { creation, code: 0 };
            EPMD_OK
        }
        Ok(AliveReply::Refused(code)) => {
            *alive = EpmdAlive { creation: 0, code };
            EPMD_REFUSED
        }
        Err(fault) => reply_status(fault),
    }
}

pub(crate) fn numbers_of(reg: &Reg) -> EpmdNode
    ensures { result ≡ record {
      port = reg.now.port;
      highest = reg.now.high;
      lowest = reg.now.low;
      kind = reg.now.kind;
      protocol = reg.now.proto;
    } }
{
    EpmdNode {
        port: reg.port,
        highest: reg.high,
        lowest: reg.low,
        kind: reg.kind,
        protocol: reg.proto,
    }
}

/// Returns the node with its name at offset `at`, and `between` bytes between the name and the extra bytes.
pub(crate) fn found_at(reg: &Reg, at: usize, between: usize) -> EpmdFound
    requires { at + between ≤ 1000 }
    ensures { OffsetsIn at between reg.now result }
{
    let name = EpmdText {
        at,
        size: reg.name.bytes().len(),
    };
    let extra = EpmdText {
        at: at + name.size + between,
        size: reg.extra.len(),
    };
    EpmdFound {
        name,
        extra,
        node: numbers_of(reg),
    }
}

/// Reads the reply to a lookup. The offsets in `found` are offsets in `bytes`.
#[unsafe(no_mangle)]
pub extern "C" fn epmd_read_port2(alloc: Global, bytes: &[u8], found: &mut EpmdFound) -> i32
    ensures reported { result ≢ EPMD_NO_MEMORY
        → ReportsFound bytes.now (port2_answer bytes.now) found.old found.new result }
    // Memory is allocated last, and none is kept.
    ensures memory { result ≡ EPMD_NO_MEMORY → IsOk (port2_answer bytes.now) }
    ensures unchanged { result ≢ EPMD_OK → found.new ≡ found.old }
{
    match read_port2(alloc, bytes) {
        Ok(Some(reg)) => {
            *found = found_at(&reg, 12, 2);
            EPMD_OK
        }
        Ok(None) => EPMD_NOT_REGISTERED,
        Err(fault) => reply_status(fault),
    }
}
