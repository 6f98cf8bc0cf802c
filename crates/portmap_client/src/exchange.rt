//! Sends one request, and reads its reply.
ghost use Rattle.std.specs.Prelude.{◌≡◌, ◌≢◌, ℕ, ◌+◌, ◌^◌, ◌<◌, ◌≤◌, true, List, ◌++◌, length, Err, IfErr};
ghost use Rattle.std.specs.Io.KnownBytes.{Keeps};
ghost use Rattle.portmap_client.specs.Exchange.{view, Answers, Exchanges, IsRead, IsUnfinished, Writes};
ghost use Rattle.portmap_client.specs.Exchange.{is_device_fault};
ghost use Rattle.portmap_client.specs.Laters.{laters, Waits, Waited};
ghost use Rattle.portmap_client.specs.declared.exchange.TheConstants.{LATERS_MOST, LIST_MOST};

use crate::fault::Aborted;
use crate::outcome::{OK, STOPPED};
use portmap_link::{Flush, Input, Limit, Output, Pull, send_all};
use portmap_wire::{alive_missing, port2_missing};
use std::alloc::Global;

/// The number of `Later` results that ends a call.
const LATERS_MOST: u64 = 1000;

const PULL_MOST: usize = 4096;

/// The maximal number of bytes of a list.
pub(crate) const LIST_MOST: usize = 16_777_216;

/// Law: the constants that definitions take from the code are those of this profile.
pub fn numbers_are_the_profiles()
    ensures { (LATERS_MOST ≡ 1000) × (LIST_MOST ≡ 2 ^ 24) }
{}

/// The expected reply.
#[derive(Clone, Copy)]
pub(crate) enum Awaited {
    Creation,
    Found,
    List,
    Kill,
    Stop,
}

/// Returns a lower bound of the bytes that the reply still needs, or 0 if the reply is complete.
fn missing(awaited: Awaited, read: &[u8]) -> usize
    ensures none { result ≡ 0 → IsUnfinished awaited read.now → ⊥ }
    ensures missing { (more : List ℕ) → length more < result → IsUnfinished awaited (read.now ++ more) }
    ensures most { 0 < result → length read.now + result ≤ LIST_MOST + 1 }
{
    match awaited {
        Awaited::Creation => alive_missing(read),
        Awaited::Found => port2_missing(read),
        Awaited::List => (LIST_MOST + 1).saturating_sub(read.len()),
        Awaited::Kill => OK.len().saturating_sub(read.len()),
        Awaited::Stop => STOPPED.len().saturating_sub(read.len()),
    }
}

fn ask<S: Output>(stream: &mut S, bytes: &[u8]) -> Result<u64, Aborted>
    ensures writes { Writes bytes.now (S.held stream.old) (S.held stream.new) result }
    ensures memory { result ≢ Err Aborted.NoMemory }
    ensures waited { Waited (laters (S.pulls stream.old) (S.puts stream.old))
        (laters (S.pulls stream.new) (S.puts stream.new)) result }
    ensures broken { IfErr result (λ f. is_device_fault f ≡ true → S.broken stream.new ≡ true) }
    ensures left { Keeps (S.left stream.old) (S.left stream.new) }
    ensures pulls { S.pulls stream.new ≡ S.pulls stream.old }
{
    let sent = send_all(stream, bytes, Limit::Laters(LATERS_MOST));
    match sent.flush {
        Flush::Empty => Ok(sent.laters),
        Flush::Later => Err(Aborted::TooManyTurns),
        Flush::Fault => Err(Aborted::Write),
    }
}

/// Reads the reply to its end, or to the end of the stream. `met` is the number of `Later` results so far.
fn hear<S: Input>(
    alloc: Global,
    stream: &mut S,
    awaited: Awaited,
    met: u64,
) -> Result<Vec<u8>, Aborted>
    requires { met < LATERS_MOST }
    ensures heard { Answers awaited IsRead (S.left stream.old) (S.left stream.new) (S.pulls stream.old)
        (S.pulls stream.new) result }
    ensures reads { result ≢ Err Aborted.Write }
    ensures waits { Waits (laters (S.pulls stream.old) (S.puts stream.old))
        (met + laters (S.pulls stream.new) (S.puts stream.new)) result }
    ensures broken { IfErr result (λ f. is_device_fault f ≡ true → S.broken stream.new ≡ true) }
    ensures held { Keeps (S.held stream.old) (S.held stream.new) }
{
    let mut read = Vec::new(alloc);
    let mut buffer = [0; PULL_MOST];
    let mut laters = met;
    while laters < LATERS_MOST {
        let most = missing(awaited, &read).min(PULL_MOST);
        if most == 0 {
            return Ok(read);
        }
        match stream.pull(&mut buffer[..most]) {
            Pull::Piece(count) => read.extend_from_slice(&buffer[..count])?,
            Pull::End => return Ok(read),
            Pull::Later => laters += 1,
            Pull::Fault => return Err(Aborted::Read),
        }
    }
    Err(Aborted::TooManyTurns)
}

/// Writes a request, and reads the reply to its end or to the end of the stream.
pub(crate) fn exchange<S: Input + Output>(
    alloc: Global,
    stream: &mut S,
    request: &[u8],
    awaited: Awaited,
) -> Result<Vec<u8>, Aborted>
    ensures { let seen = view S.left S.held S.pulls S.puts S.broken in
        Exchanges request.now awaited IsRead (seen stream.old) (seen stream.new) result }
{
    let met = ask(stream, request)?;
    hear(alloc, stream, awaited, met)
}
