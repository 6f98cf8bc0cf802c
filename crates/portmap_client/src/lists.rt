//! Requests the two lists of names.
ghost use Rattle.portmap_wire.specs.Request.{sent};
ghost use Rattle.portmap_wire.specs.declared.request.Request.TheVariants as request;
ghost use Rattle.portmap_client.specs.Answer.{SaysList, SaysNames, SaysDump};
ghost use Rattle.portmap_client.specs.Exchange.{view, Calls, Exchanges};
ghost use Rattle.portmap_client.specs.Fault.{client_result};

use crate::ClientFault;
use crate::exchange::{Awaited, LIST_MOST, exchange};
use portmap_link::{Input, Output};
use portmap_wire::{Line, Request, read_dump, read_names, write_request};
use std::alloc::Global;

fn list<S: Input + Output>(
    alloc: Global,
    stream: &mut S,
    request: &Request,
) -> Result<Vec<u8>, ClientFault>
    ensures { let seen = view S.left S.held S.pulls S.puts S.broken in
        Exchanges (sent request.now) Awaited.List SaysList (seen stream.old) (seen stream.new) (client_result result) }
{
    let request = write_request(alloc, request)?;
    let bytes = exchange(alloc, stream, &request, Awaited::List)?;
    if bytes.len() > LIST_MOST {
        return Err(ClientFault::TooLong);
    }
    Ok(bytes)
}

/// Requests the port of the port mapper, and the registered names with their ports (NAMES_REQ). Reads to the end of the
/// stream.
pub fn names<S: Input + Output>(
    alloc: Global,
    stream: &mut S,
) -> Result<(u32, Vec<Line>), ClientFault>
    ensures { let seen = view S.left S.held S.pulls S.puts S.broken in
        Calls request.Names SaysNames (seen stream.old) (seen stream.new) result }
{
    let bytes = list(alloc, stream, &Request::Names)?;
    Ok(read_names(alloc, &bytes)?)
}

/// Requests the port of the port mapper, and the text about all known names (DUMP_REQ), which is not checked. Reads to
/// the end of the stream.
pub fn dump<S: Input + Output>(alloc: Global, stream: &mut S) -> Result<(u32, Vec<u8>), ClientFault>
    ensures { let seen = view S.left S.held S.pulls S.puts S.broken in
        Calls request.Dump SaysDump (seen stream.old) (seen stream.new) result }
{
    let mut bytes = list(alloc, stream, &Request::Dump)?;
    let (port, _) = read_dump(&bytes)?;
    bytes.drain(..4);
    Ok((port, bytes))
}
