//! Requests that end the port mapper or a registration.
ghost use Rattle.portmap_wire.specs.declared.request.Request.TheVariants as request;
ghost use Rattle.portmap_client.specs.Answer.{SaysKill, SaysStop};
ghost use Rattle.portmap_client.specs.Exchange.{view, Calls};

use crate::exchange::{Awaited, exchange};
use crate::outcome::{read_kill, read_stop};
use crate::{ClientFault, Kill, Stop};
use portmap_link::{Input, Output};
use portmap_wire::{Name, Request, write_request, write_stop};
use std::alloc::Global;

/// Requests that the port mapper halt (KILL_REQ).
pub fn kill<S: Input + Output>(alloc: Global, stream: &mut S) -> Result<Kill, ClientFault>
    ensures { let seen = view S.left S.held S.pulls S.puts S.broken in
        Calls request.Kill SaysKill (seen stream.old) (seen stream.new) result }
{
    let request = write_request(alloc, &Request::Kill)?;
    let answer = exchange(alloc, stream, &request, Awaited::Kill)?;
    Ok(read_kill(&answer)?)
}

/// Requests the end of the registration of a name (STOP_REQ).
pub fn stop<S: Input + Output>(
    alloc: Global,
    stream: &mut S,
    name: &Name,
) -> Result<Stop, ClientFault>
    ensures { let seen = view S.left S.held S.pulls S.puts S.broken in
        Calls (request.Stop name.now) SaysStop (seen stream.old) (seen stream.new) result }
{
    let request = write_stop(alloc, name)?;
    let answer = exchange(alloc, stream, &request, Awaited::Stop)?;
    Ok(read_stop(&answer)?)
}
