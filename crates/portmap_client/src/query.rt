//! Looks up a name.
ghost use Rattle.portmap_wire.specs.declared.request.Request.TheVariants as request;
ghost use Rattle.portmap_client.specs.Answer.{SaysFound};
ghost use Rattle.portmap_client.specs.Exchange.{view, Calls};

use crate::ClientFault;
use crate::exchange::{Awaited, exchange};
use portmap_link::{Input, Output};
use portmap_wire::{Name, Reg, read_port2, write_lookup};
use std::alloc::Global;

/// Looks up the node that is registered under a name (PORT_PLEASE2_REQ). Returns `None` if there is no such node.
pub fn lookup<S: Input + Output>(
    alloc: Global,
    stream: &mut S,
    name: &Name,
) -> Result<Option<Reg>, ClientFault>
    ensures { let seen = view S.left S.held S.pulls S.puts S.broken in
        Calls (request.Port name.now) SaysFound (seen stream.old) (seen stream.new) result }
{
    let request = write_lookup(alloc, name)?;
    let answer = exchange(alloc, stream, &request, Awaited::Found)?;
    Ok(read_port2(alloc, &answer)?)
}
