//! A registered name, which lasts as long as its connection.
ghost use Rattle.std.specs.Prelude.{◌≡◌};
ghost use Rattle.portmap_wire.specs.declared.request.Request.TheVariants as request;
ghost use Rattle.portmap_client.specs.Answer.{SaysCreation};
ghost use Rattle.portmap_client.specs.Exchange.{view, Calls};
ghost use Rattle.portmap_client.specs.Registration.{stream_of, creation_of, stream_after, made};

use crate::ClientFault;
use crate::exchange::{Awaited, exchange};
use portmap_link::{Input, Output};
use portmap_wire::{AliveReply, Reg, read_alive, write_registration};
use std::alloc::Global;

/// A registered name. The registration ends when the stream is closed: when this value is dropped, or the stream that
/// `leave` returned.
#[derive(Drop)]
pub struct Registration<S> {
    stream: S,
    creation: u32,
}

fn register<S: Input + Output>(alloc: Global, stream: &mut S, reg: &Reg) -> Result<u32, ClientFault>
    ensures { let seen = view S.left S.held S.pulls S.puts S.broken in
        Calls (request.Alive reg.now) SaysCreation (seen stream.old) (seen stream.new) result }
{
    let request = write_registration(alloc, reg)?;
    let answer = exchange(alloc, stream, &request, Awaited::Creation)?;
    match read_alive(&answer)? {
        AliveReply::Given(creation) => Ok(creation),
        AliveReply::Refused(code) => Err(ClientFault::Refused(code)),
    }
}

impl<S: Input + Output> Registration<S> {
    /// Registers a node (ALIVE2_REQ). An error returns the stream.
    pub fn make(alloc: Global, stream: S, reg: &Reg) -> Result<Registration<S>, (ClientFault, S)>
        ensures { let seen = view S.left S.held S.pulls S.puts S.broken in
            Calls (request.Alive reg.now) SaysCreation (seen stream) (seen (stream_after result)) (made result) }
    {
        let mut stream = stream;
        match register(alloc, &mut stream, reg) {
            Ok(creation) => Ok(Registration { stream, creation }),
            Err(fault) => Err((fault, stream)),
        }
    }

    /// Returns the creation, which distinguishes the node from earlier nodes of the same name.
    pub fn creation(&self) -> u32
        ensures { result ≡ creation_of self.now }
    {
        self.creation
    }

    /// Returns the stream. The name stays registered until the stream is closed.
    pub fn leave(self) -> S
        ensures { result ≡ stream_of self }
    {
        let Registration {
            stream,
            creation: _,
        } = self;
        stream
    }
}
