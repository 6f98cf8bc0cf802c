ghost use Rattle.std.specs.Prelude.{IfSome};
ghost use Rattle.portmap_core.specs.Registering.{Registers};

use portmap_feed::{Feed, Seen};
use portmap_wire::{ALIVE2_REQ, Name, Request, read_request};
use std::alloc::Global;

/// Returns the name that a chunk asks to register, if the chunk begins with a complete ALIVE2_REQ. Returns `None` too
/// if memory runs out.
pub fn name_to_register(alloc: Global, piece: &[u8]) -> Option<Name>
    ensures { IfSome result (λ name. Registers piece.now name) }
{
    // The tag excludes every other request before anything is allocated.
    if piece.get(2) != Some(&ALIVE2_REQ) {
        return None;
    }
    let mut feed = Feed::new(alloc);
    if feed.push(piece) != Ok(Seen::Whole) {
        return None;
    }
    match read_request(alloc, feed.body()?) {
        Ok(Request::Alive(reg)) => Some(reg.name),
        Ok(_) | Err(_) => None,
    }
}
