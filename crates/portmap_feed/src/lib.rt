//! The first request of a byte stream that arrives in chunks. Each request is preceded by its length.
//!
//! # Guarantees
//! - `push` returns what all bytes so far amount to, however the stream was cut. `kept` is the part of them that is
//!   kept, at most 8,194 bytes, and `body` is the body once it is complete.
//! - After a complete request or a bad length a push changes nothing, never allocates, and returns the same.
//! - A refused push changes nothing. `cut` to the length before a push undoes that push.
//! - Inside the crate only: the push that completes the length reserves the room of the complete request, so no later
//!   push is refused.
//!
//! The `README.md` of this crate shows a proved caller, and lists errors and allocation.
#![tactic(auto)]

mod feed;

pub use feed::{Feed, LengthFault, Seen};
pub use portmap_wire::NoMemory;
