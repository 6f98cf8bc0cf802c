//! A client of the port mapper, over any stream of bytes.
//!
//! Each call sends one request and reads its reply, over a connection of its own. The port mapper closes the connection
//! after every reply, except after a registration that succeeds. Give a socket a read timeout: a call waits for at most
//! a thousand of them.
//!
//! # Guarantees
//! One clause, `Calls`, holds of all six calls:
//! - The call wrote exactly the request, or a prefix of it if the call was aborted. At `Write` it has pulled nothing.
//! - It read nothing after the reply. Its result is what the bytes say, unless it was aborted (`Write`, `Read`,
//!   `TooManyTurns`, `NoMemory`).
//! - At `Write` and `Read` the stream has failed.
//! - It met fewer than 1,000 Laters, or exactly 1,000 and returned `TooManyTurns`.
//!
//! `leave`, and the error of `make`, return the stream.
//!
//! # Not covered
//! Of a socket only counts of bytes are known.
//!
//! The `README.md` of this crate shows a proved caller, and lists errors and allocation.
#![tactic(auto)]

mod commands;
mod exchange;
mod fault;
mod lists;
mod outcome;
mod query;
mod registration;

pub use crate::commands::{kill, stop};
pub use crate::exchange::numbers_are_the_profiles;
pub use crate::fault::ClientFault;
pub use crate::lists::{dump, names};
pub use crate::outcome::{Kill, Stop};
pub use crate::query::lookup;
pub use crate::registration::Registration;
