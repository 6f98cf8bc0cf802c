//! Devices that give and take bytes and may answer later, and a send buffer for bytes that wait for a device.
//!
//! # Guarantees
//! - `Reading`, `Writing` and `Both` are devices over the standard library's readers and writers.
//! - `Outbox::flush`: the bytes that it wrote, followed by those that wait, are the bytes that waited before. At
//!   `Empty` nothing waits. At `Later` and `Fault` the last put of this call said so.
//! - `Outbox::write` is push and flush in one. It reserves room first, so a refusal has put nothing.
//! - `send_all`, under a limit of puts or of Laters: it makes a put if and only if bytes are left and the limit is not
//!   reached, until a put fails.
//! - If `once` returns Ok, it wrote the reply of a machine with one local connection to the bytes read, and nothing
//!   else. Or the input ended before a complete request, and it wrote nothing. `WriteFault` and `TooManyTurns` say how
//!   many bytes were written. At `ReadFault` and `NoMemory` none were.
//!
//! # Not covered
//! A device (`Input`, `Output`) is assumed to meet the contracts of its trait. Of files and sockets only counts of
//! bytes are known.
//!
//! The `README.md` of this crate shows a proved caller, and lists errors and allocation.
#![tactic(auto)]

mod adapters;
mod device;
mod outbox;
mod putting;
mod single;

pub use crate::adapters::{Both, Reading, Writing, pull_from, put_from};
pub use crate::device::{Device, Input, Output, Pull, Put};
pub use crate::outbox::{Flush, Outbox, send};
pub use crate::putting::{Limit, Sent, send_all};
pub use crate::single::{OnceFault, numbers_are_the_profiles, once, write_reply};
pub use portmap_core::{GhostList, NoMemory};
