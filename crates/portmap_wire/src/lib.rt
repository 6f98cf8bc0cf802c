//! The port mapper's requests and replies as bytes.
//!
//! # Guarantees
//! - `Name::read`, `Reg::new` and `read_request` succeed if and only if the bytes are a name, a registration or a
//!   request. Otherwise they return the first fault from left to right.
//! - The `write_*` functions write the bytes of FORMATS.md. `write_alive` requires that a creation in two bytes is
//!   below 65,536.
//! - `ListReply` builds a list line by line. If its size is given, its room is reserved at once.
//! - `read_alive` and `read_port2` return what the first bytes say as a reply. `alive_missing` and `port2_missing`
//!   return how many bytes are missing at least, and 0 if and only if the reply is not `Short`. A caller that pulls no
//!   more than that reads no further than the reply.
//! - `read_names` returns port and lines if and only if the bytes are that list. It reports the first strange line.
//!   `read_dump` returns the port, and the text.
//! - Copies equal their sources; `==` is equality. Errors leave nothing behind, and out of memory is the last refusal
//!   of a call.
//!
//! The `README.md` of this crate shows a proved caller, and lists errors and allocation.
#![tactic(auto)]

mod fields_reading;
mod fields_writing;
mod list;
mod list_reading;
mod list_writing;
mod name;
mod numbers;
mod registration;
mod reply_reading;
mod reply_writing;
mod request;
mod request_reading;
mod request_writing;

pub use fields_writing::put_fields;
pub use list::{DumpLine, Line};
pub use list_reading::{
    ListFault, lines_have_one_reading, lists_have_one_reading, names_are_read_back, read_dump,
    read_names,
};
pub use list_writing::{
    DUMP_LINE_REST, ListReply, NAMES_LINE_REST, put_names_line, write_dump, write_names,
};
pub use name::{NAME_MOST, Name, NameFault};
pub use numbers::numbers_are_the_protocols;
pub use registration::{ExtraFault, Reg};
pub use reply_reading::{
    AliveReply, ReplyFault, alive_missing, alives_are_read_back, look_ups_are_read_back,
    port2_missing, read_alive, read_port2,
};
pub use reply_writing::{
    ALIVE2_RESP, ALIVE2_X_RESP, PORT2_RESP, WIDE_VERSION, write_alive, write_port2,
};
pub use request::{
    ALIVE2_REQ, BODY_MOST, DUMP_REQ, KILL_REQ, Malformed, NAMES_REQ, PORT_PLEASE2_REQ, Request,
    STOP_REQ, bodies_are_one, spelling_is_one,
};
pub use request_reading::read_request;
pub use request_writing::{write_lookup, write_registration, write_request, write_stop};
pub use std::alloc::AllocError as NoMemory;
