//! The client of the port mapper for programs in C, and in languages that call C.
//!
//! `include/epmd_client.h` says how each call is used. Each calls `portmap_wire` or `portmap_client`, and has their
//! clauses in numbers and bytes. No memory is kept after a call. Out of memory is returned last: only if nothing is
//! wrong with the arguments.
#![tactic(auto)]

mod answers;
mod calls;
mod descriptor;
mod list_writing;
mod lists;
mod node;
mod sockets;
mod status;
#[cfg(test)]
mod tests;
mod writing;
