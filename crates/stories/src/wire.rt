//! Requests and replies as bytes.
use crate::lists::{dumped, listed, written_dump, written_names};
use crate::replies::{missing, read_found, read_registered, registered};
use crate::requests::{are_equal, asked, named, node};
use crate::words::{bytes, wrong};
use anyhow::Result;
use portmap_wire::{read_dump, read_names};
use std::alloc::Global;

pub fn perform(alloc: Global, words: &[&str]) -> Result<String> {
    match *words {
        ["name", name] => named(alloc, name),
        ["request", body] => asked(alloc, body),
        ["equal", one, other] => are_equal(alloc, one, other),
        ["node", port, name, extra] => node(alloc, port, name, extra),
        ["alive", high, code, creation] => registered(alloc, high, code, creation),
        ["read", "alive", reply] => read_registered(alloc, reply),
        ["read", "port2", reply] => read_found(alloc, reply),
        ["missing", "alive", reply] => missing(alloc, reply, true),
        ["missing", "port2", reply] => missing(alloc, reply, false),
        ["names", port, ref lines @ ..] => written_names(alloc, port, lines),
        ["read", "names", reply] => listed(alloc, read_names(alloc, &bytes(alloc, reply)?)),
        ["dump", port, ref lines @ ..] => written_dump(alloc, port, lines),
        ["read", "dump", reply] => dumped(alloc, read_dump(&bytes(alloc, reply)?)),
        _ => wrong("no such act"),
    }
}
