//! The two lists of names as bytes.
use crate::words::{Digits, by_name, digits_of, name, number, text, wrong};
use anyhow::{Result, ensure};
use portmap_wire::{DumpLine, Line, ListReply, NoMemory, write_dump, write_names};
use std::alloc::Global;
use std::convert::AsSlice;
use std::fmt::Debug;

/// Prints the reply to NAMES_REQ for names and their ports. Fails if a reply built line by line differs.
pub fn written_names(alloc: Global, port: &str, words: &[&str]) -> Result<String> {
    let own_port = number(port)?;
    let mut lines = Vec::new(alloc);
    let mut reply = ListReply::new(alloc, own_port)?;
    for words in words.chunks(2) {
        let [word, port] = *words else {
            return wrong("a name without a port");
        };
        let (name, port) = (name(alloc, word)?, number(port)?);
        reply = reply.with_names_line(&name, port)?;
        lines.push(Line { port, name })?;
    }
    written(alloc, write_names(alloc, own_port, &lines), reply)
}

/// Prints the reply to DUMP_REQ for names, their ports and their slots. The slot of a retired name is `-`.
pub fn written_dump(alloc: Global, port: &str, words: &[&str]) -> Result<String> {
    let own_port = number(port)?;
    let mut lines = Vec::new(alloc);
    let mut reply = ListReply::new(alloc, own_port)?;
    for words in words.chunks(3) {
        let [word, port, slot] = *words else {
            return wrong("a name without a port and a slot");
        };
        let (name, port) = (name(alloc, word)?, number(port)?);
        let slot = if slot == "-" {
            None
        } else {
            Some(number(slot)?)
        };
        reply = reply.with_dump_line(&name, port, slot)?;
        lines.push(DumpLine { port, slot, name })?;
    }
    written(alloc, write_dump(alloc, own_port, &lines), reply)
}

fn written(alloc: Global, whole: Result<Vec<u8>, NoMemory>, by_line: ListReply) -> Result<String> {
    let whole = whole?;
    let is_same = whole.as_slice() == by_line.into_bytes().as_slice();
    ensure!(is_same, "it is another one line by line");
    digits_of(alloc, &whole)
}

/// Prints the port of a list of names, and each name with its port.
pub fn listed<E: Debug + Drop>(alloc: Global, list: Result<(u32, Vec<Line>), E>) -> Result<String> {
    let (port, lines) = match list {
        Ok(list) => list,
        Err(fault) => return by_name(alloc, &fault),
    };
    let mut actual = format!(in alloc; "{port}")?;
    for line in &lines {
        write!(actual, ",{}={}", Digits(line.name.bytes()), line.port)?;
    }
    Ok(actual)
}

pub fn dumped<T: AsSlice<u8> + Drop, E: Debug + Drop>(
    alloc: Global,
    dump: Result<(u32, T), E>,
) -> Result<String> {
    match dump {
        Ok((port, bytes)) => text(format!(in alloc; "{port} {}", Digits(bytes.as_slice()))),
        Err(fault) => by_name(alloc, &fault),
    }
}
