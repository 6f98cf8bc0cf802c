//! Entries, their transcripts and their records.
use crate::events::entry;
use crate::session::written;
use crate::words::{by_name, digits_of, number, shown_bytes, text, wanted, wrong};
use anyhow::{Result, ensure};
use portmap_core::{Config, Entry};
use portmap_record::{
    Record, Verdict, Version, read_record, transcript, verdict_line, without_remote, write_entries,
    write_record,
};
use std::alloc::Global;
use std::mem;

pub fn perform(alloc: Global, entries: &mut Vec<Entry>, words: &[&str]) -> Result<String> {
    match *words {
        ["entry", ref words @ ..] => {
            entries.push(entry(alloc, words)?)?;
            Ok(String::new(alloc))
        }
        ["transcript", ref verdict @ ..] => digits_of(
            alloc,
            &transcript(alloc, entries, verdict_of(verdict)?)?,
        ),
        ["verdict", count, ref verdict @ ..] => digits_of(
            alloc,
            &verdict_line(alloc, number(count)?, verdict_of(verdict)?)?,
        ),
        ["left"] => {
            let left = without_remote(alloc, entries)?;
            digits_of(alloc, &transcript(alloc, &left, Verdict::Run)?)
        }
        ["entries", ref numbers @ ..] => {
            let workers = workers(alloc, numbers)?;
            let workers = (!workers.is_empty()).then_some(workers.as_slice());
            shown_bytes(alloc, write_entries(alloc, entries, workers))
        }
        ["record"] => written(alloc, &recorded(alloc, entries)?),
        ["size"] => size(alloc, &recorded(alloc, entries)?),
        _ => wrong("no such act"),
    }
}

/// Port 4369, not relaxed, at most two connections and two names.
pub fn settings() -> Result<Config> {
    wanted(Config::new(4369, false, 2, 2), "no settings")
}

/// Moves the entries into a record of version 1.
pub fn recorded(alloc: Global, entries: &mut Vec<Entry>) -> Result<Record> {
    Ok(Record {
        config: settings()?,
        version: Version::One,
        entries: mem::replace(entries, Vec::new(alloc)),
    })
}

pub fn workers(alloc: Global, words: &[&str]) -> Result<Vec<u32>> {
    let mut workers = Vec::new(alloc);
    for word in words {
        workers.push(number(word)?)?;
    }
    Ok(workers)
}

/// Prints the number of bytes of a record. Fails if they are not read as its entries.
fn size(alloc: Global, session: &Record) -> Result<String> {
    let written = match write_record(alloc, session) {
        Ok(written) => written,
        Err(fault) => return by_name(alloc, &fault),
    };
    let again = wanted(read_record(alloc, &written), "it is read otherwise")?;
    let is_same = again.entries.as_slice() == session.entries.as_slice();
    ensure!(is_same, "it is read otherwise");
    text(format!(in alloc; "{}", written.len()))
}

fn verdict_of(words: &[&str]) -> Result<Verdict> {
    match *words {
        ["run"] => Ok(Verdict::Run),
        ["broken", index] => Ok(Verdict::Broken(number(index)?)),
        _ => wrong("no verdict"),
    }
}
