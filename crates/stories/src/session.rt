//! Recorded sessions as bytes: read, written, checked, and without their remote peers.
use crate::audited::audited;
use crate::listed;
use crate::listed::workers;
use crate::played::played;
use crate::recorder::recorded;
use crate::states::copied;
use crate::words::{
    Digits, by_name, bytes, digits_of, number, shown_bytes, text, unknown, wanted, wrong, yes,
};
use anyhow::{Context, Result, ensure};
use portmap_core::{Entry, State};
use portmap_record::{
    CheckFault, Form, Record, Version, WriteRecordFault, check, local_record, read_record, upgrade,
    whole_entries, write_record,
};
use portmap_testing::marked;
use portmap_testing::marks::was_refused;
use std::alloc::Global;

/// A recorded session, and entries to be recorded.
pub struct Session {
    bytes: Vec<u8>,
    entries: Vec<Entry>,
}

impl Drop for Session {
    fn drop(self) {
        let Session {
            bytes: _,
            entries: _,
        } = self;
    }
}

impl Session {
    pub fn new(alloc: Global) -> Session {
        Session {
            bytes: Vec::new(alloc),
            entries: Vec::new(alloc),
        }
    }

    pub fn perform(&mut self, alloc: Global, words: &[&str]) -> Result<String> {
        match *words {
            ["bytes", word] => self.take(alloc, word),
            ["recorded"] => {
                let written = written(alloc, &listed::recorded(alloc, &mut self.entries)?)?;
                self.take(alloc, written.as_str())
            }
            ["recorder", ref words @ ..] => recorded(alloc, words, &self.entries, &self.bytes),
            ["audit", device, turns, ref files @ ..] => audited(alloc, device, turns, files),
            ["local"] => left(alloc, &self.bytes),
            ["check" | "begins" | "upgrade" | "workers" | "alone", ..] => of_record(
                alloc,
                record_in(alloc, &self.bytes)?,
                words,
            ),
            [
                "read" | "cut" | "at" | "whole" | "front" | "judged" | "play" | "tell" | "leave",
                ..
            ] => { self.read(alloc, words) }
            _ => listed::perform(alloc, &mut self.entries, words),
        }
    }

    fn take(&mut self, alloc: Global, word: &str) -> Result<String> {
        self.bytes = bytes(alloc, word)?;
        Ok(String::new(alloc))
    }

    /// Reads the session, or a variant of its bytes.
    fn read(&self, alloc: Global, words: &[&str]) -> Result<String> {
        match *words {
            ["read"] => counted(alloc, &self.bytes),
            ["cut", len] => counted(alloc, self.prefix(number(len)?)),
            ["at", offset, word] => self.at(alloc, number(offset)?, word, usize::MAX),
            ["at", offset, word, "cut", len] => self.at(alloc, number(offset)?, word, number(len)?),
            ["whole", form, len] => whole(alloc, form, self.prefix(number(len)?)),
            ["front", len, ref devices @ ..] => {
                played(alloc, "play", self.prefix(number(len)?), devices)
            }
            ["judged"] => self.judged(alloc),
            [act @ ("play" | "tell" | "leave"), ref devices @ ..] => {
                played(alloc, act, &self.bytes, devices)
            }
            _ => wrong("no such act"),
        }
    }

    fn prefix(&self, len: usize) -> &[u8] {
        self.bytes.get(..len).unwrap_or(&self.bytes)
    }

    /// Reads the first `len` bytes of the session, in which these bytes replace those from `offset` on.
    fn at(&self, alloc: Global, offset: usize, word: &str, len: usize) -> Result<String> {
        let new = bytes(alloc, word)?;
        let mut all = self.bytes.clone()?;
        for (byte, new) in all.iter_mut().skip(offset).zip(&new) {
            *byte = *new;
        }
        all.truncate(len);
        counted(alloc, &all)
    }

    /// Prints the number of variants in one byte that are records.
    fn judged(&self, alloc: Global) -> Result<String> {
        let mut all = self.bytes.clone()?;
        let mut count = 0u32;
        for (offset, byte) in self.bytes.iter().enumerate() {
            for new in 0..=255 {
                put(&mut all, offset, new);
                count = count.saturating_add(u32::from(is_judged(alloc, &all)?));
            }
            put(&mut all, offset, *byte);
        }
        text(format!(in alloc; "{count}"))
    }
}

fn put(bytes: &mut Vec<u8>, offset: usize, new: u8) {
    if let Some(byte) = bytes.get_mut(offset) {
        *byte = new;
    }
}

/// Returns true if the bytes are a record. Fails unless a device receives its verdict, or the fault of the bytes.
fn is_judged(alloc: Global, bytes: &[u8]) -> Result<bool> {
    let session = read_record(alloc, bytes);
    let wanted = match &session {
        Ok(session) => verdict_of(alloc, session, bytes)?,
        Err(fault) => format!(in alloc; "Bad({fault:?}) -")?,
    };
    let actual = played(alloc, "tell", bytes, &["steady", "steady", "3"])?;
    ensure!(actual == wanted, "{wanted} is told as {actual}");
    Ok(session.is_ok())
}

/// Returns the verdict of a record. Fails unless it is written back as these bytes.
fn verdict_of(alloc: Global, session: &Record, bytes: &[u8]) -> Result<String> {
    is_written_back(alloc, session, bytes)?;
    let count = session.entries.len();
    let (is_run, line) = match check(alloc, session) {
        Ok(()) => (true, format!(in alloc; "run of {count} entries\n")?),
        Err(CheckFault::Illegal(at)) => (false, format!(in alloc; "broken at entry {at}\n")?),
        Err(CheckFault::NoMemory) => return wrong("memory is ample"),
    };
    text(format!(in alloc; "{is_run} {}", Digits(line.as_str().as_bytes())))
}

fn is_written_back(alloc: Global, session: &Record, bytes: &[u8]) -> Result<()> {
    let written = written(alloc, session)?;
    let is_same = written == digits_of(alloc, bytes)?;
    ensure!(is_same, "it is written otherwise: {written}");
    Ok(())
}

pub fn record_in(alloc: Global, bytes: &[u8]) -> Result<Record> {
    wanted(read_record(alloc, bytes), "it is no record")
}

/// Prints the number of entries of a record, or the fault of the bytes. Fails unless the record is written back as
/// these bytes.
fn counted(alloc: Global, bytes: &[u8]) -> Result<String> {
    match marked!(alloc, read_record(alloc, bytes)) {
        Ok(session) => {
            is_written_back(alloc, &session, bytes)?;
            text(format!(in alloc; "{}", session.entries.len()))
        }
        Err(fault) => by_name(alloc, &fault),
    }
}

/// Prints the number of bytes that are complete entries.
fn whole(alloc: Global, form: &str, bytes: &[u8]) -> Result<String> {
    let form = match form {
        "numbered" => Form::Numbered,
        "plain" => Form::Plain,
        _ => return unknown("no form", form),
    };
    text(format!(in alloc; "{}", whole_entries(form, bytes)))
}

/// Prints the bytes of a record. If memory is refused, it is written again.
pub fn written(alloc: Global, session: &Record) -> Result<String> {
    let mut written = marked!(alloc, write_record(alloc, session));
    if matches!(&written, Err(WriteRecordFault::NoMemory)) && was_refused(alloc) {
        written = write_record(alloc, session);
    }
    shown_bytes(alloc, written)
}

fn of_record(alloc: Global, session: Record, words: &[&str]) -> Result<String> {
    match *words {
        ["check"] => found(alloc, &session),
        ["begins"] => beginning(alloc, &session),
        ["upgrade"] => upgraded(alloc, session),
        ["workers", ref numbers @ ..] => written_by(alloc, session, numbers, false),
        ["alone", ref numbers @ ..] => written_by(alloc, session, numbers, true),
        _ => wrong("no such act"),
    }
}

fn found(alloc: Global, session: &Record) -> Result<String> {
    match marked!(alloc, check(alloc, session)) {
        Ok(()) => text(String::from_str(alloc, "Run")),
        Err(fault) => by_name(alloc, &fault),
    }
}

/// Prints the record in version 2. If memory is refused, fails unless the record comes back unchanged.
fn upgraded(alloc: Global, session: Record) -> Result<String> {
    let before = written(alloc, &session)?;
    match marked!(alloc, upgrade(alloc, session)) {
        Ok(session) => written(alloc, &session),
        Err((_, session)) => {
            let is_same = written(alloc, &session)? == before;
            ensure!(is_same, "it comes back as another one");
            text(String::from_str(alloc, "NoMemory"))
        }
    }
}

/// Prints the record without its remote peers.
fn left(alloc: Global, bytes: &[u8]) -> Result<String> {
    let Ok(session) = read_record(alloc, bytes) else {
        return wrong("it is no record");
    };
    match marked!(alloc, local_record(alloc, &session)) {
        Ok(left) => written(alloc, &left),
        Err(fault) => by_name(alloc, &fault),
    }
}

/// Prints the settings of a record and the state that it starts at: the position of its first entry, the names, the
/// connections, and the worker of each entry.
fn beginning(alloc: Global, session: &Record) -> Result<String> {
    let config = &session.config;
    let mut actual = format!(in alloc; "{} {}", config.port, yes(config.relaxed))?;
    write!(actual, " {} {}", config.conn_max, config.known_max)?;
    if let Version::Two {
        first,
        start,
        workers,
    } = &session.version
    {
        write!(actual, " first {first}")?;
        write_start(&mut actual, start)?;
        actual.push_str(" workers")?;
        for worker in workers {
            write!(actual, " {worker}")?;
        }
    }
    Ok(actual)
}

/// Writes the items of a state: rows with ports, creations and slots, retired names with ports and creations, and
/// connections.
fn write_start(actual: &mut String, start: &State) -> Result<()> {
    for row in start.active() {
        let name = Digits(row.reg.name.bytes());
        write!(
            actual,
            " row {name} {} {} {}",
            row.reg.port, row.creation, row.slot
        )?;
    }
    for old in start.retired() {
        let name = Digits(old.name.bytes());
        write!(actual, " old {name} {} {}", old.port, old.creation)?;
    }
    for held in start.conns() {
        let (local, bytes) = (yes(held.local), Digits(&held.bytes));
        write!(
            actual,
            " conn {} {local} {:?} {bytes}",
            held.slot, held.phase
        )?;
    }
    if start.halted() {
        actual.push_str(" halted")?;
    }
    Ok(())
}

/// Prints a record of version 2 with these workers. If `alone`, its start state has the active names only.
fn written_by(alloc: Global, mut session: Record, numbers: &[&str], alone: bool) -> Result<String> {
    let Version::Two {
        start,
        workers: made,
        ..
    } = &mut session.version
    else {
        return wrong("it is of version 1");
    };
    *made = workers(alloc, numbers)?;
    if alone {
        *start = active_alone(alloc, start)?;
    }
    written(alloc, &session)
}

/// Returns a state with the same active names and no connection.
fn active_alone(alloc: Global, start: &State) -> Result<State> {
    let rows = copied!(alloc, start.active());
    let state = State::build(rows, Vec::new(alloc), Vec::new(alloc), false);
    state.context("no state")
}
