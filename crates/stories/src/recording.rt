//! Sessions as they are recorded, read, checked and shown.
use crate::session::record_in;
use crate::words::{digits_of, text, wanted, wrong};
use anyhow::{Result, ensure};
use portmap_book::{Book, Segment};
use portmap_core::Entry;
use portmap_record::{
    Record, Verdict, Version, check, play, transcript, upgrade, write_entries, write_header,
    write_record,
};
use portmap_testing::tape::{STEADY, Tape};
use std::alloc::Global;
use std::mem;

/// Fails unless the record of a log is a run in both versions, and is shown by these lines.
pub fn is_recorded(alloc: Global, book: &Book, lines: &str) -> Result<()> {
    let shown = run_lines(alloc, lines, book.log())?;
    let transcript = transcript(alloc, book.log(), Verdict::Run)?;
    let is_same = transcript.as_slice() == shown.as_bytes();
    ensure!(is_same, "its transcript is another one");
    let bytes = log_bytes(alloc, book)?;
    is_run(alloc, &bytes, book.log(), shown.as_str())?;
    is_run(alloc, &upgraded(alloc, &bytes)?, book.log(), shown.as_str())
}

fn run_lines(alloc: Global, lines: &str, entries: &[Entry]) -> Result<String> {
    text(format!(in alloc; "{lines}run of {} entries\n", entries.len()))
}

fn log_bytes(alloc: Global, book: &Book) -> Result<Vec<u8>> {
    let mut bytes = write_header(alloc, book.core().config())?;
    let entries = wanted(write_entries(alloc, book.log(), None), "it is not recorded")?;
    bytes.extend_from_slice(&entries)?;
    Ok(bytes)
}

/// Returns the record in version 2.
fn upgraded(alloc: Global, bytes: &[u8]) -> Result<Vec<u8>> {
    match upgrade(alloc, record_in(alloc, bytes)?) {
        Ok(session) => written(alloc, &session),
        Err(_) => wrong("no memory"),
    }
}

/// Returns the bytes of a segment's record, which starts at the segment's position and state. Fails unless it is a run
/// that is shown by these lines.
pub fn recorded_segment(alloc: Global, segment: &mut Segment, lines: &str) -> Result<String> {
    let bytes = segment_bytes(alloc, segment)?;
    let shown = run_lines(alloc, lines, &segment.entries)?;
    is_run(alloc, &bytes, &segment.entries, shown.as_str())?;
    digits_of(alloc, &bytes)
}

/// The record borrows the entries while it is written.
fn segment_bytes(alloc: Global, segment: &mut Segment) -> Result<Vec<u8>> {
    let mut session = record_of(alloc, segment)?;
    mem::swap(&mut session.entries, &mut segment.entries);
    let bytes = written(alloc, &session);
    mem::swap(&mut session.entries, &mut segment.entries);
    bytes
}

/// Returns a segment's record without its entries.
fn record_of(alloc: Global, segment: &Segment) -> Result<Record> {
    let version = Version::Two {
        first: segment.first,
        start: segment.start.try_copy(alloc)?,
        workers: segment.workers.clone()?,
    };
    Ok(Record {
        config: segment.config,
        version,
        entries: Vec::new(alloc),
    })
}

fn written(alloc: Global, session: &Record) -> Result<Vec<u8>> {
    wanted(write_record(alloc, session), "it is not recorded")
}

/// Fails unless the bytes are the record of these entries, which is a run, is written as these bytes, and is shown by
/// these lines.
fn is_run(alloc: Global, bytes: &[u8], entries: &[Entry], shown: &str) -> Result<()> {
    let session = record_in(alloc, bytes)?;
    let is_same = session.entries.as_slice() == entries;
    ensure!(is_same, "its record has other entries");
    wanted(check(alloc, &session), "its record is no run")?;
    let is_same = written(alloc, &session)?.as_slice() == bytes;
    ensure!(is_same, "its record is written otherwise");
    is_played(alloc, bytes, shown)
}

fn is_played(alloc: Global, bytes: &[u8], shown: &str) -> Result<()> {
    let mut input = Tape::new(alloc, bytes, STEADY);
    let mut output = Tape::new(alloc, &[], STEADY);
    let played = play(alloc, &mut input, &mut output, 1_000_000);
    let is_so = played == Ok(true) && output.sink.as_slice() == shown.as_bytes();
    ensure!(is_so, "its record is played otherwise");
    Ok(())
}
