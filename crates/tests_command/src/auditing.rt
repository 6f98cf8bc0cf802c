//! Recordings in several files, over memory.
use super::printed::ending;
use portmap_command::auditing::{do_audit, files_of, first_position, number_of};
use portmap_core::{Config, Core, Entry, Event, State};
use portmap_link::{Reading, Writing};
use portmap_record::{Record, Version, write_record};
use portmap_testing::bytes::{ALIVE_A, ALIVE_B, NAMES};
use portmap_testing::cases::{Trial, all_come};
use std::alloc::{AllocError, Global};
use std::collections::VecDeque;
use std::test::Fail;

/// A name: its number in a recording whose first file is `session`.
struct Numbers;

impl Trial for Numbers {
    fn came(&self, alloc: Global, given: &str) -> Result<String, Fail> {
        Ok(match number_of(given, "session") {
            Some(number) => format!(in alloc; "{number}")?,
            None => String::from_str(alloc, "none")?,
        })
    }
}

#[test]
fn a_file_is_known_by_its_name(rt: HostRuntime) -> Result<(), Fail> {
    let table = "
        session -> 0
        session.1 -> 1
        session.10 -> 10
        session.18446744073709551615 -> 18446744073709551615
        session.18446744073709551616 -> none
        session.0 -> none
        session.01 -> none
        session.+1 -> none
        session.-1 -> none
        session.1a -> none
        session. -> none
        session1 -> none
        session.1.2 -> none
        session-20261128T040632Z -> none
        session-20261128T040632Z.1 -> none
        sessio -> none
        a.session -> none
        .1 -> none
    ";
    all_come(&rt, &Numbers, table)
}

/// Returns the events of a port mapper: a node registers, another peer asks for the names and leaves, and the node
/// leaves.
fn events(alloc: Global, node: &[u8]) -> Result<Vec<Event>, AllocError> {
    let mut events = Vec::new(alloc);
    for (slot, bytes) in [(0, node), (1, NAMES)] {
        let bytes = bytes.to_vec(alloc)?;
        events.push(Event::Connect { local: true })?;
        events.push(Event::Piece { slot, bytes })?;
    }
    events.push(Event::Close { slot: 1 })?;
    events.push(Event::Close { slot: 0 })?;
    Ok(events)
}

/// Returns the state before the event `first`, and the entries from `first` up to `behind`.
fn session(
    alloc: Global,
    node: &[u8],
    config: Config,
    first: usize,
    behind: usize,
) -> Result<(State, Vec<Entry>), Fail> {
    let mut core = Core::new(alloc, config, 4)?;
    let mut start = core.state(alloc)?;
    let mut entries = Vec::new(alloc);
    for (index, event) in events(alloc, node)?.into_iter().enumerate() {
        if index == first {
            start = core.state(alloc)?;
        }
        let (entry, _) = core.entry(alloc, event)?;
        if first <= index && index < behind {
            entries.push(entry)?;
        }
    }
    Ok((start, entries))
}
/// Returns the bytes of a file: `a2..5` has the entries 2, 3 and 4 of a node with the name `a`. After a `/` is the
/// limit of connections, and after a `:` the number of bytes that are left. A `!` repeats the last entry.
pub fn file_of(alloc: Global, word: &str) -> Result<Vec<u8>, Fail> {
    let (word, count) = word.split_once(':').unwrap_or((word, "1000"));
    let (word, most) = word.split_once('/').unwrap_or((word, "8"));
    let range = word.trim_matches(|letter| matches!(letter, 'a' | 'b' | '!'));
    let (first, behind) = range.split_once("..").unwrap_or((range, range));
    let first = first.parse::<usize>()?;
    let behind = behind.parse::<usize>()?;
    let node = if word.starts_with('b') {
        ALIVE_B
    } else {
        ALIVE_A
    };
    let config = Config::new(4369, false, most.parse::<u32>()?, 8)?;
    let (start, mut entries) = session(alloc, node, config, first, behind)?;
    if word.ends_with('!') {
        let (_, again) = session(alloc, node, config, behind.saturating_sub(1), behind)?;
        entries.extend(again)?;
    }
    let version = Version::Two {
        first: first as u64,
        start,
        workers: vec![in alloc; 1; entries.len()]?,
    };
    let record = Record {
        config,
        version,
        entries,
    };
    let mut bytes = write_record(alloc, &record)?;
    bytes.truncate(count.parse::<usize>()?);
    Ok(bytes)
}

struct Files;

impl Trial for Files {
    fn came(&self, alloc: Global, given: &str) -> Result<String, Fail> {
        let mut numbers = Vec::new(alloc);
        let mut files = Vec::new(alloc);
        for word in given.split_whitespace() {
            let (number, word) = word.split_once('=').unwrap_or(("0", word));
            numbers.push(number.parse::<u64>()?)?;
            files.push(file_of(alloc, word)?)?;
        }
        let recording = files_of(alloc, "session", numbers)?;
        let first = files
            .first()
            .map_or(0, |file| first_position(file.as_slice()));
        let mut inputs = VecDeque::new(alloc);
        for file in &files {
            inputs.push_back(Reading::new(file.as_slice()))?;
        }
        let mut output = Writing::new(Vec::new(alloc));
        let mut errors = Writing::new(Vec::new(alloc));
        let status = do_audit(alloc, &recording, first, inputs, &mut output, &mut errors);
        Ok(ending(alloc, status, &output.into_inner(), &errors.into_inner())?)
    }
}

#[test]
fn files_that_lead_on_are_one_run(rt: HostRuntime) -> Result<(), Fail> {
    let table = "
        0=a0..6 -> 0 out run of 6 entries in 1 files|
        0=a0..2 1=a2..5 2=a5..6 -> 0 out run of 6 entries in 3 files|
        0=a0..2 1=a2..2 2=a2..6 -> 0 out run of 6 entries in 3 files|
        1=a2..5 2=a5..6 -> 0 out run of 4 entries in 2 files| err epmd: the files before session.1 are gone|
        0=a2..5 1=a5..6 -> 0 out run of 4 entries in 2 files| err epmd: the files before session are gone|
        1=a0..2 2=a2..6 -> 0 out run of 6 entries in 2 files|
    ";
    all_come(&rt, &Files, table)
}

#[test]
fn files_that_do_not_lead_on_are_none(rt: HostRuntime) -> Result<(), Fail> {
    let table = "
        0=a0..2 2=a5..6 -> 1 err session.2 does not go on where the file before it ends: another place|
        0=a0..2 1=a5..6 2=a2..5 -> 1 err session.1 does not go on where the file before it ends: another place|
        0=a0..2 1=a2..5/9 -> 1 err session.1 does not go on where the file before it ends: another configuration|
        0=a0..2 1=b2..5 -> 1 err session.1 does not go on where the file before it ends: another state|
    ";
    all_come(&rt, &Files, table)
}

#[test]
fn an_entry_that_cannot_follow_is_reported(rt: HostRuntime) -> Result<(), Fail> {
    let table = "
        0=a0..2 1=a2..5! 2=a5..6 -> 1 err broken at entry 3 of session.1|
        0=a0..5! -> 1 err broken at entry 5 of session|
    ";
    all_come(&rt, &Files, table)
}

#[test]
fn the_last_file_may_be_cut(rt: HostRuntime) -> Result<(), Fail> {
    let table = "
        0=a0..2 1=a2..2:30 -> 0 out run of 2 entries in 1 files| err epmd: session.1 is cut before its first entry|
        0=a0..2 1=a2..5:100 -> 0 out run of 3 entries in 2 files| err epmd: session.1 is cut in an entry|
        0=a0..2 1=a2..2:0 -> 0 out run of 2 entries in 1 files| err epmd: session.1 is cut before its first entry|
        1=a2..5:100 -> 0 out run of 1 entries in 1 files| err epmd: the files before session.1 are gone|epmd: session.1 is cut in an entry|
        0=a0..2:30 -> 2 err epmd: session: bad record|
        0=a0..2:80 1=a2..5 -> 2 err epmd: session: bad record|
    ";
    all_come(&rt, &Files, table)
}
