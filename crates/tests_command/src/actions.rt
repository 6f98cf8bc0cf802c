//! Complete actions of the program, over memory.

use super::printed::{bytes_of, ending};
use portmap_command::actions::{Failure, do_file, do_once, fail};
use portmap_link::{Reading, Writing};
use portmap_record::Text;
use portmap_testing::bytes::{
    ALIVE_A, Bytes, DUMP, FOURTH, KILL, NAMES, NONE_LISTED, NOT_FOUND, PORT_A, STOP_A,
};
use portmap_testing::cases::{Case, Trial, all_come, all_hold};
use portmap_testing::sessions::{
    CLOSES, HEADER, LOCAL_LEFT, LOOK_UP_LINES, MIXED, REMOTE_NAMES, REMOTE_OPEN, SESSION,
    WRONG_LOOK_UP_LINES, wrong_session,
};
use portmap_testing::streams::{Broken, Giving};
use std::alloc::Global;
use std::io::{ErrorKind, Read, Write};
use std::test::Fail;

/// A failure, and how it ends the program.
struct Failed(Failure, &'static str);

const FAILURES: &[Failed] = &[
    Failed(Failure::BadRecord, "2 err epmd: bad record|"),
    Failed(Failure::Device, "3 err epmd: input or output failed|"),
    Failed(Failure::Memory, "3 err epmd: out of memory|"),
    Failed(
        Failure::NoConnection,
        "1 err epmd: Cannot connect to local epmd|",
    ),
];

impl Case for Failed {
    fn holds(&self, alloc: Global) -> Result<bool, Fail> {
        let mut errors = Writing::new(Vec::new(alloc));
        let status = fail(&mut errors, self.0);
        Ok(ending(alloc, status, b"", &errors.into_inner())?.as_str() == self.1)
    }
}

#[test]
fn each_failure_has_a_status_and_a_line(rt: HostRuntime) -> Result<(), Fail> {
    all_hold(&rt, FAILURES)
}

const NAMED: &[(&str, Bytes)] = &[
    ("NAMES", NAMES),
    ("KILL", KILL),
    ("DUMP", DUMP),
    ("PORT_A", PORT_A),
    ("STOP_A", STOP_A),
    ("ALIVE_A", ALIVE_A),
    ("NONE_LISTED", NONE_LISTED),
    ("NOT_FOUND", NOT_FOUND),
    ("FOURTH", FOURTH),
    ("SESSION", &SESSION),
    ("HEADER", HEADER),
    ("CLOSES", &CLOSES),
    ("MIXED", MIXED),
    ("LOCAL_LEFT", LOCAL_LEFT),
    ("REMOTE_NAMES", REMOTE_NAMES),
    ("REMOTE_OPEN", REMOTE_OPEN),
    ("LOOK_UP_LINES", LOOK_UP_LINES),
    ("WRONG_LOOK_UP_LINES", WRONG_LOOK_UP_LINES),
];

/// Returns the name of these bytes, or the bytes if they have no name.
fn name_of(bytes: &[u8]) -> &[u8] {
    for (name, named) in NAMED {
        if *named == bytes {
            return name.as_bytes();
        }
    }
    bytes
}

/// Returns the bytes that a word names or means. `WRONG` is a session that ends in a wrong reply. After a `:` is the
/// number of bytes that are left.
fn input_of(alloc: Global, word: &str) -> Result<Vec<u8>, Fail> {
    let (word, count) = word.split_once(':').unwrap_or((word, "1000"));
    let mut bytes = match NAMED.iter().find(|named| named.0 == word) {
        Some(named) => named.1.to_vec(alloc)?,
        None if word == "WRONG" => wrong_session().to_vec(alloc)?,
        None => bytes_of(alloc, word)?,
    };
    bytes.truncate(count.parse::<usize>()?);
    Ok(bytes)
}

fn text_of(word: &str) -> Text {
    match word {
        "play" => Text::Transcript,
        "check" => Text::Verdict,
        _ => Text::LocalRecord,
    }
}

fn status_of<R: Read + Drop, W: Write>(
    alloc: Global,
    word: &str,
    input: R,
    output: &mut Writing<W>,
    errors: &mut Writing<Vec<u8>>,
) -> u8 {
    let mut input = Reading::new(input);
    if word == "once" {
        return do_once(alloc, &mut input, output, errors);
    }
    do_file(alloc, text_of(word), &mut input, output, errors)
}

/// Returns the status of an action on an input, and its errors. `broken` is an input that fails. `interrupted:2` is
/// interrupted twice and then asks for the names.
fn acted<W: Write>(
    alloc: Global,
    given: &str,
    output: &mut Writing<W>,
) -> Result<(u8, Vec<u8>), Fail> {
    let (word, input) = given.split_once(' ').unwrap_or((given, ""));
    let mut errors = Writing::new(Vec::new(alloc));
    let status = if input == "broken" {
        status_of(alloc, word, Broken, output, &mut errors)
    } else if let Some(times) = input.strip_prefix("interrupted:") {
        let asking = Giving {
            failing: times.parse::<u32>()?,
            kind: ErrorKind::Interrupted,
            bytes: NAMES,
        };
        status_of(alloc, word, asking, output, &mut errors)
    } else {
        let bytes = input_of(alloc, input)?;
        status_of(alloc, word, bytes.as_slice(), output, &mut errors)
    };
    Ok((status, errors.into_inner()))
}

/// Returns how an action ends, without its output.
fn unshown<W: Write + Drop>(alloc: Global, given: &str, output: W) -> Result<String, Fail> {
    let (status, errors) = acted(alloc, given, &mut Writing::new(output))?;
    Ok(ending(alloc, status, b"", &errors)?)
}

/// An action, its input, and after `to` its output, unless that is memory. `full:2` has room for two bytes, and
/// `broken` accepts all bytes and fails to flush.
struct Acts;

impl Trial for Acts {
    fn came(&self, alloc: Global, given: &str) -> Result<String, Fail> {
        let (given, to) = given.split_once(" to ").unwrap_or((given, ""));
        if to == "broken" {
            return unshown(alloc, given, Broken);
        }
        if let Some(room) = to.strip_prefix("full:") {
            let mut bytes = [0; 100];
            let room = room.parse::<usize>()?.min(100);
            return unshown(alloc, given, &mut bytes[..room]);
        }
        let mut output = Writing::new(Vec::new(alloc));
        let (status, errors) = acted(alloc, given, &mut output)?;
        Ok(ending(alloc, status, name_of(&output.into_inner()), &errors)?)
    }
}

#[test]
fn one_request_is_answered(rt: HostRuntime) -> Result<(), Fail> {
    let table = "
        once NAMES -> 0 out NONE_LISTED
        once \0\x01n? -> 0 out NONE_LISTED
        once \0 -> 0
        once -> 0
        once \0\0 -> 0
        once \0\x02n\0 -> 0
        once KILL -> 0 out OK
        once DUMP -> 0 out NONE_LISTED
        once PORT_A -> 0 out NOT_FOUND
        once STOP_A -> 0
        once ALIVE_A -> 0 out FOURTH
    ";
    all_come(&rt, &Acts, table)
}

#[test]
fn a_million_turns_are_made(rt: HostRuntime) -> Result<(), Fail> {
    // One turn more reads the request, and one writes the reply.
    let table = "
        once interrupted:999998 -> 0 out NONE_LISTED
        once interrupted:999999 -> 3 err epmd: input or output failed|
    ";
    all_come(&rt, &Acts, table)
}

#[test]
fn a_recorded_session_is_judged_and_shown(rt: HostRuntime) -> Result<(), Fail> {
    // All peers of SESSION are local.
    let table = "
        play SESSION -> 0 out LOOK_UP_LINES
        play WRONG -> 1 out WRONG_LOOK_UP_LINES
        play SESSION:16 -> 0 out run of 0 entries|
        check SESSION -> 0 out run of 4 entries|
        check WRONG -> 1 out broken at entry 3|
        play SESSION:108 -> 2 err epmd: bad record|
        check SESSION:108 -> 2 err epmd: bad record|
        play SESSION:0 -> 2 err epmd: bad record|
        local SESSION -> 0 out SESSION
        local WRONG -> 1 err broken at entry 3|
        local SESSION:16 -> 0 out HEADER
        local SESSION:108 -> 2 err epmd: bad record|
    ";
    all_come(&rt, &Acts, table)
}

#[test]
fn a_session_is_written_without_its_remote_peers(rt: HostRuntime) -> Result<(), Fail> {
    // A session that begins with an open remote peer is refused.
    let table = "
        local REMOTE_NAMES -> 0 out HEADER
        local CLOSES -> 0 out CLOSES
        local MIXED -> 0 out LOCAL_LEFT
        local REMOTE_OPEN -> 2 err epmd: bad record|
    ";
    all_come(&rt, &Acts, table)
}

#[test]
fn a_device_that_fails_is_reported(rt: HostRuntime) -> Result<(), Fail> {
    let table = "
        once broken -> 3 err epmd: input or output failed|
        once NAMES to with full:2 broken -> 3 err epmd: input or output failed|
        play broken -> 3 err epmd: input or output failed|
        play SESSION to with full:100 broken -> 3 err epmd: input or output failed|
        local broken -> 3 err epmd: input or output failed|
        local SESSION to with full:100 broken -> 3 err epmd: input or output failed|
    ";
    all_come(&rt, &Acts, table)
}
