//! The actions of a client, over memory.

use super::printed::{bytes_of, ending};
use portmap_command::commands::do_client;
use portmap_command::words::Ask;
use portmap_link::Writing;
use portmap_testing::bytes::{A_LISTED, Bytes, DUMP, KILL, NAMES, STOP_A};
use portmap_testing::cases::{Trial, all_come};
use portmap_testing::nodes::name_a;
use portmap_testing::streams::{Broken, CallOutcome, scripted};
use portmap_testing::tape::{DevicePlan, STEADY, Tape};
use std::alloc::Global;
use std::io::{ErrorKind, Write};
use std::test::Fail;

/// Returns the action of a word, with its request. The name to stop is `a`.
fn asked(alloc: Global, word: &str) -> Result<(Ask, Bytes), Fail> {
    Ok(match word {
        "names" => (Ask::Names, NAMES),
        "dump" => (Ask::Dump, DUMP),
        "kill" => (Ask::Kill, KILL),
        _ => (Ask::Stop(name_a(alloc)?), STOP_A),
    })
}

/// Returns how a stream answers its calls. The first call is the put of the request. `fails:1` fails at the second
/// call, and `later:999` blocks 999 times from that call on.
fn plan(word: &str) -> DevicePlan {
    let fault = word
        .strip_prefix("fails:")
        .and_then(|call| call.parse::<usize>().ok());
    let (most, later): (usize, &'static [(usize, usize)]) = match word {
        "single" => (1, &[]),
        "pairs" => (2, &[]),
        "later:999" => (usize::MAX, &[(1, 1000)]),
        "later:1000" => (usize::MAX, &[(1, 1001)]),
        _ => (usize::MAX, &[]),
    };
    DevicePlan { most, later, fault }
}

/// The first line of a list. In a table it is `4369:`, which in an answer is the first four bytes.
const HEAD: &str = "epmd: up and running on port 4369 with data:|";

/// A line of a list. In a table `MANY` is 300 of them.
const LINE: &str = "name a at port 5000|";

/// Returns the status of an action, and whether its request was written completely.
fn ended<W: Write>(
    alloc: Global,
    word: &str,
    tape: &mut Tape<'_>,
    output: &mut Writing<W>,
    errors: &mut Writing<Vec<u8>>,
) -> Result<(u8, bool), Fail> {
    let (action, request) = asked(alloc, word)?;
    let status = do_client(alloc, &action, tape, output, errors);
    Ok((status, tape.sink.as_slice() == request))
}

/// Returns how an action ends, after `unasked` if its request was not written completely.
fn printed(alloc: Global, word: &str, tape: &mut Tape<'_>) -> Result<String, Fail> {
    let mut output = Writing::new(Vec::new(alloc));
    let mut errors = Writing::new(Vec::new(alloc));
    let (status, is_asked) = ended(alloc, word, tape, &mut output, &mut errors)?;
    let ending = ending(alloc, status, &output.into_inner(), &errors.into_inner())?;
    let asked = if is_asked { "" } else { "unasked " };
    Ok(format!(in alloc; "{asked}{ending}")?)
}

/// An action, after a `/` how the stream answers, and the answer of the port mapper.
struct Asks;

impl Trial for Asks {
    fn came(&self, alloc: Global, given: &str) -> Result<String, Fail> {
        let (asked, answer) = given.split_once(' ').unwrap_or((given, ""));
        let (word, stream) = asked.split_once('/').unwrap_or((asked, ""));
        let many = LINE.repeat(alloc, 300)?;
        let answer = answer.replace(alloc, "4369:", "\0\0\x11\x11")?;
        let answer = answer.as_str().replace(alloc, "MANY", many.as_str())?;
        let answer = bytes_of(alloc, answer.as_str())?;
        let printed = printed(alloc, word, &mut Tape::new(alloc, &answer, plan(stream)))?;
        let printed = printed.as_str().replace(alloc, many.as_str(), "MANY")?;
        Ok(printed.as_str().replace(alloc, HEAD, "4369:")?)
    }
}

#[test]
fn what_is_asked_for_is_done_and_printed(rt: HostRuntime) -> Result<(), Fail> {
    // The text of a dump is not checked.
    let table = "
        names 4369:name a at port 5000| -> 0 out 4369:name a at port 5000|
        names/single 4369:name a at port 5000| -> 0 out 4369:name a at port 5000|
        names 4369:name a at port 00007| -> 0 out 4369:name a at port 7|
        names ????name a at port 1| -> 0 out epmd: up and running on port 4294967295 with data:|name a at port 1|
        names 4369:name a at port 1|name b at port 2| -> 0 out 4369:name a at port 1|name b at port 2|
        names 4369:name a at port 65535| -> 0 out 4369:name a at port 65535|
        names 4369:MANY -> 0 out 4369:MANY
        names 4369: -> 0 out 4369:
        dump 4369:active name     a at port 5000, fd = 0| -> 0 out 4369:active name     a at port 5000, fd = 0|
        dump/pairs 4369:old/unused name a at port 5000, fd = -1| -> 0 out 4369:old/unused name a at port 5000, fd = -1|
        dump 4369:no line -> 0 out 4369:no line
        dump 4369:MANY -> 0 out 4369:MANY
        dump 4369: -> 0 out 4369:
        kill OK -> 0 out Killed|
        stop STOPPED -> 0 out STOPPED|
        stop NOEXIST -> 1 out NOEXIST|
    ";
    all_come(&rt, &Asks, table)
}

#[test]
fn no_terminal_obeys_what_is_printed(rt: HostRuntime) -> Result<(), Fail> {
    // As epmd-log prints names.
    let table = "
        names 4369:name \u{9b}31m at port 1| -> 0 out 4369:name \\x9b31m at port 1|
        names 4369:name a? at port 1| -> 0 out 4369:name a\\xff at port 1|
        names 4369:name \u{202e}gpj at port 1| -> 0 out 4369:name \\u202egpj at port 1|
        names 4369:name \u{2028}\u{200b} at port 1| -> 0 out 4369:name \\u2028\\u200b at port 1|
        names 4369:name \u{e0041} at port 1| -> 0 out 4369:name \\U000e0041 at port 1|
        names 4369:name \u{e9}\u{20ac}\u{1f600} at port 1| -> 0 out 4369:name \u{e9}\u{20ac}\u{1f600} at port 1|
        dump 4369:\x1b\0\x7f\\n| -> 0 out 4369:\\x1b\\x00\\x7f\\n|
    ";
    all_come(&rt, &Asks, table)
}

#[test]
fn what_is_not_allowed_is_reported(rt: HostRuntime) -> Result<(), Fail> {
    let table = "
        kill NO -> 1 err epmd: kill not allowed: names are registered, and the port mapper runs without -relaxed_command_check|
        kill -> 1 err epmd: kill not allowed: names are registered, and the port mapper runs without -relaxed_command_check|
        stop -> 1 err epmd: stop not allowed: the port mapper runs without -relaxed_command_check|
    ";
    all_come(&rt, &Asks, table)
}

#[test]
fn an_answer_that_is_none_is_strange(rt: HostRuntime) -> Result<(), Fail> {
    // A port mapper that hangs up inside its answer, or whose answer is malformed.
    let table = "
        names \0\0\x11 -> 1 err epmd: strange answer|
        names 4369:name a at po -> 1 err epmd: strange answer|
        names 4369:name a at port 65536| -> 1 err epmd: strange answer|
        dump \0\0\x11 -> 1 err epmd: strange answer|
        kill O -> 1 err epmd: strange answer|
        kill NX -> 1 err epmd: strange answer|
        stop NOEX -> 1 err epmd: strange answer|
    ";
    all_come(&rt, &Asks, table)
}

#[test]
fn a_stream_that_fails_is_strange(rt: HostRuntime) -> Result<(), Fail> {
    let table = "
        names/fails:0 4369:name a at port 5000| -> unasked 1 err epmd: strange answer|
        names/fails:1 4369:name a at port 5000| -> 1 err epmd: strange answer|
        names/fails:2 4369:name a at port 5000| -> 1 err epmd: strange answer|
        dump/fails:2 4369:name a at port 5000| -> 1 err epmd: strange answer|
        kill/fails:1 4369:name a at port 5000| -> 1 err epmd: strange answer|
        stop/fails:0 4369:name a at port 5000| -> unasked 1 err epmd: strange answer|
    ";
    all_come(&rt, &Asks, table)
}

#[test]
fn a_silent_port_mapper_is_strange_at_the_thousandth_later(rt: HostRuntime) -> Result<(), Fail> {
    let table = "
        names/later:999 4369:name a at port 5000| -> 0 out 4369:name a at port 5000|
        names/later:1000 4369:name a at port 5000| -> 1 err epmd: strange answer|
    ";
    all_come(&rt, &Asks, table)
}

const FAILED: &[u8] = b"epmd: input or output failed\n";

/// Returns whether a list to this output ends with this status and this line on errors.
fn is_printed<W: Write>(
    alloc: Global,
    output: &mut Writing<W>,
    status: u8,
    line: &[u8],
) -> Result<bool, Fail> {
    let mut tape = Tape::new(alloc, A_LISTED, STEADY);
    let mut errors = Writing::new(Vec::new(alloc));
    let (came, _) = ended(alloc, "names", &mut tape, output, &mut errors)?;
    Ok(came == status && errors.into_inner().as_slice() == line)
}

#[test]
fn an_output_that_fails_is_reported(rt: HostRuntime) -> Result<(), Fail> {
    let mut room = [0u8; 50];
    let mut full = Writing::new(room.as_mut_slice());
    assert!(rt; is_printed(rt.alloc(), &mut full, 3, FAILED)?);
    let mut broken = Writing::new(Broken);
    assert!(rt; is_printed(rt.alloc(), &mut broken, 3, FAILED)?);
    Ok(())
}

/// An output that takes a prefix of a list, is interrupted, and takes the rest.
const IN_PARTS: &[CallOutcome] = &[
    CallOutcome::Count(10),
    CallOutcome::Error(ErrorKind::Interrupted),
    CallOutcome::Count(1000),
];

#[test]
fn a_list_is_written_in_several_parts(rt: HostRuntime) -> Result<(), Fail> {
    let mut output = Writing::new(scripted(IN_PARTS));
    assert!(rt; is_printed(rt.alloc(), &mut output, 0, b"")?);
    assert_eq!(rt; output.into_inner().asked, 3);
    Ok(())
}
