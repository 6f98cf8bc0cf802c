//! Words that are not a command: their faults, and what is printed of them.
use super::Asks;
use crate::printed::ending;
use crate::typed::read;
use portmap_command::faults::refuse;
use portmap_command::words::WordFault;
use portmap_link::Writing;
use portmap_testing::cases::{Trial, all_come, comes};
use std::alloc::Global;
use std::test::Fail;

#[test]
fn a_word_that_is_not_known_is_reported(rt: HostRuntime) -> Result<(), Fail> {
    let table = "
        epmd with -foo - names -name -namess -Names --names ~-names '' -port=4370 -record=x -> fault Unknown(0)
        epmd with ? -port~? -> fault NotUtf8
        epmd -Record x -> fault Unknown(0)
        epmd -records x -> fault Unknown(0)
        epmd -Local x -> fault Unknown(0)
        epmd -locals x -> fault Unknown(0)
        epmd -audits x -> fault Unknown(0)
        epmd a -check -> fault Unknown(0)
        epmd -foo -bar -> fault Unknown(0)
        epmd -names x -> fault Unknown(1)
        epmd -local a b -> fault Unknown(2)
        epmd -play a b -> fault Unknown(2)
        epmd -record a b -> fault Unknown(2)
        epmd -port 4370 4371 -> fault Unknown(2)
    ";
    all_come(&rt, &Asks, table)
}

#[test]
fn a_value_that_is_missing_is_reported(rt: HostRuntime) -> Result<(), Fail> {
    let table = "
        epmd with -port -address -packet_timeout -workers -record -stop -check -play -local -audit -> fault MissingValue(0)
        epmd -d -names -port -> fault MissingValue(2)
        epmd -port 1 -port -> fault MissingValue(2)
        epmd -record x -record -> fault MissingValue(2)
        epmd -names -record -> fault MissingValue(1)
    ";
    all_come(&rt, &Asks, table)
}

#[test]
fn a_number_is_digits_within_its_range(rt: HostRuntime) -> Result<(), Fail> {
    let table = "
        epmd -port with 0 000 65536 999999999 0000004370 4294971666 -> fault BadValue(1)
        epmd -port with +4370 -1 ~4370 4370~ '' x 43a 0x10 4370/ :370 \u{663} -names -> fault BadValue(1)
        epmd -packet_timeout with 0 86401 +60 '' 0000000060 -> fault BadValue(1)
        epmd -workers with 0 65 four ~4 -> fault BadValue(1)
        epmd -port 4370 -port 0 -> fault BadValue(3)
        epmd -port 0 -port 4370 -> fault BadValue(1)
    ";
    all_come(&rt, &Asks, table)
}

#[test]
fn a_list_of_addresses_has_no_empty_part(rt: HostRuntime) -> Result<(), Fail> {
    let table = "
        epmd -address with '' , 10.0.0.1, ,10.0.0.1 10.0.0.1,,10.0.0.2 -> fault BadValue(1)
        epmd -address with 256.0.0.1 10.0.0.256 0010.0.0.1 10.0.0.0001 10.0.0.+1 -> fault BadValue(1)
        epmd -address with 10.0.0.1.1 10.0.0 10 10..0.1 10.0.0. .0.0.1 -> fault BadValue(1)
        epmd -address with 10.0.0.1,~10.0.0.2 10.0.0.1~ localhost ::1 0.0.0.0,x -names -> fault BadValue(1)
    ";
    all_come(&rt, &Asks, table)
}

#[test]
fn a_name_to_stop_is_a_name(rt: HostRuntime) -> Result<(), Fail> {
    let table = "
        epmd -stop with '' a| a\u{7f} -> fault BadValue(1)
        epmd -d -stop \u{1f} -> fault BadValue(2)
    ";
    all_come(&rt, &Asks, table)
}

#[test]
fn the_first_fault_is_reported(rt: HostRuntime) -> Result<(), Fail> {
    // The order at one word: unknown, second action, missing value, bad value.
    let table = "
        epmd -names -foo -> fault Unknown(1)
        epmd -names -stop -> fault TwoCommands(1)
        epmd -names -stop '' -> fault TwoCommands(1)
        epmd -names -check -> fault TwoCommands(1)
        epmd -names -play -> fault TwoCommands(1)
        epmd -names -local -> fault TwoCommands(1)
        epmd -names -audit -> fault TwoCommands(1)
        epmd -local x -local x -> fault TwoCommands(2)
        epmd -local x -play x -> fault TwoCommands(2)
        epmd -kill -stop -> fault TwoCommands(1)
        epmd -names -port 0 -kill -> fault BadValue(2)
        epmd -names -kill -port 0 -> fault TwoCommands(1)
        epmd -names -d -kill -foo -> fault TwoCommands(2)
        epmd -stop -names -names -> fault TwoCommands(2)
        epmd -record -names -kill -names -> fault TwoCommands(3)
    ";
    all_come(&rt, &Asks, table)
}

#[test]
fn words_are_read_before_the_environment(rt: HostRuntime) -> Result<(), Fail> {
    let table = "
        ERL_EPMD_PORT=x ERL_EPMD_RELAXED_COMMAND_CHECK=1 epmd -foo -> fault Unknown(0)
        ERL_EPMD_PORT=x ERL_EPMD_RELAXED_COMMAND_CHECK=1 epmd -names -kill -> fault TwoCommands(1)
        ERL_EPMD_PORT=x ERL_EPMD_RELAXED_COMMAND_CHECK=1 epmd -port -> fault MissingValue(0)
        ERL_EPMD_PORT=x ERL_EPMD_RELAXED_COMMAND_CHECK=1 epmd -port 0 -> fault BadValue(1)
    ";
    all_come(&rt, &Asks, table)
}

/// The words of each action, and their number.
const ACTIONS: &[(&str, usize)] = &[
    ("-names", 1),
    ("-kill", 1),
    ("-stop a", 2),
    ("-dump", 1),
    ("-health", 1),
    ("-once", 1),
    ("-version", 1),
    ("-help", 1),
    ("-check a", 2),
    ("-play a", 2),
    ("-local a", 2),
    ("-audit a", 2),
];

/// Fails unless each action after this one is refused at its first word.
fn stands_last(alloc: Global, first: &str, count: usize) -> Result<(), Fail> {
    for (second, _) in ACTIONS {
        let line = format!(in alloc; "epmd {first} {second} -> fault TwoCommands({count})")?;
        comes(alloc, &Asks, line.as_str())?;
    }
    Ok(())
}

#[test]
fn no_action_stands_behind_another(rt: HostRuntime) -> Result<(), Fail> {
    for (first, count) in ACTIONS {
        stands_last(rt.alloc(), first, *count)?;
    }
    Ok(())
}

/// Returns how a fault of these words ends the program.
fn refused(alloc: Global, words: &[String], fault: WordFault) -> Result<String, Fail> {
    let mut errors = Writing::new(Vec::new(alloc));
    let status = refuse(alloc, &mut errors, words, fault);
    Ok(ending(alloc, status, b"", &errors.into_inner())?)
}

/// A typed line, and how it ends the program.
struct Refuses;

impl Trial for Refuses {
    fn came(&self, alloc: Global, given: &str) -> Result<String, Fail> {
        let mut words = Vec::new(alloc);
        match read(alloc, given, &mut words) {
            Ok(_) => Ok(String::from_str(alloc, "no fault")?),
            Err(fault) => refused(alloc, words.as_slice(), fault),
        }
    }
}

#[test]
fn each_fault_has_a_status_and_a_line(rt: HostRuntime) -> Result<(), Fail> {
    let table = "
        epmd -foo -> 2 err epmd: unknown word \"-foo\"; see epmd -help|
        epmd -port 1 '' -> 2 err epmd: unknown word \"\"; see epmd -help|
        epmd -d -port -> 2 err epmd: -port lacks its value, a number from 1 to 65535; see epmd -help|
        epmd -check -> 2 err epmd: -check lacks its value, the path of a file; see epmd -help|
        epmd -stop -> 2 err epmd: -stop lacks its value, a name of 1 to 1020 bytes without control characters; see epmd -help|
        epmd -d -port 0 -> 2 err epmd: -port needs a number from 1 to 65535, not \"0\"; see epmd -help|
        epmd -address ::1 -> 2 err epmd: -address needs IPv4 addresses separated by commas, not \"::1\"; see epmd -help|
        epmd -packet_timeout '' -> 2 err epmd: -packet_timeout needs a number of seconds from 1 to 86400, not \"\"; see epmd -help|
        epmd -workers -d -> 2 err epmd: -workers needs a number from 1 to 64, not \"-d\"; see epmd -help|
        epmd -names -kill -> 2 err epmd: -kill is a second command; see epmd -help|
        epmd -names ? -> 2 err epmd: a word is not UTF-8; see epmd -help|
        ERL_EPMD_PORT=x epmd -> 2 err epmd: ERL_EPMD_PORT needs a number from 1 to 65535|
    ";
    all_come(&rt, &Refuses, table)
}

#[test]
fn no_terminal_obeys_a_word_that_is_reported(rt: HostRuntime) -> Result<(), Fail> {
    let table = "
        epmd -\u{9b}31m -> 2 err epmd: unknown word \"-\\x9b31m\"; see epmd -help|
        epmd -workers \u{202e}4 -> 2 err epmd: -workers needs a number from 1 to 64, not \"\\u202e4\"; see epmd -help|
    ";
    all_come(&rt, &Refuses, table)
}

#[test]
fn want_of_memory_has_a_status_and_a_line(rt: HostRuntime) -> Result<(), Fail> {
    let came = refused(rt.alloc(), &[], WordFault::NoMemory)?;
    assert!(rt; came.as_str() == "3 err epmd: out of memory|");
    Ok(())
}
