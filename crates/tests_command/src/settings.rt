//! The settings of a daemon, and what is printed when it ends.
use super::printed::ending;
use super::typed::command;
use portmap_command::daemon::{end_daemon, settings};
use portmap_command::words::{Command, WordFault};
use portmap_daemon::{RunEnd, RunFault, Settings};
use portmap_link::Writing;
use portmap_testing::cases::{Trial, all_come};
use std::alloc::Global;
use std::test::Fail;
use std::time::Duration;

/// Returns a command to serve on two addresses, with more words at its end.
fn serving(alloc: Global, more: &str) -> Result<Command, WordFault> {
    let words = "-relaxed_command_check -address 10.0.0.1 -packet_timeout 7 -workers 2";
    let line = format!(in alloc; "epmd -port 4370 {words} {more}")?;
    command(alloc, line.as_str())
}

fn is_set(set: &Settings) -> bool {
    set.config.port == 4370
        && set.config.relaxed
        && set.config.conn_max == 1024
        && set.config.known_max == 4096
        && set.addresses.as_slice() == [[10u8, 0, 0, 1], [127, 0, 0, 1]].as_slice()
        && set.timeout == 7
        && set.workers == 2
}

/// Returns where creations start at this time since 1970, and the path of the recording.
fn set_by(alloc: Global, command: &Command, now: Option<Duration>) -> Result<String, Fail> {
    let set = settings(alloc, command, now)?;
    let first = set.first;
    Ok(match &set.recording {
        _ if !is_set(&set) => String::from_str(alloc, "otherwise")?,
        Some(path) => format!(in alloc; "{first} record <{path}>")?,
        None => format!(in alloc; "{first}")?,
    })
}

/// The milliseconds since 1970, or `never`, and more words of the command.
struct Sets;

impl Trial for Sets {
    fn came(&self, alloc: Global, given: &str) -> Result<String, Fail> {
        let (time, more) = given.split_once(' ').unwrap_or((given, ""));
        let now = time.parse::<u64>().ok();
        match serving(alloc, more) {
            Ok(command) => set_by(alloc, &command, now.map(|now| Duration::from_millis(now))),
            Err(fault) => Ok(format!(in alloc; "fault {fault:?}")?),
        }
    }
}

#[test]
fn a_daemon_is_set_by_its_command(rt: HostRuntime) -> Result<(), Fail> {
    let table = "
        never -> 0
        0 -> 0
        1700000000000 -> 908722176
        1999 -> 1999000000
        4294 -> 4294000000
        4295 -> 32704
    ";
    all_come(&rt, &Sets, table)
}

#[test]
fn a_daemon_records_where_its_command_says(rt: HostRuntime) -> Result<(), Fail> {
    let table = "
        never -record '' -> 0 record <>
        never -record x -> 0 record <x>
        never -record -names -> 0 record <-names>
        never -record /tmp/a~session~\u{e9} -> 0 record </tmp/a session \u{e9}>
    ";
    all_come(&rt, &Sets, table)
}

/// Returns the end of a daemon: the acts of each worker and whether all was recorded, or the fault.
fn end_of(alloc: Global, words: &str) -> Result<Result<RunEnd, RunFault>, Fail> {
    let (end, rest) = words.split_once(' ').unwrap_or((words, ""));
    Ok(match end {
        "listen" => Err(RunFault::Listen(rest.parse::<usize>()?, 98)),
        "beside" => Err(RunFault::ListenBeside(rest.parse::<usize>()?, 98)),
        "poll" => Err(RunFault::Poll),
        "memory" => Err(RunFault::NoMemory),
        _ => {
            let mut served = Vec::new(alloc);
            for count in rest.split(' ') {
                served.push(count.parse::<u64>()?)?;
            }
            let recorded = end == "served";
            Ok(RunEnd { served, recorded })
        }
    })
}

fn ended(alloc: Global, command: &Command, end: &str) -> Result<String, Fail> {
    let mut errors = Writing::new(Vec::new(alloc));
    let status = end_daemon(&mut errors, command, &end_of(alloc, end)?, b"Why");
    Ok(ending(alloc, status, b"", &errors.into_inner())?)
}

/// More words of the command, and after `ends` the end of its daemon.
struct Ends;

impl Trial for Ends {
    fn came(&self, alloc: Global, given: &str) -> Result<String, Fail> {
        let (more, end) = given.split_once("ends ").unwrap_or((given, ""));
        match serving(alloc, more) {
            Ok(command) => ended(alloc, &command, end),
            Err(fault) => Ok(format!(in alloc; "fault {fault:?}")?),
        }
    }
}

#[test]
fn a_daemon_with_debug_output_prints_what_was_served(rt: HostRuntime) -> Result<(), Fail> {
    let table = "
        ends served 5 0 7 -> 0
        -d ends served 5 0 7 -> 0 err epmd: worker 1 served 5|epmd: worker 2 served 0|epmd: worker 3 served 7|
        -d ends served 18446744073709551615 -> 0 err epmd: worker 1 served 18446744073709551615|
    ";
    all_come(&rt, &Ends, table)
}

#[test]
fn a_daemon_whose_recording_failed_has_status_3(rt: HostRuntime) -> Result<(), Fail> {
    let table = "
        ends unrecorded 5 0 7 -> 3
        -d ends unrecorded 5 0 7 -> 3 err epmd: worker 1 served 5|epmd: worker 2 served 0|epmd: worker 3 served 7|
    ";
    all_come(&rt, &Ends, table)
}

#[test]
fn a_daemon_that_fails_prints_why(rt: HostRuntime) -> Result<(), Fail> {
    let table = "
        -d -record x ends listen 0 -> 1 err epmd: cannot listen on 10.0.0.1:4370: Why|
        -d -record x ends listen 1 -> 1 err epmd: cannot listen on 127.0.0.1:4370: Why|
        -d -record x ends beside 1 -> 1 err epmd: cannot listen on [::1]:4370: Why|
        -address 0.0.0.0 ends beside 0 -> 1 err epmd: cannot listen on [::]:4370: Why|
        -d -record x ends poll -> 3 err epmd: polling failed|
        -d -record x ends memory -> 3 err epmd: out of memory|
    ";
    all_come(&rt, &Ends, table)
}
