//! The words of the command, and their values.
mod faults;

use super::typed::command;
use portmap_command::words::{Action, Ask, Command};
use portmap_record::Text;
use portmap_testing::cases::{Trial, all_come};
use std::alloc::Global;
use std::fmt;
use std::test::Fail;

/// A command as text: the action with its value, and what differs from the default.
#[derive(Drop)]
struct Shown<'a>(&'a Command);

fn show_action<W: fmt::Write>(action: &Action, f: &mut fmt::Formatter<W>) -> fmt::Result {
    match action {
        Action::Serve => f.write_str("serve"),
        Action::Ask(Ask::Names) => f.write_str("names"),
        Action::Ask(Ask::Kill) => f.write_str("kill"),
        Action::Ask(Ask::Stop(name)) => {
            let text = str::from_utf8(name.bytes()).unwrap_or("?");
            write!(f, "stop <{text}>")
        }
        Action::Ask(Ask::Dump) => f.write_str("dump"),
        Action::Health => f.write_str("health"),
        Action::Once => f.write_str("once"),
        Action::Version => f.write_str("version"),
        Action::Help => f.write_str("help"),
        Action::Inspect(Text::Verdict, path) => write!(f, "check <{path}>"),
        Action::Inspect(Text::Transcript, path) => write!(f, "play <{path}>"),
        Action::Inspect(Text::LocalRecord, path) => write!(f, "local <{path}>"),
        Action::Audit(path) => write!(f, "audit <{path}>"),
    }
}

/// Writes the addresses, unless they are everywhere.
fn show_addresses<W: fmt::Write>(all: &[[u8; 4]], f: &mut fmt::Formatter<W>) -> fmt::Result {
    if all == [[0, 0, 0, 0]].as_slice() {
        return Ok(());
    }
    f.write_str(" on")?;
    for [a, b, c, d] in all {
        write!(f, " {a}.{b}.{c}.{d}")?;
    }
    Ok(())
}

impl fmt::Display for Shown<'_> {
    fn fmt<W: fmt::Write>(&self, f: &mut fmt::Formatter<W>) -> fmt::Result {
        let command = self.0;
        show_action(&command.action, f)?;
        show_addresses(command.addresses.as_slice(), f)?;
        for (name, number, usual) in [
            ("port", u32::from(command.port), 4369),
            ("timeout", command.timeout, 60),
            ("workers", command.workers, 4),
        ] {
            if number != usual {
                write!(f, " {name} {number}")?;
            }
        }
        for (name, is_set) in [
            ("relaxed", command.relaxed),
            ("debug", command.debug),
            ("daemon", command.daemon),
        ] {
            if is_set {
                write!(f, " {name}")?;
            }
        }
        if let Some(path) = &command.figures {
            write!(f, " figures <{path}>")?;
        }
        match &command.recording {
            Some(path) => write!(f, " record <{path}>"),
            None => Ok(()),
        }
    }
}

/// A typed line: its command, or its fault.
struct Asks;

impl Trial for Asks {
    fn came(&self, alloc: Global, given: &str) -> Result<String, Fail> {
        Ok(match command(alloc, given) {
            Ok(command) => format!(in alloc; "{}", Shown(&command))?,
            Err(fault) => format!(in alloc; "fault {fault:?}")?,
        })
    }
}

#[test]
fn an_action_is_asked_for(rt: HostRuntime) -> Result<(), Fail> {
    let table = "
        epmd -> serve
        epmd -names -> names
        epmd -kill -> kill
        epmd -stop a -> stop <a>
        epmd -stop -names -> stop <-names>
        epmd -stop a~b -> stop <a b>
        epmd -stop \u{e9} -> stop <\u{e9}>
        epmd -dump -> dump
        epmd -health -> health
        epmd -once -> once
        epmd -version -> version
        epmd -help -d -> help debug
        epmd -check a -> check <a>
        epmd -check -play -> check <-play>
        epmd -play /tmp/session -> play </tmp/session>
        epmd -play '' -> play <>
        epmd -local x -> local <x>
        epmd -local -play -> local <-play>
        epmd -local '' -> local <>
        epmd -d -local x -port 1 -> local <x> port 1 debug
        epmd -audit x -> audit <x>
        epmd -audit -check -> audit <-check>
        epmd -audit '' -> audit <>
        epmd -port 4370 -names -> names port 4370
        epmd -names -port 4370 -> names port 4370
        epmd -health -port 4370 -> health port 4370
        epmd -once -d -workers 2 -daemon -> once workers 2 debug daemon
        epmd -relaxed_command_check -check a -debug -> check <a> relaxed debug
        epmd -daemon -d -> serve debug daemon
    ";
    all_come(&rt, &Asks, table)
}

#[test]
fn an_option_has_its_last_value(rt: HostRuntime) -> Result<(), Fail> {
    let table = "
        epmd -port 1 -> serve port 1
        epmd -port 65535 -> serve port 65535
        epmd -port 000004370 -> serve port 4370
        epmd -port 4370 -port 4371 -> serve port 4371
        epmd -packet_timeout 1 -> serve timeout 1
        epmd -packet_timeout 86400 -> serve timeout 86400
        epmd -packet_timeout 9 -packet_timeout 7 -> serve timeout 7
        epmd -workers 1 -> serve workers 1
        epmd -workers 064 -> serve workers 64
        epmd -workers 2 -workers 3 -> serve workers 3
        epmd -relaxed_command_check -> serve relaxed
        epmd -relaxed_command_check -relaxed_command_check -> serve relaxed
        epmd -d -> serve debug
        epmd -debug -> serve debug
        epmd -d -debug -d -> serve debug
        epmd -figures a -> serve figures <a>
        epmd -figures a -figures -d -> serve figures <-d>
        epmd -daemon -> serve daemon
        epmd -daemon -daemon -> serve daemon
        epmd -d -workers 8 -names -port 1024 -packet_timeout 5 -> names port 1024 timeout 5 workers 8 debug
    ";
    all_come(&rt, &Asks, table)
}

#[test]
fn a_daemon_listens_on_the_host_too(rt: HostRuntime) -> Result<(), Fail> {
    let table = "
        epmd -address 10.0.0.1 -> serve on 10.0.0.1 127.0.0.1
        epmd -address 10.0.0.1,0.0.0.0 -> serve
        epmd -address 0.0.0.0 -> serve
        epmd -address 000.0.00.0,10.0.0.1 -> serve
        epmd -address 127.0.0.1 -> serve on 127.0.0.1
        epmd -address 127.0.0.1,10.0.0.1 -> serve on 127.0.0.1 10.0.0.1
        epmd -address 127.0.0.1,127.0.0.1 -> serve on 127.0.0.1
        epmd -address 10.0.0.1,10.0.0.1 -> serve on 10.0.0.1 127.0.0.1
        epmd -address 10.0.0.1,255.255.255.255,010.000.0.001 -> serve on 10.0.0.1 255.255.255.255 127.0.0.1
        epmd -address 10.0.0.1,127.0.0.1,192.168.1.20 -> serve on 10.0.0.1 127.0.0.1 192.168.1.20
        epmd -address 1.0.0.1,2.0.0.1,3.0.0.1,4.0.0.1,5.0.0.1,6.0.0.1 -> serve on 1.0.0.1 2.0.0.1 3.0.0.1 4.0.0.1 5.0.0.1 6.0.0.1 127.0.0.1
        epmd -address 0.0.0.0 -address 10.0.0.1 -> serve on 10.0.0.1 127.0.0.1
    ";
    all_come(&rt, &Asks, table)
}

#[test]
fn a_daemon_records_to_the_last_path(rt: HostRuntime) -> Result<(), Fail> {
    // The last path counts. Any word after `-record` is a path. Every action accepts the option.
    let table = "
        epmd -record x -> serve record <x>
        epmd -d -record x -> serve debug record <x>
        epmd -record x -debug -> serve debug record <x>
        epmd -record '' -> serve record <>
        epmd -record /tmp/a~session~\u{e9} -> serve record </tmp/a session \u{e9}>
        epmd -record x -record y -> serve record <y>
        epmd -record x -d -record '' -> serve debug record <>
        epmd -record -d -> serve record <-d>
        epmd -record -names -> serve record <-names>
        epmd -record -record -> serve record <-record>
        epmd -check -record -> check <-record>
        epmd -stop -record -> stop <-record>
        epmd -names -record x -> names record <x>
        epmd -record x -stop a -> stop <a> record <x>
        epmd -local y -record x -> local <y> record <x>
        epmd -record x -check x -> check <x> record <x>
    ";
    all_come(&rt, &Asks, table)
}

#[test]
fn a_port_is_said_by_words_before_the_environment(rt: HostRuntime) -> Result<(), Fail> {
    let table = "
        ERL_EPMD_PORT=4371 epmd -> serve port 4371
        ERL_EPMD_PORT=4371 epmd -port 4370 -names -> names port 4370
        ERL_EPMD_PORT=4371 epmd -names -> names port 4371
        ERL_EPMD_PORT=004371 epmd -kill -> kill port 4371
        ERL_EPMD_PORT=1 epmd -> serve port 1
        ERL_EPMD_PORT=5000 epmd -> serve port 5000
        ERL_EPMD_PORT=5000 epmd -port 6000 -names -> names port 6000
        ERL_EPMD_PORT=65535 epmd -once -> once port 65535
        ERL_EPMD_PORT=x epmd -port 4370 -> serve port 4370
        ERL_EPMD_PORT= epmd -port 4370 -> serve port 4370
        ERL_EPMD_PORT=0 epmd -names -port 4370 -> names port 4370
        EPMD_PORT=5000 ERL_EPMD_RELAXED=1 epmd -> serve
    ";
    all_come(&rt, &Asks, table)
}

#[test]
fn the_port_of_the_environment_is_digits_too(rt: HostRuntime) -> Result<(), Fail> {
    let table = "
        ERL_EPMD_PORT= epmd -> fault BadEnvPort
        ERL_EPMD_PORT=? epmd -> fault BadEnvPort
        ERL_EPMD_PORT=0 epmd -> fault BadEnvPort
        ERL_EPMD_PORT=65536 epmd -> fault BadEnvPort
        ERL_EPMD_PORT=+4371 epmd -> fault BadEnvPort
        ERL_EPMD_PORT=4371~ epmd -> fault BadEnvPort
        ERL_EPMD_PORT=0000004371 epmd -> fault BadEnvPort
        ERL_EPMD_PORT=x epmd -> fault BadEnvPort
        ERL_EPMD_PORT=x epmd with -names -kill -dump -health -once -> fault BadEnvPort
        ERL_EPMD_PORT=x epmd -stop a -> fault BadEnvPort
        ERL_EPMD_PORT=x epmd -check a -> fault BadEnvPort
        ERL_EPMD_PORT=x epmd -play a -> fault BadEnvPort
        ERL_EPMD_PORT=x epmd -local a -> fault BadEnvPort
        ERL_EPMD_PORT=x epmd -audit a -> fault BadEnvPort
        ERL_EPMD_PORT=x epmd -d -workers 2 -> fault BadEnvPort
    ";
    all_come(&rt, &Asks, table)
}

#[test]
fn words_or_the_environment_relax(rt: HostRuntime) -> Result<(), Fail> {
    // The variable is set to any text.
    let table = "
        ERL_EPMD_RELAXED_COMMAND_CHECK=1 epmd -> serve relaxed
        ERL_EPMD_RELAXED_COMMAND_CHECK= epmd -> serve relaxed
        ERL_EPMD_RELAXED_COMMAND_CHECK=false epmd -> serve relaxed
        ERL_EPMD_RELAXED_COMMAND_CHECK=? epmd -> serve relaxed
        ERL_EPMD_RELAXED_COMMAND_CHECK=1 epmd -relaxed_command_check -> serve relaxed
        ERL_EPMD_RELAXED_COMMAND_CHECK=1 epmd -names -port 4370 -> names port 4370 relaxed
    ";
    all_come(&rt, &Asks, table)
}

#[test]
fn the_programs_own_name_is_no_word(rt: HostRuntime) -> Result<(), Fail> {
    let table = "
        -names -> serve
        -kill -names -> names
    ";
    all_come(&rt, &Asks, table)
}
