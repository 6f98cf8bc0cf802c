//! What the program takes from the system: the clock, files, and where it listens and connects.
use super::auditing::file_of;
use super::printed::ending;
use super::typed::command;
use portmap_command::program::{connect, perform, since_1970, stand_ins};
use portmap_daemon::Host;
use portmap_link::{Reading, Writing};
use portmap_testing::peers::sent;
use portmap_testing::sessions::{SESSION, wrong_session};
use portmap_testing::streams::Broken;
use std::fs::File;
use std::io::{Read, Write};
use std::net::{Ipv4Addr, Ipv6Addr, Net, TcpListener, TcpStream};
use std::os::fd::AsRawFd;
use std::rt::Clock;
use std::sync::Wait;
use std::test::Fail;
use std::thread::Threads;
use std::time::Duration;
use std::{fs, io, thread};

struct Stopped(Option<u64>);

impl Clock for Stopped {
    fn monotonic(&self) -> io::Result<Duration> {
        self.since_1970()
    }

    fn since_1970(&self) -> io::Result<Duration> {
        match self.0 {
            Some(seconds) => Ok(Duration::from_secs(seconds)),
            None => Err(io::Error::from(io::ErrorKind::Unsupported)),
        }
    }

    fn sleep(&self, _duration: Duration) {}
}

#[test]
fn the_time_is_that_of_the_clock(rt: HostRuntime) -> Result<(), Fail> {
    let now = since_1970(&Stopped(Some(1_700_000_000)));
    assert!(rt; now == Some(Duration::from_secs(1_700_000_000)));
    assert!(rt; since_1970(&Stopped(None)) == None);
    Ok(())
}

/// Returns whether a timeout is 10 to 20 milliseconds: the system may round it up to ticks of its clock.
fn is_short(turn: Option<Duration>) -> bool {
    turn.is_some_and(|turn| 10 <= turn.as_millis() && turn.as_millis() <= 20)
}

/// Returns whether each read and each write of a client's connection has a short timeout.
fn is_impatient(rt: &HostRuntime, port: u16) -> Option<bool> {
    let stream = connect(rt, port).ok()?;
    Some(is_short(stream.read_timeout().ok()?) && is_short(stream.write_timeout().ok()?))
}

#[test]
fn a_port_mapper_that_is_silent_holds_nobody(rt: HostRuntime) -> Result<(), Fail> {
    let _listener = TcpListener::bind(&rt, (Ipv4Addr::LOCALHOST, 14_470))?;
    assert_eq!(rt; is_impatient(&rt, 14_470), Some(true));
    Ok(())
}

#[test]
fn a_port_mapper_of_ipv6_alone_is_found(rt: HostRuntime) -> Result<(), Fail> {
    // A system without IPv6 has no such address.
    if let Ok(_listener) = TcpListener::bind(&rt, (Ipv6Addr::LOCALHOST, 14_473)) {
        assert_eq!(rt; is_impatient(&rt, 14_473), Some(true));
    }
    Ok(())
}

/// An ALIVE2_REQ of the name `a` by a node of version 6.
const ALIVE: &[u8] = b"\x00\x0E\x78\x13\x88\x4D\x00\x00\x06\x00\x05\x00\x01\x61\x00\x00";

/// Registers a node at this port. Returns its connection and its creation.
fn node<R: Net<Stream = TcpStream> + Clock>(rt: &R, port: u16) -> Option<(TcpStream, u64)> {
    let mut stream = sent(rt, port, ALIVE)?;
    let mut reply = [0; 6];
    stream.read_exact(&mut reply).ok()?;
    let [118, 0, a, b, c, d] = reply else {
        return None;
    };
    Some((stream, u64::from(u32::from_be_bytes([a, b, c, d]))))
}

/// Returns whether the creation is a nanosecond between these times, all modulo 2^32.
fn is_between(
    node: &Option<(TcpStream, u64)>,
    before: Option<Duration>,
    after: Option<Duration>,
) -> bool {
    match (node, before, after) {
        (Some((_, creation)), Some(before), Some(after)) => {
            let spent = after.saturating_sub(before).as_nanos();
            let begun = before.as_nanos() % 4_294_967_296;
            (u128::from(*creation) + 4_294_967_296 - begun) % 4_294_967_296 <= spent
        }
        _ => false,
    }
}

/// Returns whether the command of each line of a table ends as expected, with an input that fails.
fn end_so<
    R: Net + Host<File = File> + Threads + Wait + Clock + Clone + Drop + Send + Sync + 'static,
>(rt: &HostRuntime, host: &R, table: &str) -> bool {
    for line in table.lines().filter(|line| !line.trim().is_empty()) {
        let (line, wanted) = line.split_once("->").unwrap_or((line, ""));
        let Ok(command) = command(rt.alloc(), line) else {
            return false;
        };
        let mut input = Reading::new(Broken);
        let mut output = Writing::new(Vec::new(rt.alloc()));
        let mut errors = Writing::new(Vec::new(rt.alloc()));
        let status = perform(rt, host, &command, &mut input, &mut output, &mut errors);
        let (output, errors) = (output.into_inner(), errors.into_inner());
        match ending(rt.alloc(), status, &output, &errors) {
            Ok(printed) if printed.as_str() == wanted.trim() => {}
            _ => return false,
        }
    }
    true
}

const SERVES: &str = "epmd -relaxed_command_check -port 14471 -address 127.0.0.1 -> 0";

const ASKS: &str = "
    epmd -port 14471 -names -> 0 out epmd: up and running on port 14471 with data:|name a at port 5000|
    epmd -port 14471 -health -> 0
";

const KILLS: &str = "epmd -kill -port 14471 -> 0 out Killed|";

#[test]
fn a_daemon_and_its_commands_meet_at_the_port_of_their_words(rt: HostRuntime) -> Result<(), Fail> {
    let before = since_1970(&rt);
    let (is_ended, (is_given, is_listed, is_killed)) = thread::join(
        &rt,
        || end_so(&rt, &rt, SERVES),
        || {
            let node = node(&rt, 14_471);
            (
                is_between(&node, before, since_1970(&rt)),
                end_so(&rt, &rt, ASKS),
                end_so(&rt, &rt, KILLS),
            )
        },
    );
    assert!(rt; is_given && is_listed);
    assert!(rt; is_killed && is_ended);
    Ok(())
}

#[test]
fn a_file_is_judged_at_its_path(rt: HostRuntime) -> Result<(), Fail> {
    let wrong = wrong_session();
    let of_wrong = "
        epmd -check judged -> 1 out broken at entry 3|
        epmd -local judged -> 1 err broken at entry 3|
    ";
    for (bytes, table) in [
        (
            SESSION.as_slice(),
            "epmd -check judged -> 0 out run of 4 entries|",
        ),
        (wrong.as_slice(), of_wrong),
        (
            b"EPMX".as_slice(),
            "epmd -play judged -> 2 err epmd: bad record|epmd: in judged|",
        ),
    ] {
        fs::write(&rt, "judged", bytes)?;
        assert!(rt; end_so(&rt, &rt, table));
    }
    fs::remove_file(&rt, "judged")?;
    let table = "
        epmd -check judged -> 3 err epmd: input or output failed|epmd: judged: No such file or directory|
    ";
    assert!(rt; end_so(&rt, &rt, table));
    Ok(())
}

#[test]
fn a_folder_is_no_record(rt: HostRuntime) -> Result<(), Fail> {
    let table = "
        epmd -check . -> 3 err epmd: input or output failed|epmd: .: is a directory|
        epmd -play . -> 3 err epmd: input or output failed|epmd: .: is a directory|
        epmd -local . -> 3 err epmd: input or output failed|epmd: .: is a directory|
        epmd -audit . -> 3 err epmd: input or output failed|epmd: .: is a directory|
    ";
    assert!(rt; end_so(&rt, &rt, table));
    Ok(())
}

/// Files of a recording, and other files beside them.
const RECORDED: &[(&str, &str)] = &[
    ("recorded", "a0..2"),
    ("recorded.2", "a2..5"),
    ("recorded.10", "a5..6"),
    ("recorded.02", "a5..6"),
    ("recorded-20261128T040632Z", "a5..6"),
];

#[test]
fn the_files_of_a_recording_are_found_beside_its_first(rt: HostRuntime) -> Result<(), Fail> {
    for (path, word) in RECORDED {
        fs::write(&rt, *path, &file_of(rt.alloc(), word)?)?;
    }
    let table = "
        epmd -audit recorded -> 0 out run of 6 entries in 3 files|
        epmd -audit ./recorded.2 -> 0 out run of 3 entries in 1 files| err epmd: the files before ./recorded.2 are gone|
        epmd -audit ./recorded.1 -> 3 err epmd: input or output failed|epmd: ./recorded.1: No such file or directory|
    ";
    assert!(rt; end_so(&rt, &rt, table));
    fs::remove_file(&rt, "recorded")?;
    let table = "
        epmd -audit ./recorded -> 0 out run of 4 entries in 2 files| err epmd: the files before ./recorded.2 are gone|
        epmd -audit gone/recorded -> 3 err epmd: input or output failed|epmd: gone: No such file or directory|
    ";
    assert!(rt; end_so(&rt, &rt, table));
    for (path, _) in RECORDED.iter().skip(1) {
        fs::remove_file(&rt, *path)?;
    }
    Ok(())
}

#[test]
fn a_file_that_is_no_plain_one_is_not_opened(rt: HostRuntime) -> Result<(), Fail> {
    fs::write(&rt, "plain", &file_of(rt.alloc(), "a0..2")?)?;
    fs::create_dir(&rt, "plain.1")?;
    let table = "epmd -audit plain -> 3 err epmd: plain.1: input or output failed|";
    assert!(rt; end_so(&rt, &rt, table));
    fs::remove_file(&rt, "plain")?;
    assert!(rt; end_so(&rt, &rt, table));
    fs::remove_dir(&rt, "plain.1")?;
    Ok(())
}

#[test]
fn an_input_that_fails_is_reported(rt: HostRuntime) -> Result<(), Fail> {
    let table = "epmd -once -> 3 err epmd: input or output failed|";
    assert!(rt; end_so(&rt, &rt, table));
    Ok(())
}

#[test]
fn a_port_mapper_that_is_not_there_is_reported(rt: HostRuntime) -> Result<(), Fail> {
    let table = "
        epmd -port 14472 -names -> 1 err epmd: Cannot connect to local epmd|
        epmd -port 14472 -health -> 1 err epmd: cannot connect to 127.0.0.1:14472|
    ";
    assert!(rt; end_so(&rt, &rt, table));
    Ok(())
}

#[test]
fn what_is_open_needs_no_stand_in(rt: HostRuntime) -> Result<(), Fail> {
    assert!(rt; matches!(stand_ins(&rt, 0), [None, None, None]));
    Ok(())
}

/// Returns whether a stand-in fails to be read.
fn is_mute(stand_in: Option<File>) -> bool {
    let Some(mut file) = stand_in else {
        return false;
    };
    file.read(&mut [0; 1]).is_err()
}

/// Returns whether a stand-in fails to be written.
fn is_deaf(stand_in: Option<File>) -> bool {
    let Some(mut file) = stand_in else {
        return false;
    };
    file.write(b"a").is_err()
}

#[test]
fn what_is_closed_gets_stand_ins_that_take_nothing(rt: HostRuntime) -> Result<(), Fail> {
    let number = File::open(&rt, "/dev/null")?.as_raw_fd();
    let [input, output, errors] = stand_ins(&rt, number);
    assert!(rt; is_mute(input) && is_deaf(output) && is_deaf(errors));
    Ok(())
}
