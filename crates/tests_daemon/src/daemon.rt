//! The daemon over sockets of this host. Each script has its own port, and its client ends the daemon.
ghost use Rattle.std.specs.Prelude.{◌<◌, ◌≤◌, vec_len, IfOk};
ghost use Rattle.portmap_book.specs.declared.desk.TheConstants.{SEATS_MOST};
ghost use Rattle.portmap_daemon.specs.declared.limits.TheConstants.{TIMEOUT_SECONDS_MOST};

use crate::gates::Meet;
use portmap_core::Config;
use portmap_daemon::{RunEnd, RunFault, Settings, run, run_gated};
use portmap_link::{Reading, Writing};
use portmap_record::{Text, Verdict, show};
use portmap_testing::bytes::{ALIVE_A, DUMP, FOUND_A, KILL, NAMES, NOT_FOUND, PORT_A};
use portmap_testing::cases::is_so;
use portmap_testing::peers::{connect, sent};
use std::alloc::Global;
use std::fs::File;
use std::io::{ErrorKind, Read, Write};
use std::net::{IpAddr, Net, TcpStream};
use std::rt::Clock;
use std::test::Fail;
use std::time::Duration;
use std::{fs, thread};

/// The actions of a client. The number is its port.
#[derive(Clone, Copy, PartialEq, Eq)]
enum ClientScript {
    /// A node registers, is listed, and leaves.
    Leaves = 14_369,
    /// A node registers, and its connection is reset.
    Resets,
    /// A connection is silent for longer than it may, and so is a registered node.
    Silent,
    /// A peer requests a list that is longer than the system can hold for it, and reads it only after another peer has
    /// its reply.
    Stalls,
    /// Eight peers request the list of names, one after the other, and read nothing.
    Crowds,
    /// A node registers, is listed, and leaves. That is recorded.
    Records,
    /// The recording cannot be written.
    Nowhere,
}

/// Returns true if the request has this reply, of at most 64 bytes, and the connection is closed after it.
pub fn is_answered<R: Net<Stream = TcpStream> + Clock>(
    rt: &R,
    port: u16,
    request: &[u8],
    reply: &[u8],
) -> Option<bool> {
    let mut stream = sent(rt, port, request)?;
    let is_same = begins(&mut stream, reply)?;
    let behind = stream.read(&mut [0; 1]).ok()?;
    Some(is_same && behind == 0)
}

/// Returns true if these bytes, at most 64, arrive first. `None` if fewer arrive.
fn begins(stream: &mut TcpStream, reply: &[u8]) -> Option<bool> {
    let mut whole = [0; 64];
    let got = whole.get_mut(..reply.len())?;
    stream.read_exact(got).ok()?;
    Some(*got == *reply)
}

/// Sends a request to this address of the host. Returns true if the reply begins with these bytes, or the reason why
/// there is no connection.
pub fn answered_at(
    rt: &HostRuntime,
    ip: IpAddr,
    port: u16,
    request: &[u8],
    reply: &[u8],
) -> Result<bool, ErrorKind> {
    let mut stream = TcpStream::connect(rt, (ip, port)).map_err(|error| error.kind())?;
    let is_asked = stream.write_all(request).is_ok();
    Ok(is_asked && begins(&mut stream, reply) == Some(true))
}

/// Returns true if the request has this reply within ten seconds.
fn comes_to<R: Net<Stream = TcpStream> + Clock>(
    rt: &R,
    port: u16,
    request: &[u8],
    reply: &[u8],
) -> bool {
    for _ in 0..1000u32 {
        if is_answered(rt, port, request, reply) == Some(true) {
            return true;
        }
        thread::sleep(rt, Duration::from_millis(10));
    }
    false
}

/// Returns the connection of a node that is registered as `a`.
pub fn registered<R: Net<Stream = TcpStream> + Clock>(rt: &R, port: u16) -> Option<TcpStream> {
    let mut stream = sent(rt, port, ALIVE_A)?;
    let mut reply = [0; 6];
    stream.read_exact(&mut reply).ok()?;
    reply.starts_with(&[0x76, 0]).then_some(stream)
}

/// The list of names of the daemon at port 14,369 (0x3821), with `a` in it.
const LISTED: &[u8] = b"\x00\x00\x38\x21name a at port 5000\n";

/// The list of names of the daemon at port 14,374 (0x3826), with `a` in it.
const LISTED_AS_RECORDED: &[u8] = b"\x00\x00\x38\x26name a at port 5000\n";

fn leaves<R: Net<Stream = TcpStream> + Clock>(rt: &R, port: u16, listed: &[u8]) -> Option<bool> {
    let node = registered(rt, port)?;
    let is_listed = is_answered(rt, port, NAMES, listed)?;
    let is_found = is_answered(rt, port, PORT_A, FOUND_A)?;
    drop(node);
    Some(is_listed && is_found && comes_to(rt, port, PORT_A, NOT_FOUND))
}

/// A connection that is closed with unread bytes is reset.
fn resets<R: Net<Stream = TcpStream> + Clock>(rt: &R, port: u16) -> Option<bool> {
    let node = sent(rt, port, ALIVE_A)?;
    let is_found = comes_to(rt, port, PORT_A, FOUND_A);
    drop(node);
    Some(is_found && comes_to(rt, port, PORT_A, NOT_FOUND))
}

/// Returns true if a silent connection is closed after its second, and a registered one is not.
fn is_silent<R: Net<Stream = TcpStream> + Clock>(rt: &R, port: u16) -> Option<bool> {
    let _node = registered(rt, port)?;
    let before = rt.monotonic().ok()?;
    let mut silent = connect(rt, port)?;
    let is_closed = silent.read(&mut [0; 1]).ok()? == 0;
    let is_due = rt.monotonic().ok()?.saturating_sub(before) >= Duration::from_millis(900);
    Some(is_closed && is_due && is_answered(rt, port, PORT_A, FOUND_A)?)
}

/// Returns the registration of a name of 1,020 (0x03FC) bytes that begins with `first`. Its body has 1,033 (0x0409)
/// bytes.
fn long_registration(alloc: Global, first: [u8; 2]) -> Option<Vec<u8>> {
    let mut request = [
        0x04, 0x09, 0x78, 0x13, 0x88, 0x4D, 0x00, 0x00, 0x06, 0x00, 0x05, 0x03, 0xFC,
    ]
    .to_vec(alloc)
    .ok()?;
    request.extend_from_slice(&first).ok()?;
    request.resize(1033, 0x6E).ok()?;
    request.resize(1035, 0).ok()?;
    Some(request)
}

/// Returns true if a node with such a name registers. It leaves at once.
fn passes<R: Net<Stream = TcpStream> + Clock>(
    rt: &R,
    alloc: Global,
    port: u16,
    first: [u8; 2],
) -> Option<bool> {
    let request = long_registration(alloc, first)?;
    let mut node = sent(rt, port, &request)?;
    let mut reply = [0; 6];
    node.read_exact(&mut reply).ok()?;
    Some(reply.starts_with(&[0x76, 0]))
}

/// Returns true if 4,800 such nodes register and leave.
fn pass<R: Net<Stream = TcpStream> + Clock>(rt: &R, alloc: Global, port: u16) -> Option<bool> {
    for one in 0x30..0x60 {
        for two in 0x80..0xE4 {
            if !passes(rt, alloc, port, [one, two])? {
                return Some(false);
            }
        }
    }
    Some(true)
}

/// The list of names of the daemon at port 14,372 (0x3824), with no name.
const NONE_LISTED: &[u8] = &[0x00, 0x00, 0x38, 0x24];

/// The line `old/unused name NAME at port 5000, fd = -1` of each name has 1,059 bytes. Together they are more than
/// loopback holds for a peer that does not read: 4 MB, and the buffer of the peer.
const DUMP_LENGTH: usize = 5_083_204;

fn stalls<R: Net<Stream = TcpStream> + Clock>(rt: &R, alloc: Global, port: u16) -> Option<bool> {
    let have_passed = pass(rt, alloc, port)? && comes_to(rt, port, NAMES, NONE_LISTED);
    let mut stalled = sent(rt, port, DUMP)?;
    let _node = registered(rt, port)?;
    let is_found = is_answered(rt, port, PORT_A, FOUND_A)?;
    let length = stalled.read_to_end(&mut Vec::new(alloc)).ok()?;
    Some(have_passed && is_found && length == DUMP_LENGTH)
}

fn crowds<R: Net<Stream = TcpStream> + Clock>(rt: &R, alloc: Global, port: u16) -> Option<bool> {
    let mut peers = Vec::new(alloc);
    for _ in 0..8u32 {
        peers.push(sent(rt, port, NAMES)?).ok()?;
        thread::sleep(rt, Duration::from_millis(20));
    }
    Some(peers.len() == 8)
}

/// Runs the script, and ends the daemon in any case.
fn goes_well<R: Net<Stream = TcpStream> + Clock>(
    rt: &R,
    alloc: Global,
    story: ClientScript,
) -> bool {
    let port = story as u16;
    let actual = match story {
        ClientScript::Leaves => leaves(rt, port, LISTED),
        ClientScript::Records => leaves(rt, port, LISTED_AS_RECORDED),
        ClientScript::Resets | ClientScript::Nowhere => resets(rt, port),
        ClientScript::Silent => is_silent(rt, port),
        ClientScript::Stalls => stalls(rt, alloc, port),
        ClientScript::Crowds => crowds(rt, alloc, port),
    };
    let has_ended = is_answered(rt, port, KILL, b"OK");
    actual == Some(true) && has_ended == Some(true)
}

/// Returns the settings of a daemon at this port of the host. It may be ended while names are active.
pub fn settings_at(
    alloc: Global,
    port: u16,
    timeout: u32,
    workers: u32,
    recording: Option<&str>,
) -> Result<Settings, Fail>
    requires timeout { (1 ≤ timeout) × (timeout ≤ TIMEOUT_SECONDS_MOST) }
    requires workers { (1 ≤ workers) × (workers ≤ SEATS_MOST) }
    ensures addresses { IfOk result (λ settings. 0 < vec_len settings.addresses) }
    ensures timeout { IfOk result (λ settings. (1 ≤ settings.timeout) × (settings.timeout ≤ TIMEOUT_SECONDS_MOST)) }
    ensures workers { IfOk result (λ settings. (1 ≤ settings.workers) × (settings.workers ≤ SEATS_MOST)) }
{
    let recording = match recording {
        Some(path) => Some(String::from_str(alloc, path)?),
        None => None,
    };
    let mut addresses = Vec::new(alloc);
    addresses.push([127, 0, 0, 1])?;
    Ok(Settings {
        config: Config::new(port, true, 1024, 8192)?,
        first: 4,
        addresses,
        timeout,
        workers,
        recording,
        figures: None,
    })
}

fn settings(alloc: Global, story: ClientScript, recording: Option<&str>) -> Result<Settings, Fail>
    ensures addresses { IfOk result (λ settings. 0 < vec_len settings.addresses) }
    ensures timeout { IfOk result (λ settings. (1 ≤ settings.timeout) × (settings.timeout ≤ TIMEOUT_SECONDS_MOST)) }
    ensures workers { IfOk result (λ settings. (1 ≤ settings.workers) × (settings.workers ≤ SEATS_MOST)) }
{
    let timeout = if story == ClientScript::Silent { 1 } else { 60 };
    settings_at(alloc, story as u16, timeout, 2, recording)
}

/// Returns true if each of two workers has reported its number of acts, and the daemon whether all was recorded.
fn have_served(ended: &Result<RunEnd, RunFault>, recorded: bool) -> bool {
    ended.as_ref().is_ok_and(|end| {
        let has_one = end.served.iter().any(|served| *served > 0);
        end.served.len() == 2 && has_one && end.recorded == recorded
    })
}

/// Scripts, the path of the recording, and whether all is recorded.
const SCRIPTS: [(ClientScript, Option<&str>, bool); 5] = [
    (ClientScript::Leaves, None, true),
    (ClientScript::Resets, None, true),
    (ClientScript::Silent, None, true),
    (ClientScript::Stalls, None, true),
    (ClientScript::Nowhere, Some("/none/there"), false),
];

#[test]
fn each_story_goes_as_it_should(rt: HostRuntime) -> Result<(), Fail> {
    let alloc = rt.alloc();
    for (story, path, recorded) in SCRIPTS {
        let settings = settings(alloc, story, path)?;
        let daemon = || run(&rt, alloc, settings);
        let (ended, actual) = thread::join(&rt, daemon, || goes_well(&rt, alloc, story));
        assert!(rt; actual && have_served(&ended, recorded));
    }
    Ok(())
}

#[test]
fn a_worker_that_is_held_stops_no_other(rt: HostRuntime) -> Result<(), Fail> {
    let alloc = rt.alloc();
    let gate = Meet::new(&rt);
    let settings = settings(alloc, ClientScript::Crowds, None)?;
    let daemon = || run_gated(&rt, alloc, settings, &gate);
    let (ended, actual) = thread::join(&rt, daemon, || goes_well(&rt, alloc, ClientScript::Crowds));
    assert!(rt; actual && have_served(&ended, true) && gate.have_met());
    Ok(())
}

/// Returns the number of acts of all workers.
pub fn acts_of(ended: &Result<RunEnd, RunFault>) -> u64 {
    ended.as_ref().map_or(0, |end| {
        let served = end.served.iter();
        served.fold(0, |acts: u64, served| acts.saturating_add(*served))
    })
}

/// Returns true if a recorded session is a run of this number of entries.
fn is_run_of<F: Read + Drop>(alloc: Global, file: F, entries: u64) -> Result<bool, Fail> {
    let mut input = Reading::new(file);
    let mut output = Writing::new(Vec::new(alloc));
    let actual = show(alloc, &mut input, &mut output, u64::MAX, Text::Verdict);
    let verdict = format!(in alloc; "run of {entries} entries\n")?;
    Ok(actual == Ok(Verdict::Run) && output.into_inner().as_slice() == verdict.as_bytes())
}

/// A file of this test alone, in the folder of the tests.
const RECORDING: &str = "recording-14374";

#[test]
fn what_is_answered_is_recorded(rt: HostRuntime) -> Result<(), Fail> {
    let alloc = rt.alloc();
    let settings = settings(alloc, ClientScript::Records, Some(RECORDING))?;
    let daemon = || run(&rt, alloc, settings);
    let (ended, actual) = thread::join(
        &rt,
        daemon,
        || goes_well(&rt, alloc, ClientScript::Records),
    );
    assert!(rt; actual && have_served(&ended, true));
    let file = File::open(&rt, RECORDING)?;
    fs::remove_file(&rt, RECORDING)?;
    is_so(&rt, is_run_of(alloc, file, acts_of(&ended)))
}
