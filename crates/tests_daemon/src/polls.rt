//! The system of `mio` and the kernel, over sockets of this host: what a poll reports, and how long it waits.
use mio::net;
use portmap_daemon::{MioStream, MioSystem};
use portmap_testing::peers::connect;
use portmap_worker::{Interest, Report, Stream, System};
use std::alloc::Global;
use std::io::{ErrorKind, Read, Write};
use std::net::{Ipv4Addr, TcpListener, TcpStream};
use std::rt::Clock;
use std::test::Fail;
use std::time::Duration;

/// The key of the watched stream.
const KEY: usize = 7;

/// Enough milliseconds for every event that is expected.
const PATIENCE: u64 = 5000;

/// Returns a system that listens at these ports of this host.
fn listening(rt: &HostRuntime, ports: &[u16]) -> Option<MioSystem> {
    let mut sockets = Vec::new(rt.alloc());
    for port in ports {
        let socket = TcpListener::bind(rt, (Ipv4Addr::LOCALHOST, *port)).ok()?;
        sockets.push(socket).ok()?;
    }
    let (mut system, _) = MioSystem::open(rt, rt.alloc(), &sockets).ok()?;
    for index in 0..ports.len() {
        system.listen(index).ok()?;
    }
    Some(system)
}

/// Returns the only report of the next poll.
fn reported(system: &mut MioSystem, timeout: u64) -> Option<Report> {
    if !system.poll(timeout) || system.report(1).is_some() {
        return None;
    }
    system.report(0)
}

/// Returns true if a connection is reported at the second of two listeners, and no other after that listener was left.
fn reports_listener(rt: &HostRuntime) -> Option<bool> {
    let mut system = listening(rt, &[14_450, 14_451])?;
    let _first = connect(rt, 14_451)?;
    let is_reported = reported(&mut system, PATIENCE) == Some(Report::Listener(1));
    system.leave(1);
    let _second = connect(rt, 14_451)?;
    Some(is_reported && system.poll(100) && system.report(0).is_none())
}

#[test]
fn the_listener_at_which_a_connection_waits_is_reported(rt: HostRuntime) -> Result<(), Fail> {
    assert_eq!(rt; reports_listener(&rt), Some(true));
    Ok(())
}

/// Connects to a port, and returns both ends.
fn accepted(rt: &HostRuntime, system: &mut MioSystem, port: u16) -> Option<(TcpStream, MioStream)> {
    let peer = connect(rt, port)?;
    reported(system, PATIENCE)?;
    let (stream, _) = system.accept(0).ok()?;
    Some((peer, stream))
}

/// Returns the report for a connection whose peer closes it. If a byte is unread then, the connection is reset.
fn end_of(rt: &HostRuntime, port: u16, is_unread: bool) -> Option<Report> {
    let mut system = listening(rt, &[port])?;
    let (peer, mut stream) = accepted(rt, &mut system, port)?;
    if is_unread {
        stream.write_all(b"a").ok()?;
        peer.peek(&mut [0; 1]).ok()?;
    }
    let interest = Interest::Reading;
    system.watch(&mut stream, KEY, interest, false).ok()?;
    drop(peer);
    reported(&mut system, PATIENCE)
}

#[test]
fn a_stream_that_was_reset_is_not_reported_as_closed(rt: HostRuntime) -> Result<(), Fail> {
    for (port, is_unread) in [(14_452, false), (14_453, true)] {
        let ended = Report::Stream {
            key: KEY,
            is_closed: !is_unread,
        };
        assert_eq!(rt; end_of(&rt, port, is_unread), Some(ended));
    }
    Ok(())
}

/// Returns true if a watched stream can be watched for another interest, and is reported for it.
fn is_watched_for_more(rt: &HostRuntime, port: u16) -> Option<bool> {
    let mut system = listening(rt, &[port])?;
    let (_peer, mut stream) = accepted(rt, &mut system, port)?;
    let (reading, both) = (Interest::Reading, Interest::Both);
    system.watch(&mut stream, KEY, reading, false).ok()?;
    let is_quiet = system.poll(100) && system.report(0).is_none();
    system.watch(&mut stream, KEY, both, true).ok()?;
    Some(is_quiet && reported(&mut system, PATIENCE).is_some())
}

#[test]
fn a_stream_that_is_watched_may_be_watched_for_more(rt: HostRuntime) -> Result<(), Fail> {
    assert_eq!(rt; is_watched_for_more(&rt, 14_458), Some(true));
    Ok(())
}

/// Returns what a peer reads when its connection is reset, or closed.
fn read_at_end(rt: &HostRuntime, port: u16, is_reset: bool) -> Option<Result<usize, ErrorKind>> {
    let mut system = listening(rt, &[port])?;
    let (mut peer, mut stream) = accepted(rt, &mut system, port)?;
    if is_reset {
        stream.reset();
    }
    drop(stream);
    Some(peer.read(&mut [0; 1]).map_err(|error| error.kind()))
}

#[test]
fn a_peer_sees_that_its_connection_was_reset(rt: HostRuntime) -> Result<(), Fail> {
    assert_eq!(rt; read_at_end(&rt, 14_454, false), Some(Ok(0)));
    let reset = ErrorKind::ConnectionReset;
    assert_eq!(rt; read_at_end(&rt, 14_455, true), Some(Err(reset)));
    Ok(())
}

/// Returns true if a poll is full that reports only the end of one connection, under `count` keys.
fn is_full_of(rt: &HostRuntime, port: u16, count: usize) -> Option<bool> {
    let mut system = listening(rt, &[port])?;
    let (peer, stream) = accepted(rt, &mut system, port)?;
    let mut streams = Vec::new(rt.alloc());
    for key in 0..count {
        let mut one = MioStream::from(net::TcpStream::from_std(peer.try_clone().ok()?));
        system.watch(&mut one, key, Interest::Reading, false).ok()?;
        streams.push(one).ok()?;
    }
    drop(stream);
    let is_last = system.poll(PATIENCE) && system.report(count).is_none();
    system.report(count.checked_sub(1)?)?;
    is_last.then_some(system.is_full())
}

#[test]
fn a_poll_that_reports_256_may_have_more(rt: HostRuntime) -> Result<(), Fail> {
    assert_eq!(rt; is_full_of(&rt, 14_456, 255), Some(false));
    assert_eq!(rt; is_full_of(&rt, 14_457, 256), Some(true));
    Ok(())
}

/// Returns the duration of a poll that reports nothing.
fn waited(rt: &HostRuntime, timeout: u64) -> Option<Duration> {
    let mut system = listening(rt, &[])?;
    let before = rt.monotonic().ok()?;
    let is_well = system.poll(timeout) && system.report(0).is_none();
    let waited = rt.monotonic().ok()?.saturating_sub(before);
    is_well.then_some(waited)
}

#[test]
fn a_poll_of_100_milliseconds_takes_so_long(rt: HostRuntime) -> Result<(), Fail> {
    let waited = waited(&rt, 100).unwrap_or(Duration::ZERO);
    assert!(rt; waited >= Duration::from_millis(90) && waited < Duration::from_secs(1));
    Ok(())
}
