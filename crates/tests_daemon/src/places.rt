//! Permits for connections, over sockets of this host, with a clock that is moved forward.
use crate::clocks::{Pushed, Pushing};
use crate::daemon::{is_answered, registered, settings_at};
use portmap_core::Config;
use portmap_daemon::run;
use portmap_operator::Host;
use portmap_testing::bytes::{FOUND_A, KILL, PORT_A};
use portmap_testing::peers::connect;
use std::alloc::Global;
use std::fs::File;
use std::io::Read;
use std::net::{Net, TcpStream};
use std::rt::Clock;
use std::sync::Wait;
use std::test::Fail;
use std::thread;
use std::thread::Threads;
use std::time::Duration;

/// How far the clock moves at once, in seconds: longer than a new connection is kept in any case.
const PUSH: u64 = 2;

/// How often the clock moves. The timeout of a request is longer than all these moves.
const PUSHES: u32 = 20;

/// How long to watch a connection that stays open, in milliseconds.
const PATIENCE: u64 = 1500;

/// Returns true if a daemon at this port with two permits ends well.
fn serves<
    R: Net + Host<File = File> + Threads + Wait + Clock + Clone + Drop + Send + Sync + 'static,
>(rt: &R, alloc: Global, port: u16) -> Result<bool, Fail> {
    let mut settings = settings_at(alloc, port, 60, 1, None)?;
    settings.config = Config::new(port, true, 2, 4096)?;
    Ok(run(rt, alloc, settings).is_ok())
}

/// Returns true if the name is found after some moves of the clock.
fn comes_to_be_found<R: Net<Stream = TcpStream> + Clock>(
    rt: &R,
    port: u16,
    clock: &Pushing,
) -> bool {
    for _ in 0..PUSHES {
        if is_answered(rt, port, PORT_A, FOUND_A) == Some(true) {
            return true;
        }
        clock.push(PUSH);
    }
    false
}

/// A registered node and a silent connection have all permits. Returns true if a lookup gets the permit of the silent
/// connection, and a later silent connection keeps it.
fn makes_room<R: Net<Stream = TcpStream> + Clock>(
    rt: &R,
    port: u16,
    clock: &Pushing,
) -> Option<bool> {
    let _node = registered(rt, port)?;
    let mut silent = connect(rt, port)?;
    let is_found = comes_to_be_found(rt, port, clock);
    let is_evicted = silent.read(&mut [0; 1]).ok()? == 0;
    Some(is_found && is_evicted && is_kept(rt, port, clock)?)
}

/// Returns true if a silent connection stays open while nobody waits for a permit.
fn is_kept<R: Net<Stream = TcpStream> + Clock>(rt: &R, port: u16, clock: &Pushing) -> Option<bool> {
    let mut silent = connect(rt, port)?;
    clock.push(PUSH);
    silent
        .set_read_timeout(Some(Duration::from_millis(PATIENCE)))
        .ok()?;
    Some(silent.read(&mut [0; 1]).is_err())
}

#[test]
fn a_connection_that_says_nothing_makes_room_for_others(rt: HostRuntime) -> Result<(), Fail> {
    let clock = Pushed::new(rt, rt.alloc())?;
    let client = || {
        let makes_room = makes_room(&rt, 14_440, clock.pushing());
        (makes_room, is_answered(&rt, 14_440, KILL, b"OK"))
    };
    let (ended, actual) = thread::join(&rt, || serves(&clock, rt.alloc(), 14_440), client);
    assert_eq!(rt; actual, (Some(true), Some(true)));
    assert!(rt; ended?);
    Ok(())
}
