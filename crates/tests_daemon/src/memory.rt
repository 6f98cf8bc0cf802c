//! A daemon that is short of memory, with a clock that is moved forward.
use crate::clocks::{Pushed, Pushing};
use crate::daemon::{is_answered, registered, settings_at};
use portmap_daemon::{RunFault, run};
use portmap_testing::bytes::{ALIVE_A, NOT_FOUND, PORT_A};
use portmap_testing::peers::sent;
use std::io::{Read, Write};
use std::net::{Ipv4Addr, Net, TcpStream};
use std::rt::Clock;
use std::sync::atomic::Ordering;
use std::test::Fail;
use std::thread;
use std::time::Duration;

/// A port of this test alone.
const PORT: u16 = 14_460;

/// At its start, the daemon checks the memory before and after it allocates its reserve.
const FIRST_LOOKS: u64 = 2;

/// Within this number of milliseconds, a daemon that is short of memory checks it again.
const LOOK: u64 = 200;

/// More seconds than the daemon serves while every request fails.
const SECONDS: u32 = 40;

/// Returns true if the daemon has started, within ten seconds.
fn has_begun<R: Clock>(rt: &R, host: &Pushing) -> bool {
    for _ in 0..1000u32 {
        if host.asked.load(Ordering::SeqCst) >= FIRST_LOOKS {
            return true;
        }
        thread::sleep(rt, Duration::from_millis(10));
    }
    false
}

/// Returns true if a registration in two chunks has a reply.
fn is_taken_in_two<R: Net<Stream = TcpStream> + Clock>(rt: &R) -> Option<bool> {
    let (prefix, rest) = ALIVE_A.split_at(4);
    let mut stream = sent(rt, PORT, prefix)?;
    thread::sleep(rt, Duration::from_millis(LOOK));
    let is_sent = stream.write_all(rest).is_ok();
    Some(is_sent && stream.read_exact(&mut [0; 6]).is_ok())
}

/// The host has no memory from now on. Returns true if a lookup is still answered, and no name is registered.
fn is_spared<R: Net<Stream = TcpStream> + Clock>(rt: &R, host: &Pushing) -> Option<bool> {
    let was_answered = is_answered(rt, PORT, PORT_A, NOT_FOUND)?;
    host.is_short.store(true, Ordering::SeqCst);
    let is_taken = registered(rt, PORT).is_some() || is_taken_in_two(rt)?;
    Some(is_answered(rt, PORT, PORT_A, NOT_FOUND)? && was_answered && !is_taken)
}

/// The host has memory again. Returns true if a name is registered within ten seconds, before the clock moves.
fn is_over<R: Net<Stream = TcpStream> + Clock>(rt: &R, host: &Pushing) -> bool {
    host.is_short.store(false, Ordering::SeqCst);
    for _ in 0..50u32 {
        if registered(rt, PORT).is_some() {
            return true;
        }
        thread::sleep(rt, Duration::from_millis(LOOK));
    }
    false
}

/// The host has no memory from now on. Returns true if every name is refused until the daemon stops listening.
fn starves<R: Net<Stream = TcpStream> + Clock>(rt: &R, host: &Pushing) -> Option<bool> {
    host.is_short.store(true, Ordering::SeqCst);
    for _ in 0..SECONDS {
        if TcpStream::connect(rt, (Ipv4Addr::LOCALHOST, PORT)).is_err() {
            return Some(true);
        }
        if registered(rt, PORT).is_some() {
            return None;
        }
        host.push(1);
        thread::sleep(rt, Duration::from_millis(LOOK));
    }
    Some(false)
}

#[test]
fn while_memory_is_short_no_name_is_registered_and_for_five_seconds_at_most(
    rt: HostRuntime,
) -> Result<(), Fail> {
    let alloc = rt.alloc();
    let settings = settings_at(alloc, PORT, 60, 1, None)?;
    let host = Pushed::new(rt, alloc)?;
    host.pushing().stand();
    host.pushing().is_short.store(false, Ordering::SeqCst);
    let client = || {
        let pushing = host.pushing();
        let (has_begun, is_spared) = (has_begun(&rt, pushing), is_spared(&rt, pushing));
        let (is_over, starves) = (is_over(&rt, pushing), starves(&rt, pushing));
        (has_begun, is_spared, is_over, starves)
    };
    let (ended, actual) = thread::join(&rt, || run(&host, alloc, settings), client);
    assert_eq!(rt; actual, (true, Some(true), true, Some(true)));
    assert!(rt; host.pushing().short.load(Ordering::SeqCst) > 0);
    assert!(rt; matches!(ended, Err(RunFault::NoMemory)));
    Ok(())
}
