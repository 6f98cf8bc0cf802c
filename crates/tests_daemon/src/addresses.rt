//! The addresses that a daemon listens on.
use crate::daemon::{answered_at, is_answered, settings_at};
use portmap_daemon::{RunFault, run};
use portmap_testing::bytes::{KILL, NOT_FOUND, PORT_A};
use std::io::ErrorKind;
use std::net::IpAddr;
use std::test::Fail;
use std::thread;

/// Ports of these tests alone.
const PORT: u16 = 14_443;

const TAKEN_PORT: u16 = 14_441;

const EADDRINUSE: i32 = 98;

/// Looks a name up at this address of the host.
fn looked_up(rt: &HostRuntime, last: u8) -> Result<bool, ErrorKind> {
    answered_at(rt, IpAddr::from([127, 0, 0, last]), PORT, PORT_A, NOT_FOUND)
}

/// Looks a name up at three addresses of the host. A daemon listens on the first two, and ends then.
fn actual(rt: &HostRuntime) -> ([Result<bool, ErrorKind>; 3], Option<bool>) {
    let is_first = is_answered(rt, PORT, PORT_A, NOT_FOUND) == Some(true);
    let actual = [Ok(is_first), looked_up(rt, 2), looked_up(rt, 3)];
    (actual, is_answered(rt, PORT, KILL, b"OK"))
}

#[test]
fn each_address_that_is_listed_is_listened_on_and_no_other(rt: HostRuntime) -> Result<(), Fail> {
    let alloc = rt.alloc();
    let mut settings = settings_at(alloc, PORT, 60, 1, None)?;
    settings.addresses.push([127, 0, 0, 2])?;
    let (ended, (actual, has_ended)) = thread::join(
        &rt,
        || run(&rt, alloc, settings),
        || actual(&rt),
    );
    assert_eq!(rt;
        actual,
        [Ok(true), Ok(true), Err(ErrorKind::ConnectionRefused)]
    );
    assert!(rt; ended.is_ok() && has_ended == Some(true));
    Ok(())
}

#[test]
fn an_address_in_use_is_reported(rt: HostRuntime) -> Result<(), Fail> {
    let mut settings = settings_at(rt.alloc(), TAKEN_PORT, 60, 1, None)?;
    settings.addresses.push([127, 0, 0, 1])?;
    let ended = run(&rt, rt.alloc(), settings);
    assert!(rt; matches!(ended, Err(RunFault::Listen(1, EADDRINUSE))));
    Ok(())
}
