//! The sockets of a daemon: IPv6 addresses beside its own, and sockets that are handed over.
use crate::daemon::{answered_at, is_answered, settings_at};
use portmap_daemon::{FILE_BYTES_MOST, HandedFault, Open, beside, handed_over, run, run_over};
use portmap_testing::bytes::{ALIVE_A, KILL, NAMES, NOT_FOUND, PORT_A};
use std::alloc::Global;
use std::fs::File;
use std::io::ErrorKind;
use std::net::{IpAddr, Ipv4Addr, Ipv6Addr, TcpListener, TcpStream};
use std::os::fd::IntoRawFd;
use std::test::Fail;
use std::{io, thread};

/// Ports of these tests alone. The second is 0x386E.
const PORT: u16 = 14_445;

const HANDED_PORT: u16 = 14_446;

const NONE_LISTED: &[u8] = &[0x00, 0x00, 0x38, 0x6E];

/// The first bytes of a reply to a registration that succeeds.
const TAKEN: &[u8] = &[0x76, 0x00];

const LOOPBACK: IpAddr = IpAddr::V4(Ipv4Addr::LOCALHOST);

const LOOPBACK_OF_IPV6: IpAddr = IpAddr::V6(Ipv6Addr::LOCALHOST);

#[test]
fn beside_an_ipv4_address_stands_one_of_ipv6(rt: HostRuntime) -> Result<(), Fail> {
    assert_eq!(rt; beside([0, 0, 0, 0]), Some(Ipv6Addr::UNSPECIFIED));
    assert_eq!(rt; beside([127, 0, 0, 1]), Some(Ipv6Addr::LOCALHOST));
    assert_eq!(rt; beside([127, 0, 0, 2]), None);
    Ok(())
}

/// Looks a name up and registers one at the host's IPv6 address. Then the daemon at 127.0.0.1 ends.
fn actual(rt: &HostRuntime) -> ([Option<bool>; 2], bool) {
    let is_up = is_answered(rt, PORT, PORT_A, NOT_FOUND) == Some(true);
    let looked_up = answered_at(rt, LOOPBACK_OF_IPV6, PORT, PORT_A, NOT_FOUND).ok();
    let registered = answered_at(rt, LOOPBACK_OF_IPV6, PORT, ALIVE_A, TAKEN).ok();
    let has_ended = is_answered(rt, PORT, KILL, b"OK") == Some(true);
    ([looked_up, registered], is_up && has_ended)
}

/// If the host has no IPv6, both results are `None`.
#[test]
fn a_daemon_of_the_host_serves_its_ipv6_peers_too(rt: HostRuntime) -> Result<(), Fail> {
    let alloc = rt.alloc();
    let has_ipv6 = TcpListener::bind(&rt, (LOOPBACK_OF_IPV6, 0)).is_ok();
    let settings = settings_at(alloc, PORT, 60, 2, None)?;
    let (ended, actual) = thread::join(&rt, || run(&rt, alloc, settings), || actual(&rt));
    assert_eq!(rt; actual, ([has_ipv6.then_some(true); 2], true));
    assert!(rt; ended.is_ok());
    Ok(())
}

/// Returns a socket that listens for peers of both families, or of IPv4 if the host has no IPv6.
fn socket(rt: &HostRuntime) -> Result<TcpListener, Fail> {
    match TcpListener::bind(rt, (Ipv6Addr::UNSPECIFIED, HANDED_PORT)) {
        Ok(socket) => Ok(socket),
        Err(_) => Ok(TcpListener::bind(rt, (Ipv4Addr::UNSPECIFIED, HANDED_PORT))?),
    }
}

/// Returns the socket as it is handed over.
fn handed(alloc: Global, socket: &TcpListener) -> io::Result<Vec<TcpListener>> {
    match handed_over(alloc, socket.try_clone()?.into_raw_fd(), 1) {
        Ok(listening) => Ok(listening),
        Err(_) => Err(io::Error::from(ErrorKind::InvalidInput)),
    }
}

/// Returns true if a daemon over the socket lists its port, accepts a registration, and ends.
fn is_served(rt: &HostRuntime) -> bool {
    let is_listed = answered_at(rt, LOOPBACK, HANDED_PORT, NAMES, NONE_LISTED);
    let is_taken = answered_at(rt, LOOPBACK, HANDED_PORT, ALIVE_A, TAKEN);
    let has_ended = answered_at(rt, LOOPBACK, HANDED_PORT, KILL, b"OK");
    [is_listed, is_taken, has_ended] == [Ok(true); 3]
}

/// The first daemon leaves the socket unchanged.
#[test]
fn who_connects_between_two_daemons_is_served_by_the_second(rt: HostRuntime) -> Result<(), Fail> {
    let alloc = rt.alloc();
    let socket = socket(&rt)?;
    for _ in 0..2u32 {
        // The port of the settings is another port.
        let settings = settings_at(alloc, 1, 60, 2, None)?;
        let listening = handed(alloc, &socket)?;
        let daemon = || run_over(&rt, alloc, settings, &Open, listening, FILE_BYTES_MOST);
        let (actual, ended) = thread::join(&rt, || is_served(&rt), daemon);
        assert!(rt; actual && ended.is_ok());
    }
    Ok(())
}

/// Returns which handed over descriptors are refused: a file, a connection, and a listening socket.
fn refused(rt: &HostRuntime) -> Result<[bool; 3], Fail> {
    let listener = TcpListener::bind(rt, (LOOPBACK, 0))?;
    let peer = TcpStream::connect(rt, listener.local_addr()?)?;
    let numbers = [
        File::open(rt, "/dev/null")?.into_raw_fd(),
        peer.into_raw_fd(),
        listener.into_raw_fd(),
    ];
    Ok(numbers.map(|number| {
        let refusal = Err(HandedFault::NotListening(number));
        handed_over(rt.alloc(), number, 1).map(|_| ()) == refusal
    }))
}

#[test]
fn what_is_no_listening_socket_is_not_served(rt: HostRuntime) -> Result<(), Fail> {
    assert_eq!(rt; refused(&rt)?, [true, true, false]);
    Ok(())
}
