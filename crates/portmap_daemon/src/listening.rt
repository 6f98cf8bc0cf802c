//! The listening sockets of a daemon: those that it opens, and those that are passed to it.
ghost use Rattle.std.specs.Prelude.{◌≡◌, ◌≢◌, ◌↔◌, ◌⊎◌, ◌+◌, ◌≤◌, ◌∷◌, [], true, length, Some, IfErr, IfNone, IfSome};
ghost use Rattle.std.specs.Net.Addr.{ipv4_octets, IsLoopbackV6, IsUnspecifiedV6, IsV4And};
ghost use Rattle.std.specs.Net.Socket.{socket_ip, socket_port};
ghost use Rattle.mio.specs.SockAddr.{put, sockaddr_in6};
ghost use Rattle.portmap_daemon.specs.Running.{IsOfAddresses};
ghost use Rattle.portmap_daemon.specs.declared.listening.TheConstants.{EADDRNOTAVAIL, EAFNOSUPPORT};

use crate::daemon::RunFault;
use libc::net::{
    _SS_SIZE, AF_INET6, IPPROTO_IPV6, IPPROTO_TCP, IPV6_V6ONLY, SO_REUSEADDR, SOCK_CLOEXEC,
    SOCK_NONBLOCK, SOCK_STREAM, SOL_SOCKET, TCP_NODELAY,
};
use mio::net::TcpListener;
use os::FromRawFd;
use std::alloc::{AllocFailed, Global};
use std::net::{IpAddr, Ipv6Addr, Net, SocketAddr, SocketAddrV6};
use std::os::fd::AsRawFd;
use std::{io, net};

/// The backlog of a listener, if the system allows as many connections.
const BACKLOG: i32 = 4096;

const ADDRESS_BYTES: u32 = 28;

/// The errors with which a system without IPv6 refuses a socket, and an address.
const EAFNOSUPPORT: i32 = 97;

const EADDRNOTAVAIL: i32 = 99;

/// The reason for which passed sockets are not served.
#[derive(Clone, Copy, PartialEq, Eq)]
pub enum HandedFault {
    /// The descriptor with this number is not a listening TCP socket.
    NotListening(i32),
    NoMemory,
}

impl<T: Drop> From<AllocFailed<T>> for HandedFault {
    ghost use Rattle.std.specs.Prelude.{◌≡◌};
    ghost use Rattle.portmap_daemon.specs.declared.listening.HandedFault.TheVariants as fault;

    ghost from_gives = { λ _ f. f ≡ fault.NoMemory };

    fn from(_: AllocFailed<T>) -> HandedFault {
        HandedFault::NoMemory
    }
}

/// Listens on each address at this port. If the system has IPv6, also listens on the IPv6 address beside it, if any.
pub(crate) fn listen<R: Net>(
    rt: &R,
    alloc: Global,
    port: u16,
    addresses: &[[u8; 4]],
) -> Result<Vec<net::TcpListener>, RunFault>
    ensures { IfErr result (λ f. IsOfAddresses (length addresses.now) f) }
{
    let mut listening = Vec::new(alloc);
    for (place, address) in addresses.iter().enumerate() {
        match TcpListener::bind(rt, address_at(*address, port)) {
            Ok(listener) => listening.push(net::TcpListener::from(listener))?,
            Err(error) => return Err(RunFault::Listen(place, error_number(&error))),
        }
        match beside(*address).map(|ipv6| listen_alone(ipv6, port)) {
            None => {}
            Some(Ok(listener)) => listening.push(listener)?,
            Some(Err(error)) if lacks_ipv6(error.raw_os_error()) => {}
            Some(Err(error)) => return Err(RunFault::ListenBeside(place, error_number(&error))),
        }
    }
    Ok(listening)
}

fn error_number(error: &io::Error) -> i32 {
    error.raw_os_error().unwrap_or(libc::EIO)
}

fn address_at(address: [u8; 4], port: u16) -> SocketAddr
    ensures ip { IsV4And (socket_ip result) (λ ip. ipv4_octets ip ≡ address) }
    ensures port { socket_port result ≡ port }
{
    SocketAddr::new(IpAddr::from(address), port)
}

/// Returns the IPv6 address beside an IPv4 address: `::` beside `0.0.0.0`, and `::1` beside `127.0.0.1`. Other
/// addresses have none.
pub fn beside(address: [u8; 4]) -> Option<Ipv6Addr>
    ensures found { IfSome result (λ ip. ((address ≡ 0 ∷ 0 ∷ 0 ∷ 0 ∷ []) × IsUnspecifiedV6 ip)
        ⊎ ((address ≡ 127 ∷ 0 ∷ 0 ∷ 1 ∷ []) × IsLoopbackV6 ip)) }
    ensures none { IfNone result ((address ≢ 0 ∷ 0 ∷ 0 ∷ 0 ∷ []) × (address ≢ 127 ∷ 0 ∷ 0 ∷ 1 ∷ [])) }
{
    match address {
        [0, 0, 0, 0] => Some(Ipv6Addr::UNSPECIFIED),
        [127, 0, 0, 1] => Some(Ipv6Addr::LOCALHOST),
        _ => None,
    }
}

/// Returns true if and only if a system without IPv6 reports this error.
pub fn lacks_ipv6(number: Option<i32>) -> bool
    ensures { (result ≡ true) ↔ ((number ≡ Some EAFNOSUPPORT) ⊎ (number ≡ Some EADDRNOTAVAIL)) }
{
    number == Some(EAFNOSUPPORT) || number == Some(EADDRNOTAVAIL)
}

fn listen_alone(ip: Ipv6Addr, port: u16) -> io::Result<net::TcpListener> {
    let kind = SOCK_STREAM | SOCK_NONBLOCK | SOCK_CLOEXEC;
    let number = unsafe { libc::net::socket(AF_INET6, kind, 0) };
    if number < 0 {
        return Err(io::Error::from_raw_os_error(os::errno()));
    }
    let listener = unsafe { net::TcpListener::from_raw_fd(number) };
    let on = [1, 0, 0, 0, 0, 0, 0, 0, 0, 0, 0, 0, 0, 0, 0, 0];
    done(unsafe { libc::net::setsockopt(number, IPPROTO_IPV6, IPV6_V6ONLY, &on, 4) })?;
    done(unsafe { libc::net::setsockopt(number, SOL_SOCKET, SO_REUSEADDR, &on, 4) })?;
    let address = address_of(SocketAddrV6::new(ip, port, 0, 0));
    done(unsafe { libc::net::bind(number, &address, ADDRESS_BYTES) })?;
    done(libc::net::listen(number, BACKLOG))?;
    Ok(listener)
}

fn done(status: i32) -> io::Result<()> {
    if status == 0 {
        return Ok(());
    }
    Err(io::Error::from_raw_os_error(os::errno()))
}

fn put(address: &mut [u8; _SS_SIZE], at: usize, bytes: &[u8])
    requires { at + length bytes.now ≤ 128 }
    ensures { address.new ≡ put address.old at bytes.now }
{
    address[at..at + bytes.len()].copy_from_slice(bytes);
}

fn address_of(address: SocketAddrV6) -> [u8; _SS_SIZE]
    ensures { result ≡ sockaddr_in6 address }
{
    let mut bytes = [0; _SS_SIZE];
    put(&mut bytes, 0, &(AF_INET6 as u16).to_ne_bytes());
    put(&mut bytes, 2, &address.port().to_be_bytes());
    put(&mut bytes, 4, &address.flowinfo().to_ne_bytes());
    put(&mut bytes, 8, &address.ip().octets());
    put(&mut bytes, 24, &address.scope_id().to_ne_bytes());
    bytes
}

/// Returns the `count` sockets that were passed to this process, from descriptor `first` on.
///
/// The sockets become non-blocking. They are closed when the result is dropped.
pub fn handed_over(
    alloc: Global,
    first: i32,
    count: u32,
) -> Result<Vec<net::TcpListener>, HandedFault> {
    let mut listening = Vec::new(alloc);
    let mut number = first;
    for _ in 0..count {
        let Some(listener) = listening_at(number) else {
            return Err(HandedFault::NotListening(number));
        };
        listening.push(listener)?;
        number = number.saturating_add(1);
    }
    Ok(listening)
}

fn listening_at(number: i32) -> Option<net::TcpListener> {
    if number < 0 {
        return None;
    }
    let listener = unsafe { net::TcpListener::from_raw_fd(number) };
    listener.set_nonblocking(true).ok()?;
    is_listening(&listener).then_some(listener)
}

pub(crate) fn port_of(socket: &net::TcpListener) -> Option<u16> {
    let port = socket.local_addr().ok()?.port();
    (port > 0).then_some(port)
}

/// Returns true if the socket is a TCP socket with an address, and listens. A socket with an address that did not
/// listen before listens from now on.
fn is_listening(socket: &net::TcpListener) -> bool {
    let mut value = [0; 16];
    let mut length = 4;
    let number = socket.as_raw_fd();
    let is_tcp = unsafe {
        libc::net::getsockopt(number, IPPROTO_TCP, TCP_NODELAY, &mut value, &mut length)
    } == 0;
    is_tcp && port_of(socket).is_some() && libc::net::listen(number, BACKLOG) == 0
}
