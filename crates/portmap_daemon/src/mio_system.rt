//! The implementation of `System` with `mio` and the kernel.
ghost use Rattle.std.specs.Prelude.{◌≡◌, ◌≢◌, ◌↔◌, ◌-◌, ◌<◌, ◌≤◌, ◌∷◌, [], ◌&&◌, not, true, take, drop, IfSome, IfNone};
ghost use Rattle.std.specs.Prelude.{IfErr, option_copied, slice_get};
ghost use Rattle.mio.specs.Events.{items};
ghost use Rattle.portmap_daemon.specs.Events.{report_of};
ghost use Rattle.std.specs.Net.Addr.{ipv4_octets, ipv6_segments, segments_of, IsV4And, IsV6And};
ghost use Rattle.portmap_daemon.specs.Running.{IsOfAddresses};
ghost use Rattle.portmap_worker.specs.declared.limits.TheConstants.{EVENTS_MOST};
ghost use Rattle.portmap_daemon.specs.declared.mio_system.TheConstants.{FIRST_LISTENER, WAKE};

use crate::daemon::RunFault;
use libc::net::{_SS_SIZE, AF_INET, AF_INET6, SOCK_CLOEXEC, SOCK_NONBLOCK, accept4};
use mio::event::Event;
use mio::net::{TcpListener, TcpStream};
use mio::{Events, Poll, Token, Waker};
use os::FromRawFd;
use portmap_link::GhostList;
use portmap_worker::{EVENTS_MOST, Interest, Report, Stream, System, Wake};
use std::alloc::Global;
use std::io::{Read, Write};
use std::net::{IpAddr, Net};
use std::os::fd::AsRawFd;
use std::time::Duration;
use std::{io, net};

/// The token of the first listener. Smaller tokens are the keys of streams.
const FIRST_LISTENER: usize = 4_294_967_296;

/// The token of the waker, with which other threads end the wait.
const WAKE: usize = 8_589_934_592;

/// The maximal number of bytes of an address that the system may write.
const ADDRESS_MOST: u32 = 128;

/// The number of bytes of an address that the system reads.
const ADDRESS_BYTES: u32 = 16;

/// Returns the report for a token. A stream that has failed is not reported as closed.
fn report_of(token: usize, is_read_closed: bool, is_error: bool) -> Report
    ensures { result ≡ report_of token is_read_closed is_error }
{
    if token >= WAKE {
        Report::Woken
    } else if token >= FIRST_LISTENER {
        Report::Listener(token - FIRST_LISTENER)
    } else {
        Report::Stream {
            key: token,
            is_closed: is_read_closed && !is_error,
        }
    }
}

fn is_full(count: usize) -> bool
    ensures { (result ≡ true) ↔ (EVENTS_MOST ≤ count) }
{
    count >= EVENTS_MOST
}

#[derive(Drop)]
pub struct MioStream {
    inner: TcpStream,
}

impl From<TcpStream> for MioStream {
    fn from(inner: TcpStream) -> MioStream {
        MioStream { inner }
    }
}

impl Read for MioStream {
    fn read(&mut self, buffer: &mut [u8]) -> io::Result<usize> {
        self.inner.read(buffer)
    }
}

impl Write for MioStream {
    fn write(&mut self, bytes: &[u8]) -> io::Result<usize> {
        self.inner.write(bytes)
    }

    fn flush(&mut self) -> io::Result<()> {
        self.inner.flush()
    }
}

impl Stream for MioStream {
    fn own_ip(&self) -> Option<IpAddr> {
        Some(self.inner.local_addr().ok()?.ip())
    }

    fn reset(&mut self) {
        // `connect` to an address of no family dissolves the connection. If the system refuses, the connection ends as
        // any other.
        let nowhere = [0; 128];
        let number = self.inner.as_raw_fd();
        let _ = unsafe { libc::net::connect(number, &nowhere, ADDRESS_BYTES) };
    }
}

/// A handle that ends the wait of a poll.
#[derive(Drop)]
pub struct MioWaker {
    inner: Waker,
}

impl Wake for MioWaker {
    fn wake(&self) {
        let _ = self.inner.wake();
    }
}

/// A poll with its last reports, and a thread's shares of the listening sockets. Programs use it through `run`, and
/// tests call it.
pub struct MioSystem {
    poll: Poll,
    events: Events,
    listeners: Vec<TcpListener>,
    /// The keys and interests that the poll accepted. Only proofs read them.
    watched: GhostList<(usize, Interest)>,
}

impl Drop for MioSystem {
    fn drop(self) {
        let MioSystem {
            poll: _,
            events: _,
            listeners: _,
            watched: _,
        } = self;
    }
}

impl MioSystem {
    /// Opens a poll without reports, and a waker for it.
    pub fn open<R: Net>(
        rt: &R,
        alloc: Global,
        sockets: &[net::TcpListener],
    ) -> Result<(MioSystem, MioWaker), RunFault>
        ensures { IfErr result (λ f. IsOfAddresses 0 f) }
    {
        let poll = Poll::new(rt)?;
        let inner = Waker::new(poll.registry(), Token(WAKE))?;
        let events = Events::with_capacity(alloc, EVENTS_MOST)?;
        let mut listeners = Vec::new(alloc);
        for socket in sockets {
            listeners.push(TcpListener::from_std(socket.try_clone()?))?;
        }
        let system = MioSystem {
            poll,
            events,
            listeners,
            watched: GhostList::new(),
        };
        Ok((system, MioWaker { inner }))
    }

    fn event(&self, place: usize) -> Option<&Event>
        ensures { option_copied result ≡ slice_get (items self.now.events) place }
    {
        self.events.iter().nth(place)
    }
}

impl System for MioSystem {
    type Stream = MioStream;

    type Waker = MioWaker;

    ghost use Rattle.std.specs.Prelude.{Some};
    ghost use Rattle.portmap_daemon.specs.Events.{all_reported};

    ghost reports = { all_reported };

    ghost watched = { λ system. Some system.watched };

    fn poll(&mut self, timeout_ms: u64) -> bool {
        let timeout = Duration::from_millis(timeout_ms);
        self.poll.poll(&mut self.events, Some(timeout)).is_ok()
    }

    fn report(&self, place: usize) -> Option<Report> {
        let event = self.event(place)?;
        let Token(token) = event.token();
        Some(report_of(token, event.is_read_closed(), event.is_error()))
    }

    fn is_full(&self) -> bool {
        is_full(self.events.iter().len())
    }

    fn watch(
        &mut self,
        stream: &mut MioStream,
        key: usize,
        interest: Interest,
        was_watched: bool,
    ) -> io::Result<()> {
        let events = match interest {
            Interest::Reading => mio::Interest::READABLE,
            Interest::Both => mio::Interest::READABLE | mio::Interest::WRITABLE,
        };
        let registry = self.poll.registry();
        let outcome = if was_watched {
            registry.reregister(&mut stream.inner, Token(key), events)
        } else {
            registry.register(&mut stream.inner, Token(key), events)
        };
        if outcome.is_ok() {
            self.watched.note(&(key, interest));
        }
        outcome
    }

    fn listeners(&self) -> usize {
        self.listeners.len()
    }

    fn listen(&mut self, place: usize) -> io::Result<()> {
        let Some(listener) = self.listeners.get_mut(place) else {
            return Ok(());
        };
        let token = Token(FIRST_LISTENER.saturating_add(place));
        let registry = self.poll.registry();
        registry.register(listener, token, mio::Interest::READABLE)
    }

    fn leave(&mut self, place: usize) {
        if let Some(listener) = self.listeners.get_mut(place) {
            let _ = self.poll.registry().deregister(listener);
        }
    }

    /// `accept4` makes the stream non-blocking in the same call. The toolchain's `accept` needs one call more.
    fn accept(&mut self, place: usize) -> io::Result<(MioStream, IpAddr)> {
        let Some(listener) = self.listeners.get(place) else {
            return Err(io::Error::from(io::ErrorKind::WouldBlock));
        };
        let mut address = [0; _SS_SIZE];
        let mut length = ADDRESS_MOST;
        let flags = SOCK_NONBLOCK | SOCK_CLOEXEC;
        let fd = unsafe { accept4(listener.as_raw_fd(), &mut address, &mut length, flags) };
        if fd < 0 {
            return Err(io::Error::from_raw_os_error(os::errno()));
        }
        let inner = unsafe { TcpStream::from_raw_fd(fd) };
        let peer = match ip_in(&address) {
            Some(ip) => ip,
            None => inner.peer_addr()?.ip(),
        };
        Ok((MioStream { inner }, peer))
    }
}

/// Returns the IP address in an address of the system, or `None` if its family has no IP address.
fn ip_in(address: &[u8; _SS_SIZE]) -> Option<IpAddr>
    ensures ipv4 { take 2 address.now ≡ 2 ∷ 0 ∷ []
        → IfSome result (λ ip. IsV4And ip (λ ip. ipv4_octets ip ≡ take 4 (drop 4 address.now))) }
    ensures ipv6 { take 2 address.now ≡ 10 ∷ 0 ∷ []
        → IfSome result (λ ip. IsV6And ip (λ ip. ipv6_segments ip ≡ segments_of (take 16 (drop 8 address.now)))) }
    ensures other { IfNone result ((take 2 address.now ≢ 2 ∷ 0 ∷ []) × (take 2 address.now ≢ 10 ∷ 0 ∷ [])) }
{
    let family = i32::from(u16::from_ne_bytes([address[0], address[1]]));
    if family == AF_INET {
        let octets = [address[4], address[5], address[6], address[7]];
        return Some(IpAddr::from(octets));
    }
    if family == AF_INET6 {
        let octets: [u8; 16] = address[8..24].try_into().ok()?;
        return Some(IpAddr::from(octets));
    }
    None
}
