//! Sockets that fail.
use crate::descriptor::call_result;
use crate::sockets::epmd_kill;
use crate::tests::Pair;
use portmap_link::{Pull, Put, pull_from, put_from};
use std::alloc::Global;
use std::io::Read;
use std::net::{Ipv4Addr, SocketAddr, TcpListener, TcpStream};
use std::os::fd::AsRawFd;
use std::test::Fail;
use std::thread::Threads;
use std::{io, thread};

/// Resets a connection: closes it while bytes of a request are unread.
fn reset(listener: &TcpListener) -> io::Result<()> {
    let (mut stream, _) = listener.accept()?;
    stream.read_exact(&mut [0; 1])
}

/// Returns the status of a call whose socket is reset before the reply.
fn status_at_reset(
    rt: &impl Threads,
    alloc: Global,
    listener: &TcpListener,
    stream: &TcpStream,
) -> io::Result<i32> {
    let (reset, status) = thread::join(
        rt,
        move || reset(listener),
        move || epmd_kill(alloc, stream.as_raw_fd()),
    );
    reset?;
    Ok(status)
}

#[test]
fn a_socket_that_was_reset_can_not_be_read(rt: HostRuntime) -> Result<(), Fail> {
    let listener = TcpListener::bind(&rt, SocketAddr::from((Ipv4Addr::LOCALHOST, 0)))?;
    let stream = TcpStream::connect(&rt, listener.local_addr()?)?;
    assert_eq!(rt; status_at_reset(&rt, rt.alloc(), &listener, &stream)?, 13);
    Ok(())
}

/// Returns the status of a call whose peer has closed its socket.
fn status_alone(rt: &HostRuntime) -> io::Result<i32> {
    let Pair { own, peer } = Pair::answered(rt, b"OK")?;
    drop(peer);
    Ok(epmd_kill(rt.alloc(), own.as_raw_fd()))
}

#[test]
fn a_socket_without_a_peer_can_not_be_written(rt: HostRuntime) -> Result<(), Fail> {
    assert_eq!(rt; status_alone(&rt)?, 12);
    Ok(())
}

/// The results of a read and of a write that failed with `errno`.
fn failed(errno: i32) -> (Pull, Put) {
    (
        pull_from(call_result(-1, errno)),
        put_from(call_result(-1, errno)),
    )
}

#[test]
fn a_signal_is_no_failure(rt: HostRuntime) {
    assert_eq!(rt; failed(libc::EINTR), (Pull::Later, Put::Later));
    assert_eq!(rt; failed(libc::ECONNRESET), (Pull::Fault, Put::Fault));
}
