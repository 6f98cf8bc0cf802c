//! Calls over sockets, against a listener of the test.
use crate::client::example::register;
use portmap_client::ClientFault;
use portmap_testing::bytes::{A_LISTED, ALIVE_A, FOUND_A, FOURTH, NAMES, PORT_A};
use portmap_testing::nodes::{is_node_a, node_a};
use portmap_wire::{Line, Reg};
use std::alloc::Global;
use std::io::{Read, Write};
use std::net::{Ipv4Addr, SocketAddr, TcpListener, TcpStream};
use std::test::Fail;
use std::thread::Threads;
use std::time::Duration;
use std::{io, thread};

/// The timeout of a read by the listener, in milliseconds.
const PATIENCE: u64 = 5000;

/// The timeout of a read by a client, in milliseconds. A call allows 999 reads that time out.
const TURN: u64 = 20;

/// Reads a request of this length, and replies.
fn serve(stream: &mut TcpStream, request: &mut [u8], reply: &[u8]) -> io::Result<()> {
    stream.set_read_timeout(Some(Duration::from_millis(PATIENCE)))?;
    stream.read_exact(request)?;
    stream.write_all(reply)
}

/// Accepts a connection, reads a request, and replies.
fn answer(listener: &TcpListener, request: &mut [u8], reply: &[u8]) -> io::Result<TcpStream> {
    let (mut stream, _) = listener.accept()?;
    serve(&mut stream, request, reply)?;
    Ok(stream)
}

/// Replies to a registration, a lookup and a request for all names. Returns true if these arrived, and nothing after
/// the registration before its connection was closed.
fn answer_three(listener: &TcpListener) -> io::Result<bool> {
    let (mut first, mut second, mut third) = ([0; 16], [0; 4], [0; 3]);
    let mut registered = answer(listener, &mut first, FOURTH)?;
    drop(answer(listener, &mut second, FOUND_A)?);
    drop(answer(listener, &mut third, A_LISTED)?);
    let behind = registered.read(&mut [0; 1])?;
    let are_asked = first.as_slice() == ALIVE_A && second.as_slice() == PORT_A;
    Ok(are_asked && third.as_slice() == NAMES && behind == 0)
}

/// Returns true if the registration, the lookup and the list return what the listener replied.
fn is_received(alloc: Global, streams: [TcpStream; 3], node: &Reg) -> Result<bool, ClientFault> {
    let (registration, found, lines) = register(alloc, streams, node)?;
    let creation = registration.creation();
    drop(registration);
    let is_found = found.is_some_and(|reg| is_node_a(&reg));
    Ok(is_found && creation == 4 && is_a_listed(&lines))
}

/// Returns true if the list has only the name `a` with port 5000.
fn is_a_listed(lines: &[Line]) -> bool {
    match lines {
        [line] => line.port == 5000 && line.name.bytes() == b"a".as_slice(),
        _ => false,
    }
}

fn connect(rt: &HostRuntime, address: SocketAddr) -> io::Result<TcpStream> {
    let stream = TcpStream::connect(rt, address)?;
    stream.set_read_timeout(Some(Duration::from_millis(TURN)))?;
    Ok(stream)
}

/// The listener's queue holds all three connections, so none has to wait.
fn connect_three(rt: &HostRuntime, address: SocketAddr) -> io::Result<[TcpStream; 3]> {
    let first = connect(rt, address)?;
    let second = connect(rt, address)?;
    Ok([first, second, connect(rt, address)?])
}

/// Returns true if the listener received every request, and the client every reply.
fn both_agree(
    rt: &impl Threads,
    alloc: Global,
    listener: &TcpListener,
    streams: [TcpStream; 3],
    node: &Reg,
) -> Result<bool, Fail> {
    let (are_asked, is_received) = thread::join(
        rt,
        move || answer_three(listener),
        move || is_received(alloc, streams, node),
    );
    Ok(are_asked? && is_received?)
}

#[test]
fn a_node_registers_and_is_found_over_sockets(rt: HostRuntime) -> Result<(), Fail> {
    let node = node_a(rt.alloc())?;
    let listener = TcpListener::bind(&rt, SocketAddr::from((Ipv4Addr::LOCALHOST, 0)))?;
    let streams = connect_three(&rt, listener.local_addr()?)?;
    assert!(rt; both_agree(&rt, rt.alloc(), &listener, streams, &node)?);
    Ok(())
}
