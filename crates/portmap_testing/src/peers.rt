//! Peers of a daemon on this host.
use std::io::{ErrorKind, Write};
use std::net::{Ipv4Addr, Net, TcpStream};
use std::rt::Clock;
use std::thread;
use std::time::Duration;

/// Connects as soon as the daemon listens. Until then the system refuses the connection. A read fails after ten
/// seconds.
pub fn connect<R: Net<Stream = TcpStream> + Clock>(rt: &R, port: u16) -> Option<TcpStream> {
    for _ in 0..500u32 {
        match TcpStream::connect(rt, (Ipv4Addr::LOCALHOST, port)) {
            Ok(stream) => {
                let patience = Duration::from_secs(10);
                stream.set_read_timeout(Some(patience)).ok()?;
                return Some(stream);
            }
            Err(error) if error.kind() != ErrorKind::ConnectionRefused => return None,
            Err(_) => thread::sleep(rt, Duration::from_millis(10)),
        }
    }
    None
}

/// Returns a connection over which `request` was sent.
pub fn sent<R: Net<Stream = TcpStream> + Clock>(
    rt: &R,
    port: u16,
    request: &[u8],
) -> Option<TcpStream> {
    let mut stream = connect(rt, port)?;
    stream.write_all(request).ok()?;
    Some(stream)
}
