//! Tests of facts that no clause states. Calls succeed if memory suffices, and a call uses the socket whose number it
//! gets. The bytes are those of docs/FORMATS.md.
mod failures;
mod lists;
mod nodes;

use std::alloc::Global;
use std::io;
use std::io::{Read, Write};
use std::net::Shutdown;
use std::os::fd::AsRawFd;
use std::os::unix::net::UnixStream;
use std::test::Fail;

/// A socket whose peer has replied and sends no more.
#[derive(Drop)]
struct Pair {
    own: UnixStream,
    peer: UnixStream,
}

impl Pair {
    fn answered(rt: &HostRuntime, reply: &[u8]) -> io::Result<Pair> {
        let (own, mut peer) = UnixStream::pair(rt)?;
        peer.write_all(reply)?;
        peer.shutdown(Shutdown::Write)?;
        Ok(Pair { own, peer })
    }

    fn number(&self) -> i32 {
        self.own.as_raw_fd()
    }

    /// Returns true if the peer received this request and nothing else.
    fn is_asked(mut self, alloc: Global, request: &[u8]) -> io::Result<bool> {
        self.own.shutdown(Shutdown::Write)?;
        let mut asked = Vec::new(alloc);
        self.peer.read_to_end(&mut asked)?;
        Ok(asked.as_slice() == request)
    }
}

/// Joins the parts, each repeated `times` times.
fn spelled(alloc: Global, parts: &[(&[u8], usize)]) -> Result<Vec<u8>, Fail> {
    let mut out = Vec::new(alloc);
    for (part, times) in parts {
        for _ in 0..*times {
            out.extend_from_slice(part)?;
        }
    }
    Ok(out)
}
