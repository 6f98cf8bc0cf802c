//! Refused requests of remote peers, and the line that names them.
ghost use Rattle.std.specs.Prelude.{◌≡◌, ◌+◌, ◌-◌, ◌^◌, min, ◌++◌, None, IfSome, OnOk};
ghost use Rattle.portmap_operator.specs.Remote.{AsksFor, first_of, remote_line, words_for};

use crate::refused::put_more;
use portmap_core::NoMemory;
use portmap_feed::{Feed, Seen};
use portmap_wire::{Request, read_request};
use std::alloc::Global;

/// A request that only this host may make.
#[derive(Clone, Copy, Debug, PartialEq, Eq)]
pub enum LocalRequest {
    Registration,
    Dump,
    Kill,
    Stop,
}

const A_REQUEST: &[u8] = b"a request";

impl LocalRequest {
    fn words(self) -> &'static [u8]
        ensures { result.now ≡ words_for self }
    {
        match self {
            LocalRequest::Registration => b"a registration",
            LocalRequest::Dump => b"a DUMP",
            LocalRequest::Kill => b"a KILL",
            LocalRequest::Stop => b"a STOP",
        }
    }
}

/// Returns the request of a chunk, if it is complete and only this host may make it. Returns `None` too if memory runs
/// out.
pub(crate) fn local_request(alloc: Global, piece: &[u8]) -> Option<LocalRequest>
    ensures { IfSome result (λ asked. AsksFor piece.now asked) }
{
    let mut feed = Feed::new(alloc);
    if feed.push(piece) != Ok(Seen::Whole) {
        return None;
    }
    match read_request(alloc, feed.body()?) {
        Ok(Request::Alive(_)) => Some(LocalRequest::Registration),
        Ok(Request::Dump) => Some(LocalRequest::Dump),
        Ok(Request::Kill) => Some(LocalRequest::Kill),
        Ok(Request::Stop(_)) => Some(LocalRequest::Stop),
        Ok(Request::Port(_) | Request::Names) | Err(_) => None,
    }
}

/// The refused requests of remote peers since the last notice of them.
#[derive(Drop)]
pub struct RemoteRefused {
    first: Option<LocalRequest>,
    count: u64,
}

impl RemoteRefused {
    pub fn new() -> RemoteRefused
        ensures first { result.first ≡ None }
        ensures count { result.count ≡ 0 }
    {
        RemoteRefused {
            first: None,
            count: 0,
        }
    }

    pub fn count(&self) -> u64
        ensures { result ≡ self.now.count }
    {
        self.count
    }

    pub fn first(&self) -> Option<LocalRequest>
        ensures { result ≡ self.now.first }
    {
        self.first
    }

    /// Counts a refused request.
    pub fn note(&mut self, asked: LocalRequest)
        ensures first { self.new.first ≡ first_of self.old.first asked }
        ensures count { self.new.count ≡ min (self.old.count + 1) (2 ^ 64 - 1) }
    {
        self.first = self.first.or(Some(asked));
        self.count = self.count.saturating_add(1);
    }

    /// Appends the line that names the first refused request, and says how many more there were.
    pub fn put(&self, line: &mut Vec<u8>) -> Result<(), NoMemory>
        ensures { OnOk result (line.new.items ≡ line.old.items ++ remote_line self.now.first (self.now.count - 1)) }
    {
        line.extend_from_slice(b"epmd: ")?;
        line.extend_from_slice(self.first.map_or(A_REQUEST, LocalRequest::words))?;
        line.extend_from_slice(b" from another host was refused")?;
        put_more(line, self.count)?;
        line.extend_from_slice(b"\n")
    }
}
