//! A connected socket as a device.
ghost use Rattle.std.specs.Prelude.{◌≡◌, ◌<◌, [], None, Some, false, length, MatchResult, pos};
ghost use Rattle.std.specs.IoError.{error_kind, os_error_kind, raw_os_error};
ghost use Rattle.portmap_link.specs.Device.{PullConsumes, PutAppends};

use portmap_link::{Device, GhostList, Input, Output, Pull, Put, pull_from, put_from};
use std::io;

/// A connected socket of the caller, by its number. Dropping this value does not close the socket.
pub(crate) struct Descriptor {
    number: i32,
    failed: bool,
    pulls: GhostList<Pull>,
    puts: GhostList<Put>,
}

impl Drop for Descriptor {
    fn drop(self) {
        let Descriptor {
            number: _,
            failed: _,
            pulls: _,
            puts: _,
        } = self;
    }
}

/// Returns the result of a system call that moved `count` bytes. A negative `count` is a failure with `errno`.
pub(crate) fn call_result(count: isize, errno: i32) -> io::Result<usize>
    ensures { MatchResult result (λ n. count ≡ pos n)
        (λ error. (raw_os_error error ≡ Some errno) × (error_kind error ≡ os_error_kind errno)) }
{
    if count < 0 {
        return Err(io::Error::from_raw_os_error(errno));
    }
    Ok(count as usize)
}

fn read_from(number: i32, buffer: &mut [u8]) -> Pull
    requires { 0 < length buffer.old }
    ensures { PullConsumes None None result buffer.new }
{
    let count = libc::read(number, buffer);
    pull_from(call_result(count, os::errno()))
}

/// Writes once. If the peer reads no more, the call fails without a signal.
fn write_to(number: i32, bytes: &[u8]) -> Put
    requires { 0 < length bytes.now }
    ensures { PutAppends None None result bytes.now }
{
    let count = unsafe { libc::net::send(number, bytes, libc::net::MSG_NOSIGNAL) };
    put_from(call_result(count, os::errno()))
}

impl Descriptor {
    pub(crate) fn new(number: i32) -> Descriptor
        ensures whole { result.failed ≡ false }
        ensures pulls { result.pulls ≡ [] }
        ensures puts { result.puts ≡ [] }
    {
        Descriptor {
            number,
            failed: false,
            pulls: GhostList::new(),
            puts: GhostList::new(),
        }
    }
}

impl Device for Descriptor {
    ghost use Rattle.std.specs.Prelude.{None};

    ghost left = { λ _. None };

    ghost held = { λ _. None };

    ghost pulls = { λ d. d.pulls };

    ghost puts = { λ d. d.puts };

    ghost broken = { λ d. d.failed };
}

impl Input for Descriptor {
    fn pull(&mut self, buffer: &mut [u8]) -> Pull {
        let answer = if self.failed {
            Pull::Fault
        } else {
            read_from(self.number, buffer)
        };
        self.failed = answer == Pull::Fault;
        self.pulls.note(&answer);
        answer
    }

    fn failed(&self) -> bool {
        self.failed
    }
}

impl Output for Descriptor {
    fn put(&mut self, bytes: &[u8]) -> Put {
        let answer = if self.failed {
            Put::Fault
        } else {
            write_to(self.number, bytes)
        };
        self.failed = answer == Put::Fault;
        self.puts.note(&answer);
        answer
    }

    fn failed(&self) -> bool {
        self.failed
    }
}
