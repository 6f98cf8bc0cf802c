//! The system that workers call: readiness, connections and wake-ups. The daemon has it from `mio` and the kernel, a
//! simulation from a world of its own.
ghost use Rattle.std.specs.Prelude.{◌≡◌, ℕ, ◌++◌, List, Option, Some, None, IfSome, slice_get};
ghost use Rattle.portmap_worker.specs.Quiet.{taken};
ghost use Rattle.portmap_worker.specs.declared.system.{Interest.Interest, Report.Report};

use std::io;
use std::io::{Read, Write};
use std::net::IpAddr;

/// The readiness that a poll reports of a stream.
#[derive(Clone, Copy, Debug, PartialEq, Eq)]
pub enum Interest {
    Reading,
    /// Readability and writability.
    Both,
}

/// An event that a poll has reported.
#[derive(Clone, Copy, Debug, PartialEq, Eq)]
pub enum Report {
    /// Connections may wait at the listener with this index.
    Listener(usize),
    /// The stream with this key is ready. It `is_closed` if its peer sends no more and it has not failed.
    Stream { key: usize, is_closed: bool },
    /// Another thread has ended the wait.
    Woken,
}

/// The stream of a connection. Its calls never block.
pub trait Stream: Read + Write + Drop {
    /// Returns the connection's own address, if the system knows it.
    fn own_ip(&self) -> Option<IpAddr>;

    /// Makes the connection end with a reset, if the system can.
    fn reset(&mut self);
}

/// A handle by which another thread ends a wait.
pub trait Wake: Drop {
    /// Ends the present wait of the thread, or else its next wait.
    fn wake(&self);
}

/// The system of one thread. Events are edge-triggered: each is reported once.
pub trait System: Drop {
    type Stream: Stream;

    type Waker: Wake;

    /// The events that the last poll has reported. `None`: the system hides them.
    ghost reports: { Self → Option (List Report) } = { λ _. None };

    /// The keys and interests that the poll has accepted to report. `None`: the system hides them.
    ghost watched: { Self → Option (List (ℕ × Interest)) } = { λ _. None };

    /// Polls, and waits for an event for at most `timeout_ms` milliseconds. Returns false if the poll failed.
    fn poll(&mut self, timeout_ms: u64) -> bool;

    /// Returns the event of the last poll with this index. Indices begin at 0 and have no gap.
    fn report(&self, place: usize) -> Option<Report>
        ensures { IfSome (Self.reports self.now) (λ reports. result ≡ slice_get reports place) };

    /// Returns whether the last poll has reported as many events as it can, so that there may be more.
    fn is_full(&self) -> bool;

    /// Watches a stream under this key. From now on the poll reports it, with what is there already. `was_watched` if
    /// this changes an earlier interest.
    fn watch(
        &mut self,
        stream: &mut Self::Stream,
        key: usize,
        interest: Interest,
        was_watched: bool,
    ) -> io::Result<()>
        ensures { IfSome (Self.watched self.old)
            (λ before. Self.watched self.new ≡ Some (before ++ taken key result interest)) };

    fn listeners(&self) -> usize;

    /// Watches the listener with this index. The poll also reports connections that wait already.
    fn listen(&mut self, place: usize) -> io::Result<()>;

    /// Stops watching the listener with this index.
    fn leave(&mut self, place: usize);

    /// Accepts the next connection at the listener with this index, with the address of its peer. The error is
    /// `WouldBlock` if no connection waits.
    fn accept(&mut self, place: usize) -> io::Result<(Self::Stream, IpAddr)>;
}
