//! A connection with both of its ends.
ghost use Rattle.std.specs.Prelude.{◌≤◌, length};

use crate::network::Ending;
use portmap_worker::Report;
use std::alloc::Global;
use std::collections::VecDeque;

/// The thread whose poll watches the daemon's end, and the key of the stream.
#[derive(Clone, Copy)]
pub struct Watch {
    pub thread: usize,
    pub key: usize,
    /// The poll watches for writing too.
    pub both: bool,
}

#[derive(Clone, Copy)]
pub struct Received {
    pub bytes: usize,
    pub is_over: bool,
    pub is_reset: bool,
    /// The poll refused to watch the daemon's end, which ends the connection.
    pub is_refused: bool,
}

/// The peer's end of a connection.
#[derive(Drop)]
pub struct PeerEnd {
    /// Bytes of the peer that the daemon has not read.
    pub up: VecDeque<u8>,
    /// The most bytes in flight to the peer.
    pub room: usize,
    /// How the peer ended the connection last. Bytes to a peer that has closed it are answered by a reset.
    pub ended: Option<Ending>,
    /// The peer has something to read.
    pub has_news: bool,
}

/// The daemon's end of a connection. Times are in microseconds.
#[derive(Clone, Copy, Default)]
pub struct DaemonEnd {
    /// When a worker first held the connection: it had a permit and memory then.
    pub came_at: Option<u64>,
    /// The time of the last timeout event.
    pub late_at: Option<u64>,
    /// The bytes that the last write left unsent, and since when the peer has read none of them.
    pub unsent: usize,
    pub unread_since: u64,
    /// The bytes that were read before the first byte of a reply was written. No other byte reaches the log.
    pub asked: usize,
    pub is_answered: bool,
    /// When the poll refused to watch the stream.
    pub refused_at: Option<u64>,
}

/// What the poll reports of a connection.
#[derive(Clone, Copy, Default)]
pub struct Readiness {
    pub watch: Option<Watch>,
    /// From when on the poll reports an unreported event.
    pub news_at: Option<u64>,
    /// The poll reports only what it must report: events that are there when the watch begins, and new bytes or new
    /// room after the watch began or after a call that would block. A report, or a call that moves bytes, ends this.
    is_sparing: bool,
    /// The poll has to report new bytes, or new room.
    pub is_read_due: bool,
    pub is_room_due: bool,
    /// The poll has reported the stream, and the daemon has not read it since.
    pub is_reported: bool,
}

/// A connection.
pub struct Wire {
    pub is_local: bool,
    pub peer: PeerEnd,
    /// Bytes of the daemon that the peer has not read, and those that it has read.
    pub down: VecDeque<u8>,
    pub received: Vec<u8>,
    /// The peer or the daemon has reset the connection.
    pub is_reset: bool,
    /// The daemon has closed the connection.
    pub is_down_ended: bool,
    /// The daemon closed the connection in order, while the peer was connected.
    pub is_ended_well: bool,
    /// The thread that accepted the connection, and the time.
    pub accepted: Option<(usize, u64)>,
    pub daemon: DaemonEnd,
    pub readiness: Readiness,
}

impl Drop for Wire {
    fn drop(self) {
        let Wire {
            is_local: _,
            peer: _,
            down: _,
            received: _,
            is_reset: _,
            is_down_ended: _,
            is_ended_well: _,
            accepted: _,
            daemon: _,
            readiness: _,
        } = self;
    }
}

impl Wire {
    /// Returns a new connection with room for this many bytes to the peer.
    pub fn new(alloc: Global, is_local: bool, room: usize, is_sparing: bool) -> Wire {
        let mut readiness = Readiness::default();
        readiness.is_sparing = is_sparing;
        Wire {
            is_local,
            peer: PeerEnd {
                up: VecDeque::new(alloc),
                room,
                ended: None,
                has_news: false,
            },
            down: VecDeque::new(alloc),
            received: Vec::new(alloc),
            is_reset: false,
            is_down_ended: false,
            is_ended_well: false,
            accepted: None,
            daemon: DaemonEnd::default(),
            readiness,
        }
    }

    pub fn is_readable(&self) -> bool {
        !self.peer.up.is_empty() || self.peer.ended.is_some() || self.is_reset
    }

    pub fn is_writable(&self) -> bool {
        self.down.len() < self.peer.room || self.is_reset
    }

    pub fn is_ready(&self) -> bool {
        let is_both = self.readiness.watch.is_some_and(|watch| watch.both);
        self.is_readable() || (is_both && self.is_writable())
    }

    /// Returns the report of a poll that has room for it. A spurious report needs no event.
    pub fn report(&mut self, now: u64, has_room: bool, is_spurious: bool) -> Option<Report> {
        let key = self.readiness.watch?.key;
        let is_due = self.readiness.news_at.is_some_and(|at| at <= now);
        if is_due && !self.is_ready() {
            // The event is over before the poll reports it.
            self.readiness.news_at = None;
            return None;
        }
        if !has_room || !(is_due || is_spurious) {
            return None;
        }
        let ready = &mut self.readiness;
        ready.news_at = None;
        ready.is_read_due = false;
        ready.is_room_due = false;
        ready.is_reported = true;
        let is_closed = self.peer.ended.is_some() && !self.is_reset;
        Some(Report::Stream { key, is_closed })
    }

    /// Returns when a worker first held the connection, if that worker still holds it, the peer has not closed it, and
    /// it was never answered.
    pub fn waits_since(&self, worker: usize) -> Option<u64> {
        let is_over = self.is_down_ended || self.peer.ended.is_some();
        let is_answered = !self.received.is_empty() || !self.down.is_empty();
        let waits = self.worker()? == worker && !is_over && !is_answered;
        self.daemon.came_at.filter(|_| waits)
    }

    pub fn worker(&self) -> Option<usize> {
        Some(self.accepted?.0)
    }

    pub fn heard(&self) -> Received {
        Received {
            bytes: self.received.len(),
            is_over: self.is_down_ended && self.down.is_empty(),
            is_reset: self.is_reset,
            is_refused: self.daemon.refused_at.is_some(),
        }
    }

    /// Notes an event for the poll. A sparing poll reports it only if it is due.
    fn on_event(&mut self, now: u64, is_due: bool) {
        let ready = &mut self.readiness;
        let is_reported = is_due || !ready.is_sparing;
        if is_reported && ready.watch.is_some() && ready.news_at.is_none() {
            ready.news_at = Some(now);
        }
    }

    /// Delivers bytes of the peer, or its end. Returns false if memory runs out.
    pub fn arrive(&mut self, now: u64, bytes: &[u8], end: Option<Ending>) -> bool {
        let is_kept = self.peer.up.extend(bytes.iter().copied()).is_ok();
        self.peer.ended = end.or(self.peer.ended);
        let mut is_due = self.readiness.is_read_due;
        if end == Some(Ending::Reset) {
            self.is_reset = true;
            self.down.clear();
            is_due = is_due || self.readiness.is_room_due;
        }
        self.on_event(now, is_due);
        is_kept
    }

    /// Moves unread bytes into the buffer, and returns their number.
    pub fn take(&mut self, buffer: &mut [u8]) -> usize
        ensures { result ≤ length buffer.new }
    {
        let count = buffer.len().min(self.peer.up.len());
        for place in buffer.iter_mut().take(count) {
            if let Some(byte) = self.peer.up.pop_front() {
                *place = byte;
            }
        }
        count
    }

    /// Returns the worker of the connection if more than `bytes` bytes are unsent.
    pub fn unread_at(&self, bytes: u64) -> Option<usize> {
        let is_unread = self.daemon.unsent as u64 > bytes && !self.is_down_ended;
        if is_unread { self.worker() } else { None }
    }

    /// Begins or changes the watch. Returns whether there was no watch.
    pub fn begin_watch(&mut self, watch: Watch, now: u64) -> bool {
        let is_new = self.readiness.watch.replace(watch).is_none();
        self.readiness.is_read_due = true;
        self.readiness.is_room_due = true;
        if self.is_ready() {
            self.readiness.news_at = Some(now);
        }
        is_new
    }

    /// Has the peer read at most `most` bytes. Returns false if memory runs out.
    pub fn receive(&mut self, now: u64, most: usize) -> bool {
        let was_full = most > 0 && !self.is_writable();
        let count = most.min(self.down.len());
        let is_kept = self.received.extend(self.down.drain(..count)).is_ok();
        self.peer.has_news = false;
        if was_full {
            self.on_event(now, self.readiness.is_room_due);
        }
        is_kept
    }
}
