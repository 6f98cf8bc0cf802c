//! The network of a world: connections, bytes in flight, and the backlogs of the listeners.
ghost use Rattle.std.specs.Prelude.{◌≤◌, IfOk, length};

use crate::notices::Subject;
use crate::people::Counts;
use crate::weather::Fault;
use crate::wire::Wire;
use crate::world::{LISTENERS, World};
use std::alloc::Global;
use std::collections::VecDeque;
use std::io::ErrorKind;

/// The number of nodes whose stops are noted.
const NODES_MOST: usize = 8;

/// Something that a peer did, which the daemon sees at `at`.
#[derive(Drop)]
struct Flight {
    at: u64,
    number: usize,
    bytes: Vec<u8>,
    end: Option<Ending>,
}

/// How a peer ends its connection.
#[derive(Clone, Copy, PartialEq, Eq)]
pub enum Ending {
    /// The peer sends no more, and still reads.
    Shut,
    /// The peer has closed the connection.
    Gone,
    Reset,
}

/// A network. Times are in microseconds.
pub struct Network {
    alloc: Global,
    pub wires: Vec<Wire>,
    /// In the order in which the peers acted.
    flights: VecDeque<Flight>,
    /// The connections that wait at each listener.
    pub(crate) backlogs: [VecDeque<usize>; LISTENERS],
    /// The number of open connections, and of those of other hosts.
    pub connected: u32,
    pub remote: u32,
    /// The number of connections that arrived while no permit was free.
    pub wanting: u32,
    /// The bytes that the daemon has read since the last drain, on connections without a reply.
    pub read_bytes: u64,
    /// For each node, when the last stop was requested, and when the reply to it arrived.
    pub(crate) stopped: [(u64, u64); NODES_MOST],
    /// What the peers did.
    pub tally: Counts,
}

impl Drop for Network {
    fn drop(self) {
        let Network {
            alloc: _,
            wires: _,
            flights: _,
            backlogs: _,
            connected: _,
            remote: _,
            wanting: _,
            read_bytes: _,
            stopped: _,
            tally: _,
        } = self;
    }
}

impl Network {
    pub fn new(alloc: Global) -> Network {
        Network {
            alloc,
            wires: Vec::new(alloc),
            flights: VecDeque::new(alloc),
            backlogs: [VecDeque::new(alloc), VecDeque::new(alloc)],
            connected: 0,
            remote: 0,
            wanting: 0,
            read_bytes: 0,
            stopped: [(0, 0); NODES_MOST],
            tally: Counts::default(),
        }
    }

    /// Returns the time at which the next flight lands.
    pub fn lands_at(&self) -> u64 {
        let flights = self.flights.iter();
        flights.fold(u64::MAX, |least: u64, flight| least.min(flight.at))
    }

    /// Returns when the reply to a stop arrived, if the stop was requested after `time`.
    pub fn stopped_after(&self, node: u8, time: u64) -> Option<u64> {
        let (asked, delivered) = self.stopped.get(node as usize).copied()?;
        (asked > time).then_some(delivered)
    }
}

impl World {
    // ---- what peers do

    /// Connects a peer to a listener. Returns `None` if the backlog is full.
    pub fn connect(&mut self, place: usize, is_local: bool) -> Option<usize> {
        let waiting = self.network.backlogs.get_mut(place)?;
        if waiting.len() >= self.scenario.backlog_most {
            return None;
        }
        let is_narrow = self.weather.random.happens(200);
        let room = if is_narrow { 64 } else { 65_536 };
        let wire = Wire::new(self.network.alloc, is_local, room, self.scenario.is_sparing);
        let number = self.network.wires.len();
        if self.network.wires.push(wire).is_err() || waiting.push_back(number).is_err() {
            self.memory.is_lost = true;
            return None;
        }
        self.on_arrival(place);
        Some(number)
    }

    /// Reports an arrival to all threads. One thread may see it before the others.
    fn on_arrival(&mut self, place: usize) {
        let (now, mut first) = (self.now, None);
        if self.happens(Fault::Taken) {
            first = Some(self.weather.random.below(self.threads.len() as u64) as usize);
        }
        for (number, thread) in self.threads.iter_mut().enumerate() {
            let is_later = first.is_some_and(|first| first != number);
            thread.on_arrival(place, now.saturating_add(if is_later { 1000 } else { 0 }));
        }
    }

    pub fn send(&mut self, number: usize, bytes: &[u8]) {
        self.fly(number, bytes, None);
    }

    pub fn end(&mut self, number: usize, ending: Ending) {
        self.fly(number, &[], Some(ending));
    }

    fn fly(&mut self, number: usize, bytes: &[u8], end: Option<Ending>) {
        let mut lands_at = self.lasts(Fault::Late, 20_000);
        if lands_at.is_none() && end.is_none() {
            lands_at = self.lasts(Fault::Lost, 3_000_000);
        }
        let Ok(bytes) = Vec::from_slice(self.network.alloc, bytes) else {
            self.memory.is_lost = true;
            return;
        };
        // The daemon sees the acts of a peer in their order.
        let flights = &mut self.network.flights;
        let own = flights.iter().filter(|flight| flight.number == number);
        let least = lands_at.unwrap_or(self.now);
        let at = own.fold(least, |at: u64, flight| at.max(flight.at));
        let flight = Flight {
            at,
            number,
            bytes,
            end,
        };
        self.memory.note(flights.push_back(flight).is_ok());
        self.land();
    }

    /// Lands each flight that is due.
    pub fn land(&mut self) {
        for _ in 0..self.network.flights.len() {
            if let Some(flight) = self.network.flights.pop_front() {
                if flight.at > self.now {
                    let is_kept = self.network.flights.push_back(flight).is_ok();
                    self.memory.note(is_kept);
                } else {
                    self.arrive(&flight);
                }
            }
        }
    }

    fn arrive(&mut self, flight: &Flight) {
        if let Some(wire) = self.network.wires.get_mut(flight.number) {
            let is_kept = wire.arrive(self.now, &flight.bytes, flight.end);
            self.memory.note(is_kept);
            // A reset may discard bytes that the daemon has not read.
            if flight.end == Some(Ending::Reset) && self.weather.random.happens(500) {
                wire.peer.up.clear();
            }
        }
    }

    pub fn receive(&mut self, number: usize, most: usize) {
        if let Some(wire) = self.network.wires.get_mut(number) {
            self.memory.note(wire.receive(self.now, most));
        }
    }

    // ---- what the daemon's streams do

    /// Begins a call of a stream. The call takes a moment, in which flights land, and may be interrupted.
    fn begin_call(&mut self) -> Result<(), ErrorKind> {
        self.now = self.after(3);
        self.land();
        self.fail_by(Fault::Interrupted, ErrorKind::Interrupted)
    }

    fn reset_error(&mut self) -> ErrorKind {
        if self.happens(Fault::Broken) {
            ErrorKind::BrokenPipe
        } else {
            ErrorKind::ConnectionReset
        }
    }

    pub fn read(&mut self, number: usize, buffer: &mut [u8]) -> Result<usize, ErrorKind>
        ensures { IfOk result (λ n. n ≤ length buffer.new) }
    {
        self.begin_call()?;
        let wire = self.network.wires.get_mut(number).ok_or(ErrorKind::Other)?;
        let is_read_due = !wire.is_readable();
        wire.readiness.is_reported = false;
        wire.readiness.is_read_due = is_read_due;
        if wire.is_reset && wire.peer.up.is_empty() {
            return Err(self.reset_error());
        }
        if is_read_due {
            return Err(ErrorKind::WouldBlock);
        }
        let count = wire.take(buffer);
        if !wire.daemon.is_answered {
            wire.daemon.asked = wire.daemon.asked.saturating_add(count);
            self.network.read_bytes = self.network.read_bytes.saturating_add(count as u64);
        }
        Ok(count)
    }

    pub fn write(&mut self, number: usize, bytes: &[u8]) -> Result<usize, ErrorKind>
        ensures { IfOk result (λ n. n ≤ length bytes.now) }
    {
        self.begin_call()?;
        let is_short = self.happens(Fault::Short);
        let wire = self.network.wires.get_mut(number).ok_or(ErrorKind::Other)?;
        if wire.is_reset {
            return Err(self.reset_error());
        }
        let room = wire.peer.room.saturating_sub(wire.down.len());
        let count = bytes.len().min(if is_short { room.min(1) } else { room });
        let unsent = bytes.len().saturating_sub(count);
        if wire.daemon.unsent == 0 || unsent < wire.daemon.unsent {
            wire.daemon.unread_since = self.now;
        }
        wire.daemon.unsent = unsent;
        wire.readiness.is_room_due = room == 0;
        if room == 0 {
            return Err(ErrorKind::WouldBlock);
        }
        wire.peer.has_news = true;
        wire.daemon.is_answered = true;
        wire.is_reset = wire.peer.ended == Some(Ending::Gone);
        let sent = wire.down.extend(bytes[..count].iter().copied());
        self.memory.note(sent.is_ok());
        Ok(count)
    }

    /// Resets a connection for the daemon.
    pub fn reset(&mut self, number: usize) {
        if let Some(wire) = self.network.wires.get_mut(number) {
            wire.is_reset = true;
            wire.peer.has_news = true;
        }
    }

    /// Closes a connection for the daemon. A close of a connection that the daemon could not hold for lack of memory
    /// counts as a failed accept.
    pub fn close(&mut self, number: usize) {
        let is_starved = self.is_starved();
        // The shortage lasts long enough for the drain to see it.
        let is_starved_on = self.now.saturating_add(100_000) < self.memory.starved_until;
        if let Some(wire) = self.network.wires.get_mut(number) {
            if is_starved && wire.daemon.came_at.is_none() {
                self.notices.on_unaccepted(self.now);
            }
            if is_starved_on && wire.down.is_empty() && wire.received.is_empty() {
                self.notices.note(Subject::Short, self.now);
            }
            wire.is_down_ended = true;
            wire.is_ended_well = wire.peer.ended.is_none() && !wire.is_reset;
            wire.peer.has_news = true;
            if let Some(watch) = wire.readiness.watch.take() {
                if let Some(thread) = self.threads.get_mut(watch.thread) {
                    thread.watched.retain(|watched| *watched != number);
                }
            }
            let remote = u32::from(!wire.is_local);
            self.network.connected = self.network.connected.saturating_sub(1);
            self.network.remote = self.network.remote.saturating_sub(remote);
        }
    }
}
