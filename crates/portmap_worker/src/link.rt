//! A connection that a worker holds: its stream as a device, and what the source of the worker has to know of it.
ghost use Rattle.std.specs.Prelude.{◌≡◌, ◌↔◌, ◌⊎◌, ℕ, ◌+◌, ◌-◌, ◌^◌, ◌<◌, [], ◌∷◌, ◌++◌, min, true, false};
ghost use Rattle.std.specs.Prelude.{Some, None, Ok, IsErr};
ghost use Rattle.portmap_link.specs.Adapters.{pull_of, put_of};
ghost use Rattle.portmap_link.specs.Device.{pull_is_fault, put_is_fault};
ghost use Rattle.portmap_worker.specs.Link.{IsBroken, IsOf, is_answered, is_timed, is_unsent, may_move, unsent_after};
ghost use Rattle.portmap_worker.specs.Link.{would_block};
ghost use Rattle.portmap_worker.specs.Quiet.{AreTaken, covers, is_quiet};
ghost use Rattle.portmap_worker.specs.declared.readiness.Note.TheVariants.{Read, Reported, Wrote};
ghost use Rattle.portmap_worker.specs.declared.limits.TheConstants.{YOUNG_MS};

use crate::Turn;
use crate::first_piece::FirstPiece;
use crate::limits::YOUNG_MS;
use crate::readiness::Readiness;
use crate::system::{Stream, System};
use crate::timer::Timer;
use portmap_core::Name;
use portmap_link::{Device, GhostList, Input, Output, Pull, Put, pull_from, put_from};
use std::alloc::Global;
use std::io::{ErrorKind, Read, Write};
use std::{io, mem};

/// The progress of the reply to a connection.
#[derive(Clone, Copy, PartialEq, Eq)]
enum ReplyProgress {
    Asked,
    Answered,
    /// All of the reply is written, and the peer sends no more.
    Left,
}

/// The answers of a device's calls. Only proofs read the lists.
struct History {
    failed: bool,
    pulls: GhostList<Pull>,
    puts: GhostList<Put>,
}

impl Drop for History {
    fn drop(self) {
        let History {
            failed: _,
            pulls: _,
            puts: _,
        } = self;
    }
}

/// A connection that a worker holds. Times are in milliseconds since the daemon began.
#[derive(Drop)]
pub struct Link<S: Read + Write> {
    stream: S,
    history: History,
    first: FirstPiece,
    readiness: Readiness,
    progress: ReplyProgress,
    timer: Timer,
    pub(crate) is_local: bool,
    /// The time at which the worker took the connection, or last chose it for eviction.
    pub(crate) came: u64,
    unsent_bytes: usize,
    moved_bytes: usize,
    has_written: bool,
}

fn would_block(outcome: &io::Result<usize>) -> bool
    ensures { result ≡ would_block outcome.now }
{
    matches!(outcome, Err(error) if error.kind() == ErrorKind::WouldBlock)
}

impl<S: Read + Write> Link<S> {
    /// Returns the link of a new connection, which may have bytes. If the first chunk of a local peer registers a name
    /// or asks for a list, the chunk is kept back for one pull.
    pub fn new(alloc: Global, stream: S, is_local: bool, now: u64) -> Link<S>
        ensures pulls { result.history.pulls ≡ [] }
        ensures puts { result.history.puts ≡ [] }
        ensures whole { result.history.failed ≡ false }
        ensures is_local { result.is_local ≡ is_local }
        ensures came { result.came ≡ now }
    {
        Link {
            stream,
            history: History {
                failed: false,
                pulls: GhostList::new(),
                puts: GhostList::new(),
            },
            first: if is_local {
                FirstPiece::Expected(alloc)
            } else {
                FirstPiece::Past
            },
            readiness: Readiness::new(),
            progress: ReplyProgress::Asked,
            timer: Timer::default(),
            is_local,
            came: now,
            unsent_bytes: 0,
            moved_bytes: 0,
            has_written: false,
        }
    }

    pub fn stream(&self) -> &S
        ensures { result.now ≡ self.now.stream }
    {
        &self.stream
    }

    /// Returns the name that the peer asks to register, while the request is kept back.
    pub fn asked_name(&self) -> Option<&Name> {
        self.first.name()
    }

    /// Returns whether a request for a list is kept back.
    pub(crate) fn asks_list(&self) -> bool {
        self.first.asks_list()
    }

    /// Returns whether a call may do more than answer Later.
    pub fn may_move(&self) -> bool
        ensures { result ≡ may_move self.now.readiness.reading self.now.readiness.writing }
    {
        self.readiness.may_move()
    }

    pub(crate) fn is_answered(&self) -> bool
        ensures { result ≡ is_answered self.now.progress }
    {
        self.progress != ReplyProgress::Asked
    }

    pub(crate) fn unsent_bytes(&self) -> usize
        ensures { result ≡ self.now.unsent_bytes }
    {
        self.unsent_bytes
    }

    pub(crate) fn take_moved_bytes(&mut self) -> usize
        ensures { self.new.readiness ≡ self.old.readiness }
    {
        mem::replace(&mut self.moved_bytes, 0)
    }

    pub(crate) fn take_written(&mut self) -> bool
        ensures written { result ≡ self.old.has_written }
        ensures readiness { self.new.readiness ≡ self.old.readiness }
    {
        mem::replace(&mut self.has_written, false)
    }

    /// Returns whether a timeout applies. A peer that has read its reply may be silent for any time.
    fn is_timed(&self) -> bool
        ensures { result ≡ is_timed self.now.progress self.now.readiness.writing }
    {
        !self.is_answered() || self.readiness.is_unsent()
    }

    /// Returns whether the link may be evicted for another peer: it is older than `YOUNG_MS`, and a timeout applies. A
    /// registered connection is safe, except while its reply waits to be written.
    pub(crate) fn is_evictable(&self, now: u64) -> bool
        ensures { (result ≡ true) ↔ ((is_timed self.now.progress self.now.readiness.writing ≡ true)
            × (YOUNG_MS < now - self.now.came)) }
    {
        self.is_timed() && now.saturating_sub(self.came) > YOUNG_MS
    }

    pub(crate) fn is_late(&self) -> bool
        ensures { result ≡ self.now.timer.is_late }
    {
        self.timer.is_late
    }

    /// Restarts the age of the link, which is being evicted, at `now`. If it survives, it counts as new.
    pub(crate) fn evict(&mut self, now: u64)
        ensures came { self.new.came ≡ now }
        ensures timely { self.new.timer.is_late ≡ false }
        ensures notes { self.new.readiness ≡ self.old.readiness }
    {
        self.came = now;
        self.timer.is_late = false;
    }

    pub(crate) fn set_late(&mut self, is_late: bool)
        ensures { self.new ≡ record self.old { timer = record self.old.timer { is_late = is_late } } }
    {
        self.timer.is_late = is_late;
    }

    /// Records a report of the poll. A reported event goes before a timeout.
    pub(crate) fn on_event(&mut self, is_closed: bool)
        ensures timely { self.new.timer.is_late ≡ false }
        ensures moves { may_move self.new.readiness.reading self.new.readiness.writing ≡ true }
        ensures noted { self.new.readiness.notes ≡ self.old.readiness.notes ++ Reported ∷ [] }
    {
        self.timer.is_late = false;
        self.readiness.on_report();
        self.progress = match self.progress {
            ReplyProgress::Asked => ReplyProgress::Asked,
            ReplyProgress::Answered | ReplyProgress::Left
                if is_closed && !self.readiness.is_unsent() => ReplyProgress::Left,
            ReplyProgress::Answered | ReplyProgress::Left => ReplyProgress::Answered,
        };
    }

    /// Times out a local peer that has sent a part of a request, since memory is short and the other part may be long.
    pub(crate) fn expire_partial_request(&mut self) {
        let is_part = self.is_local && !self.is_answered() && !self.readiness.is_unsent();
        if is_part && matches!(self.first, FirstPiece::Past) {
            self.timer.is_late = true;
        }
    }

    /// Returns the turn of this link, and takes its timeout. If the link survives, its time begins again.
    pub(crate) fn turn(&mut self, key: usize) -> Turn
        ensures link { IsOf (Some key) result }
        ensures anew { result ≡ Turn.Late key → self.new.timer.since ≡ None }
        ensures timely { self.new.timer.is_late ≡ false }
        ensures notes { self.new.readiness ≡ self.old.readiness }
    {
        if self.timer.take_late() {
            Turn::Late(key as u64)
        } else {
            Turn::Ready(key as u64)
        }
    }

    /// Scans the link, after the poll has reported all up to `now`. Returns whether the link is to be served.
    pub(crate) fn look(&mut self, now: u64, timeout: u64) -> bool
        ensures quiet { result ≡ false → is_quiet self.new.readiness.notes ≡ true }
        ensures notes { self.new.readiness ≡ self.old.readiness }
    {
        let is_timed = self.is_timed();
        self.timer.begin(is_timed, self.is_local, now);
        self.may_move() || !self.readiness.is_watched() || self.timer.expire(now, timeout)
    }

    fn on_moved(&mut self, count: usize)
        ensures { self.new ≡ record self.old {
          timer = record self.old.timer { has_moved = true };
          moved_bytes = min (self.old.moved_bytes + count) (2 ^ 64 - 1);
        } }
    {
        self.timer.has_moved = true;
        self.moved_bytes = self.moved_bytes.saturating_add(count);
    }

    fn on_written(&mut self, count: usize)
        ensures moved { self.new.timer.has_moved ≡ true }
        ensures answered { is_answered self.new.progress ≡ true }
        ensures written { self.new.has_written ≡ true }
        ensures history { self.new.history ≡ self.old.history }
        ensures readiness { self.new.readiness ≡ self.old.readiness }
    {
        self.on_moved(count);
        self.has_written = true;
        if self.progress == ReplyProgress::Asked {
            self.progress = ReplyProgress::Answered;
        }
    }

    fn on_pull(&mut self, outcome: io::Result<usize>, room: usize) -> Pull
        ensures answer { result ≡ pull_of outcome }
        ensures failed { self.new.history.failed ≡ pull_is_fault result }
        ensures pulls { self.new.history.pulls ≡ self.old.history.pulls ++ result ∷ [] }
        ensures puts { self.new.history.puts ≡ self.old.history.puts }
        ensures noted { self.new.readiness.notes ≡ self.old.readiness.notes ++ Read (would_block outcome) ∷ [] }
        ensures moved { (count : ℕ) → result ≡ Pull.Piece count → self.new.timer.has_moved ≡ true }
    {
        let is_blocked = would_block(&outcome);
        let answer = pull_from(outcome);
        self.history.failed = answer == Pull::Fault;
        self.history.pulls.note(&answer);
        self.readiness.on_pull(&answer, room, is_blocked);
        if let Pull::Piece(count) = answer {
            self.on_moved(count);
        }
        answer
    }

    fn on_put(&mut self, outcome: io::Result<usize>, offered: usize) -> Put
        ensures answer { result ≡ put_of outcome }
        ensures failed { self.new.history.failed ≡ put_is_fault result }
        ensures puts { self.new.history.puts ≡ self.old.history.puts ++ result ∷ [] }
        ensures pulls { self.new.history.pulls ≡ self.old.history.pulls }
        ensures noted { self.new.readiness.notes ≡ self.old.readiness.notes ++ Wrote result (would_block outcome) ∷ [] }
        ensures moved { (count : ℕ) → result ≡ Put.Wrote count
            → (self.new.timer.has_moved ≡ true) × (is_answered self.new.progress ≡ true) }
    {
        let is_blocked = would_block(&outcome);
        let answer = put_from(outcome);
        self.history.failed = answer == Put::Fault;
        self.history.puts.note(&answer);
        self.readiness.on_put(&answer, is_blocked);
        self.unsent_bytes = unsent_after(&answer, offered);
        if let Put::Wrote(count) = answer {
            self.on_written(count);
        }
        answer
    }
}

impl<S: Stream> Link<S> {
    /// Has the poll watch the stream, unless it does. Returns false if the poll has refused, which is a failure of the
    /// stream.
    pub(crate) fn watch<P: System<Stream = S>>(&mut self, system: &mut P, key: usize) -> bool
        ensures watched { result ≡ true
            → covers (is_unsent self.new.readiness.writing) self.new.readiness.watched ≡ true }
        ensures refused { result ≡ false → self.new.history.failed ≡ true }
        ensures quiet { is_quiet self.old.readiness.notes ≡ true → is_quiet self.new.readiness.notes ≡ true }
        ensures reading { self.new.readiness.reading ≡ self.old.readiness.reading }
        ensures writing { self.new.readiness.writing ≡ self.old.readiness.writing }
        ensures asked { AreTaken key (P.watched system.old) (P.watched system.new)
            self.old.readiness.notes self.new.readiness.notes }
    {
        if self.readiness.is_watched() {
            return true;
        }
        let interest = self.readiness.wanted();
        let was_watched = self.readiness.is_known();
        let outcome = system.watch(&mut self.stream, key, interest, was_watched);
        if self.readiness.on_watched(outcome) {
            return true;
        }
        self.history.failed = true;
        self.reset_unsent();
        false
    }

    /// Leaves the link to the poll. Returns false if the link is to be served at once: a call is due, or the poll has
    /// refused to watch its stream.
    pub(crate) fn await_report<P: System<Stream = S>>(&mut self, system: &mut P, key: usize) -> bool
        ensures waits { result ≡ true → is_quiet self.new.readiness.notes ≡ true }
        ensures due { result ≡ false → (may_move self.new.readiness.reading self.new.readiness.writing ≡ true)
            ⊎ (self.new.history.failed ≡ true) }
        ensures asked { AreTaken key (P.watched system.old) (P.watched system.new)
            self.old.readiness.notes self.new.readiness.notes }
    {
        !self.may_move() && self.watch(system, key)
    }

    /// Has the connection end with a reset if bytes wait to be written, so that a part of a reply is not taken for all.
    pub(crate) fn reset_unsent(&mut self)
        ensures history { self.new.history ≡ self.old.history }
        ensures readiness { self.new.readiness ≡ self.old.readiness }
    {
        if self.readiness.is_unsent() {
            self.stream.reset();
        }
    }
}

impl<S: Read + Write> Device for Link<S> {
    ghost use Rattle.std.specs.Prelude.{None};

    ghost left = { λ _. None };

    ghost held = { λ _. None };

    ghost pulls = { λ l. l.history.pulls };

    ghost puts = { λ l. l.history.puts };

    ghost broken = { λ l. l.history.failed };
}

fn unsent_after(answer: &Put, offered: usize) -> usize
    ensures { result ≡ unsent_after answer.now offered }
{
    match answer {
        Put::Wrote(count) => offered.saturating_sub(*count),
        Put::Later => offered,
        Put::Fault => 0,
    }
}

fn broken() -> io::Result<usize>
    ensures { IsBroken result }
{
    Err(io::Error::from(ErrorKind::BrokenPipe))
}

/// Reads bytes that have no effect, since their peer has its reply. If there were any, the read counts as interrupted.
fn discard<S: Read>(stream: &mut S, buffer: &mut [u8]) -> io::Result<usize>
    ensures { result ≡ Ok 0 ⊎ IsErr result }
{
    match stream.read(buffer) {
        Ok(count) if count > 0 => Err(io::Error::from(ErrorKind::Interrupted)),
        outcome => outcome,
    }
}

impl<S: Read + Write> Input for Link<S> {
    fn pull(&mut self, buffer: &mut [u8]) -> Pull {
        let outcome = if self.history.failed {
            broken()
        } else if self.progress == ReplyProgress::Left {
            Ok(0)
        } else if self.is_answered() {
            discard(&mut self.stream, buffer)
        } else {
            self.first.read(&mut self.stream, buffer)
        };
        self.on_pull(outcome, buffer.len())
    }

    fn failed(&self) -> bool {
        self.history.failed
    }
}

impl<S: Read + Write> Output for Link<S> {
    fn put(&mut self, bytes: &[u8]) -> Put {
        let outcome = if self.history.failed {
            broken()
        } else {
            self.stream.write(bytes)
        };
        self.on_put(outcome, bytes.len())
    }

    fn failed(&self) -> bool {
        self.history.failed
    }
}
