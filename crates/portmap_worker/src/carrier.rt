//! The handler of a connection that a worker holds.
ghost use Rattle.std.specs.Prelude.{◌≡◌, ℕ, ◌+◌, ◌≤◌, List, [], ◌∷◌, ◌++◌, ◌⊎◌, false, IfSome, IfNone};
ghost use Rattle.std.specs.Io.KnownBytes.{Keeps};
ghost use Rattle.portmap_core.specs.declared.event.Event.TheVariants as event;
ghost use Rattle.portmap_book.specs.DeskCalls.{AsksPiece, SaysTo};
ghost use Rattle.portmap_link.specs.Asking.{devices};
ghost use Rattle.portmap_link.specs.Flush.{Moves};
ghost use Rattle.portmap_worker.specs.Carrying.{IsLate, IsRead, FollowsAnswer, FollowsNothing, added, bytes_of};
ghost use Rattle.portmap_worker.specs.Carrying.{fate_of, is_close, next_after, next_of};
ghost use Rattle.portmap_worker.specs.Replies.{Does, IsFlushed, carried};

use crate::limits::PULL_BYTES_MOST;
use crate::{Gate, Point};
use portmap_book::{ActFault, Conn, Desk, Seat};
use portmap_core::{Answer, Fate, Phase, Refusal};
use portmap_link::{Flush, Input, Outbox, Output, Pull};
use std::alloc::Global;
use std::sync::Wait;
use std::sync::ledger::Ledger;

/// The next thing to do with a connection.
#[derive(Clone, Copy, PartialEq, Eq)]
pub enum Next {
    /// Nothing, until its link is ready again.
    Keep,
    /// Close it: its peer has ended it, the desk has refused it, or its close was due and no byte waits to be written.
    Close,
    /// Fault it: its link has failed.
    Fault,
    /// End the worker: the port mapper has halted.
    Halt,
    /// Close it: memory ran out.
    NoMemory,
}

/// The handler of a connection that a worker holds.
#[derive(Drop)]
pub struct Carrier<L: Ledger> {
    conn: Conn<L>,
    out: Outbox,
    /// The connection is to be closed once the send buffer is empty.
    due: bool,
}

impl<L: Ledger> Carrier<L> {
    /// Returns the handler of a new connection. No byte waits to be written, and no close is due. Never allocates.
    pub fn new(alloc: Global, conn: Conn<L>) -> Carrier<L>
        ensures conn { result.conn ≡ conn }
        ensures out { result.out ≡ [] }
        ensures due { result.due ≡ false }
    {
        Carrier {
            conn,
            out: Outbox::new(alloc),
            due: false,
        }
    }

    /// Serves the connection. First it writes what waits. Unless a close is due, it then pulls one chunk of at most
    /// `PULL_BYTES_MOST` bytes, has the desk answer it, and writes the reply as far as the link takes it. It passes the
    /// gate with the seat's number before the reply is written and after.
    ///
    /// Returns the position and the answer, if the desk returned them, and what is to be done next.
    pub fn ready<I: Input + Output, G: Gate, R: Wait>(
        &mut self,
        rt: &R,
        alloc: Global,
        desk: &Desk<L>,
        seat: &mut Seat<L>,
        worker: u32,
        link: &mut I,
        gate: &G,
    ) -> (Option<(u64, Answer)>, Next)
        ensures acted { IfSome result.0 (λ acted. (piece : List ℕ) × (let seen = devices I.left I.held I.pulls I.puts in
            IsRead (seen link.old link.old) (seen link.new link.new) piece) × SaysTo self.old.conn.slot piece acted.1
            × AsksPiece self.old.conn.slot piece seat.old.asked seat.new.asked) }
        ensures hears { IfSome result.0 (λ acted. seat.new.acted ≡ seat.old.acted ++ acted ∷ []) }
        ensures written { IfSome result.0 (λ acted.
            Moves (I.held link.old) (I.held link.new) (self.old.out ++ added acted.1 result.1) self.new.out) }
        ensures due { IfSome result.0 (λ acted. (self.old.due ≡ false) × (self.new.due ≡ is_close (fate_of acted.1))) }
        ensures counted { IfSome result.0 (λ act. (seat.new.count ≡ seat.old.count + 1) × (seat.old.count ≤ act.0)) }
        ensures next { IfSome result.0 (λ acted. FollowsAnswer acted.1 (I.puts link.old)
            (I.puts link.new) self.new.out result.1) }
        ensures same { IfNone result.0 ((seat.new ≡ seat.old) × (self.new.due ≡ self.old.due)) }
        ensures worker { seat.new.worker ≡ seat.old.worker }
        ensures flushed { IfNone result.0 (Moves (I.held link.old) (I.held link.new) self.old.out self.new.out) }
        ensures quiet { IfNone result.0 (let seen = devices I.left I.held I.pulls I.puts in
            FollowsNothing self.old.due (seen link.old link.old) (seen link.new link.new) self.new.out result.1) }
        ensures conn { self.new.conn ≡ self.old.conn }
        ensures does { let seen = devices I.left I.held I.pulls I.puts in
            Does self.old.conn.slot result.0 result.1 (carried self.old.out self.old.due (seen link.old link.old))
            (carried self.new.out self.new.due (seen link.new link.new)) }
    {
        match self.out.flush(link) {
            Flush::Fault => return (None, Next::Fault),
            Flush::Empty if self.due => return (None, Next::Close),
            Flush::Later if self.due => return (None, Next::Keep),
            Flush::Empty | Flush::Later => {}
        }
        let mut buffer = [0; PULL_BYTES_MOST];
        match link.pull(&mut buffer) {
            Pull::Fault => (None, Next::Fault),
            Pull::End => (None, Next::Close),
            Pull::Later => (None, Next::Keep),
            Pull::Piece(n) => match desk.piece(rt, alloc, seat, &self.conn, &buffer[..n]) {
                Err(fault) => (None, next_of(fault)),
                Ok((place, answer)) => {
                    gate.pass(worker, Point::Answered);
                    let next = self.reply(link, &answer);
                    gate.pass(worker, Point::Sent);
                    (Some((place, answer)), next)
                }
            },
        }
    }

    fn reply<I: Output>(&mut self, link: &mut I, answer: &Answer) -> Next
        requires { self.old.due ≡ false }
        ensures written { Moves (I.held link.old) (I.held link.new)
            (self.old.out ++ added answer.now result) self.new.out }
        ensures due { self.new.due ≡ is_close (fate_of answer.now) }
        ensures next { FollowsAnswer answer.now (I.puts link.old) (I.puts link.new) self.new.out result }
        ensures left { Keeps (I.left link.old) (I.left link.new) }
        ensures pulls { I.pulls link.new ≡ I.pulls link.old }
        ensures conn { self.new.conn ≡ self.old.conn }
    {
        let fate = fate_of(answer);
        self.due = fate == Fate::Close;
        match self.out.write(link, bytes_of(answer)) {
            Ok(flush) => next_after(fate, flush),
            Err(_) => Next::NoMemory,
        }
    }

    /// Times out the connection, and returns what is to be done next. Bytes that wait do not keep it open.
    pub(crate) fn late<R: Wait>(
        &self,
        rt: &R,
        alloc: Global,
        desk: &Desk<L>,
        seat: &mut Seat<L>,
    ) -> Next
        ensures tells { IsLate self.now.conn.slot seat.old seat.new result }
    {
        match desk.late(rt, alloc, seat, &self.conn) {
            Ok((_, answer)) => next_after(fate_of(&answer), Flush::Empty),
            Err(fault) => next_of(fault),
        }
    }

    /// Returns whether the connection was stopped or its request is done, and no byte waits to be written.
    pub(crate) fn is_done<R: Wait>(&self, rt: &R, desk: &Desk<L>) -> bool {
        self.out.pending().is_empty() && desk.phase(rt, &self.conn) == Some(Phase::Done)
    }

    /// Writes what waits, as far as the link takes it. Returns whether the link would block.
    pub(crate) fn flush<I: Output>(&mut self, link: &mut I) -> bool
        ensures conn { self.new.conn ≡ self.old.conn }
        ensures flushed { let seen = devices I.left I.held I.pulls I.puts in
            IsFlushed (carried self.old.out self.old.due (seen link.old link.old))
            (carried self.new.out self.new.due (seen link.new link.new)) }
    {
        self.out.flush(link) == Flush::Later
    }

    pub(crate) fn into_conn(self) -> Conn<L>
        ensures { result ≡ self.conn }
    {
        let Carrier {
            conn,
            out: _,
            due: _,
        } = self;
        conn
    }
}

fn bytes_of(answer: &Answer) -> &[u8]
    ensures { result.now ≡ bytes_of answer.now }
{
    match answer {
        Answer::Said { bytes, .. } => bytes.as_slice(),
        Answer::Connected(_) | Answer::Gone => &[],
    }
}

fn fate_of(answer: &Answer) -> Fate
    ensures { result ≡ fate_of answer.now }
{
    match answer {
        Answer::Connected(_) => Fate::Stay,
        Answer::Said { fate, .. } => *fate,
        Answer::Gone => Fate::Close,
    }
}

fn next_after(fate: Fate, flush: Flush) -> Next
    ensures { result ≡ next_after fate flush }
{
    match (fate, flush) {
        (Fate::Halt, _) => Next::Halt,
        (_, Flush::Fault) => Next::Fault,
        (Fate::Close, Flush::Empty) => Next::Close,
        (Fate::Stay | Fate::Close, Flush::Empty | Flush::Later) => Next::Keep,
    }
}

pub(crate) fn next_of(fault: ActFault) -> Next
    ensures { result ≡ next_of fault }
{
    match fault {
        ActFault::Refused(Refusal::NoMemory) => Next::NoMemory,
        ActFault::Refused(Refusal::Halted) => Next::Halt,
        ActFault::Refused(Refusal::Full | Refusal::NoSlot) | ActFault::Worn => Next::Close,
    }
}
