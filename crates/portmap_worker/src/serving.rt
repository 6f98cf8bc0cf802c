//! One worker, which serves the links of a source.
ghost use Rattle.std.specs.Prelude.{◌≡◌, ◌≢◌, ◌+◌, ◌≤◌, ℕ, false, None, is_ok, is_some};
ghost use Rattle.std.specs.Ordering.{nat_cmp};
ghost use Rattle.std.specs.BTreeMap.{get};
ghost use Rattle.portmap_worker.specs.Carrying.{LetsGo};
ghost use Rattle.portmap_worker.specs.Keys.{Agree, AgreeBut};

use crate::carrier::next_of;
use crate::limits::LAST_TRIES_MOST;
use crate::source::HandsOut;
use crate::{Carrier, Gate, LinkSource, Next, Serve, Source, Turn};
use portmap_book::{ActFault, Desk, Seat};
use portmap_core::Refusal;
use portmap_link::{Input, Output};
use std::alloc::Global;
use std::collections::BTreeMap;
use std::collections::btree_map::Entry;
use std::sync::Wait;
use std::sync::ledger::Ledger;

/// The end of a worker.
#[derive(Drop)]
pub struct Outcome<L: Ledger> {
    pub seat: Seat<L>,
    /// The number of acts that the worker made at the desk.
    pub served: u64,
}

#[derive(Drop)]
struct Holder<'a, L: Ledger, G: Gate, R: Wait> {
    rt: &'a R,
    alloc: Global,
    desk: &'a Desk<L>,
    number: u32,
    gate: &'a G,
    seat: Seat<L>,
    held: BTreeMap<u64, Carrier<L>>,
}

impl<I: Input + Output, L: Ledger, G: Gate, R: Wait> Serve<I> for Holder<'_, L, G, R> {
    ghost use Rattle.std.specs.Prelude.{◌≤◌};
    ghost use Rattle.portmap_worker.specs.Keys.{HeldAlike};

    ghost becomes = { λ old new. (old.seat.count ≤ new.seat.count) × HeldAlike old.held new.held };

    /// If `is_last`, it flushes at most `LAST_TRIES_MOST` times.
    fn serve(&mut self, key: u64, is_last: bool, link: &mut I) -> Next {
        let Some(carrier) = self.held.get_mut(&key) else {
            return Next::Keep;
        };
        if is_last {
            for _ in 0..LAST_TRIES_MOST {
                if !carrier.flush(link) {
                    break;
                }
            }
            return Next::Halt;
        }
        let (_, next) = carrier.ready(
            self.rt,
            self.alloc,
            self.desk,
            &mut self.seat,
            self.number,
            link,
            self.gate,
        );
        next
    }
}

impl<L: Ledger, G: Gate, R: Wait> Holder<'_, L, G, R> {
    /// Holds a connection. Room for it is reserved first, so that all that the desk has opened is held.
    fn hold(&mut self, key: u64, local: bool) -> Result<(), ActFault>
        ensures count { self.old.seat.count ≤ self.new.seat.count }
        ensures held { is_some (get nat_cmp self.new.held key) ≡ is_ok result }
        ensures others { (k : ℕ) → k ≢ key → get nat_cmp self.new.held k ≡ get nat_cmp self.old.held k }
    {
        self.release(key);
        match self.held.entry(key) {
            Ok(Entry::Vacant(place)) => {
                let (_, conn) = self
                    .desk
                    .connect(self.rt, self.alloc, &mut self.seat, local)?;
                place.insert(Carrier::new(self.alloc, conn));
                Ok(())
            }
            Ok(Entry::Occupied(_)) | Err(_) => Err(ActFault::Refused(Refusal::NoMemory)),
        }
    }

    fn expire(&mut self, key: u64) -> Option<Next>
        ensures count { self.old.seat.count ≤ self.new.seat.count }
        ensures held { self.new.held ≡ self.old.held }
    {
        let carrier = self.held.get(&key)?;
        Some(carrier.late(self.rt, self.alloc, self.desk, &mut self.seat))
    }

    fn done(&self) -> Vec<u64> {
        let mut done = Vec::new(self.alloc);
        for (key, carrier) in &self.held {
            if carrier.is_done(self.rt, self.desk) && done.push(*key).is_err() {
                break;
            }
        }
        done
    }

    fn release(&mut self, key: u64)
        ensures count { self.old.seat.count ≤ self.new.seat.count }
        ensures gone { get nat_cmp self.new.held key ≡ None }
        ensures others { (k : ℕ) → k ≢ key → get nat_cmp self.new.held k ≡ get nat_cmp self.old.held k }
    {
        if let Some(carrier) = self.held.remove(&key) {
            let conn = carrier.into_conn();
            let _ = self.desk.close(self.rt, self.alloc, &mut self.seat, conn);
        }
    }

    fn fail(&mut self, key: u64)
        ensures count { self.old.seat.count ≤ self.new.seat.count }
        ensures gone { get nat_cmp self.new.held key ≡ None }
        ensures others { (k : ℕ) → k ≢ key → get nat_cmp self.new.held k ≡ get nat_cmp self.old.held k }
    {
        if let Some(carrier) = self.held.remove(&key) {
            let conn = carrier.into_conn();
            let _ = self.desk.fault(self.rt, self.alloc, &mut self.seat, conn);
        }
    }

    fn leave(self) -> Seat<L>
        ensures { self.entry.seat.count ≤ result.count }
    {
        let mut holder = self;
        while let Some((_, carrier)) = holder.held.pop_first() {
            let conn = carrier.into_conn();
            let _ = holder
                .desk
                .close(holder.rt, holder.alloc, &mut holder.seat, conn);
        }
        holder.seat
    }
}

/// A worker at a desk.
#[derive(Drop)]
pub struct Worker<'a, L: Ledger, S: LinkSource, G: Gate, R: Wait> {
    source: S,
    holder: Holder<'a, L, G, R>,
}

impl<'a, L: Ledger, S: LinkSource + Drop, G: Gate, R: Wait> Worker<'a, L, S, G, R> {
    /// Returns a worker that holds no connection. It has the number of its seat.
    pub fn new(
        rt: &'a R,
        alloc: Global,
        desk: &'a Desk<L>,
        seat: Seat<L>,
        source: S,
        gate: &'a G,
    ) -> Worker<'a, L, S, G, R>
        ensures seat { result.holder.seat ≡ seat }
        ensures agree { ((key : ℕ) → S.has source key false) → Agree result.holder.held (S.has result.source) }
    {
        let holder = Holder {
            rt,
            alloc,
            desk,
            number: seat.worker(),
            gate,
            seat,
            held: BTreeMap::new(alloc),
        };
        Worker { source, holder }
    }

    /// Does what its source returns next. Returns whether there is more to do.
    pub fn turn(&mut self) -> bool
        ensures count { self.old.holder.seat.count ≤ self.new.holder.seat.count }
        ensures agree { Agree self.old.holder.held (S.has self.old.source)
            → Agree self.new.holder.held (S.has self.new.source) }
    {
        let turn = self.source.turn();
        self.take(turn)
    }

    pub fn source(&mut self) -> &mut S {
        &mut self.source
    }

    pub fn acts(&self) -> u64
        ensures { result ≡ self.now.holder.seat.count }
    {
        self.holder.seat.count()
    }

    fn take(&mut self, turn: Turn) -> bool
        ensures count { self.old.holder.seat.count ≤ self.new.holder.seat.count }
        ensures agree { AgreeBut turn self.old.holder.held (S.has self.old.source)
            → Agree self.new.holder.held (S.has self.new.source) }
    {
        match turn {
            Turn::Fresh { key, local } => self.open(key, local),
            Turn::Ready(key) => self.go_on(key),
            Turn::Late(key) => self.expire(key),
            Turn::Idle => self.close_stopped(),
            Turn::Stop => false,
        }
    }

    fn open(&mut self, key: u64, local: bool) -> bool
        ensures count { self.old.holder.seat.count ≤ self.new.holder.seat.count }
        ensures agree { AgreeBut (Turn.Fresh key local) self.old.holder.held (S.has self.old.source)
            → Agree self.new.holder.held (S.has self.new.source) }
    {
        let Err(fault) = self.holder.hold(key, local) else {
            return true;
        };
        self.source.end(key);
        next_of(fault) != Next::Halt
    }

    fn go_on(&mut self, key: u64) -> bool
        ensures count { self.old.holder.seat.count ≤ self.new.holder.seat.count }
        ensures agree { Agree self.old.holder.held (S.has self.old.source)
            → Agree self.new.holder.held (S.has self.new.source) }
    {
        match self.source.lend(key, false, &mut self.holder) {
            Some(next) => self.follow(key, next),
            None if self.holder.held.contains_key(&key) => self.follow(key, Next::Fault),
            None => true,
        }
    }

    fn expire(&mut self, key: u64) -> bool
        ensures count { self.old.holder.seat.count ≤ self.new.holder.seat.count }
        ensures agree { Agree self.old.holder.held (S.has self.old.source)
            → Agree self.new.holder.held (S.has self.new.source) }
    {
        match self.holder.expire(key) {
            Some(next) => self.follow(key, next),
            None => true,
        }
    }

    fn follow(&mut self, key: u64, next: Next) -> bool
        ensures count { self.old.holder.seat.count ≤ self.new.holder.seat.count }
        ensures agree { Agree self.old.holder.held (S.has self.old.source)
            → Agree self.new.holder.held (S.has self.new.source) }
        ensures gone { LetsGo next → get nat_cmp self.new.holder.held key ≡ None }
    {
        match next {
            Next::Keep => true,
            Next::Close | Next::NoMemory => {
                self.holder.release(key);
                self.source.end(key);
                true
            }
            Next::Fault => {
                self.holder.fail(key);
                self.source.end(key);
                true
            }
            Next::Halt => {
                let _ = self.source.lend(key, true, &mut self.holder);
                false
            }
        }
    }

    /// Closes the connections that another worker has stopped. Returns false if the port mapper has halted.
    fn close_stopped(&mut self) -> bool
        ensures count { self.old.holder.seat.count ≤ self.new.holder.seat.count }
        ensures agree { Agree self.old.holder.held (S.has self.old.source)
            → Agree self.new.holder.held (S.has self.new.source) }
    {
        if self.holder.desk.halted(self.holder.rt) {
            return false;
        }
        for key in self.holder.done() {
            self.holder.release(key);
            self.source.end(key);
        }
        true
    }

    /// Closes all connections, and returns the seat.
    pub fn leave(self) -> Seat<L>
        ensures { self.entry.holder.seat.count ≤ result.count }
    {
        let Worker {
            source: _source,
            holder,
        } = self;
        holder.leave()
    }
}

/// Serves the links of a source at the desk, until the source stops or the port mapper has halted. Then it closes all
/// connections that are left. The gate is passed with `number`, which is the seat's. This call blocks: for the desk's
/// lock, and as the source does.
pub fn serve<'a, L: Ledger, S: Source + Drop, G: Gate, R: Wait>(
    rt: &'a R,
    alloc: Global,
    desk: &'a Desk<L>,
    seat: Seat<L>,
    number: u32,
    source: S,
    gate: &'a G,
) -> Outcome<L>
    ensures { result.seat.count ≡ seat.count + result.served }
{
    serve_links(rt, alloc, desk, seat, number, HandsOut(source), gate)
}

/// Serves as `serve` does, over a source that lends its links.
pub fn serve_links<'a, L: Ledger, S: LinkSource + Drop, G: Gate, R: Wait>(
    rt: &'a R,
    alloc: Global,
    desk: &'a Desk<L>,
    seat: Seat<L>,
    number: u32,
    source: S,
    gate: &'a G,
) -> Outcome<L>
    ensures { result.seat.count ≡ seat.count + result.served }
{
    let before = seat.count();
    let mut worker = Worker::new(rt, alloc, desk, seat, source, gate);
    worker.holder.number = number;
    for _ in rt.forever() {
        if !worker.turn() {
            break;
        }
    }
    let seat = worker.leave();
    let served = seat.count() - before;
    Outcome { seat, served }
}
