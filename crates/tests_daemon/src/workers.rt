//! Workers at one desk, over memory: what is written when a worker passes its gate, and two workers that meet there or
//! follow one another.
ghost use Rattle.std.specs.Prelude.{◌≡◌};

use crate::gates::{Meet, Order, Relay};
use portmap_book::{Desk, PARTS, Seat};
use portmap_testing::books::book;
use portmap_testing::bytes::{ALIVE_A, Bytes, FOUND_A, FOURTH, NAMES, NONE_LISTED, PORT_A};
use portmap_testing::tape::{STEADY, Tape};
use portmap_worker::{Carrier, Gate, Outcome, Point, Source, Turn, serve};
use std::alloc::Global;
use std::marker::Brand;
use std::sync::Wait;
use std::sync::atomic::{AtomicU64, Ordering};
use std::sync::ledger::{Blank, Ledger};
use std::test::Fail;
use std::thread;
use std::thread::Threads;

/// A source of one link, and its number of turns. The connection is accepted, and is ready.
#[derive(Drop)]
struct One<'a>(&'a mut Tape<'static>, u32);

impl<'a> Source for One<'a> {
    type Link = Tape<'static>;

    fn turn(&mut self) -> Turn {
        self.1 = self.1.saturating_add(1);
        match self.1 {
            1 => Turn::Fresh {
                key: 7,
                local: true,
            },
            2 => Turn::Ready(7),
            _ => Turn::Stop,
        }
    }

    fn link(&mut self, _key: u64) -> Option<&mut Tape<'static>> {
        Some(&mut *self.0)
    }

    fn end(&mut self, _key: u64) {}
}

/// A gate that records how many bytes of a reply are written at each point.
#[derive(Drop)]
struct Looks<'a> {
    written: &'a AtomicU64,
    answered: AtomicU64,
    sent: AtomicU64,
}

impl Gate for Looks<'_> {
    fn pass(&self, _worker: u32, point: Point) {
        let noted = match point {
            Point::Answered => &self.answered,
            Point::Sent => &self.sent,
        };
        noted.store(self.written.load(Ordering::SeqCst), Ordering::SeqCst);
    }
}

/// Returns how many bytes of the reply to a registration are written when the gate is passed, at each point.
fn written_at<L: Ledger, R: Wait>(rt: &R, alloc: Global, blank: Blank) -> Option<[u64; 2]>
    requires name { blank.name ≡ L.name }
    requires parts { blank.parts ≡ L.parts }
    requires enough { blank.parts ≡ PARTS }
{
    let desk: Desk<L> = Desk::new(blank, book(alloc, false, 2)?);
    let mut seat = desk.seat(rt, 1)?;
    passed(rt, alloc, &desk, &mut seat)
}

fn passed<L: Ledger, R: Wait>(
    rt: &R,
    alloc: Global,
    desk: &Desk<L>,
    seat: &mut Seat<L>,
) -> Option<[u64; 2]> {
    let written = AtomicU64::new(0);
    let gate = Looks {
        written: &written,
        answered: AtomicU64::new(u64::MAX),
        sent: AtomicU64::new(u64::MAX),
    };
    let mut link = Tape::new(alloc, ALIVE_A, STEADY);
    link.written = Some(&written);
    let (_, conn) = desk.connect(rt, alloc, seat, true).ok()?;
    Carrier::new(alloc, conn).ready(rt, alloc, desk, seat, 0, &mut link, &gate);
    Some([
        gate.answered.load(Ordering::SeqCst),
        gate.sent.load(Ordering::SeqCst),
    ])
}

#[test]
fn a_gate_is_passed_before_an_answer_is_written_and_after(rt: HostRuntime) -> Result<(), Fail> {
    assert_eq!(rt;
        written_at::<Brand, HostRuntime>(&rt, rt.alloc(), Blank::new(PARTS)),
        Some([0, 6])
    );
    Ok(())
}

/// Serves one request. Returns true if this reply was written.
fn worked<L: Ledger, G: Gate, R: Wait>(
    rt: &R,
    alloc: Global,
    desk: &Desk<L>,
    seat: Seat<L>,
    number: u32,
    gate: &G,
    (request, reply): (Bytes, Bytes),
) -> (Outcome<L>, bool) {
    let mut link = Tape::new(alloc, request, STEADY);
    let outcome = serve(rt, alloc, desk, seat, number, One(&mut link, 0), gate);
    (outcome, link.sink.as_slice() == reply)
}

/// Returns the number of acts of both workers and of the book, or `None` if a seat is missing.
fn ending_of<L: Ledger>(
    alloc: Global,
    desk: Desk<L>,
    one: Outcome<L>,
    two: Outcome<L>,
) -> Option<[u64; 3]> {
    let served = [one.served, two.served];
    let mut seats = Vec::new(alloc);
    seats.push(one.seat).ok()?;
    seats.push(two.seat).ok()?;
    let book = desk.finish(seats).ok()?;
    Some([served[0], served[1], book.count()])
}

/// Runs two workers that pass the same gate. The second one starts when the gate permits it. Returns `None` unless each
/// writes the reply to its request.
fn two_workers<L: Ledger + Send + Sync, G: Order + Sync, R: Threads + Wait + Sync>(
    rt: &R,
    alloc: Global,
    blank: Blank,
    gate: &G,
    first: (Bytes, Bytes),
    second: (Bytes, Bytes),
) -> Option<[u64; 3]>
    requires name { blank.name ≡ L.name }
    requires parts { blank.parts ≡ L.parts }
    requires enough { blank.parts ≡ PARTS }
{
    let desk: Desk<L> = Desk::new(blank, book(alloc, false, 2)?);
    let one = desk.seat(rt, 1)?;
    let two = desk.seat(rt, 2)?;
    let shared = &desk;
    let ((one, is_one), (two, is_two)) = thread::join(
        rt,
        move || worked(rt, alloc, shared, one, 0, gate, first),
        move || {
            gate.follow();
            worked(rt, alloc, shared, two, 1, gate, second)
        },
    );
    if !is_one || !is_two {
        return None;
    }
    ending_of(alloc, desk, one, two)
}

#[test]
fn two_workers_hold_an_answer_at_once(rt: HostRuntime) -> Result<(), Fail> {
    let gate = Meet::new(&rt);
    let names = (NAMES, NONE_LISTED);
    let ended = two_workers::<Brand, Meet<'_, HostRuntime>, HostRuntime>(
        &rt,
        rt.alloc(),
        Blank::new(PARTS),
        &gate,
        names,
        names,
    );
    assert_eq!(rt; ended, Some([3, 3, 6]));
    assert!(rt; gate.have_met());
    Ok(())
}

#[test]
fn a_worker_sends_what_another_one_has_registered(rt: HostRuntime) -> Result<(), Fail> {
    let gate = Relay::new(&rt);
    let ended = two_workers::<Brand, Relay<'_, HostRuntime>, HostRuntime>(
        &rt,
        rt.alloc(),
        Blank::new(PARTS),
        &gate,
        (ALIVE_A, FOURTH),
        (PORT_A, FOUND_A),
    );
    assert_eq!(rt; ended, Some([3, 3, 6]));
    assert_eq!(rt; gate.noted(), 0);
    Ok(())
}
