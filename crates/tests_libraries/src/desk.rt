//! Many workers at one desk: the seats, and what one worker reads of another.
ghost use Rattle.std.specs.Prelude.{◌≡◌};

use portmap_book::{
    Book, Conn, Desk, FinishFault, PARTS, SEATS_MOST, Seat, Segment, Ticket, gather,
};
use portmap_core::{Answer, Config, Entry, Fate, Phase};
use portmap_testing::books::{is_gone, is_killed, is_raised, is_said};
use portmap_testing::bytes::{ALIVE_A, ALIVE_B, FOUND_A, FOURTH, PORT_A};
use std::alloc::Global;
use std::marker::Brand;
use std::rt::Clock;
use std::sync::Wait;
use std::sync::atomic::{AtomicU64, Ordering};
use std::sync::ledger::{Blank, Ledger};
use std::test::Fail;
use std::thread;
use std::thread::Threads;

pub fn book(alloc: Global, relaxed: bool) -> Option<Book> {
    let config = Config::new(4369, relaxed, 2, 4096).ok()?;
    Book::new(alloc, config, 4).ok()
}

/// Returns true if the reply has a creation of four bytes.
fn is_registered(reply: &[u8], fate: Fate) -> bool {
    reply.len() == 6 && reply.starts_with(&[0x76, 0]) && fate == Fate::Stay
}

/// Connects, registers and closes a node, and returns a ticket for each of the three entries.
fn round<L: Ledger, R: Wait>(
    rt: &R,
    alloc: Global,
    desk: &Desk<L>,
    seat: &mut Seat<L>,
    request: &[u8],
) -> Option<[Ticket; 3]> {
    let (opened, conn) = desk.connect(rt, alloc, seat, true).ok()?;
    let slot = conn.slot();
    let (said, answer) = desk.piece(rt, alloc, seat, &conn, request).ok()?;
    let (closed, gone) = desk.close(rt, alloc, seat, conn).ok()?;
    let registered = Entry::Piece {
        slot,
        bytes: request.to_vec(alloc).ok()?,
        reply: reply_of(answer)?,
        fate: Fate::Stay,
    };
    if !is_gone(&gone) {
        return None;
    }
    Some([
        ticket(opened, Entry::Connected { local: true, slot }),
        ticket(said, registered),
        ticket(closed, Entry::Closed { slot }),
    ])
}

pub fn ticket(position: u64, entry: Entry) -> Ticket {
    Ticket {
        place: position,
        entry,
    }
}

/// Returns the reply of a registration that succeeds.
fn reply_of(answer: Answer) -> Option<Vec<u8>> {
    match answer {
        Answer::Said { bytes, fate } if is_registered(&bytes, fate) => Some(bytes),
        Answer::Said { .. } | Answer::Connected(_) | Answer::Gone => None,
    }
}

/// Appends three tickets with rising positions from `next` on, and returns the position after the last.
fn kept(tickets: &mut Vec<Ticket>, next: u64, three: [Ticket; 3]) -> Option<u64> {
    let mut next = next;
    for ticket in three {
        if ticket.place < next {
            return None;
        }
        next = ticket.place.saturating_add(1);
        tickets.push(ticket).ok()?;
    }
    Some(next)
}

/// 500 nodes connect and leave, one after the other. Returns `None` if an operation fails.
fn rounds<L: Ledger, R: Wait>(
    rt: &R,
    alloc: Global,
    desk: &Desk<L>,
    seat: &mut Seat<L>,
    request: &[u8],
) -> Option<Vec<Ticket>> {
    let mut tickets = Vec::new(alloc);
    let mut next = 0;
    for _ in 0..500 {
        let three = round(rt, alloc, desk, seat, request)?;
        next = kept(&mut tickets, next, three)?;
    }
    Some(tickets)
}

fn worked<L: Ledger, R: Wait>(
    rt: &R,
    alloc: Global,
    desk: &Desk<L>,
    mut seat: Seat<L>,
    request: &[u8],
) -> (Seat<L>, Option<Vec<Ticket>>) {
    let tickets = rounds(rt, alloc, desk, &mut seat, request);
    (seat, tickets)
}

#[derive(Clone, Copy, Debug, PartialEq, Eq)]
enum Ended {
    /// The counts of the first seat, of the second seat and of the book.
    Whole([u64; 3]),
    /// A seat is missing: the count of the other seat, and the length of the log.
    Missing(u64, u64),
}

/// Returns true if the first `first` tickets are entries of worker 1, and the others of worker 2.
fn are_of_workers(book: &Book, tickets: &[Ticket], first: u64) -> bool {
    for (at, ticket) in tickets.iter().enumerate() {
        let worker = if (at as u64) < first { 1 } else { 2 };
        if book.workers().get(ticket.place as usize) != Some(&worker) {
            return false;
        }
    }
    true
}

/// Returns `None` unless the tickets are the log of the book, each with the number of its worker.
fn ending_of<L: Ledger>(
    alloc: Global,
    desk: Desk<L>,
    seats: Vec<Seat<L>>,
    counts: [u64; 2],
    tickets: Vec<Ticket>,
) -> Option<Ended> {
    match desk.finish(seats) {
        Ok(book) => {
            if !are_of_workers(&book, &tickets, counts[0]) {
                return None;
            }
            gather(alloc, &[], &book, tickets).ok()?;
            Some(Ended::Whole([counts[0], counts[1], book.count()]))
        }
        Err(FinishFault::SeatsMissing { have, logged, .. }) => Some(Ended::Missing(have, logged)),
    }
}

fn joined(one: Option<Vec<Ticket>>, two: Option<Vec<Ticket>>) -> Option<Vec<Ticket>> {
    let mut all = one?;
    for ticket in two? {
        all.push(ticket).ok()?;
    }
    Some(all)
}

/// Runs two threads at one desk, each with its own seat and node. The second seat may be lost.
fn two_workers<L: Ledger + Send + Sync, R: Threads + Wait + Sync>(
    rt: &R,
    alloc: Global,
    blank: Blank,
    is_lost: bool,
) -> Option<Ended>
    requires name { blank.name ≡ L.name }
    requires parts { blank.parts ≡ L.parts }
    requires enough { blank.parts ≡ PARTS }
{
    let desk: Desk<L> = Desk::new(blank, book(alloc, false)?);
    let one = desk.seat(rt, 1)?;
    let two = desk.seat(rt, 2)?;
    let shared = &desk;
    let ((one, first), (two, second)) = thread::join(
        rt,
        move || worked(rt, alloc, shared, one, ALIVE_A),
        move || worked(rt, alloc, shared, two, ALIVE_B),
    );
    let counts = [one.count(), two.count()];
    let mut seats = Vec::new(alloc);
    seats.push(one).ok()?;
    if !is_lost {
        seats.push(two).ok()?;
    }
    ending_of(alloc, desk, seats, counts, joined(first, second)?)
}

#[test]
fn two_workers_count_all_that_is_logged(rt: HostRuntime) -> Result<(), Fail> {
    let ended = two_workers::<Brand, HostRuntime>(&rt, rt.alloc(), Blank::new(PARTS), false);
    assert_eq!(rt; ended, Some(Ended::Whole([1500, 1500, 3000])));
    Ok(())
}

#[test]
fn a_seat_that_is_lost_is_missed(rt: HostRuntime) -> Result<(), Fail> {
    let ended = two_workers::<Brand, HostRuntime>(&rt, rt.alloc(), Blank::new(PARTS), true);
    assert_eq!(rt; ended, Some(Ended::Missing(1500, 3000)));
    Ok(())
}

/// Returns true if a desk with one seat makes 63 more, and no other.
fn seats_end<L: Ledger, R: Wait>(rt: &R, alloc: Global, desk: &Desk<L>) -> Option<bool> {
    let mut seats = Vec::new(alloc);
    for _ in 1..SEATS_MOST {
        seats.push(desk.seat(rt, 1)?).ok()?;
    }
    Some(seats.len() == 63 && desk.seat(rt, 1).is_none())
}

/// Returns true if the first three entries of a desk have the positions 0 to 2.
fn positions_begin<L: Ledger, R: Wait>(
    rt: &R,
    alloc: Global,
    desk: &Desk<L>,
    seat: &mut Seat<L>,
) -> Option<bool> {
    let [opened, said, closed] = round(rt, alloc, desk, seat, ALIVE_A)?;
    Some(opened.place == 0 && said.place == 1 && closed.place == 2)
}

/// Returns true if a timeout ends a waiting connection, and a fault removes it.
fn fails_late<L: Ledger, R: Wait>(
    rt: &R,
    alloc: Global,
    desk: &Desk<L>,
    seat: &mut Seat<L>,
    conn: Conn<L>,
) -> Option<bool> {
    let before = desk.phase(rt, &conn);
    let (_, late) = desk.late(rt, alloc, seat, &conn).ok()?;
    let after = desk.phase(rt, &conn);
    let (_, gone) = desk.fault(rt, alloc, seat, conn).ok()?;
    let is_waiting = before == Some(Phase::Waiting) && after == Some(Phase::Done);
    Some(is_waiting && is_said(&late, &[], Fate::Close) && is_gone(&gone))
}

fn is_run_part(segment: &Segment, first: u64, entries: usize) -> bool {
    segment.first == first && segment.entries.len() == entries
}

/// Returns true if a log with some weight is sealed to this number of entries from `first` on, and has no weight then.
fn is_sealed_to<L: Ledger, R: Wait>(
    rt: &R,
    alloc: Global,
    desk: &Desk<L>,
    first: u64,
    entries: usize,
) -> bool {
    let is_heavy = desk.weight(rt) > 0;
    match desk.seal(rt, alloc) {
        Ok(segment) => { is_heavy && desk.weight(rt) == 0 && is_run_part(&segment, first, entries) }
        Err(_) => false,
    }
}

/// Seals a log of six entries after a seventh, while a connection is open. Seals it again after the close, at position
/// 7.
fn is_sealed_at_desk<L: Ledger, R: Wait>(
    rt: &R,
    alloc: Global,
    desk: &Desk<L>,
    seat: &mut Seat<L>,
) -> Option<bool> {
    let (_, conn) = desk.connect(rt, alloc, seat, true).ok()?;
    let has_seven = is_sealed_to(rt, alloc, desk, 0, 7);
    let (position, gone) = desk.close(rt, alloc, seat, conn).ok()?;
    let is_closed = position == 7 && is_gone(&gone);
    Some(has_seven && is_closed && is_sealed_to(rt, alloc, desk, 7, 1))
}

/// Returns true if the first connection has slot 0, and may time out and fail.
fn first_fails<L: Ledger, R: Wait>(
    rt: &R,
    alloc: Global,
    desk: &Desk<L>,
    seat: &mut Seat<L>,
) -> Option<bool> {
    let (_, conn) = desk.connect(rt, alloc, seat, false).ok()?;
    Some(conn.slot() == 0 && fails_late(rt, alloc, desk, seat, conn)?)
}

fn one_worker<L: Ledger, R: Wait>(rt: &R, alloc: Global, blank: Blank) -> Option<bool>
    requires name { blank.name ≡ L.name }
    requires parts { blank.parts ≡ L.parts }
    requires enough { blank.parts ≡ PARTS }
{
    let desk: Desk<L> = Desk::new(blank, book(alloc, false)?);
    let mut seat = desk.seat(rt, 1)?;
    Some(
        positions_begin(rt, alloc, &desk, &mut seat)?
            && first_fails(rt, alloc, &desk, &mut seat)?
            && is_sealed_at_desk(rt, alloc, &desk, &mut seat)?
            && seats_end(rt, alloc, &desk)?
            && is_killed(rt, alloc, &desk, &mut seat)?,
    )
}

#[test]
fn a_worker_gets_the_answers_of_the_machine(rt: HostRuntime) -> Result<(), Fail> {
    assert_eq!(rt;
        one_worker::<Brand, HostRuntime>(&rt, rt.alloc(), Blank::new(PARTS)),
        Some(true)
    );
    Ok(())
}

/// Registers a name, and then sets the flag.
fn registers<L: Ledger, R: Wait + Clock>(
    rt: &R,
    alloc: Global,
    desk: &Desk<L>,
    mut seat: Seat<L>,
    flag: &AtomicU64,
) -> Option<bool> {
    let (_, conn) = desk.connect(rt, alloc, &mut seat, true).ok()?;
    let (_, answer) = desk.piece(rt, alloc, &mut seat, &conn, ALIVE_A).ok()?;
    flag.store(1, Ordering::SeqCst);
    Some(is_said(&answer, FOURTH, Fate::Stay))
}

/// Looks the name up once the flag is set.
fn finds<L: Ledger, R: Wait + Clock>(
    rt: &R,
    alloc: Global,
    desk: &Desk<L>,
    mut seat: Seat<L>,
    flag: &AtomicU64,
) -> Option<bool> {
    let (_, conn) = desk.connect(rt, alloc, &mut seat, true).ok()?;
    let is_there = is_raised(rt, flag);
    let (_, answer) = desk.piece(rt, alloc, &mut seat, &conn, PORT_A).ok()?;
    Some(is_there && is_said(&answer, FOUND_A, Fate::Close))
}

fn one_reads_the_other<L: Ledger + Send + Sync, R: Threads + Wait + Clock + Sync>(
    rt: &R,
    alloc: Global,
    blank: Blank,
) -> Option<bool>
    requires name { blank.name ≡ L.name }
    requires parts { blank.parts ≡ L.parts }
    requires enough { blank.parts ≡ PARTS }
{
    let desk: Desk<L> = Desk::new(blank, book(alloc, false)?);
    let one = desk.seat(rt, 1)?;
    let two = desk.seat(rt, 2)?;
    let flag = AtomicU64::new(0);
    let (shared, flag) = (&desk, &flag);
    let (is_registered, is_found) = thread::join(
        rt,
        move || registers(rt, alloc, shared, one, flag),
        move || finds(rt, alloc, shared, two, flag),
    );
    Some(is_registered? && is_found?)
}

#[test]
fn one_worker_reads_what_another_wrote(rt: HostRuntime) -> Result<(), Fail> {
    assert_eq!(rt;
        one_reads_the_other::<Brand, HostRuntime>(&rt, rt.alloc(), Blank::new(PARTS)),
        Some(true)
    );
    Ok(())
}
