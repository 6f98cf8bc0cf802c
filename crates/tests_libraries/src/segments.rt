//! A log in segments, and the tickets of its entries.
use crate::desk::{book, ticket};
use portmap_book::{Book, GatherFault, Segment, Ticket, gather};
use portmap_core::{Event, Fate};
use portmap_testing::bytes::{ALIVE_A, FIFTH, FOURTH};
use portmap_testing::cases::{Case, all_hold};
use portmap_testing::entries::{SampleEntry, entry};
use std::alloc::Global;
use std::test::Fail;

/// Tickets for the log of a node that connects, registers and leaves, and the result of gathering them.
struct Gathered(&'static [(u64, SampleEntry)], Result<(), GatherFault>);

const OPENED: SampleEntry = SampleEntry::Connected(true, 0);

const REGISTERED: SampleEntry = SampleEntry::Piece(0, ALIVE_A, FOURTH, Fate::Stay);

const LEFT: SampleEntry = SampleEntry::Closed(0);

const GATHERED: &[Gathered] = &[
    Gathered(&[(0, OPENED), (1, REGISTERED), (2, LEFT)], Ok(())),
    Gathered(&[(2, LEFT), (0, OPENED), (1, REGISTERED)], Ok(())),
    Gathered(
        &[(0, OPENED), (1, REGISTERED), (2, LEFT), (1, REGISTERED)],
        Err(GatherFault::Twice(1)),
    ),
    Gathered(
        &[(0, OPENED), (3, LEFT), (3, LEFT)],
        Err(GatherFault::Stranger(3)),
    ),
    Gathered(
        &[
            (0, OPENED),
            (1, SampleEntry::Piece(0, ALIVE_A, FIFTH, Fate::Stay)),
        ],
        Err(GatherFault::Differs(1)),
    ),
    Gathered(
        &[(0, OPENED), (2, SampleEntry::Faulted(0))],
        Err(GatherFault::Differs(2)),
    ),
    Gathered(
        &[(0, SampleEntry::Connected(false, 0))],
        Err(GatherFault::Differs(0)),
    ),
    Gathered(&[(0, OPENED), (2, LEFT)], Err(GatherFault::Missing(1))),
    Gathered(&[], Err(GatherFault::Missing(0))),
];

fn come_and_go(alloc: Global, book: &mut Book) -> Option<()> {
    book.act(alloc, 1, Event::Connect { local: true }).ok()?;
    let bytes = ALIVE_A.to_vec(alloc).ok()?;
    book.act(alloc, 1, Event::Piece { slot: 0, bytes }).ok()?;
    book.act(alloc, 1, Event::Close { slot: 0 }).ok()?;
    Some(())
}

fn one_node(alloc: Global) -> Option<Book> {
    let mut book = book(alloc, false)?;
    come_and_go(alloc, &mut book)?;
    Some(book)
}

pub fn tickets_of(alloc: Global, table: &[(u64, SampleEntry)]) -> Result<Vec<Ticket>, Fail> {
    let mut tickets = Vec::new(alloc);
    for (position, kept) in table {
        tickets.push(ticket(*position, entry(alloc, kept)?))?;
    }
    Ok(tickets)
}

impl Case for Gathered {
    fn holds(&self, alloc: Global) -> Result<bool, Fail> {
        let tickets = tickets_of(alloc, self.0)?;
        match one_node(alloc) {
            Some(book) => Ok(gather(alloc, &[], &book, tickets) == self.1),
            None => Ok(false),
        }
    }
}

#[test]
fn tickets_are_the_log_or_the_first_fault_is_reported(rt: HostRuntime) -> Result<(), Fail> {
    all_hold(&rt, GATHERED)
}

/// The indices of the segments that are gathered with the book after the second segment. True if they are of a relaxed
/// port mapper, which the book is not. The result of gathering all tickets.
struct Chained(&'static [usize], bool, Result<(), GatherFault>);

/// A node connects, registers and leaves, and another node connects.
pub const ALL: &[(u64, SampleEntry)] = &[(0, OPENED), (1, REGISTERED), (2, LEFT), (3, OPENED)];

const CHAINED: &[Chained] = &[
    Chained(&[0, 1], false, Ok(())),
    Chained(&[1, 0], false, Err(GatherFault::BrokenChain(1))),
    Chained(&[0], false, Err(GatherFault::BrokenChain(1))),
    Chained(&[0, 0, 1], false, Err(GatherFault::BrokenChain(1))),
    Chained(&[0, 1, 1], false, Err(GatherFault::BrokenChain(2))),
    Chained(&[0, 1], true, Err(GatherFault::BrokenChain(0))),
    Chained(&[1], false, Err(GatherFault::Stranger(0))),
    Chained(&[], false, Err(GatherFault::Stranger(0))),
];

/// Returns the segment of the first node, or the segment after it.
fn segment_in(alloc: Global, book: &mut Book, index: usize) -> Option<Segment> {
    come_and_go(alloc, book)?;
    if index == 1 {
        book.seal(alloc).ok()?;
        book.act(alloc, 1, Event::Connect { local: true }).ok()?;
    }
    book.seal(alloc).ok()
}

fn segment_of(alloc: Global, relaxed: bool, index: usize) -> Option<Segment> {
    let mut book = book(alloc, relaxed)?;
    segment_in(alloc, &mut book, index)
}

pub fn segments_of(alloc: Global, relaxed: bool, indices: &[usize]) -> Option<Vec<Segment>> {
    let mut segments = Vec::new(alloc);
    for index in indices {
        segments.push(segment_of(alloc, relaxed, *index)?).ok()?;
    }
    Some(segments)
}

/// Returns the book after both segments.
pub fn two_nodes(alloc: Global) -> Option<Book> {
    let mut book = book(alloc, false)?;
    segment_in(alloc, &mut book, 1)?;
    Some(book)
}

/// Returns true if gathering all tickets has this result.
fn is_found(
    alloc: Global,
    segments: &[Segment],
    wanted: Result<(), GatherFault>,
) -> Result<bool, Fail> {
    let tickets = tickets_of(alloc, ALL)?;
    match two_nodes(alloc) {
        Some(book) => Ok(gather(alloc, segments, &book, tickets) == wanted),
        None => Ok(false),
    }
}

impl Case for Chained {
    fn holds(&self, alloc: Global) -> Result<bool, Fail> {
        match segments_of(alloc, self.1, self.0) {
            Some(segments) => is_found(alloc, &segments, self.2),
            None => Ok(false),
        }
    }
}

#[test]
fn segments_follow_one_another_or_the_first_gap_is_reported(rt: HostRuntime) -> Result<(), Fail> {
    all_hold(&rt, CHAINED)
}
