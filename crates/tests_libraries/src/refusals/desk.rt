//! A chunk for a port mapper that has halted. The refusal says so even if there is no memory for a copy of the chunk.
ghost use Rattle.std.specs.Prelude.{◌≡◌};

use portmap_book::{ActFault, Conn, Desk, PARTS, Seat};
use portmap_core::Refusal;
use portmap_testing::books::{book, is_killed};
use portmap_testing::bytes::NAMES;
use portmap_testing::marks::{begin, end};
use std::alloc::Global;
use std::marker::Brand;
use std::sync::Wait;
use std::sync::ledger::{Blank, Ledger};
use std::test::Fail;

/// Returns true if a chunk is refused because the port mapper has halted. Memory may be refused.
fn is_refused_as_halted<L: Ledger, R: Wait>(
    rt: &R,
    alloc: Global,
    desk: &Desk<L>,
    seat: &mut Seat<L>,
    conn: &Conn<L>,
) -> bool {
    begin(alloc);
    let actual = desk.piece(rt, alloc, seat, conn, NAMES);
    end(alloc);
    matches!(actual, Err(ActFault::Refused(Refusal::Halted)))
}

fn ends_and_refuses<L: Ledger, R: Wait>(rt: &R, alloc: Global, blank: Blank) -> Option<bool>
    requires name { blank.name ≡ L.name }
    requires parts { blank.parts ≡ L.parts }
    requires enough { blank.parts ≡ PARTS }
{
    let desk: Desk<L> = Desk::new(blank, book(alloc, false, 2)?);
    let mut seat = desk.seat(rt, 1)?;
    let (_, conn) = desk.connect(rt, alloc, &mut seat, true).ok()?;
    let is_killed = is_killed(rt, alloc, &desk, &mut seat)?;
    Some(is_killed && is_refused_as_halted(rt, alloc, &desk, &mut seat, &conn))
}

#[test]
fn a_chunk_for_a_halted_port_mapper_is_refused_as_halted(rt: HostRuntime) -> Result<(), Fail> {
    assert_eq!(rt;
        ends_and_refuses::<Brand, HostRuntime>(&rt, rt.alloc(), Blank::new(PARTS)),
        Some(true)
    );
    Ok(())
}
