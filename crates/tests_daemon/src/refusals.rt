//! A recording while memory is refused to the thread that drains the log.
//!
//! Here memory suffices. `make faults` runs this test once for each allocation between two marks, and refuses that
//! allocation.
ghost use Rattle.std.specs.Prelude.{◌≡◌};

use crate::clocks::Pushed;
use crate::files::REGISTERS;
use crate::recordings::path_of;
use portmap_book::{Desk, PARTS};
use portmap_operator::Host;
use portmap_recorder::{RecordQueue, write_recording};
use portmap_testing::books::small_book;
use portmap_testing::bytes::ALIVE_A;
use portmap_testing::marked;
use portmap_testing::marks::was_refused;
use portmap_worker::{Drain, Drained, Shared, UNSENT_BYTES_MOST, Wake};
use std::alloc::Global;
use std::io::{PipeReader, Read, pipe};
use std::marker::Brand;
use std::rt::Clock;
use std::sync::Wait;
use std::sync::ledger::{Blank, Ledger};
use std::test::Fail;
use std::time::Duration;

/// Wakes no thread.
#[derive(Drop)]
struct Nobody;

impl Wake for Nobody {
    fn wake(&self) {}
}

/// A node connects and registers at worker 1.
fn registers<L: Ledger, R: Wait>(rt: &R, alloc: Global, desk: &Desk<L>) -> Option<()> {
    let mut seat = desk.seat(rt, 1)?;
    let (_, conn) = desk.connect(rt, alloc, &mut seat, true).ok()?;
    desk.piece(rt, alloc, &mut seat, &conn, ALIVE_A).ok()?;
    Some(())
}

/// Returns true if the last turn drains the log. Memory may be refused, and no worker serves.
fn is_out<L: Ledger, R: Host + Wait + Clock>(
    rt: &R,
    alloc: Global,
    desk: &Desk<L>,
    drain: &mut Drain<'_>,
) -> bool {
    let shared = Shared::new(rt, Vec::new(alloc), Nobody, 2, UNSENT_BYTES_MOST);
    marked!(alloc, drain.turn(rt, alloc, desk, &shared)) == Drained::Done(true)
}

/// Returns true if the queue reports that all was recorded.
fn is_recorded_whole<L: Ledger, R: Host + Wait + Clock>(
    rt: &R,
    alloc: Global,
    blank: Blank,
    path: String,
) -> Option<bool>
    requires name { blank.name ≡ L.name }
    requires parts { blank.parts ≡ L.parts }
    requires enough { blank.parts ≡ PARTS }
{
    let desk: Desk<L> = Desk::new(blank, small_book(alloc)?);
    let queue = RecordQueue::new(alloc, path);
    let mut drain = Drain::begin(rt, alloc, &desk, Some(&queue), 2, None).ok()?;
    registers(rt, alloc, &desk)?;
    let is_out = is_out(rt, alloc, &desk, &mut drain);
    queue.close(rt);
    write_recording(rt, alloc, &queue, u64::MAX);
    Some(is_out && queue.is_written(rt, Duration::ZERO))
}

/// Returns true if the pipe has all of the log.
fn has_all(alloc: Global, mut pipe: PipeReader) -> Result<bool, Fail> {
    let mut bytes = Vec::new(alloc);
    pipe.read_to_end(&mut bytes)?;
    Ok(bytes.as_slice() == REGISTERS.as_slice())
}

#[test]
fn a_recording_that_lacks_entries_is_reported_as_failed(rt: HostRuntime) -> Result<(), Fail> {
    let alloc = rt.alloc();
    let (reader, writer) = pipe(&rt)?;
    let path = path_of(alloc, &writer)?;
    let host = Pushed::new(rt, alloc)?;
    let blank = Blank::new(PARTS);
    let actual = is_recorded_whole::<Brand, Pushed<HostRuntime>>(&host, alloc, blank, path);
    drop(writer);
    let has_all = has_all(alloc, reader)?;
    assert_eq!(rt; actual, Some(has_all));
    assert!(rt; has_all || was_refused(alloc));
    Ok(())
}
