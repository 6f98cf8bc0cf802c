//! A recording that continues in another file when one is full.
ghost use Rattle.std.specs.Prelude.{◌≡◌};

use portmap_book::{Desk, PARTS};
use portmap_recorder::{RecordItem, RecordQueue, write_recording};
use portmap_testing::books::small_book;
use portmap_testing::bytes::ALIVE_A;
use portmap_testing::sessions::CLOSES;
use std::alloc::Global;
use std::fs::{File, Files};
use std::marker::Brand;
use std::rt::Clock;
use std::sync::Wait;
use std::sync::ledger::{Blank, Ledger};
use std::test::Fail;
use std::thread::Threads;
use std::time::Duration;
use std::{fs, thread};

/// At most two connections and two names, from position 0 and no known name on. A node connects and registers at worker
/// 1.
pub const REGISTERS: [u8; 93] = [
    0x45, 0x50, 0x4D, 0x53, 2, 0, 0x11, 0x11, 0, 0, 0, 2, 0, 0, 0, 2, //
    0, 0, 0, 0, 0, 0, 0, 0, 0, 0, 0, 0, 0, 0, 0, 0, 0, 0, 0, 0, 0, //
    0, 0, 0, 1, 1, 1, 0, 0, 0, 0, 0, 0, 0, 0, //
    0, 0, 0, 1, 2, 0, 0, 0, 0, 0, 0, 0, 0, 0, 0x10, 0, 0x0E, 0x78, 0x13, 0x88, 0x4D, 0, 0, 6, 0, 5,
    0, 1, 0x61, 0, 0, 0, 0, 0, 0, 6, 0x76, 0, 0, 0, 0, 4,
];

/// Drains the log and queues it for the recording, as the daemon does.
fn record_log<L: Ledger, R: Wait>(rt: &R, alloc: Global, desk: &Desk<L>, queue: &RecordQueue) {
    let mut entries = Vec::new(alloc);
    let mut workers = Vec::new(alloc);
    desk.advance(rt, alloc, &mut entries, &mut workers);
    queue.put(rt, Some(RecordItem::new(entries, workers)));
}

fn begin<L: Ledger, R: Wait>(
    rt: &R,
    alloc: Global,
    desk: &Desk<L>,
    queue: &RecordQueue,
) -> Option<()> {
    let segment = desk.seal(rt, alloc).ok()?;
    queue.put(rt, Some(RecordItem::first(alloc, segment).ok()?));
    Some(())
}

/// A node connects and registers at worker 1, and closes at worker 2. The log is recorded after both.
fn comes_and_leaves<L: Ledger, R: Wait + Clock>(
    rt: &R,
    alloc: Global,
    desk: &Desk<L>,
    queue: &RecordQueue,
) -> Option<()> {
    let mut one = desk.seat(rt, 1)?;
    let mut two = desk.seat(rt, 2)?;
    let (_, conn) = desk.connect(rt, alloc, &mut one, true).ok()?;
    desk.piece(rt, alloc, &mut one, &conn, ALIVE_A).ok()?;
    record_log(rt, alloc, desk, queue);
    desk.close(rt, alloc, &mut two, conn).ok()?;
    record_log(rt, alloc, desk, queue);
    // The log has no more entries.
    record_log(rt, alloc, desk, queue);
    Some(())
}

/// Queues all of that, as the beginning of a recording if `begins`, and closes the queue.
fn hand_on_at<L: Ledger, R: Wait + Clock>(
    rt: &R,
    alloc: Global,
    blank: Blank,
    queue: &RecordQueue,
    begins: bool,
) -> Option<()>
    requires name { blank.name ≡ L.name }
    requires parts { blank.parts ≡ L.parts }
    requires enough { blank.parts ≡ PARTS }
{
    let desk: Desk<L> = Desk::new(blank, small_book(alloc)?);
    if begins {
        begin(rt, alloc, &desk, queue)?;
    }
    comes_and_leaves(rt, alloc, &desk, queue)?;
    queue.close(rt);
    Some(())
}

fn hand_on<R: Wait + Clock>(
    rt: &R,
    alloc: Global,
    queue: &RecordQueue,
    begins: bool,
) -> Option<()> {
    hand_on_at::<Brand, R>(rt, alloc, Blank::new(PARTS), queue, begins)
}

fn queue_at(alloc: Global, path: &str) -> Option<RecordQueue> {
    Some(RecordQueue::new(alloc, path.to_string(alloc).ok()?))
}

/// Queues all of that before any of it is written, to files that are full at `file_most` bytes. Returns whether all is
/// written.
fn is_written<R: Files<File = File> + Wait + Clock>(
    rt: &R,
    alloc: Global,
    file_most: u64,
    path: &str,
) -> Option<bool> {
    let queue = queue_at(alloc, path)?;
    hand_on(rt, alloc, &queue, true)?;
    write_recording(rt, alloc, &queue, file_most);
    Some(queue.is_written(rt, Duration::ZERO))
}

/// Returns true if the file has these bytes, and removes it.
fn has_had(rt: &HostRuntime, path: &str, bytes: &[u8]) -> Result<bool, Fail> {
    let held = fs::read(rt, path)?;
    fs::remove_file(rt, path)?;
    Ok(held.as_slice() == bytes)
}

#[test]
fn a_file_that_is_full_is_followed_by_one_that_begins_where_it_ended(
    rt: HostRuntime,
) -> Result<(), Fail> {
    assert_eq!(rt; is_written(&rt, rt.alloc(), 93, "full"), Some(true));
    assert!(rt; has_had(&rt, "full", &REGISTERS)? && has_had(&rt, "full.1", &CLOSES)?);
    assert!(rt; !fs::exists(&rt, "full.2")?);
    Ok(())
}

/// Returns true if the file has both as one record, and removes it.
fn is_one_record(rt: &HostRuntime, path: &str) -> Result<bool, Fail> {
    let mut all = REGISTERS.to_vec(rt.alloc())?;
    let (_, close) = CLOSES.split_at(72);
    all.extend_from_slice(close)?;
    has_had(rt, path, &all)
}

#[test]
fn a_file_that_is_not_full_goes_on(rt: HostRuntime) -> Result<(), Fail> {
    assert_eq!(rt; is_written(&rt, rt.alloc(), 94, "room"), Some(true));
    assert!(rt; is_one_record(&rt, "room")? && !fs::exists(&rt, "room.1")?);
    Ok(())
}

/// Ends a recording that has no items, after a moment.
fn end_late<R: Files<File = File> + Wait + Clock>(rt: &R, alloc: Global, queue: &RecordQueue) {
    thread::sleep(rt, Duration::from_millis(100));
    write_recording(rt, alloc, queue, 93);
}

#[test]
fn a_wait_for_the_end_of_a_recording_ends_at_once(rt: HostRuntime) -> Result<(), Fail> {
    let (alloc, patience) = (rt.alloc(), Duration::from_secs(10));
    let queue = RecordQueue::new(alloc, "none".to_string(alloc)?);
    queue.close(&rt);
    let before = rt.monotonic()?;
    let client = || queue.is_written(&rt, patience);
    let (_, is_written) = thread::join(&rt, || end_late(&rt, alloc, &queue), client);
    let waited = rt.monotonic()?.saturating_sub(before);
    assert!(rt; is_written && waited < Duration::from_secs(5));
    Ok(())
}

/// Queues two logs one after the other, each from position 0 on. The second one begins a recording again if `begins`.
/// Returns whether both are written.
fn are_written<R: Files<File = File> + Wait + Clock>(
    rt: &R,
    alloc: Global,
    begins: bool,
    path: &str,
) -> Option<bool> {
    let queue = queue_at(alloc, path)?;
    hand_on(rt, alloc, &queue, true)?;
    hand_on(rt, alloc, &queue, begins)?;
    write_recording(rt, alloc, &queue, u64::MAX);
    Some(queue.is_written(rt, Duration::ZERO))
}

#[test]
fn a_recording_that_begins_again_has_a_file_of_its_own(rt: HostRuntime) -> Result<(), Fail> {
    assert_eq!(rt; are_written(&rt, rt.alloc(), true, "apart"), Some(true));
    assert!(rt; is_one_record(&rt, "apart")? && is_one_record(&rt, "apart.1")?);
    Ok(())
}

/// The name gets the creation again that it had.
#[test]
fn entries_that_are_no_run_are_not_recorded(rt: HostRuntime) -> Result<(), Fail> {
    assert_eq!(rt; are_written(&rt, rt.alloc(), false, "again"), Some(false));
    assert!(rt; is_one_record(&rt, "again")?);
    Ok(())
}

/// A device that accepts every byte.
#[test]
fn what_is_no_plain_file_is_never_full(rt: HostRuntime) -> Result<(), Fail> {
    assert_eq!(rt; is_written(&rt, rt.alloc(), 1, "/dev/null"), Some(true));
    Ok(())
}

/// A device that accepts no byte.
#[test]
fn a_file_that_accepts_nothing_is_reported(rt: HostRuntime) -> Result<(), Fail> {
    assert_eq!(rt; is_written(&rt, rt.alloc(), 94, "/dev/full"), Some(false));
    Ok(())
}
