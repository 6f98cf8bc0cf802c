//! Books, and operations on them.
use crate::bytes::KILL;
use portmap_book::{Book, Desk, Seat};
use portmap_core::{Answer, Config, Fate};
use std::alloc::Global;
use std::rt::Clock;
use std::sync::Wait;
use std::sync::atomic::{AtomicU64, Ordering};
use std::sync::ledger::Ledger;
use std::thread;
use std::time::Duration;

pub fn book(alloc: Global, relaxed: bool, conn_max: u32) -> Option<Book> {
    let config = Config::new(4369, relaxed, conn_max, 4096).ok()?;
    Book::new(alloc, config, 4).ok()
}

pub fn small_book(alloc: Global) -> Option<Book> {
    let config = Config::new(4369, false, 2, 2).ok()?;
    Book::new(alloc, config, 4).ok()
}

pub fn is_said(answer: &Answer, reply: &[u8], wanted: Fate) -> bool {
    matches!(answer, Answer::Said { bytes, fate } if bytes.as_slice() == reply && *fate == wanted)
}

pub fn is_gone(answer: &Answer) -> bool {
    matches!(answer, Answer::Gone)
}

/// Returns true if the port mapper has halted after KILL_REQ, and not before.
pub fn is_killed<L: Ledger, R: Wait>(
    rt: &R,
    alloc: Global,
    desk: &Desk<L>,
    seat: &mut Seat<L>,
) -> Option<bool> {
    let (_, conn) = desk.connect(rt, alloc, seat, true).ok()?;
    let before = desk.halted(rt);
    let (_, answer) = desk.piece(rt, alloc, seat, &conn, KILL).ok()?;
    Some(!before && desk.halted(rt) && is_said(&answer, b"OK", Fate::Halt))
}

/// Waits for the flag, for a bounded time.
pub fn is_raised<R: Clock>(rt: &R, flag: &AtomicU64) -> bool {
    for _ in 0..10_000u32 {
        if flag.load(Ordering::SeqCst) == 1 {
            return true;
        }
        thread::sleep(rt, Duration::from_millis(1));
    }
    false
}
