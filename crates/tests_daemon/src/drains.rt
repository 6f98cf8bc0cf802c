//! The thread that drains the log, with a poll that fails.
ghost use Rattle.std.specs.Prelude.{◌≡◌};

use portmap_book::{Desk, PARTS};
use portmap_daemon::{MioStream, MioSystem, MioWaker};
use portmap_operator::Host;
use portmap_testing::books::small_book;
use portmap_worker::{Drain, Interest, Report, Shared, System, UNSENT_BYTES_MOST, drain_log};
use std::alloc::Global;
use std::fs::File;
use std::io::ErrorKind;
use std::marker::Brand;
use std::net::{IpAddr, Net};
use std::rt::Clock;
use std::sync::Wait;
use std::sync::atomic::{AtomicU64, Ordering};
use std::sync::ledger::{Blank, Ledger};
use std::test::Fail;
use std::thread::Threads;
use std::time::Duration;
use std::{io, thread};

/// A system whose polls fail, and are counted.
#[derive(Drop)]
struct Deaf<'a> {
    polls: &'a AtomicU64,
}

impl System for Deaf<'_> {
    type Stream = MioStream;

    type Waker = MioWaker;

    fn poll(&mut self, _timeout_ms: u64) -> bool {
        self.polls.fetch_add(1, Ordering::SeqCst);
        false
    }

    fn report(&self, _index: usize) -> Option<Report> {
        None
    }

    fn is_full(&self) -> bool {
        false
    }

    fn watch(
        &mut self,
        _stream: &mut MioStream,
        _key: usize,
        _interest: Interest,
        _was_watched: bool,
    ) -> io::Result<()> {
        Ok(())
    }

    fn listeners(&self) -> usize {
        0
    }

    fn listen(&mut self, _index: usize) -> io::Result<()> {
        Ok(())
    }

    fn leave(&mut self, _index: usize) {}

    fn accept(&mut self, _index: usize) -> io::Result<(MioStream, IpAddr)> {
        Err(io::Error::from(ErrorKind::WouldBlock))
    }
}

/// Ends the only worker after a second and a half.
fn end_late<R: Wait + Clock>(rt: &R, shared: &Shared<MioWaker>) {
    thread::sleep(rt, Duration::from_millis(1500));
    shared.end_worker(0, 0);
}

/// Returns the number of polls until the worker ends.
fn polls<L: Ledger + Send + Sync, R: Net + Host<File = File> + Threads + Wait + Clock + Sync>(
    rt: &R,
    alloc: Global,
    blank: Blank,
) -> Option<u64>
    requires name { blank.name ≡ L.name }
    requires parts { blank.parts ≡ L.parts }
    requires enough { blank.parts ≡ PARTS }
{
    let desk: Desk<L> = Desk::new(blank, small_book(alloc)?);
    let (_, waker) = MioSystem::open(rt, alloc, &[]).ok()?;
    let shared = Shared::new(rt, Vec::new(alloc), waker, 2, UNSENT_BYTES_MOST);
    shared.ending.begin_one();
    let drain = Drain::begin(rt, alloc, &desk, None, 2, None).ok()?;
    let polls = AtomicU64::new(0);
    let deaf = Deaf { polls: &polls };
    let (is_out, _) = thread::join(
        rt,
        || drain_log(rt, alloc, &desk, &shared, drain, deaf),
        || end_late(rt, &shared),
    );
    is_out.then_some(polls.load(Ordering::SeqCst))
}

#[test]
fn the_draining_thread_sleeps_if_its_poll_fails(rt: HostRuntime) -> Result<(), Fail> {
    let polls = polls::<Brand, HostRuntime>(&rt, rt.alloc(), Blank::new(PARTS)).unwrap_or(0);
    assert!(rt; polls > 0 && polls < 10);
    Ok(())
}
