//! Recordings of a daemon. While the file stalls, the daemon serves, and ends on request. When a file is full, the
//! recording continues in another file.
use crate::clocks::{Pushed, Pushing};
use crate::daemon::{acts_of, is_answered, registered, settings_at};
use portmap_daemon::{Open, RunEnd, RunFault, run, run_over};
use portmap_record::{Version, check, read_record};
use portmap_testing::books::is_raised;
use portmap_testing::bytes::{FOUND_A, KILL, NOT_FOUND, PORT_A};
use std::alloc::{AllocError, Global};
use std::fs::{File, Files};
use std::io::{PipeWriter, pipe};
use std::net::{Ipv4Addr, Net, TcpListener, TcpStream};
use std::os::fd::AsRawFd;
use std::rt::Clock;
use std::sync::atomic::Ordering;
use std::test::Fail;
use std::time::Duration;
use std::{fs, thread};

/// Ports of these tests alone.
const PORT: u16 = 14_420;

const MUTE_PORT: u16 = 14_422;

const UNSTARTED_PORT: u16 = 14_423;

/// More lookups than fit into a pipe that nobody reads. Each is 41 bytes of a recording, and a pipe holds 65,536 bytes.
const LOOK_UPS: u32 = 2000;

/// Returns a path by which the system opens the pipe again.
pub fn path_of(alloc: Global, pipe: &PipeWriter) -> Result<String, Fail> {
    Ok(format!(in alloc; "/proc/self/fd/{}", pipe.as_raw_fd())?)
}

/// Returns true if every lookup is answered, and the daemon ends.
fn are_answered<R: Net<Stream = TcpStream> + Clock>(rt: &R) -> bool {
    let mut answered = 0u32;
    for _ in 0..LOOK_UPS {
        if is_answered(rt, PORT, PORT_A, NOT_FOUND) == Some(true) {
            answered = answered.saturating_add(1);
        }
    }
    is_answered(rt, PORT, KILL, b"OK") == Some(true) && answered == LOOK_UPS
}

#[test]
fn a_recording_that_stalls_holds_nobody(rt: HostRuntime) -> Result<(), Fail> {
    let alloc = rt.alloc();
    let (_unread, full) = pipe(&rt)?;
    let path = path_of(alloc, &full)?;
    let settings = settings_at(alloc, PORT, 60, 2, Some(path.as_str()))?;
    let host = Pushed::new(rt, alloc)?;
    let (ended, actual) = thread::join(&rt, || run(&host, alloc, settings), || are_answered(&rt));
    assert!(rt; actual && acts_of(&ended) > u64::from(LOOK_UPS));
    assert!(rt; is_notified_once(&host, &ended));
    Ok(())
}

/// Returns true if the daemon has notified once that its recording failed, and ends with that.
fn is_notified_once<R: Clock + Copy>(host: &Pushed<R>, ended: &Result<RunEnd, RunFault>) -> bool {
    let is_failed = ended.as_ref().is_ok_and(|end| !end.recorded);
    is_failed && host.pushing().failures.load(Ordering::SeqCst) == 1
}

/// Returns true if the operator is notified while the daemon serves.
fn is_notified_at_once<R: Net<Stream = TcpStream> + Clock + Copy>(
    rt: &R,
    host: &Pushed<R>,
    port: u16,
) -> Option<bool> {
    let is_notified = is_raised(rt, &host.pushing().failures);
    let serves = is_answered(rt, port, PORT_A, NOT_FOUND)?;
    Some(is_answered(rt, port, KILL, b"OK")? && is_notified && serves)
}

#[test]
fn a_recording_that_fails_is_reported_at_once_and_once(rt: HostRuntime) -> Result<(), Fail> {
    let alloc = rt.alloc();
    let settings = settings_at(alloc, MUTE_PORT, 60, 1, Some("nowhere/recording"))?;
    let host = Pushed::new(rt, alloc)?;
    let client = || is_notified_at_once(&rt, &host, MUTE_PORT);
    let (ended, actual) = thread::join(&rt, || run(&host, alloc, settings), client);
    assert!(rt; actual == Some(true) && is_notified_once(&host, &ended));
    Ok(())
}

/// A port of the next test alone, and a folder that does not exist at first.
const AGAIN_PORT: u16 = 14_424;

const AGAIN_FOLDER: &str = "recording-14424";

const AGAIN: &str = "recording-14424/session";

const AGAIN_TIMES: &str = "recording-14424/session.times";

/// More seconds than a failed recording waits before it starts again.
const AGAIN_SECONDS: u32 = 30;

/// Returns true if the operator reads that the recording failed, and works again once its folder exists. The new file
/// begins with a node that was registered before.
fn goes_on_again(rt: &HostRuntime, host: &Pushing) -> Option<bool> {
    let has_failed = is_raised(rt, &host.failures);
    let _node = registered(rt, AGAIN_PORT)?;
    fs::create_dir(rt, AGAIN_FOLDER).ok()?;
    for _ in 0..AGAIN_SECONDS {
        host.push(1);
        // A peer that leaves without a request makes the daemon drain the log.
        drop(TcpStream::connect(rt, (Ipv4Addr::LOCALHOST, AGAIN_PORT)).ok()?);
        thread::sleep(rt, Duration::from_millis(100));
    }
    let is_again = is_raised(rt, &host.again);
    let is_found = is_answered(rt, AGAIN_PORT, PORT_A, FOUND_A)?;
    Some(is_answered(rt, AGAIN_PORT, KILL, b"OK")? && has_failed && is_again && is_found)
}

/// Returns the first position and the number of entries of a file that is a run. The file is removed.
fn held(rt: &HostRuntime, path: &str) -> Result<Option<(u64, u64)>, Fail> {
    let bytes = fs::read(rt, path)?;
    fs::remove_file(rt, path)?;
    let Ok(session) = read_record(rt.alloc(), &bytes) else {
        return Ok(None);
    };
    let is_run = check(rt.alloc(), &session) == Ok(());
    Ok(match &session.version {
        Version::Two { first, .. } if is_run => Some((*first, session.entries.len() as u64)),
        _ => None,
    })
}

#[test]
fn a_recording_that_failed_begins_again_once_it_can(rt: HostRuntime) -> Result<(), Fail> {
    let alloc = rt.alloc();
    let settings = settings_at(alloc, AGAIN_PORT, 60, 1, Some(AGAIN))?;
    let host = Pushed::new(rt, alloc)?;
    let client = || goes_on_again(&rt, host.pushing());
    let (ended, actual) = thread::join(&rt, || run(&host, alloc, settings), client);
    assert_eq!(rt; actual, Some(true));
    assert!(rt; is_notified_once(&host, &ended));
    assert!(rt; held(&rt, AGAIN)?.is_some_and(|(first, count)| first > 0 && count > 3));
    fs::remove_file(&rt, AGAIN_TIMES)?;
    fs::remove_dir(&rt, AGAIN_FOLDER)?;
    Ok(())
}

/// The recording thread needs its own host, and no copy can be made.
#[test]
fn a_recording_that_can_not_start_is_reported_at_once_and_once(
    rt: HostRuntime,
) -> Result<(), Fail> {
    let alloc = rt.alloc();
    let settings = settings_at(alloc, UNSTARTED_PORT, 60, 1, Some("unstarted"))?;
    let host = Pushed::new(rt, alloc)?;
    host.pushing().is_alone.store(true, Ordering::SeqCst);
    let client = || is_notified_at_once(&rt, &host, UNSTARTED_PORT);
    let (ended, actual) = thread::join(&rt, || run(&host, alloc, settings), client);
    assert!(rt; actual == Some(true) && is_notified_once(&host, &ended));
    Ok(())
}

/// A port of the next test alone, and files in the folder of the tests.
const NEXT_PORT: u16 = 14_421;

const FIRST: &str = "recording-14421";

const SECOND: &str = "recording-14421.1";

const THIRD: &str = "recording-14421.2";

/// Returns true if a node is found until a file exists, within ten seconds.
fn is_found_until<R: Net<Stream = TcpStream> + Clock + Files<File = File>>(
    rt: &R,
    path: &str,
) -> Option<bool> {
    for _ in 0..1000u32 {
        if !is_answered(rt, NEXT_PORT, PORT_A, FOUND_A)? {
            return Some(false);
        }
        if fs::exists(rt, path).ok()? {
            return Some(true);
        }
        thread::sleep(rt, Duration::from_millis(10));
    }
    Some(false)
}

/// Returns true if a node is found until a third file exists, and the daemon ends.
fn goes_on<R: Net<Stream = TcpStream> + Clock + Files<File = File>>(rt: &R) -> Option<bool> {
    let _node = registered(rt, NEXT_PORT)?;
    let goes_on = is_found_until(rt, SECOND)? && is_found_until(rt, THIRD)?;
    Some(is_answered(rt, NEXT_PORT, KILL, b"OK")? && goes_on)
}

fn numbered(alloc: Global, number: u32) -> Result<String, AllocError> {
    if number == 0 {
        String::from_str(alloc, FIRST)
    } else {
        format!(in alloc; "{FIRST}.{number}")
    }
}

/// Returns the number of entries of all files, or `None` if a file does not begin where the file before it ended.
fn recorded(rt: &HostRuntime) -> Result<Option<u64>, Fail> {
    let mut index = 0u64;
    for number in 0..1000 {
        let path = numbered(rt.alloc(), number)?;
        if !fs::exists(rt, path.as_str())? {
            break;
        }
        match held(rt, path.as_str())? {
            Some((first, count)) if first == index => index = index.saturating_add(count),
            _ => return Ok(None),
        }
    }
    Ok(Some(index))
}

#[test]
fn a_recording_goes_on_in_files_that_follow_one_another(rt: HostRuntime) -> Result<(), Fail> {
    let alloc = rt.alloc();
    let settings = settings_at(alloc, NEXT_PORT, 60, 1, Some(FIRST))?;
    let socket = TcpListener::bind(&rt, (Ipv4Addr::LOCALHOST, NEXT_PORT))?;
    socket.set_nonblocking(true)?;
    let listening = vec![in alloc; socket]?;
    // A header without known names has 37 bytes, so each file is full at once.
    let daemon = || run_over(&rt, alloc, settings, &Open, listening, 37);
    let (ended, actual) = thread::join(&rt, daemon, || goes_on(&rt));
    let acts = acts_of(&ended);
    assert!(rt; actual == Some(true) && ended.is_ok_and(|end| end.recorded));
    assert_eq!(rt; recorded(&rt)?, Some(acts));
    Ok(())
}
