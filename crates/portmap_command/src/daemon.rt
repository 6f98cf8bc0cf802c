//! The daemon: its settings, and what is printed when it ends.
ghost use Rattle.std.specs.Prelude.{◌≡◌, false, IfOk, IfSome, None};
ghost use Rattle.portmap_link.specs.Adapters.{writing_inner};
ghost use Rattle.portmap_command.specs.Daemon.{SetsAs, beside, first_by, status_of_end, served_line, served_lines};
ghost use Rattle.portmap_command.specs.Daemon.{refused_line, without_ipv6_line};
ghost use Rattle.portmap_command.specs.Daemon.{cannot_listen_line, text_of_end};
ghost use Rattle.portmap_command.specs.Errors.{IsWritten, IsSpent, IsPrinted};

use crate::actions::{CONNECTIONS_MOST, DONE, FAILED, Failure, NAMES_MOST, NOT_DONE, fail};
use crate::errors::say_all;
use crate::words::Command;
use itoa::Buffer;
use portmap_core::Config;
use portmap_daemon::{RunEnd, RunFault, Settings};
use portmap_link::{NoMemory, Writing};
use std::alloc::Global;
use std::io::Write;
use std::time::Duration;

const WORKER: &[u8] = b"epmd: worker ";

const SERVED: &[u8] = b" served ";

const CANNOT_LISTEN: &[u8] = b"epmd: cannot listen on ";

/// Every IPv6 address of the host, as it is printed before a port.
const EVERYWHERE: &[u8] = b"[::]:";

const ITSELF: &[u8] = b"[::1]:";

/// Returns where creations start: the nanoseconds since 1970 modulo 2^32, which two starts are unlikely to share.
/// Returns 0 if the time is unknown.
fn first_by(now: Option<Duration>) -> u32
    ensures { result ≡ first_by now }
{
    match now {
        Some(now) => (now.as_nanos() % 4_294_967_296) as u32,
        None => 0,
    }
}

/// Returns the settings of a command at this time since 1970.
pub fn settings(
    alloc: Global,
    command: &Command,
    now: Option<Duration>,
) -> Result<Settings, NoMemory>
    ensures { IfOk result (λ settings. SetsAs command.now now settings) }
{
    let Ok(config) = Config::new(command.port, command.relaxed, CONNECTIONS_MOST, NAMES_MOST) else {
        unreachable!()
    };
    Ok(Settings {
        config,
        first: first_by(now),
        addresses: Vec::from_slice(alloc, command.addresses.as_slice())?,
        timeout: command.timeout,
        workers: command.workers,
        recording: command.recording.clone()?,
        figures: command.figures.clone()?,
    })
}

/// Prints the number of acts of one worker.
fn report_worker<E: Write>(errors: &mut Writing<E>, worker: usize, count: u64) -> bool
    ensures written { IsWritten (served_line worker count) result (E.contents (writing_inner errors.old))
        (E.contents (writing_inner errors.new)) }
    ensures spent { result ≡ false → IsSpent errors.new }
{
    say_all(
        errors,
        &[
            WORKER,
            Buffer::new().format(worker).as_bytes(),
            SERVED,
            Buffer::new().format(count).as_bytes(),
            b"\n",
        ],
    )
}

fn report_served<E: Write>(errors: &mut Writing<E>, served: &[u64])
    ensures { IsPrinted E.contents (served_lines 1 served.now) errors.old errors.new }
{
    for (index, count) in served.iter().enumerate() {
        if !report_worker(errors, index + 1, *count) {
            return;
        }
    }
}

fn report_cannot_listen<E: Write>(
    errors: &mut Writing<E>,
    address: [u8; 4],
    port: u16,
    reason: &[u8],
)
    ensures { IsPrinted E.contents (cannot_listen_line address port reason.now) errors.old errors.new }
{
    let [a, b, c, d] = address;
    let _ = say_all(
        errors,
        &[
            CANNOT_LISTEN,
            Buffer::new().format(a).as_bytes(),
            b".",
            Buffer::new().format(b).as_bytes(),
            b".",
            Buffer::new().format(c).as_bytes(),
            b".",
            Buffer::new().format(d).as_bytes(),
            b":",
            Buffer::new().format(port).as_bytes(),
            b": ",
            reason,
            b"\n",
        ],
    );
}

/// Returns the IPv6 address that goes with an IPv4 address, as it is printed before a port.
fn beside(address: [u8; 4]) -> &'static [u8]
    ensures { result.now ≡ beside address }
{
    if address[0] == 0 { EVERYWHERE } else { ITSELF }
}

fn print_refused<E: Write>(errors: &mut Writing<E>, address: &[u8], port: &[u8], reason: &[u8])
    ensures { IsPrinted E.contents (refused_line address.now port.now reason.now) errors.old errors.new }
{
    let _ = say_all(
        errors,
        &[CANNOT_LISTEN, address, port, b": ", reason, b"\n"],
    );
}

/// Prints that the daemon cannot listen at the IPv6 address that goes with `address`.
fn print_without_ipv6<E: Write>(errors: &mut Writing<E>, address: [u8; 4], port: u16, reason: &[u8])
    ensures { IsPrinted E.contents (without_ipv6_line address port reason.now) errors.old errors.new }
{
    let mut digits = Buffer::new();
    let port = digits.format(port).as_bytes();
    print_refused(errors, beside(address), port, reason);
}

/// Prints how the daemon ended. If it cannot listen, `reason` is the system's text for the error. Returns:
/// - `DONE` if it was stopped and its recording, if any, is complete.
/// - `NOT_DONE` if it cannot listen.
/// - `FAILED` if it was stopped and its recording failed, if the system cannot report the readiness of sockets, or if
///   memory ran out. The daemon itself reports a failed recording.
///
/// With debug output, a daemon that was stopped prints the number of acts of each worker, in the order of their
/// numbers.
pub fn end_daemon<E: Write>(
    errors: &mut Writing<E>,
    command: &Command,
    ended: &Result<RunEnd, RunFault>,
    reason: &[u8],
) -> u8
    ensures status { result ≡ status_of_end ended.now }
    ensures silent { IfOk ended.now (λ _. command.now.debug ≡ false → errors.new ≡ errors.old) }
    ensures line { IfSome (text_of_end command.now ended.now reason.now)
        (λ text. IsPrinted E.contents text errors.old errors.new) }
    ensures none { text_of_end command.now ended.now reason.now ≡ None → errors.new ≡ errors.old }
{
    match ended {
        Ok(end) => {
            if command.debug {
                report_served(errors, end.served.as_slice());
            }
            if end.recorded { DONE } else { FAILED }
        }
        Err(RunFault::Listen(index, _)) => {
            if let Some(address) = command.addresses.get(*index) {
                report_cannot_listen(errors, *address, command.port, reason);
            }
            NOT_DONE
        }
        Err(RunFault::ListenBeside(index, _)) => {
            if let Some(address) = command.addresses.get(*index) {
                print_without_ipv6(errors, *address, command.port, reason);
            }
            NOT_DONE
        }
        Err(RunFault::Poll) => fail(errors, Failure::Polling),
        Err(RunFault::NoMemory) => fail(errors, Failure::Memory),
    }
}
