//! Sockets that a service manager passes, as described in sd_listen_fds(3), and what is printed of them.
ghost use Rattle.std.specs.Prelude.{◌≡◌, ◌≢◌, ◌⊎◌, [], true, false};
ghost use Rattle.portmap_command.specs.Errors.{IsPrinted};
ghost use Rattle.portmap_command.specs.Handing.{line_of_handed, status_of_handed};
ghost use Rattle.portmap_command.specs.declared.handing.TheConstants.{WITHOUT_EFFECT};

use crate::actions::{Failure, NOT_DONE, fail};
use crate::errors::{say, say_all};
use crate::words::Command;
use itoa::Buffer;
use portmap_daemon::HandedFault;
use portmap_link::Writing;
use std::io::Write;

/// The first passed descriptor.
pub const FIRST: i32 = 3;

const DESCRIPTOR: &[u8] = b"epmd: descriptor ";

const NOT_LISTENING: &[u8] = b" is no listening socket\n";

const WITHOUT_EFFECT: &[u8] = b"epmd: sockets were handed over, so port and addresses are theirs\n";

/// Returns how many sockets are passed to the process with the id `own`. The environment gives the id of a process and
/// a count.
pub fn handed_count(process: Option<&str>, count: Option<&str>, own: u32) -> u32 {
    let is_own = process.is_some_and(|process| process.parse::<u32>() == Ok(own));
    match count {
        Some(count) if is_own => count.parse::<u32>().unwrap_or(0),
        _ => 0,
    }
}

/// Reports why passed sockets cannot be served. Returns the status.
pub fn refuse_handed<E: Write>(errors: &mut Writing<E>, fault: HandedFault) -> u8
    ensures status { result ≡ status_of_handed fault }
    ensures line { IsPrinted E.contents (line_of_handed fault) errors.old errors.new }
{
    match fault {
        HandedFault::NotListening(number) => {
            let mut digits = Buffer::new();
            let digits = digits.format(number).as_bytes();
            let _ = say_all(errors, &[DESCRIPTOR, digits, NOT_LISTENING]);
            NOT_DONE
        }
        HandedFault::NoMemory => fail(errors, Failure::Memory),
    }
}

/// Reports that port and addresses have no effect, if the command has any and sockets were passed.
pub fn report_without_effect<T, E: Write>(errors: &mut Writing<E>, command: &Command, sockets: &[T])
    ensures printed { command.now.says_where ≡ true → sockets.now ≢ []
        → IsPrinted E.contents WITHOUT_EFFECT.now errors.old errors.new }
    ensures silent { (command.now.says_where ≡ false) ⊎ (sockets.now ≡ []) → errors.new ≡ errors.old }
{
    if command.says_where && !sockets.is_empty() {
        let _ = say(errors, WITHOUT_EFFECT);
    }
}
