//! Statuses, failures, and the actions on standard input and on a recorded session.
ghost use Rattle.std.specs.Prelude.{◌≡◌, false, Result, Err};
ghost use Rattle.std.specs.Io.KnownBytes.{Keeps};
ghost use Rattle.portmap_core.specs.declared.event.Fate.{Fate};
ghost use Rattle.portmap_link.specs.Adapters.{writing_inner, writing_puts, writing_broken, streams};
ghost use Rattle.portmap_link.specs.Asking.{MakesTurns};
ghost use Rattle.portmap_link.specs.Once.{Did};
ghost use Rattle.portmap_link.specs.declared.single.OnceFault.{OnceFault};
ghost use Rattle.portmap_record.specs.Playing.{IsRefused, PrintsFound, text_of};
ghost use Rattle.portmap_record.specs.declared.verdict.Verdict.{Verdict};
ghost use Rattle.portmap_record.specs.declared.playing.PlayFault.{PlayFault};
ghost use Rattle.portmap_command.specs.Actions.{once_config, status_of, line_of, Fails, PrintsErrors, Passes};
ghost use Rattle.portmap_command.specs.Actions.{EndsWith, failure_of_once, failure_of_play, status_of_found, IsSilent};

use crate::errors::{say, say_number};
use portmap_core::{Config, Fate};
use portmap_link::{OnceFault, Reading, Writing, once};
use portmap_record::{PlayFault, Text, Verdict, show};
use std::alloc::Global;
use std::io::{Read, Write};

/// All went well.
pub const DONE: u8 = 0;

/// The outcome is not what was asked for: a recorded session is not a run of the machine, the running port mapper
/// refuses or cannot be asked, or the daemon cannot listen.
pub const NOT_DONE: u8 = 1;

/// The words are not a command, or the bytes are not a record.
pub const REFUSED: u8 = 2;

/// A device failed, or memory ran out.
pub const FAILED: u8 = 3;

/// The port of the port mapper, unless a word or the environment gives another one.
pub const PORT: u16 = 4369;

/// The limit of open connections.
pub const CONNECTIONS_MOST: u32 = 1024;

/// The limit of known names.
pub const NAMES_MOST: u32 = 4096;

/// The first creation of `do_once`.
const FIRST_CREATION: u32 = 4;

/// The limit on pulls and puts of one connection.
const TURNS: u64 = 1_000_000;

/// The limit on pulls and puts of a recorded session.
pub const FILE_TURNS: u64 = 1_000_000_000;

pub const BROKEN_AT: &[u8] = b"broken at entry ";

const BAD_RECORD: &[u8] = b"epmd: bad record\n";

const DEVICE_FAILED: &[u8] = b"epmd: input or output failed\n";

const POLLING_FAILED: &[u8] = b"epmd: polling failed\n";

const MEMORY_RAN_OUT: &[u8] = b"epmd: out of memory\n";

const NO_CONNECTION: &[u8] = b"epmd: Cannot connect to local epmd\n";

const STRANGE_ANSWER: &[u8] = b"epmd: strange answer\n";

const KILL_REFUSED: &[u8] =
    b"epmd: kill not allowed: names are registered, and the port mapper runs without -relaxed_command_check\n";

const STOP_REFUSED: &[u8] =
    b"epmd: stop not allowed: the port mapper runs without -relaxed_command_check\n";

/// The reason for which an action is not done.
#[derive(Clone, Copy, PartialEq, Eq)]
pub enum Failure {
    /// The bytes are not a record, or begin with an open remote connection that `-local` cannot leave out.
    BadRecord,
    /// The input or the output failed, took too many turns, or has too many bytes.
    Device,
    /// The system cannot report the readiness of sockets.
    Polling,
    Memory,
    /// The port mapper of this host cannot be reached.
    NoConnection,
    /// The exchange with the port mapper failed, or its answer is malformed.
    StrangeAnswer,
    /// The port mapper refused to halt.
    KillRefused,
    /// The port mapper refused to release a name.
    StopRefused,
}

impl From<OnceFault> for Failure {
    ghost use Rattle.std.specs.Prelude.{◌≡◌};
    ghost use Rattle.portmap_command.specs.Actions.{failure_of_once};

    ghost from_gives = { λ f e. e ≡ failure_of_once f };

    fn from(fault: OnceFault) -> Failure {
        match fault {
            OnceFault::NoMemory => Failure::Memory,
            OnceFault::ReadFault | OnceFault::WriteFault { .. } | OnceFault::TooManyTurns { .. } =>
                Failure::Device,
        }
    }
}

impl From<PlayFault> for Failure {
    ghost use Rattle.std.specs.Prelude.{◌≡◌};
    ghost use Rattle.portmap_command.specs.Actions.{failure_of_play};

    ghost from_gives = { λ f e. e ≡ failure_of_play f };

    fn from(fault: PlayFault) -> Failure {
        match fault {
            PlayFault::NoMemory => Failure::Memory,
            PlayFault::Bad(_) | PlayFault::RemoteOpen => Failure::BadRecord,
            PlayFault::ReadFault
            | PlayFault::TooLong
            | PlayFault::WriteFault { .. }
            | PlayFault::TooManyTurns { .. } => Failure::Device,
        }
    }
}

pub fn status_of(failure: Failure) -> u8
    ensures { result ≡ status_of failure }
{
    match failure {
        Failure::BadRecord => REFUSED,
        Failure::Device | Failure::Polling | Failure::Memory => FAILED,
        Failure::NoConnection
        | Failure::StrangeAnswer
        | Failure::KillRefused
        | Failure::StopRefused => NOT_DONE,
    }
}

fn line_of(failure: Failure) -> &'static [u8]
    ensures { result.now ≡ line_of failure }
{
    match failure {
        Failure::BadRecord => BAD_RECORD,
        Failure::Device => DEVICE_FAILED,
        Failure::Polling => POLLING_FAILED,
        Failure::Memory => MEMORY_RAN_OUT,
        Failure::NoConnection => NO_CONNECTION,
        Failure::StrangeAnswer => STRANGE_ANSWER,
        Failure::KillRefused => KILL_REFUSED,
        Failure::StopRefused => STOP_REFUSED,
    }
}

/// Writes the line of a failure. Returns its status. A failure of `errors` changes nothing else.
pub fn fail<E: Write>(errors: &mut Writing<E>, failure: Failure) -> u8
    ensures status { result ≡ status_of failure }
    ensures line { Fails E.contents errors.old errors.new failure }
{
    let _ = say(errors, line_of(failure));
    status_of(failure)
}

/// Flushes the output. Returns `status`, or that of a failed device.
pub fn end<W: Write, E: Write>(output: &mut Writing<W>, errors: &mut Writing<E>, status: u8) -> u8
    ensures passes { Passes status result (writing_broken output.new) (errors.new ≡ errors.old)
        (Fails E.contents errors.old errors.new) }
    ensures silent { writing_broken output.new ≡ false → errors.new ≡ errors.old }
    ensures held { Keeps (W.contents (writing_inner output.old)) (W.contents (writing_inner output.new)) }
    ensures puts { writing_puts output.new ≡ writing_puts output.old }
{
    if output.finish() {
        return status;
    }
    fail(errors, Failure::Device)
}

fn serve_once<R: Read, W: Write>(
    alloc: Global,
    input: &mut Reading<R>,
    output: &mut Writing<W>,
) -> Result<Fate, OnceFault>
    ensures did { let seen = streams R.remaining W.contents in
        Did once_config (seen input.old output.old) (seen input.new output.new) result }
    ensures turns { let seen = streams R.remaining W.contents in
        MakesTurns TURNS (seen input.old output.old) (seen input.new output.new) result
        (λ sent. Err (OnceFault.TooManyTurns sent)) }
{
    let Ok(config) = Config::new(PORT, false, CONNECTIONS_MOST, NAMES_MOST) else {
        unreachable!()
    };
    once(alloc, config, FIRST_CREATION, input, output, TURNS)
}

/// Reads one request from `input` as from a local connection, and writes the reply to `output`. A request is its length
/// in two bytes and its body, in any pieces. The port mapper that serves it has port `PORT`, is not relaxed, knows no
/// name, starts creations at `FIRST_CREATION`, and allows `CONNECTIONS_MOST` connections and `NAMES_MOST` names.
/// Returns:
/// - 0 if no fault occurred. For an incomplete or malformed request nothing is written.
/// - 3 if a device failed, more than `TURNS` pulls and puts were needed, or memory ran out. `errors` then gets one
///   line.
///
/// The output is flushed at the end. No clause can say that a flushed writer has passed on its bytes: that is tested.
pub fn do_once<R: Read, W: Write, E: Write>(
    alloc: Global,
    input: &mut Reading<R>,
    output: &mut Writing<W>,
    errors: &mut Writing<E>,
) -> u8
    ensures silent { result ≡ DONE → errors.new ≡ errors.old }
    // What was read and written, in how many turns, and the cause of the status: a fault, or an output that failed to
    // flush.
    ensures served { (ended : Result Fate OnceFault)
        × (let seen = streams R.remaining W.contents in
        Did once_config (seen input.old output.old) (seen input.new output.new) ended
        × MakesTurns TURNS (seen input.old output.old) (seen input.new output.new) ended
        (λ sent. Err (OnceFault.TooManyTurns sent)))
        × EndsWith (λ _. DONE) failure_of_once result ended (writing_broken output.new)
        (λ _. errors.new ≡ errors.old)
        (Fails E.contents errors.old errors.new) }
{
    match serve_once(alloc, input, output) {
        Ok(_) => end(output, errors, DONE),
        Err(fault) => fail(errors, Failure::from(fault)),
    }
}

/// Flushes the output after `text` of a session was written. Returns the status of what was found. If the text cannot
/// say that the session is not a run, `errors` gets the first broken entry.
fn end_found<W: Write, E: Write>(
    output: &mut Writing<W>,
    errors: &mut Writing<E>,
    text: Text,
    found: Verdict,
) -> u8
    ensures passes { Passes (status_of_found found) result (writing_broken output.new)
        (PrintsErrors text E.contents errors.old errors.new found) (Fails E.contents errors.old errors.new) }
    ensures silent { IsSilent text result → errors.new ≡ errors.old }
    ensures held { Keeps (W.contents (writing_inner output.old)) (W.contents (writing_inner output.new)) }
    ensures puts { writing_puts output.new ≡ writing_puts output.old }
{
    match (text, found) {
        (_, Verdict::Run) => end(output, errors, DONE),
        (Text::LocalRecord, Verdict::Broken(at)) => {
            if !output.finish() {
                return fail(errors, Failure::Device);
            }
            let _ = say_number(errors, BROKEN_AT, at as u64, b"\n");
            NOT_DONE
        }
        (Text::Transcript | Text::Verdict, Verdict::Broken(_)) => end(output, errors, NOT_DONE),
    }
}

/// Reads a recorded session from `input` to its end, checks it, and writes `text` of it to `output`. If the session is
/// not a run and the text does not say that, `errors` gets a line that does. Returns:
/// - 0 for a run, and 1 for any other session.
/// - 2 if the bytes are not a record, or begin with an open remote connection that the text has to leave out.
/// - 3 if a device failed, more than `FILE_TURNS` pulls and puts were needed, the input has more bytes than a session
///   may have, or memory ran out.
///
/// With status 2 or 3, `errors` gets one line. The output is flushed at the end, as in `do_once`.
pub fn do_file<R: Read, W: Write, E: Write>(
    alloc: Global,
    text: Text,
    input: &mut Reading<R>,
    output: &mut Writing<W>,
    errors: &mut Writing<E>,
) -> u8
    ensures silent { IsSilent text result → errors.new ≡ errors.old }
    // What was read and written, in how many turns, the cause of the status, and what errors get.
    ensures shown { (ended : Result Verdict PlayFault)
        × (let seen = streams R.remaining W.contents in
        PrintsFound (text_of text) (IsRefused text) (seen input.old output.old) (seen input.new output.new) ended
        × MakesTurns FILE_TURNS (seen input.old output.old) (seen input.new output.new) ended
        (λ sent. Err (PlayFault.TooManyTurns sent)))
        × EndsWith status_of_found failure_of_play result ended (writing_broken output.new)
        (PrintsErrors text E.contents errors.old errors.new) (Fails E.contents errors.old errors.new) }
{
    match show(alloc, input, output, FILE_TURNS, text) {
        Ok(found) => end_found(output, errors, text, found),
        Err(fault) => fail(errors, Failure::from(fault)),
    }
}
