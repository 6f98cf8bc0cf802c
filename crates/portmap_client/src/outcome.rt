//! The replies to commands.
ghost use Rattle.std.specs.Prelude.{◌≡◌};
ghost use Rattle.portmap_client.specs.Answer.{word_of, SaysKill, SaysStop};

use crate::fault::AnswerFault;

/// The reply to KILL_REQ.
#[derive(Clone, Copy, Debug, PartialEq, Eq)]
pub enum Kill {
    /// The port mapper halts.
    Killed,
    /// The port mapper refused, or closed the connection without a reply.
    NotAllowed,
}

/// The reply to STOP_REQ.
#[derive(Clone, Copy, Debug, PartialEq, Eq)]
pub enum Stop {
    Stopped,
    NoExist,
    /// The port mapper closed the connection without a reply.
    NotAllowed,
}

pub(crate) const OK: &[u8] = b"OK";

const NO: &[u8] = b"NO";

pub(crate) const STOPPED: &[u8] = b"STOPPED";

const NOEXIST: &[u8] = b"NOEXIST";

fn read_word<T: Copy>(
    bytes: &[u8],
    done: (&[u8], T),
    undone: (&[u8], T),
    silent: T,
) -> Result<T, AnswerFault>
    ensures { result ≡ word_of (done.entry.0.now, done.entry.1) (undone.entry.0.now, undone.entry.1) silent bytes.now }
{
    if bytes.is_empty() {
        return Ok(silent);
    }
    if bytes.len() < done.0.len() {
        return Err(AnswerFault::Short);
    }
    if bytes == done.0 {
        return Ok(done.1);
    }
    if bytes == undone.0 {
        return Ok(undone.1);
    }
    Err(AnswerFault::Strange)
}

pub(crate) fn read_kill(bytes: &[u8]) -> Result<Kill, AnswerFault>
    ensures { SaysKill bytes.now result }
{
    let (done, undone) = ((OK, Kill::Killed), (NO, Kill::NotAllowed));
    read_word(bytes, done, undone, Kill::NotAllowed)
}

pub(crate) fn read_stop(bytes: &[u8]) -> Result<Stop, AnswerFault>
    ensures { SaysStop bytes.now result }
{
    let (done, undone) = ((STOPPED, Stop::Stopped), (NOEXIST, Stop::NoExist));
    read_word(bytes, done, undone, Stop::NotAllowed)
}
