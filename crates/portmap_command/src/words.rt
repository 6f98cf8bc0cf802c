//! Reads the words of the command.
ghost use Rattle.std.specs.Prelude.{◌≡◌, ◌≤◌, List, [], length, map, string_bytes, IfOk, IfErr};
ghost use Rattle.portmap_command.specs.Numbers.{IsWithin};
ghost use Rattle.portmap_command.specs.Meaning.{CanServe, SaysCommand, Holds, NamesWord};
ghost use Rattle.portmap_command.specs.Words.{Spells};
ghost use Rattle.portmap_command.specs.declared.items.Word.{Word};

use crate::items::read_word;
use crate::plan::Plan;
use portmap_link::NoMemory;
use portmap_record::Text;
use portmap_wire::Name;
use std::alloc::Global;
use std::io;
use std::io::ErrorKind;

/// A request to the daemon on this host.
#[derive(Drop)]
pub enum Ask {
    Names,
    Kill,
    /// To release an active name.
    Stop(Name),
    /// To list all known names.
    Dump,
}

/// What the command does.
#[derive(Drop)]
pub enum Action {
    Serve,
    Ask(Ask),
    /// To check that the daemon on this host registers names, finds them and frees them.
    Health,
    /// To serve one request from standard input.
    Once,
    Version,
    Help,
    /// To check the recorded session in the file at this path, and to write this text of it.
    Inspect(Text, String),
    /// To check the recording whose first file is at this path, as one session.
    Audit(String),
}

#[derive(Drop)]
pub struct Env {
    /// The text of `ERL_EPMD_PORT`.
    pub port: Option<String>,
    /// Whether `ERL_EPMD_RELAXED_COMMAND_CHECK` is set.
    pub relaxed: bool,
}

/// An action with its settings.
pub struct Command {
    pub action: Action,
    /// 1 to 65,535.
    pub port: u16,
    /// Whether a word or the environment gives the port, or a word the addresses.
    pub says_where: bool,
    pub relaxed: bool,
    pub addresses: Vec<[u8; 4]>,
    /// Seconds without a byte after which a connection times out: 1 to 86,400.
    pub timeout: u32,
    /// 1 to 64.
    pub workers: u32,
    pub debug: bool,
    /// Whether nobody reads what the daemon prints after its start.
    pub daemon: bool,
    /// The path of the file that the daemon records to.
    pub recording: Option<String>,
    /// The path of the file for counters.
    pub figures: Option<String>,
}

impl Drop for Command {
    fn drop(self) {
        let Command {
            action: _,
            port: _,
            says_where: _,
            relaxed: _,
            addresses: _,
            timeout: _,
            workers: _,
            debug: _,
            daemon: _,
            recording: _,
            figures: _,
        } = self;
    }
}

/// The reason for which words are not a command. Words are numbered from 0.
#[derive(Clone, Copy, Debug, PartialEq, Eq)]
pub enum WordFault {
    Unknown(usize),
    /// The last word, which needs a value.
    MissingValue(usize),
    /// A value that the word before it does not take.
    BadValue(usize),
    /// The word of a second action.
    TwoCommands(usize),
    /// A word that is not UTF-8.
    NotUtf8,
    /// The environment's port is invalid, and no word gives a port.
    BadEnvPort,
    NoMemory,
}

impl From<NoMemory> for WordFault {
    ghost use Rattle.std.specs.Prelude.{◌≡◌};
    ghost use Rattle.portmap_command.specs.declared.words.WordFault.TheVariants as fault;

    ghost from_gives = { λ _ e. e ≡ fault.NoMemory };

    fn from(_refused: NoMemory) -> WordFault {
        WordFault::NoMemory
    }
}

impl From<io::Error> for WordFault {
    ghost use Rattle.std.specs.Prelude.{◌≡◌};
    ghost use Rattle.std.specs.IoError.{error_kind};
    ghost use Rattle.portmap_command.specs.Meaning.{fault_of_words};

    ghost from_gives = { λ error fault. fault ≡ fault_of_words (error_kind error) };

    // The system's words cannot be had if memory ran out or a word is not UTF-8.
    fn from(error: io::Error) -> WordFault {
        match error.kind() {
            ErrorKind::OutOfMemory => WordFault::NoMemory,
            _ => WordFault::NotUtf8,
        }
    }
}

fn read_all(alloc: Global, words: &[String]) -> Result<Plan, WordFault>
    ensures spelled { IfOk result (λ plan. (items : List Word) × Spells (map string_bytes words.now) items
        × Holds items plan) }
    ensures fault { IfErr result (λ fault. NamesWord (length words.now) fault) }
{
    let mut plan = Plan::new();
    let mut rest = words;
    while let [first, behind @ ..] = rest {
        let index = words.len() - rest.len();
        let (item, after) = read_word(alloc, first, behind, index, plan.has_action())?;
        plan.add(item);
        rest = after;
    }
    Ok(plan)
}

/// Returns the command of the environment and the words, without the program's own name. Words are read from left to
/// right.
///
/// # Errors
/// The first fault ends the reading. At one word the order is `Unknown`, `TwoCommands`, `MissingValue`, `BadValue`. The
/// environment's port is read last, if no word gives a port. Memory can run out at any value.
pub fn read_words(alloc: Global, words: &[String], env: &Env) -> Result<Command, WordFault>
    ensures port { IfOk result (λ command. IsWithin 1 65535 command.port) }
    ensures ranges { IfOk result CanServe }
    ensures spelled { IfOk result (λ command. SaysCommand (map string_bytes words.now) env.now command) }
    ensures fault { IfErr result (λ fault. NamesWord (length words.now) fault) }
{
    let plan = read_all(alloc, words)?;
    let command = plan.complete(alloc, env)?;
    Ok(command)
}
