//! The values that words have given so far, and the command that they make.
ghost use Rattle.std.specs.Prelude.{◌≡◌, [], ◌∷◌, None, is_some, option_map, unwrap_or, string_bytes, ℕ, IfOk, IfErr};
ghost use Rattle.portmap_command.specs.Addresses.{anywhere};
ghost use Rattle.portmap_command.specs.Meaning.{Holds, Adds, Completes, NamesWord, IsPort};

use crate::actions::PORT;
use crate::addresses::everywhere;
use crate::items::Word;
use crate::numbers::read_within;
use crate::words::{Action, Command, Env, WordFault};
use portmap_link::NoMemory;
use std::alloc::Global;

/// The timeout in seconds, unless a word gives another one.
const TIMEOUT: u32 = 60;

/// The number of workers, unless a word gives another one.
const WORKERS: u32 = 4;

/// The values that words have given so far.
pub struct Plan {
    pub action: Option<Action>,
    pub port: Option<u16>,
    pub addresses: Option<Vec<[u8; 4]>>,
    pub timeout: Option<u32>,
    pub workers: Option<u32>,
    pub relaxed: bool,
    pub debug: bool,
    pub daemon: bool,
    pub recording: Option<String>,
    pub figures: Option<String>,
}

impl Drop for Plan {
    fn drop(self) {
        let Plan {
            action: _,
            port: _,
            addresses: _,
            timeout: _,
            workers: _,
            relaxed: _,
            debug: _,
            daemon: _,
            recording: _,
            figures: _,
        } = self;
    }
}

/// Returns the port of the environment, or `PORT` if the variable is not set.
fn usual_port(text: &Option<String>) -> Result<u16, WordFault>
    ensures found { IfOk result (λ port. IsPort None (option_map string_bytes text.now) port) }
    ensures none { IfErr result (λ fault. (fault ≡ WordFault.BadEnvPort)
        × ((port : ℕ) → IsPort None (option_map string_bytes text.now) port → ⊥)) }
{
    let Some(text) = text else {
        return Ok(PORT);
    };
    match read_within(text.as_bytes(), 1, 65_535) {
        Some(port) => Ok(port as u16),
        None => Err(WordFault::BadEnvPort),
    }
}

fn usual_addresses(alloc: Global, addresses: Option<Vec<[u8; 4]>>) -> Result<Vec<[u8; 4]>, NoMemory>
    ensures { IfOk result (λ found. found.items
        ≡ unwrap_or (option_map (λ those. those.items) addresses) (anywhere ∷ [])) }
{
    match addresses {
        Some(addresses) => Ok(addresses),
        None => everywhere(alloc),
    }
}

impl Plan {
    pub fn new() -> Plan
        ensures { Holds [] result }
    {
        Plan {
            action: None,
            port: None,
            addresses: None,
            timeout: None,
            workers: None,
            relaxed: false,
            debug: false,
            daemon: false,
            recording: None,
            figures: None,
        }
    }

    pub fn has_action(&self) -> bool
        ensures { result ≡ is_some self.now.action }
    {
        self.action.is_some()
    }

    /// Adds an item. A later item replaces an earlier item of its kind.
    pub fn add(&mut self, item: Word)
        ensures { Adds item self.old self.new }
    {
        match item {
            Word::Port(number) => self.port = Some(number),
            Word::Addresses(addresses) => self.addresses = Some(addresses),
            Word::Timeout(seconds) => self.timeout = Some(seconds),
            Word::Workers(number) => self.workers = Some(number),
            Word::Relaxed => self.relaxed = true,
            Word::Debug => self.debug = true,
            Word::Daemon => self.daemon = true,
            Word::Recording(path) => self.recording = Some(path),
            Word::Figures(path) => self.figures = Some(path),
            Word::Act(action) => self.action = Some(action),
        }
    }

    /// Returns the command. A value that no word gave has its default.
    pub fn complete(self, alloc: Global, env: &Env) -> Result<Command, WordFault>
        ensures made { IfOk result (λ command. Completes self env.now command) }
        ensures fault { (count : ℕ) → IfErr result (λ fault. NamesWord count fault) }
    {
        let Plan {
            action,
            port,
            addresses,
            timeout,
            workers,
            relaxed,
            debug,
            daemon,
            recording,
            figures,
        } = self;
        let says_where = port.is_some() || addresses.is_some() || env.port.is_some();
        let port = match port {
            Some(port) => port,
            None => usual_port(&env.port)?,
        };
        Ok(Command {
            action: action.unwrap_or(Action::Serve),
            port,
            says_where,
            relaxed: relaxed || env.relaxed,
            addresses: usual_addresses(alloc, addresses)?,
            timeout: timeout.unwrap_or(TIMEOUT),
            workers: workers.unwrap_or(WORKERS),
            debug,
            daemon,
            recording,
            figures,
        })
    }
}
