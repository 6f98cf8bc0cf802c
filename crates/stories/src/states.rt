//! States that are built from items.
use crate::events::is_local;
use crate::listed::settings;
use crate::requests::registration;
use crate::words::{bytes, name, number, text, unknown, wrong};
use anyhow::{Result, ensure};
use portmap_core::{Config, Entry, Held, Old, Phase, Row, State};
use std::alloc::Global;
use std::mem;

/// Copies all state items of one kind.
macro_rules! copied {
    ($alloc:expr, $items:expr) => {{
        let mut copies = Vec::new($alloc);
        for item in $items {
            copies.push(item.try_copy($alloc)?)?;
        }
        copies
    }};
}

pub(crate) use copied;

#[derive(Drop)]
pub struct StateItems {
    active: Vec<Row>,
    retired: Vec<Old>,
    connections: Vec<Held>,
}

impl StateItems {
    pub fn new(alloc: Global) -> StateItems {
        StateItems {
            active: Vec::new(alloc),
            retired: Vec::new(alloc),
            connections: Vec::new(alloc),
        }
    }

    /// Adds an item, or builds the state of all items.
    pub fn perform(&mut self, alloc: Global, words: &[&str]) -> Result<String> {
        match *words {
            ["row", word, creation, slot] => self.active.push(row(alloc, word, creation, slot)?)?,
            ["old", word, creation] => self.retired.push(old(alloc, word, creation)?)?,
            ["conn", slot, whence, phase, kept] => self
                .connections
                .push(conn(alloc, slot, whence, (phase, kept))?)?,
            ["build"] => return built(alloc, mem::replace(self, StateItems::new(alloc))),
            _ => return wrong("no such act"),
        }
        Ok(String::new(alloc))
    }
}

fn row(alloc: Global, word: &str, creation: &str, slot: &str) -> Result<Row> {
    Ok(Row {
        creation: number(creation)?,
        slot: number(slot)?,
        reg: registration(alloc, 5000, 6, word, &[])?,
    })
}

fn old(alloc: Global, word: &str, creation: &str) -> Result<Old> {
    Ok(Old {
        port: 5000,
        creation: number(creation)?,
        name: name(alloc, word)?,
    })
}

fn conn(alloc: Global, slot: &str, whence: &str, (phase, kept): (&str, &str)) -> Result<Held> {
    Ok(Held {
        slot: number(slot)?,
        local: is_local(whence)?,
        phase: phase_of(phase)?,
        bytes: bytes(alloc, kept)?,
    })
}

fn phase_of(word: &str) -> Result<Phase> {
    match word {
        "waiting" => Ok(Phase::Waiting),
        "holding" => Ok(Phase::Holding),
        "done" => Ok(Phase::Done),
        _ => unknown("no phase", word),
    }
}

/// Prints `owned` if a port mapper with two connections and two names can reach the state of the items. Prints
/// `strange` if it cannot, and `none` if there is no such state.
fn built(alloc: Global, items: StateItems) -> Result<String> {
    let config = settings()?;
    let state = State::build(items.active, items.retired, items.connections, false);
    let kind = match state {
        None => "none",
        Some(state) if is_built_again(alloc, &config, &state)? => "owned",
        Some(state) if stays(alloc, &config, &state)? => "strange",
        Some(_) => return wrong("it moves where no port mapper is"),
    };
    text(String::from_str(alloc, kind))
}

/// Returns true if a copy of the state refuses a connection and does not change.
fn stays(alloc: Global, config: &Config, state: &State) -> Result<bool> {
    let mut copy = state.try_copy(alloc)?;
    let entry = Entry::Connected {
        local: true,
        slot: 9,
    };
    Ok(!copy.step(alloc, config, &entry)? && copy.same(state))
}

/// Returns true if a port mapper can reach the state. Fails unless the state is that of copies of its items.
pub fn is_built_again(alloc: Global, config: &Config, state: &State) -> Result<bool> {
    let built = copy_of(alloc, state)?;
    let is_same = built.is_some_and(|built| built.same(state));
    ensure!(is_same, "it is another state than that of its parts");
    Ok(state.owned(alloc, config)?)
}

/// Builds a state from copies of the items of another state.
fn copy_of(alloc: Global, state: &State) -> Result<Option<State>> {
    let active = copied!(alloc, state.active());
    let retired = copied!(alloc, state.retired());
    let connections = copied!(alloc, state.conns());
    Ok(State::build(active, retired, connections, state.halted()))
}
