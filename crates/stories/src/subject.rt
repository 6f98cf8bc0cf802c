//! The items of the port mapper that stories are about.
use crate::call::Calls;
use crate::feed::Pieces;
use crate::machine::Machine;
use crate::session::Session;
use crate::states::StateItems;
use crate::words::wrong;
use crate::worker::WorkerSetup;
use crate::{table, wire};
use anyhow::Result;
use portmap_table::Table;
use std::alloc::Global;
use std::sync::Wait;

#[derive(Drop)]
pub enum Subject {
    None,
    /// Requests and replies as bytes.
    Wire,
    Feed(Pieces),
    Table(Box<Table>),
    Machine(Box<Machine>),
    State(StateItems),
    Session(Session),
    Calls(Box<Calls>),
    Worker(WorkerSetup),
}

impl Subject {
    /// Returns the subject of a story that begins with this word.
    pub fn begun(alloc: Global, word: &str) -> Result<Option<Subject>> {
        Ok(match word {
            "wire" => Some(Subject::Wire),
            "feed" => Some(Subject::Feed(Pieces::new(alloc))),
            "table" => Some(Subject::Table(Box::new(alloc, Table::new(alloc, 4096, 4)?)?)),
            "story" => Some(Subject::Machine(Machine::new(alloc)?)),
            "call" => Some(Subject::Calls(Box::new(alloc, Calls::new(alloc))?)),
            "session" => Some(Subject::Session(Session::new(alloc))),
            "state" => Some(Subject::State(StateItems::new(alloc))),
            "worker" => Some(Subject::Worker(WorkerSetup::new(alloc))),
            _ => None,
        })
    }

    /// Performs an operation and returns its result as text.
    pub fn perform<R: Wait>(&mut self, host: &R, alloc: Global, words: &[&str]) -> Result<String> {
        match self {
            Subject::None => wrong("no story has begun"),
            Subject::Wire => wire::perform(alloc, words),
            Subject::Feed(pieces) => pieces.perform(alloc, words),
            Subject::Table(table) => table::perform(alloc, &mut **table, words),
            Subject::Machine(machine) => machine.perform(alloc, words),
            Subject::State(items) => items.perform(alloc, words),
            Subject::Session(session) => session.perform(alloc, words),
            Subject::Calls(calls) => calls.perform(alloc, words),
            Subject::Worker(setup) => setup.perform(host, alloc, words),
        }
    }

    /// Returns true if an operation to which memory was refused has changed nothing.
    pub fn stands(&self, alloc: Global) -> Result<bool> {
        match self {
            Subject::Machine(machine) => machine.stands(alloc),
            Subject::Feed(pieces) => Ok(pieces.stands()),
            _ => Ok(true),
        }
    }

    /// Fails if a check at the end of the story fails.
    pub fn ended(self, alloc: Global) -> Result<()> {
        match self {
            Subject::Machine(mut machine) => machine.ended(alloc),
            _ => Ok(()),
        }
    }
}
