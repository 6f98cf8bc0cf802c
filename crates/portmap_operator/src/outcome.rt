//! What each entry of the log was.
ghost use Rattle.std.specs.Prelude.{◌≡◌, false, Some, IfSome, slice_index_or, slice_set};
ghost use Rattle.portmap_core.specs.Entry.{entry_in};
ghost use Rattle.portmap_operator.specs.Outcome.{IsRefusedFrom, RepliesHaveOutcomes, ended, outcome_in};
ghost use Rattle.portmap_operator.specs.Outcome.{outcome_of_reply, states_after, unless_done};

use crate::remote::{LocalRequest, local_request};
use portmap_core::{Entry, Fate, NoMemory};
use std::alloc::Global;

/// What an entry of the log was. The counters are in this order.
#[derive(Clone, Copy, PartialEq, Eq)]
pub enum Outcome {
    Accepted,
    Found,
    Missing,
    Registered,
    InUse,
    NoRoom,
    /// A request that only this host may make was refused to a remote peer.
    Remote,
    Listed,
    Malformed,
    TimedOut,
    Nothing,
}

/// Returns the outcome of a chunk of a connection that waits for a request. A list begins with a port of four bytes.
fn outcome_of_reply(reply: &[u8], fate: Fate) -> Outcome
    ensures { result ≡ outcome_of_reply reply.now fate }
{
    let Some(first) = reply.first() else {
        return match fate {
            Fate::Close => Outcome::Malformed,
            Fate::Stay | Fate::Halt => Outcome::Nothing,
        };
    };
    let result = reply.get(1).copied();
    match *first {
        b'w' if result == Some(0) => Outcome::Found,
        b'w' => Outcome::Missing,
        b'v' | b'y' if result == Some(0) => Outcome::Registered,
        b'v' | b'y' if result == Some(1) => Outcome::InUse,
        b'v' | b'y' if result == Some(2) => Outcome::NoRoom,
        0 => Outcome::Listed,
        _ => Outcome::Nothing,
    }
}

/// The replies of the port mapper to look-ups and registrations have the outcomes that their definitions name.
pub fn replies_have_outcomes()
    ensures { RepliesHaveOutcomes }
{}

/// The connections that wait for a request, by the log.
#[derive(Drop)]
pub struct Slots {
    /// For each slot whether its peer is remote, or `None` once the connection in it has its reply or timed out.
    states: Vec<Option<bool>>,
}

impl Slots {
    /// Returns the slots of an empty log, `places` in number.
    pub fn new(alloc: Global, places: u32) -> Result<Slots, NoMemory> {
        let states = vec![in alloc; Some(false); places as usize]?;
        Ok(Slots { states })
    }

    /// Applies an entry of the log. Returns what it was, and which request it refuses to a remote peer, if any. Without
    /// memory to read that request the outcome is `Malformed`.
    pub fn note(&mut self, alloc: Global, entry: &Entry) -> (Outcome, Option<LocalRequest>)
        ensures states { self.new.states.items ≡ states_after (entry_in entry.now) self.old.states.items }
        ensures outcome { result.0 ≡ outcome_in self.old.states.items (entry_in entry.now) result.1 }
        ensures refused { IfSome result.1 (λ asked. IsRefusedFrom self.old.states.items (entry_in entry.now) asked) }
    {
        match entry {
            Entry::Connected { local, slot } => {
                self.set(*slot, Some(!*local));
                (Outcome::Accepted, None)
            }
            Entry::Closed { slot } | Entry::Faulted { slot } => {
                self.set(*slot, Some(false));
                (Outcome::Nothing, None)
            }
            Entry::Late { slot, fate } => {
                let outcome = match fate {
                    Fate::Close => Outcome::TimedOut,
                    Fate::Stay | Fate::Halt => Outcome::Nothing,
                };
                (self.answer(*slot, *fate, outcome), None)
            }
            Entry::Piece {
                slot,
                bytes,
                reply,
                fate,
            } => {
                let is_remote = self.at(*slot) == Some(true);
                let outcome = self.answer(*slot, *fate, outcome_of_reply(reply, *fate));
                if !is_remote || outcome != Outcome::Malformed {
                    return (outcome, None);
                }
                match local_request(alloc, bytes) {
                    Some(asked) => (Outcome::Remote, Some(asked)),
                    None => (outcome, None),
                }
            }
        }
    }

    /// Ends the wait for a request if the fate is `Close`. Returns `Nothing` if it had ended, otherwise `outcome`.
    fn answer(&mut self, slot: u64, fate: Fate, outcome: Outcome) -> Outcome
        ensures states { self.new.states.items ≡ ended slot fate self.old.states.items }
        ensures outcome { result ≡ unless_done (slice_index_or self.old.states.items slot (Some false)) outcome }
    {
        let state = self.at(slot);
        match fate {
            Fate::Close => self.set(slot, None),
            Fate::Stay | Fate::Halt => {}
        }
        match state {
            Some(_) => outcome,
            None => Outcome::Nothing,
        }
    }

    fn at(&self, slot: u64) -> Option<bool>
        ensures { result ≡ slice_index_or self.now.states.items slot (Some false) }
    {
        let state = self.states.get(slot as usize);
        state.copied().unwrap_or(Some(false))
    }

    fn set(&mut self, slot: u64, state: Option<bool>)
        ensures { self.new.states.items ≡ slice_set self.old.states.items slot state }
    {
        if let Some(place) = self.states.get_mut(slot as usize) {
            *place = state;
        }
    }
}
