//! Events, answers and entries in the words of a transcript.
use crate::words::{Digits, bytes, number, text, unknown, wrong};
use anyhow::Result;
use portmap_core::{Answer, Entry, Event, Fate, Refusal};
use std::alloc::Global;

pub fn event(alloc: Global, words: &[&str]) -> Result<Event> {
    let [act, word, ref rest @ ..] = *words else {
        return wrong("no such act");
    };
    if act == "connect" && rest.is_empty() {
        let local = is_local(word)?;
        return Ok(Event::Connect { local });
    }
    let slot = number(word)?;
    Ok(match (act, rest) {
        ("piece", ["get", piece]) => {
            let bytes = bytes(alloc, piece)?;
            Event::Piece { slot, bytes }
        }
        ("close", []) => Event::Close { slot },
        ("fault", []) => Event::Fault { slot },
        ("late", []) => Event::Late { slot },
        _ => return wrong("no such act"),
    })
}

pub fn entry(alloc: Global, words: &[&str]) -> Result<Entry> {
    let [act, word, ref rest @ ..] = *words else {
        return wrong("no such entry");
    };
    let slot = number(word)?;
    Ok(match (act, rest) {
        ("connect", [whence]) => {
            let local = is_local(whence)?;
            Entry::Connected { local, slot }
        }
        ("piece", ["get", piece, "say", reply, then]) => Entry::Piece {
            slot,
            fate: fate(then)?,
            bytes: bytes(alloc, piece)?,
            reply: bytes(alloc, reply)?,
        },
        ("close", []) => Entry::Closed { slot },
        ("fault", []) => Entry::Faulted { slot },
        ("late", [then]) => {
            let fate = fate(then)?;
            Entry::Late { slot, fate }
        }
        _ => return wrong("no such entry"),
    })
}

pub fn is_local(word: &str) -> Result<bool> {
    match word {
        "local" => Ok(true),
        "remote" => Ok(false),
        _ => unknown("neither local nor remote", word),
    }
}

fn fate(word: &str) -> Result<Fate> {
    match word {
        "stay" => Ok(Fate::Stay),
        "close" => Ok(Fate::Close),
        "halt" => Ok(Fate::Halt),
        _ => unknown("no fate", word),
    }
}

fn word_of(fate: Fate) -> &'static str {
    match fate {
        Fate::Stay => "stay",
        Fate::Close => "close",
        Fate::Halt => "halt",
    }
}

/// Prints what an event returned. After a timeout that has no reply, that is the fate alone. Fails if memory is refused
/// to a connection that ends.
pub fn outcome_text(alloc: Global, act: &str, outcome: &Result<Answer, Refusal>) -> Result<String> {
    let is_late = act.starts_with("late");
    let goes = act.starts_with("close") || act.starts_with("fault");
    text(match outcome {
        Ok(Answer::Connected(slot)) => format!(in alloc; "{slot}"),
        Ok(Answer::Said { bytes, fate }) if is_late && bytes.is_empty() => String::from_str(
            alloc,
            word_of(*fate),
        ),
        Ok(Answer::Said { bytes, fate }) => format!(in alloc;
            "say {} {}",
            Digits(bytes),
            word_of(*fate)
        ),
        Ok(Answer::Gone) => String::from_str(alloc, "gone"),
        Err(Refusal::NoMemory) if goes => return wrong("memory is refused to one who goes"),
        Err(refusal) => format!(in alloc; "{refusal:?}"),
    })
}

/// Returns the line of a transcript for an event that was answered.
pub fn line(alloc: Global, number: u64, words: &[&str], outcome: &str) -> Result<String> {
    text(match *words {
        ["connect", whence] => format!(in alloc; "{number} connect {outcome} {whence}\n"),
        ["piece", slot, "get", piece] => format!(in alloc;
            "{number} piece {slot} get {piece} {outcome}\n"
        ),
        ["late", slot] => format!(in alloc; "{number} late {slot} {outcome}\n"),
        [act, slot] => format!(in alloc; "{number} {act} {slot}\n"),
        _ => return wrong("no such act"),
    })
}
