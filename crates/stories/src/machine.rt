//! The machine with its log, and what follows it: a replay, and at the end a run and a recording.
use crate::events::{entry, event, line, outcome_text};
use crate::recording::{is_recorded, recorded_segment};
use crate::run::{Happened, is_at, runs_so};
use crate::states::is_built_again;
use crate::words::{
    answer, by_name, bytes, digits_of, is_relaxed, joined, name, number, text, unknown, wanted,
    wrong,
};
use anyhow::{Context, Result, ensure};
use portmap_book::{ActFault, Book, Segment, Ticket, gather};
use portmap_core::{
    Answer, Config, Core, Entry, Event, Ip, Refusal, Replay, State, is_local, name_to_register,
};
use portmap_testing::marked;
use std::alloc::Global;
use std::mem;

pub struct Machine {
    book: Book,
    first: u32,
    replay: Replay,
    actual: Vec<Happened>,
    /// The transcript of the log, and its number of entries.
    lines: String,
    line_count: u64,
    kept: State,
    /// The number of the worker that hands in the next event.
    worker: u32,
    /// True if the oldest entry is drained after each event.
    is_followed: bool,
    /// The segments that were sealed, and the tickets of all events.
    segments: Vec<Segment>,
    tickets: Vec<Ticket>,
}

impl Drop for Machine {
    fn drop(self) {
        let Machine {
            book: _,
            first: _,
            replay: _,
            actual: _,
            lines: _,
            line_count: _,
            kept: _,
            worker: _,
            is_followed: _,
            segments: _,
            tickets: _,
        } = self;
    }
}

impl Machine {
    /// Returns a machine with the usual settings: port 4369, not relaxed, at most 1,024 connections and 4,096 names,
    /// creations from 4 on.
    pub fn new(alloc: Global) -> Result<Box<Machine>> {
        let config = wanted(Config::new(4369, false, 1024, 4096), "no settings")?;
        Ok(Box::new(alloc, Machine::of(alloc, config, 4, State::empty(alloc))?)?)
    }

    fn of(alloc: Global, config: Config, first: u32, kept: State) -> Result<Machine> {
        Ok(Machine {
            book: Book::new(alloc, config, first)?,
            first,
            replay: Replay::new(alloc, config)?,
            actual: Vec::new(alloc),
            lines: String::new(alloc),
            line_count: 0,
            kept,
            worker: 1,
            is_followed: false,
            segments: Vec::new(alloc),
            tickets: Vec::new(alloc),
        })
    }

    pub fn perform(&mut self, alloc: Global, words: &[&str]) -> Result<String> {
        match *words {
            ["with", ref settings @ ..] => return self.set(alloc, settings),
            ["keep"] => self.kept = self.book.core().state(alloc)?,
            ["as", worker] => self.worker = number(worker)?,
            ["follow"] => self.is_followed = true,
            ["seal"] => return self.sealed(alloc, false),
            ["segment"] => return self.sealed(alloc, true),
            ["advance"] => return self.advanced(alloc),
            ["may", ref words @ ..] => return self.may(alloc, words),
            ["connect" | "piece" | "close" | "fault" | "late", ..] => return self.event(
                alloc, words,
            ),
            _ => return self.look(alloc, words),
        }
        Ok(String::new(alloc))
    }

    /// Starts again with these settings, or prints why they are refused.
    fn set(&mut self, alloc: Global, words: &[&str]) -> Result<String> {
        let [checks, "conn", conn_max, "known", known_max, "first", first] = *words else {
            return wrong("no such settings");
        };
        let (conn_max, known_max) = (number(conn_max)?, number(known_max)?);
        match Config::new(4369, is_relaxed(checks)?, conn_max, known_max) {
            Ok(config) => self.begin_again(alloc, config, number(first)?),
            Err(fault) => by_name(alloc, &fault),
        }
    }

    /// Starts again, if the checks at the end of the old run succeed. The state that was kept remains.
    fn begin_again(&mut self, alloc: Global, config: Config, first: u32) -> Result<String> {
        self.ended(alloc)?;
        let kept = mem::replace(&mut self.kept, State::empty(alloc));
        *self = Machine::of(alloc, config, first, kept)?;
        ensure!(*self.book.core().config() == config, "it is set otherwise");
        Ok(String::new(alloc))
    }

    /// Prints a fact about the machine, or about the words themselves.
    fn look(&self, alloc: Global, words: &[&str]) -> Result<String> {
        let core = self.book.core();
        let is_so = match *words {
            ["open"] => return text(format!(in alloc; "{}", core.connections())),
            ["is", slot] => return phase(alloc, core, number(slot)?),
            ["asks", piece] => return asked(alloc, &bytes(alloc, piece)?),
            ["halted"] => core.halted(),
            ["active", word] => core.is_active(&name(alloc, word)?),
            ["kept"] => is_at(alloc, core, &self.kept)?,
            ["local", peer, own] => is_local(address(alloc, peer)?, address(alloc, own)?),
            _ => return wrong("no such act"),
        };
        answer(alloc, is_so)
    }

    /// Prints whether the entry is the next one that a recording may have. The state does not change.
    fn may(&self, alloc: Global, words: &[&str]) -> Result<String> {
        let core = self.book.core();
        let entry = entry(alloc, words)?;
        let moved = moves(alloc, core.config(), &core.state(alloc)?, &entry)?;
        answer(alloc, moved)
    }

    /// Prints the answer to an event. The replay follows it.
    fn event(&mut self, alloc: Global, words: &[&str]) -> Result<String> {
        let outcome = self.acted(alloc, event(alloc, words)?)?;
        let result = outcome_text(alloc, words.first().copied().unwrap_or(""), &outcome)?;
        if result.as_str() != "NoMemory" {
            self.show(alloc, words, result.as_str())?;
            self.actual.push(Happened {
                act: joined(alloc, words)?,
                result: result.clone()?,
            })?;
        }
        Ok(result)
    }

    /// Adds the line of a logged event to the transcript, and its ticket to the tickets. If the log is followed, drains
    /// the entry.
    fn show(&mut self, alloc: Global, words: &[&str], outcome: &str) -> Result<()> {
        if self.book.log().len() as u64 == self.line_count {
            return Ok(());
        }
        let line = line(alloc, self.line_count, words, outcome)?;
        self.tickets.push(Ticket {
            place: self.book.count().saturating_sub(1),
            entry: entry_of(alloc, line.as_str())?,
        })?;
        self.lines.push_str(line.as_str())?;
        self.line_count = self.line_count.saturating_add(1);
        if self.is_followed && !self.advanced(alloc)?.as_str().starts_with("1 0 ") {
            return wrong("its entry is not taken out");
        }
        Ok(())
    }

    /// Seals the log. Prints the position of its first entry and the number of entries, or the bytes of their record.
    fn sealed(&mut self, alloc: Global, is_whole: bool) -> Result<String> {
        let (first, len) = (self.book.first(), self.book.log().len());
        match marked!(alloc, self.book.seal(alloc)) {
            Ok(segment) => self.take(alloc, segment, is_whole),
            Err(_) if (self.book.first(), self.book.log().len()) == (first, len) => text(
                String::from_str(alloc, "NoMemory"),
            ),
            Err(_) => wrong("a refusal has taken entries"),
        }
    }

    fn take(&mut self, alloc: Global, mut segment: Segment, is_whole: bool) -> Result<String> {
        self.is_sealed(alloc, &segment)?;
        let bytes = recorded_segment(alloc, &mut segment, self.lines.as_str())?;
        self.lines.clear();
        self.line_count = 0;
        let (first, count) = (segment.first, segment.entries.len());
        self.segments.push(segment)?;
        if is_whole {
            return Ok(bytes);
        }
        text(format!(in alloc; "first {first} entries {count}"))
    }

    /// Fails unless the segment has all entries, and ends at the state of the machine.
    fn is_sealed(&self, alloc: Global, segment: &Segment) -> Result<()> {
        let is_taken = self.book.log().is_empty() && self.stands(alloc)?;
        let is_after = is_at(alloc, self.book.core(), &segment.after)?;
        ensure!(is_taken && is_after, "it is sealed otherwise");
        Ok(())
    }

    /// Drains the log. Prints the number of entries drained, of entries left, and of all entries before the log.
    fn advanced(&mut self, alloc: Global) -> Result<String> {
        let (mut drained, mut workers) = (Vec::new(alloc), Vec::new(alloc));
        self.book.advance(alloc, &mut drained, &mut workers);
        if drained.len() != workers.len() || !self.stands(alloc)? {
            return wrong("it is taken out otherwise");
        }
        self.lines.clear();
        self.line_count = self.book.log().len() as u64;
        let (left, first) = (self.line_count, self.book.first());
        text(format!(in alloc; "{} {left} {first}", drained.len()))
    }

    /// Applies an event at the next position of the log. The replay follows with its entry.
    fn acted(&mut self, alloc: Global, event: Event) -> Result<Result<Answer, Refusal>> {
        let count = self.book.count();
        match marked!(alloc, self.book.act(alloc, self.worker, event)) {
            Ok((position, answer)) if position == count => {
                let entry = self.book.log().last().context("it is not logged")?;
                ensure!(self.replay.step(alloc, entry)?, "a replay does not follow");
                Ok(Ok(answer))
            }
            Err(ActFault::Refused(refusal)) => Ok(Err(refusal)),
            _ => wrong("it is logged at another place"),
        }
    }

    /// Returns true if the log leads from the snapshot before it to the state of the machine.
    pub fn stands(&self, alloc: Global) -> Result<bool> {
        let (book, core) = (&self.book, self.book.core());
        let is_counted = book.count() == book.first().saturating_add(book.log().len() as u64);
        let Some(mut replay) = Replay::of(alloc, *core.config(), book.base())? else {
            return Ok(false);
        };
        for entry in book.log() {
            if !replay.step(alloc, entry)? {
                return Ok(false);
            }
        }
        let state = replay.state(alloc)?;
        Ok(is_counted && is_at(alloc, core, &state)?)
    }

    /// Fails unless the replay, a run, a recording and the tickets agree with the machine. The replay starts again.
    pub fn ended(&mut self, alloc: Global) -> Result<()> {
        let none = Replay::new(alloc, *self.book.core().config())?;
        let replayed = mem::replace(&mut self.replay, none).state(alloc)?;
        let is_so = self.stands(alloc)? && is_at(alloc, self.book.core(), &replayed)?;
        ensure!(is_so, "the machine stands otherwise than what followed it");
        self.is_run(alloc)?;
        self.is_gathered(alloc)?;
        if self.book.first() > 0 {
            return Ok(());
        }
        is_recorded(alloc, &self.book, self.lines.as_str())
    }

    /// Fails unless the state can be built from its items, and a run leads to it.
    fn is_run(&self, alloc: Global) -> Result<()> {
        let (config, state) = (self.book.core().config(), self.book.core().state(alloc)?);
        let is_so = is_built_again(alloc, config, &state)?;
        ensure!(is_so, "its state is not that of its parts");
        runs_so(alloc, *config, self.first, &self.actual, &state)
    }

    /// Fails unless the tickets of all events are the log. A log that was drained other than by segments is skipped. No
    /// ticket is left.
    fn is_gathered(&mut self, alloc: Global) -> Result<()> {
        let tickets = mem::replace(&mut self.tickets, Vec::new(alloc));
        if self.book.first() > 0 && self.segments.is_empty() {
            return Ok(());
        }
        let gathered = gather(alloc, &self.segments, &self.book, tickets);
        wanted(gathered, "its tickets are not the log")
    }
}

/// Returns true if a copy of a state, and a replay that starts at it, accept an entry.
fn moves(alloc: Global, config: &Config, before: &State, entry: &Entry) -> Result<bool> {
    let mut state = before.try_copy(alloc)?;
    let moved = state.step(alloc, config, entry)?;
    ensure!(
        moved || state.same(before),
        "a state moves by what may not be"
    );
    let replayed = replays(alloc, *config, before, entry, &state)?;
    ensure!(replayed == moved, "a replay moves otherwise");
    Ok(moved)
}

/// Returns true if a replay that starts at `from` accepts an entry. Fails unless it ends at `to`.
fn replays(alloc: Global, config: Config, from: &State, entry: &Entry, to: &State) -> Result<bool> {
    let Some(mut replay) = Replay::of(alloc, config, from)? else {
        return wrong("no replay goes on from here");
    };
    let moved = replay.step(alloc, entry)?;
    let state = replay.state(alloc)?;
    ensure!(state.same(to), "a replay moves otherwise");
    Ok(moved)
}

fn entry_of(alloc: Global, line: &str) -> Result<Entry> {
    let words: Vec<&str> = line.split_whitespace().skip(1).collect(alloc)?;
    entry(alloc, &words)
}

/// Prints the phase of a connection, or `-` if it is not open.
fn phase(alloc: Global, core: &Core, slot: u64) -> Result<String> {
    match core.phase(slot) {
        Some(phase) => by_name(alloc, &phase),
        None => digits_of(alloc, &[]),
    }
}

/// Prints the name that a chunk asks to register, or `-`.
fn asked(alloc: Global, piece: &[u8]) -> Result<String> {
    match name_to_register(alloc, piece) {
        Some(name) => digits_of(alloc, name.bytes()),
        None => digits_of(alloc, &[]),
    }
}

fn address(alloc: Global, word: &str) -> Result<Ip> {
    let bytes = bytes(alloc, word)?;
    match (bytes.as_slice().try_into(), bytes.as_slice().try_into()) {
        (Ok(four), _) => Ok(Ip::V4(four)),
        (_, Ok(sixteen)) => Ok(Ip::V6(sixteen)),
        _ => unknown("no address", word),
    }
}
