//! A worker of the daemon, and a source of two links that gives it turns.
ghost use Rattle.std.specs.Prelude.{◌≡◌};

use crate::devices::{device, plan};
use crate::events::is_local;
use crate::words::{Digits, bytes, is_relaxed, number, text, wrong};
use anyhow::{Context, Result, ensure};
use portmap_book::{Desk, PARTS, Seat};
use portmap_core::Entry;
use portmap_record::{Verdict, transcript};
use portmap_testing::books::{book, is_killed};
use portmap_testing::marks::{begin, end, was_refused};
use portmap_testing::tape::{DevicePlan, STEADY, Tape};
use portmap_worker::{Open, Outcome, Source, Turn, serve};
use std::alloc::Global;
use std::marker::Brand;
use std::slice::Iter;
use std::sync::Wait;
use std::sync::ledger::{Blank, Ledger};

/// The input of a worker. Each line is run at a new worker, which makes all turns up to that line and stops.
pub struct WorkerSetup {
    is_relaxed: bool,
    conn_max: u32,
    /// The bytes that the links 7 and 8 give. Link 8 moves all bytes at each call.
    seven: Vec<u8>,
    eight: Vec<u8>,
    plan: DevicePlan,
    /// True if another connection has ended the port mapper before.
    is_killed: bool,
    turns: Vec<Turn>,
    actual: Amounts,
}

impl Drop for WorkerSetup {
    fn drop(self) {
        let WorkerSetup {
            is_relaxed: _,
            conn_max: _,
            seven: _,
            eight: _,
            plan: _,
            is_killed: _,
            turns: _,
            actual: _,
        } = self;
    }
}

/// The numbers of entries, of bytes of link 7, of bytes of link 8 and of ended links.
type Amounts = [usize; 4];

/// The links 7 and 8, the keys of ended links, the log before the worker stops, and the number of turns before the turn
/// to which memory may be refused.
#[derive(Drop)]
struct Wires<'a> {
    unmarked: usize,
    seven: Tape<'a>,
    eight: Tape<'a>,
    ended: Vec<u64>,
    log: Vec<Entry>,
}

/// A source of two links that gives the turns of a list, drains the log, and then gives Stop.
#[derive(Drop)]
struct Listed<'a, 'b, L: Ledger, R: Wait> {
    rt: &'a R,
    alloc: Global,
    desk: &'a Desk<L>,
    wires: &'a mut Wires<'b>,
    turns: Iter<'a, Turn>,
}

impl<'a, 'b, L: Ledger, R: Wait> Source for Listed<'a, 'b, L, R> {
    type Link = Tape<'b>;

    fn turn(&mut self) -> Turn {
        if let Some(turn) = self.turns.next() {
            if self.wires.unmarked == 0 {
                begin(self.alloc);
            }
            self.wires.unmarked = self.wires.unmarked.saturating_sub(1);
            return *turn;
        }
        end(self.alloc);
        self.wires.take_log(self.rt, self.alloc, self.desk);
        Turn::Stop
    }

    fn link(&mut self, key: u64) -> Option<&mut Tape<'b>> {
        match key {
            7 => Some(&mut self.wires.seven),
            8 => Some(&mut self.wires.eight),
            _ => None,
        }
    }

    fn end(&mut self, key: u64) {
        let _ = self.wires.ended.push(key);
    }
}

impl<'a> Wires<'a> {
    fn take_log<L: Ledger, R: Wait>(&mut self, rt: &R, alloc: Global, desk: &Desk<L>) {
        desk.advance(rt, alloc, &mut self.log, &mut Vec::new(alloc));
    }

    fn amounts(&self) -> Amounts {
        let (seven, eight) = (self.seven.sink.len(), self.eight.sink.len());
        [self.log.len(), seven, eight, self.ended.len()]
    }

    /// Returns what follows `actual`: entries, and what both links received and whether they ended.
    fn line(&self, alloc: Global, actual: Amounts, is_over: bool) -> Result<String> {
        let mut line = entry_words(alloc, self.log.get(actual[0]..).unwrap_or(&[]))?;
        put_bytes(
            &mut line,
            7,
            self.seven.sink.get(actual[1]..).unwrap_or(&[]),
        )?;
        put_bytes(
            &mut line,
            8,
            self.eight.sink.get(actual[2]..).unwrap_or(&[]),
        )?;
        for key in self.ended.iter().skip(actual[3]) {
            write!(line, " ; ends {key}")?;
        }
        if is_over {
            line.push_str(" ; over")?;
        }
        text(String::from_str(alloc, line.as_str().trim_start_matches(" ; ")))
    }

    /// Returns the number of connections, the bytes of link 7, and the bytes and the end of link 8.
    fn line_of_8(&self, alloc: Global) -> Result<String> {
        let comes = |entry: &&Entry| matches!(entry, Entry::Connected { .. });
        let count = self.log.iter().filter(comes).count();
        let mut line = format!(in alloc; "connected {count}")?;
        put_bytes(&mut line, 7, &self.seven.sink)?;
        put_bytes(&mut line, 8, &self.eight.sink)?;
        if self.ended.contains(&8) {
            line.push_str(" ; ends 8")?;
        }
        Ok(line)
    }
}

impl WorkerSetup {
    pub fn new(alloc: Global) -> WorkerSetup {
        WorkerSetup {
            is_relaxed: false,
            conn_max: 2,
            seven: Vec::new(alloc),
            eight: Vec::new(alloc),
            plan: STEADY,
            is_killed: false,
            turns: Vec::new(alloc),
            actual: [0; 4],
        }
    }

    pub fn perform<R: Wait>(&mut self, rt: &R, alloc: Global, words: &[&str]) -> Result<String> {
        match *words {
            ["with" | "gives", ..] => self.set(alloc, words)?,
            ["turns", ref turns @ ..] => self.add(turns)?,
            ["fails", call] => return self.failed(rt, alloc, number(call)?),
            ["killed"] => {
                self.is_killed = true;
                return self.new_line(rt, alloc);
            }
            _ => {
                self.add(words)?;
                return self.new_line(rt, alloc);
            }
        }
        Ok(String::new(alloc))
    }

    /// Starts again, with these settings or with what a link gives.
    fn set(&mut self, alloc: Global, words: &[&str]) -> Result<()> {
        self.is_killed = false;
        self.turns.clear();
        self.actual = [0; 4];
        match *words {
            ["with", checks, "conn", count] => {
                self.is_relaxed = is_relaxed(checks)?;
                self.conn_max = number(count)?;
            }
            ["gives", "7", word, ref device @ ..] if device.len() <= 1 => {
                self.seven = bytes(alloc, word)?;
                self.plan = plan(device.first().copied().unwrap_or("steady"))?;
            }
            ["gives", "8", word] => self.eight = bytes(alloc, word)?,
            _ => return wrong("no such act"),
        }
        Ok(())
    }

    /// Adds turns, separated by `;`.
    fn add(&mut self, words: &[&str]) -> Result<()> {
        for words in words.split(|word| *word == ";") {
            self.turns.push(turn(words)?)?;
        }
        Ok(())
    }

    /// Returns what all turns have caused since the last line. If memory is refused to the last turn, its link is
    /// closed, and all turns are made again.
    fn new_line<R: Wait>(&mut self, rt: &R, alloc: Global) -> Result<String> {
        let link_end = end_of(alloc, self.turns.last())?;
        let (mut line, mut actual) = self.line(rt, alloc, !link_end.is_empty())?;
        if was_refused(alloc) {
            let (again, actual_again) = self.line(rt, alloc, false)?;
            let is_so = line == again || line.as_str().contains(link_end.as_str());
            ensure!(is_so, "where memory is refused comes: {line}");
            line = again;
            actual = actual_again;
        }
        self.actual = actual;
        Ok(line)
    }

    /// Returns what all turns have caused since the last line, and the amounts after it. Memory may be refused to the
    /// last turn if `is_marked`.
    fn line<R: Wait>(&self, rt: &R, alloc: Global, is_marked: bool) -> Result<(String, Amounts)> {
        let mut wires = self.wires(alloc, self.plan, is_marked)?;
        let is_over = serve_all(rt, alloc, self, &mut wires)?;
        Ok((wires.line(alloc, self.actual, is_over)?, wires.amounts()))
    }

    /// Returns what both links received if link 7 fails at this call.
    fn failed<R: Wait>(&self, rt: &R, alloc: Global, call: usize) -> Result<String> {
        let plan = DevicePlan {
            fault: Some(call),
            ..self.plan
        };
        let mut wires = self.wires(alloc, plan, false)?;
        serve_all(rt, alloc, self, &mut wires)?;
        wires.line_of_8(alloc)
    }

    /// The links have room for all that they receive, and the keys of ended links too.
    fn wires(&self, alloc: Global, plan: DevicePlan, is_marked: bool) -> Result<Wires<'_>> {
        let last = self.turns.len().saturating_sub(1);
        Ok(Wires {
            unmarked: if is_marked { last } else { usize::MAX },
            seven: device(alloc, &self.seven, plan, 1_000)?,
            eight: device(alloc, &self.eight, STEADY, 1_000)?,
            ended: Vec::with_capacity(alloc, 100)?,
            log: Vec::new(alloc),
        })
    }
}

/// Runs a worker over all turns. Returns true if the port mapper has ended.
fn serve_all<R: Wait>(
    rt: &R,
    alloc: Global,
    setup: &WorkerSetup,
    wires: &mut Wires<'_>,
) -> Result<bool> {
    let served = served::<Brand, R>(rt, alloc, Blank::new(PARTS), setup, wires);
    served.context("it closes not all as it stops, or has served otherwise than it says")
}

/// Returns `None` unless the worker counts what it has served, and closes every open connection when it stops, and does
/// nothing else.
fn served<L: Ledger, R: Wait>(
    rt: &R,
    alloc: Global,
    blank: Blank,
    setup: &WorkerSetup,
    wires: &mut Wires<'_>,
) -> Option<bool>
    requires name { blank.name ≡ L.name }
    requires parts { blank.parts ≡ L.parts }
    requires enough { blank.parts ≡ PARTS }
{
    let desk: Desk<L> = Desk::new(blank, book(alloc, setup.is_relaxed, setup.conn_max)?);
    let mut seat = desk.seat(rt, 1)?;
    if setup.is_killed {
        is_killed(rt, alloc, &desk, &mut seat)?;
    }
    let before = seat.count();
    let source = Listed {
        rt,
        alloc,
        desk: &desk,
        wires: &mut *wires,
        turns: setup.turns.iter(),
    };
    let Outcome { seat, served } = serve(rt, alloc, &desk, seat, 0, source, &Open);
    end(alloc);
    if wires.log.is_empty() {
        wires.take_log(rt, alloc, &desk);
    }
    ended(alloc, desk, seat, before.saturating_add(served))
}

fn ended<L: Ledger>(alloc: Global, desk: Desk<L>, seat: Seat<L>, count: u64) -> Option<bool> {
    let book = desk.finish(vec![in alloc; seat].ok()?).ok()?;
    let (mut log, core) = (book.log().iter(), book.core());
    let is_left = core.halted() || core.connections() == 0;
    let are_closed = is_left && log.all(|entry| matches!(entry, Entry::Closed { .. }));
    (are_closed && book.count() == count).then_some(core.halted())
}

fn turn(words: &[&str]) -> Result<Turn> {
    Ok(match *words {
        ["fresh", key, whence] => Turn::Fresh {
            key: number(key)?,
            local: is_local(whence)?,
        },
        ["ready", key] => Turn::Ready(number(key)?),
        ["late", key] => Turn::Late(number(key)?),
        ["idle"] => Turn::Idle,
        ["stop"] => Turn::Stop,
        _ => return wrong("no such act"),
    })
}

/// Returns the text for the end of the link of a turn, or no text if the turn has no link.
fn end_of(alloc: Global, turn: Option<&Turn>) -> Result<String> {
    match turn {
        Some(Turn::Fresh { key, .. } | Turn::Ready(key) | Turn::Late(key)) => {
            text(format!(in alloc; "ends {key}"))
        }
        _ => Ok(String::new(alloc)),
    }
}

/// Returns the words of a transcript, with a `;` before each entry.
fn entry_words(alloc: Global, entries: &[Entry]) -> Result<String> {
    let text = String::from_utf8(transcript(alloc, entries, Verdict::Run)?)?;
    let mut words = String::new(alloc);
    for line in text.as_str().lines().take(entries.len()) {
        let (_, entry) = line.split_once(' ').unwrap_or(("", line));
        write!(words, " ; {entry}")?;
    }
    Ok(words)
}

fn put_bytes(line: &mut String, key: u64, bytes: &[u8]) -> Result<()> {
    if !bytes.is_empty() {
        write!(line, " ; gets {key} {}", Digits(bytes))?;
    }
    Ok(())
}
