//! Long random lists of events. A replay allows every answer of the machine, and the snapshot before the log, which has
//! plain lists, follows.
ghost use Rattle.std.specs.Prelude.{◌<◌};

use portmap_book::{ActFault, Book};
use portmap_core::{Config, Event, Refusal, Replay};
use portmap_testing::bytes::{DUMP, NAMES};
use portmap_testing::cases::{Case, all_hold};
use portmap_testing::nodes::node;
use portmap_wire::{Name, Request, write_lookup, write_registration, write_request};
use std::alloc::Global;
use std::test::Fail;

/// Random numbers from a seed.
#[derive(Drop)]
struct Chance(u64);

impl Chance {
    /// Returns a number below `most`: from the upper half of Knuth's linear congruence of 64 bits.
    fn below(&mut self, most: u32) -> u32
        requires { 0 < most }
        ensures { result < most }
    {
        self.0 = self
            .0
            .wrapping_mul(6_364_136_223_846_793_005)
            .wrapping_add(1_442_695_040_888_963_407);
        (self.0 >> 32) as u32 % most
    }
}

/// Returns one of 50 names.
fn name(alloc: Global, chance: &mut Chance) -> Result<Name, Fail> {
    let number = chance.below(50) as u8;
    Ok(Name::read(alloc, &[b'a' + number / 10, b'0' + number % 10])?)
}

fn registration(alloc: Global, name: &Name, chance: &mut Chance) -> Result<Vec<u8>, Fail> {
    let extra: &[u8] = if chance.below(2) == 0 { &[] } else { b"extra" };
    Ok(write_registration(alloc, &node(alloc, name.bytes(), extra)?)?)
}

/// Returns a complete request, or bytes that are no request.
fn request(alloc: Global, chance: &mut Chance) -> Result<Vec<u8>, Fail> {
    let name = name(alloc, chance)?;
    match chance.below(16) {
        0 => Ok(NAMES.to_vec(alloc)?),
        1 => Ok(DUMP.to_vec(alloc)?),
        2 => Ok(write_request(alloc, &Request::Stop(name))?),
        3 => Ok([0, 2, 122, 31].to_vec(alloc)?),
        4 => Ok([0, 0].to_vec(alloc)?),
        5..=8 => Ok(write_lookup(alloc, &name)?),
        _ => registration(alloc, &name, chance),
    }
}

/// Returns a request, a prefix of it, or its end.
fn piece(alloc: Global, chance: &mut Chance) -> Result<Vec<u8>, Fail> {
    let mut bytes = request(alloc, chance)?;
    // No request here has a hundred bytes.
    let len = bytes.len().clamp(1, 100) as u32;
    match chance.below(8) {
        0 => bytes.truncate(chance.below(len) as usize),
        1 => {
            let from = chance.below(len) as usize;
            return Ok(bytes.get(from..).unwrap_or(&[]).to_vec(alloc)?);
        }
        _ => {}
    }
    Ok(bytes)
}

/// Returns an event for one of 40 slots, of which at most 30 are open.
fn event(alloc: Global, chance: &mut Chance) -> Result<Event, Fail> {
    let slot = chance.below(40) as u64;
    Ok(match chance.below(16) {
        0..=4 => Event::Connect {
            local: chance.below(8) > 0,
        },
        5 | 6 => Event::Close { slot },
        7 => Event::Fault { slot },
        8 => Event::Late { slot },
        _ => Event::Piece {
            slot,
            bytes: piece(alloc, chance)?,
        },
    })
}

#[derive(Clone, Copy)]
struct Counts {
    answered: u32,
    refused: u32,
}

#[derive(Drop)]
struct Course {
    book: Book,
    replay: Replay,
    counts: Counts,
}

impl Course {
    /// Returns true if the replay accepts the entry of the event, if there is one. The snapshot before the log must
    /// then be the state of the machine.
    fn goes_on(&mut self, alloc: Global, event: Event) -> Result<bool, Fail> {
        match self.book.act(alloc, 0, event) {
            Ok(_) => self.counts.answered = self.counts.answered.saturating_add(1),
            Err(ActFault::Refused(Refusal::Halted | Refusal::Full | Refusal::NoSlot)) => {
                self.counts.refused = self.counts.refused.saturating_add(1);
            }
            Err(ActFault::Refused(Refusal::NoMemory) | ActFault::Worn) => Err("memory ran out")?,
        }
        let (mut drained, mut workers) = (Vec::new(alloc), Vec::new(alloc));
        self.book.advance(alloc, &mut drained, &mut workers);
        for entry in &drained {
            if !self.replay.step(alloc, entry)? {
                return Ok(false);
            }
        }
        let state = self.book.core().state(alloc)?;
        Ok(self.book.log().is_empty() && self.book.base().same(&state))
    }

    /// Returns the index of the first of 10,000 events after which that does not hold.
    fn first_strange(&mut self, alloc: Global, seed: u64) -> Result<Option<u32>, Fail> {
        let mut chance = Chance(seed);
        for index in 0..10_000u32 {
            let event = event(alloc, &mut chance)?;
            if !self.goes_on(alloc, event)? {
                return Ok(Some(index));
            }
        }
        Ok(None)
    }
}

/// A seed for events, whether the machine is relaxed, and how many of the 50 names it may know.
struct Seed(u64, bool, u32);

fn begun(alloc: Global, seed: &Seed) -> Result<Course, Fail> {
    let config = Config::new(4369, seed.1, 30, seed.2)?;
    Ok(Course {
        book: Book::new(alloc, config, 4)?,
        replay: Replay::new(alloc, config)?,
        counts: Counts {
            answered: 0,
            refused: 0,
        },
    })
}

impl Case for Seed {
    /// There are enough events for every kind of answer.
    fn holds(&self, alloc: Global) -> Result<bool, Fail> {
        let mut course = begun(alloc, self)?;
        let strange = course.first_strange(alloc, self.0)?;
        let Course {
            book,
            replay,
            counts,
        } = course;
        let many = counts.answered > 4_000 && counts.refused > 1_000;
        let replayed = replay.state(alloc)?;
        Ok(strange.is_none() && many && replayed.same(book.base()))
    }
}

const SEEDS: &[Seed] = &[
    Seed(1, false, 40),
    Seed(2, true, 12),
    Seed(20_261_123, true, 5),
    Seed(20_261_125, true, 1),
];

#[test]
fn what_is_answered_is_allowed_and_plain_lists_follow(rt: HostRuntime) -> Result<(), Fail> {
    all_hold(&rt, SEEDS)
}
