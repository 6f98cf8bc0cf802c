//! The peers of a daemon: nodes, tools and strangers.
use crate::checks::Wrong;
use crate::network::Ending;
use crate::notices::Subject;
use crate::people::PersonState::{Away, Gone, Holding, Sending, Waiting};
use crate::random::Random;
use crate::roles::{Comes, Naming, ReadHabit, Role, RoleStep};
use crate::scenario::{Crowd, Deeds, Scenario};
use crate::weather::{Fault, count};
use crate::wire::Wire;
use crate::world::{LISTENERS, World};
use std::alloc::Global;

#[derive(Clone, Copy, PartialEq, Eq)]
pub enum PersonState {
    Away,
    Sending,
    Waiting,
    Holding,
    Gone,
}

#[derive(Clone, Copy, Default)]
pub struct Counts {
    pub connections: u32,
    pub registrations: u32,
    pub refused: u32,
    pub restarts: u32,
    pub answers: u32,
    pub unanswered: u32,
    /// In microseconds.
    pub longest: u64,
}

impl Counts {
    pub fn deeds(&self) -> Deeds {
        let [registrations, restarts] = [self.registrations, self.restarts];
        [registrations, restarts, self.answers, self.refused]
    }
}

/// A connection of a peer, and its request. Times are in microseconds.
#[derive(Drop)]
struct Visit {
    wire: Option<usize>,
    request: Vec<u8>,
    sent: usize,
    /// When the peer connected, by a clock that may jump, or 0 before its first connection.
    came_at: u64,
    /// When the peer finished its request, and how long the process had been stopped before.
    asked_at: u64,
    stopped_before: u64,
    /// The peer does not return.
    is_last: bool,
}

/// A peer. Times are in microseconds.
#[derive(Drop)]
pub struct Person {
    pub(crate) role: &'static Role,
    pub(crate) scenario: &'static Scenario,
    pub(crate) is_local: bool,
    /// The node that this peer is, or asks for.
    pub(crate) node: u8,
    pub(crate) stage: PersonState,
    next_at: u64,
    visit: Visit,
    /// How long the peer was connected when it finished its request, by the clock that may jump.
    pub(crate) asked_after: u64,
    pub(crate) held_since: u64,
    /// The daemon may close or refuse this peer.
    pub(crate) is_lenient: bool,
}

/// The scan that closes peers which connected at the start, with a timeout of five seconds.
const TARDY_US: u64 = 6_850_000;

const TALK: &[u8] = &[0x61; 1000];

/// Returns the peers of a scenario. Nodes are numbered. A peer that asks for a node asks for any number.
pub fn people_of(alloc: Global, world: &mut World) -> Option<Vec<Person>> {
    let (scenario, mut nodes) = (world.scenario, 0u8);
    let mut people = Vec::new(alloc);
    for crowd in scenario.crowds() {
        let (role, number, is_local) = crowd.parts();
        let owns = role.owns();
        for _ in 0..number {
            let next_at = world.after(100_000);
            let first_at = scenario.burst_after(next_at);
            let random = &mut world.weather.random;
            nodes = nodes.saturating_add(u8::from(owns));
            let visit = Visit {
                wire: None,
                request: Vec::new(alloc),
                sent: 0,
                came_at: 0,
                asked_at: 0,
                stopped_before: 0,
                is_last: false,
            };
            let person = Person {
                role,
                scenario,
                is_local,
                node: if owns { nodes } else { random.below(6) as u8 },
                stage: Away,
                next_at: if role.asks_once { first_at } else { next_at },
                visit,
                asked_after: 0,
                held_since: 0,
                is_lenient: !scenario.is_strict || (owns && scenario.has_rivals()),
            };
            people.push(person).ok()?;
        }
    }
    Some(people)
}

impl Person {
    /// Returns when the peer acts next. An event of its connection makes it due now.
    pub fn due_at(&self, world: &World) -> Option<u64> {
        let has_news = self.has_news(world);
        let at = if has_news { world.now } else { self.next_at };
        (self.stage != Gone).then_some(at)
    }

    pub(crate) fn own<'a>(&self, world: &'a World) -> Option<&'a Wire> {
        world.network.wires.get(self.visit.wire?)
    }

    fn is_slow(&self) -> bool {
        self.role.reading == ReadHabit::Slowly
    }

    fn has_news(&self, world: &World) -> bool {
        !self.is_slow() && self.own(world).is_some_and(|wire| wire.peer.has_news)
    }

    /// Returns for how long the peer waits for its answer.
    pub(crate) fn waited(&self, now: u64) -> u64 {
        let waits = self.stage == Waiting;
        let since = if waits { self.visit.asked_at } else { now };
        now.saturating_sub(since)
    }

    /// Returns for how much of that time the process ran.
    pub(crate) fn waited_awake(&self, world: &World) -> u64 {
        let before = self.visit.stopped_before;
        let stopped = world.clock.stopped.saturating_sub(before);
        self.waited(world.now).saturating_sub(stopped)
    }

    pub fn holds(&self) -> bool {
        self.stage == Holding && self.role.owns()
    }

    pub fn name(&self) -> [u8; 2] {
        [0x6E, 0x30u8.saturating_add(self.node)]
    }

    /// Writes the next request.
    fn ask(&mut self, random: &mut Random) -> Option<()> {
        let (role, name) = (self.role, self.name());
        let request = &mut self.visit.request;
        request.clear();
        request.extend_from_slice(role.asks).ok()?;
        if role.naming != Naming::Nameless {
            request.extend_from_slice(&name).ok()?;
        }
        if role.registers() {
            request.extend_from_slice(&[0, 0]).ok()?;
        }
        if role.noise > 0 {
            for _ in 0..random.below(role.noise) {
                request.push(random.below(256) as u8).ok()?;
            }
        }
        self.visit.sent = 0;
        Some(())
    }

    fn connect(&mut self, world: &mut World) -> Option<()> {
        let random = &mut world.weather.random;
        let place = self.is_local.then(|| random.below(LISTENERS as u64));
        self.visit.wire = world.connect(place.unwrap_or(0) as usize, self.is_local);
        let number = self.visit.wire?;
        self.ask(&mut world.weather.random)?;
        if self.role.reading == ReadHabit::Nothing {
            world.network.wires.get_mut(number)?.peer.room = 1;
        }
        Some(())
    }

    fn come(&mut self, world: &mut World) {
        if self.connect(world).is_none() {
            // The backlog is full. TCP retries after a second.
            self.next_at = world.now.saturating_add(1_000_000);
            return;
        }
        count(&mut world.network.tally.connections);
        if self.visit.came_at > 0 && self.role.naming == Naming::Holds {
            count(&mut world.network.tally.restarts);
        }
        self.visit.came_at = world.shown();
        self.stage = Sending;
        self.next_at = world.now;
    }

    /// Returns when the peer sends the next part of its request.
    fn goes_on_at(&self, now: u64, random: &mut Random) -> u64 {
        // The timeout begins at the first scan, and ends at the scan after five seconds.
        let until_late = TARDY_US.saturating_sub(now).saturating_add(20_000);
        let most = self.role.pause_us.unwrap_or(until_late);
        let next_at = now.saturating_add(random.between(most.saturating_sub(20_000), most));
        match self.role.pause_us {
            None if self.scenario.burst_us > 1 => self.scenario.burst_after(now),
            _ => next_at,
        }
    }

    fn say(&mut self, world: &mut World, wire: usize) {
        let most = match self.role.piece {
            Some(most) => most,
            None if world.happens(Fault::Dripped) => 1,
            None => world.weather.random.between(1, 64) as usize,
        };
        let visit = &mut self.visit;
        let end = visit.sent.saturating_add(most).min(visit.request.len());
        if let Some(piece) = visit.request.get(visit.sent..end) {
            world.send(wire, piece);
        }
        visit.sent = end;
        if end < visit.request.len() {
            self.next_at = self.goes_on_at(world.now, &mut world.weather.random);
            return;
        }
        visit.asked_at = world.now;
        visit.stopped_before = world.clock.stopped;
        self.asked_after = world.shown().saturating_sub(visit.came_at);
        self.next_at = u64::MAX;
        self.stage = Waiting;
        if self.role.asks_once && world.happens(Fault::Shut) {
            world.end(wire, Ending::Shut);
        }
        self.go_on(world);
    }

    fn go_on(&mut self, world: &mut World) {
        match self.role.next {
            RoleStep::Waits if self.is_slow() => {
                let is_late = world.weather.random.happens(100);
                self.next_at = world.after(if is_late { 3_000_000 } else { 50_000 });
            }
            RoleStep::Waits => {}
            RoleStep::Stays => self.hold(world),
            RoleStep::Drips => {
                self.stage = Sending;
                self.visit.sent = 0;
                self.visit.request.truncate(1);
                self.next_at = world.after(400_000);
            }
        }
    }

    fn hold(&mut self, world: &mut World) {
        self.stage = Holding;
        let is_long = world.weather.random.happens(100);
        let hold_us = self.scenario.hold_us;
        let next_at = world.after(if is_long { 1_800_000_000 } else { hold_us });
        self.next_at = self.scenario.burst_after(next_at);
    }

    /// Closes the connection, to return within `most` microseconds.
    fn leave(&mut self, world: &mut World, most: u64) {
        if let Some(wire) = self.visit.wire.take() {
            let resets = world.happens(Fault::Reset);
            let ending = if resets { Ending::Reset } else { Ending::Gone };
            world.end(wire, ending);
        }
        self.stage = if self.visit.is_last { Gone } else { Away };
        let next_at = world.after(most);
        let burst_at = self.scenario.burst_after(next_at);
        self.next_at = match self.role.comes {
            Comes::Alone => next_at,
            Comes::Together => burst_at,
            Comes::Apart => burst_at.saturating_add(self.scenario.burst_us / 4),
        };
    }

    fn hear(&mut self, world: &mut World, number: usize) -> Option<Wrong> {
        world.receive(number, self.role.reading as usize);
        let heard = self.own(world)?.heard();
        let (waits, registers) = (self.stage == Waiting, self.role.registers());
        let is_whole = (registers && heard.bytes >= 6)
            || (!registers && heard.bytes > 0 && heard.is_over);
        let has_ended = heard.is_over || heard.is_reset;
        if waits && is_whole {
            // A node hears of an end that follows its reply.
            if let Some(wire) = world.network.wires.get_mut(number) {
                wire.peer.has_news = has_ended;
            }
            return self.take(world);
        }
        if has_ended {
            let mut wrong = self.judge_lost(heard);
            if waits {
                count(&mut world.network.tally.unanswered);
                wrong = self.judge_unanswered(heard);
            }
            self.leave(world, 50_000);
            return wrong;
        }
        if !waits {
            self.next_at = self.next_at.max(world.now.saturating_add(1));
        } else if self.is_slow() {
            self.next_at = world.after(20_000);
        }
        None
    }

    /// Takes an answer.
    fn take(&mut self, world: &mut World) -> Option<Wrong> {
        let tally = &mut world.network.tally;
        count(&mut tally.answers);
        if !self.is_slow() {
            tally.longest = tally.longest.max(self.waited(world.now));
        }
        if self.role.registers() {
            return self.take_result(world);
        }
        if self.own(world)?.received.starts_with(b"STOPPED") {
            let stopped = world.network.stopped.get_mut(self.node as usize);
            *stopped? = (self.visit.asked_at, world.now);
        }
        self.leave(world, 200_000);
        None
    }

    /// Takes the result of a registration. A node holds its name, and a rival closes its connection.
    fn take_result(&mut self, world: &mut World) -> Option<Wrong> {
        let result = self.own(world)?.received.get(1).copied();
        let (owns, mut wrong) = (self.role.owns(), None);
        if result == Some(0) {
            count(&mut world.network.tally.registrations);
        } else {
            count(&mut world.network.tally.refused);
            wrong = self.judge_refused(world.now);
        }
        if result == Some(1) {
            world.notices.note(Subject::InUse, world.now);
        }
        if result != Some(0) || !owns {
            self.leave(world, if owns { 50_000 } else { self.role.away_us });
            return wrong;
        }
        wrong = self.judge_let_in(world.now);
        self.hold(world);
        self.held_since = world.now;
        if self.role.naming == Naming::Talks {
            self.next_at = world.now;
        }
        wrong
    }

    fn talk(&mut self, world: &mut World, wire: usize) {
        let most = self.scenario.talk_bytes;
        world.send(wire, TALK.get(..most).unwrap_or(TALK));
        self.next_at = world.after(200);
        if world.weather.random.happens(2) {
            self.leave(world, self.role.away_us);
        }
    }

    /// Acts once. Returns the text of a check that failed.
    pub fn act(&mut self, world: &mut World) -> Option<Wrong> {
        let Some(wire) = self.visit.wire else {
            self.come(world);
            return None;
        };
        if self.has_news(world) || (self.is_slow() && self.waited(world.now) > 0) {
            return self.hear(world, wire);
        }
        match self.stage {
            Sending => self.say(world, wire),
            Holding if self.role.naming == Naming::Talks => self.talk(world, wire),
            Holding => self.leave(world, self.role.away_us),
            Waiting | Away | Gone => self.next_at = u64::MAX,
        }
        None
    }

    /// Ends the storm for this peer. A holder keeps its name, and any other peer leaves permanently.
    pub fn retire(&mut self, world: &mut World) {
        self.visit.is_last = true;
        if self.stage != Holding || self.role.naming != Naming::Holds {
            self.leave(world, 1);
        }
        self.next_at = u64::MAX;
    }
}
