//! A case: a daemon that serves peers in a world.
ghost use Rattle.std.specs.Prelude.{◌≡◌};

use crate::checks::Wrong;
use crate::daemon::{Around, Daemon, SimWorkers};
use crate::disk::PATH;
use crate::judge::judge;
use crate::people::{Counts, people_of};
use crate::scenario::Scenario;
use crate::scene::Scene;
use crate::steps::{Step, Stepped};
use crate::system::{SimFile, SimHost, SimThread};
use crate::weather::{Fault, FaultCounts};
use crate::world::World;
use portmap_book::{Book, Desk, PARTS, Seat};
use portmap_core::Config;
use portmap_recorder::{RecordQueue, RecordWriter};
use portmap_worker::{Drain, LinkSource, Open, Shared, SocketSource, Sockets, Worker, WorkerState};
use std::alloc::Global;
use std::cell::RefCell;
use std::mem;
use std::rc::Rc;
use std::sync::Wait;
use std::sync::ledger::{Blank, Ledger};

const KNOWN_MAX: u32 = 64;

/// The daemon ends within this time after memory is gone.
const STARVED_US: u64 = 20_000_000;

#[derive(Drop)]
pub struct Case {
    pub seed: u64,
    pub workers: u32,
    pub scenario: &'static Scenario,
    pub steps: u32,
    pub is_traced: bool,
}

/// The result of a case.
#[derive(Drop)]
pub struct Outcome {
    pub wrong: Option<Wrong>,
    pub tally: Counts,
    pub happened: FaultCounts,
    pub acts: u64,
    /// By the clock of the world.
    pub seconds: u64,
    pub trace: Option<Vec<Step>>,
}

/// The checksum covers this many faults in any case, and each later fault only if it happened. So a new fault changes
/// no checksum of an old case.
const FAULTS_ALWAYS: usize = 31;

/// The offset basis and the prime of 64-bit FNV-1a.
const FNV_BASIS: u64 = 0xCBF2_9CE4_8422_2325;

const FNV_PRIME: u64 = 0x0000_0100_0000_01B3;

/// Adds the bytes of a number to the hash, the lowest first.
fn fnv(sum: u64, number: u64) -> u64 {
    let mix = |sum: u64, byte: &u8| (sum ^ u64::from(*byte)).wrapping_mul(FNV_PRIME);
    number.to_le_bytes().iter().fold(sum, mix)
}

impl Outcome {
    /// Returns the hash of all counts but connections, registrations and restarts, in the order in which they are
    /// printed.
    pub fn checksum(&self) -> u64 {
        let (tally, acts, seconds) = (self.tally, self.acts, self.seconds);
        let [refused, answers] = [tally.refused, tally.answers].map(u64::from);
        let (longest, unanswered) = (tally.longest / 1000, u64::from(tally.unanswered));
        let counts = [refused, answers, longest, unanswered, acts, seconds];
        let mut sum = counts
            .iter()
            .fold(FNV_BASIS, |sum: u64, count| fnv(sum, *count));
        for (kind, count) in self.happened.iter().enumerate() {
            if kind < FAULTS_ALWAYS || *count > 0 {
                sum = fnv(sum, u64::from(*count));
            }
        }
        sum
    }
}

impl<'a, L: Ledger, S: LinkSource + Drop, R: Wait + Drop> Daemon<'a, L, S, R> {
    /// Runs the steps of a case until a check fails or the daemon ends. Returns whether the daemon still serves.
    fn storm(&mut self, case: &Case) -> Option<bool> {
        let steps = u64::from(case.steps);
        let killed_at = self.scene.world()?.weather.random.below(steps);
        for step in 0..steps {
            if step == killed_at {
                let disk = &mut self.scene.world()?.disk;
                disk.killed = disk.files.clone().ok()?;
            }
            self.step(u64::MAX)?;
            let weight = self.weight();
            let goes_on = self.scene.look(weight)?;
            if !goes_on || self.has_ended() {
                return Some(false);
            }
        }
        let is_heavy = self.scene.scenario.end_bytes == u64::MAX;
        self.scene
            .check(is_heavy, "the log never had as much as it is to end with");
        Some(true)
    }

    /// Runs a case: the storm, and then the checks at rest. If memory is gone and the scenario allows it, the daemon
    /// must end.
    fn run(&mut self, case: &Case) -> Option<()> {
        if !self.storm(case)? {
            return Some(());
        }
        let is_famished = self.scene.world()?.weather.has_happened(Fault::Famine);
        if is_famished {
            self.pass(STARVED_US)?;
            let is_over = !self.scene.scenario.may_end || self.has_ended();
            self.scene
                .check(is_over, "it goes on though nothing gets through");
        }
        if self.has_ended() {
            return Some(());
        }
        self.rest()
    }

    /// Runs a case to the end of the daemon, and returns its result.
    fn outcome(&mut self, case: &Case) -> Option<Outcome> {
        self.run(case)?;
        self.end()?;
        let seats = self.seats.iter();
        let acts = seats.fold(0, |sum: u64, seat| sum.saturating_add(seat.count()));
        let alloc = self.scene.alloc;
        let opened = mem::replace(&mut self.opened, Vec::new(alloc));
        self.scene.outcome(&opened, acts)
    }

    fn serve(mut self, case: &Case) -> Option<(Outcome, Vec<Seat<L>>)> {
        let outcome = self.outcome(case)?;
        let alloc = self.scene.alloc;
        Some((outcome, mem::replace(&mut self.seats, Vec::new(alloc))))
    }
}

impl<'a> Scene<'a> {
    /// Checks the ended daemon with these opened connections and acts, and returns the result of the case.
    fn outcome(&mut self, opened: &[usize], acts: u64) -> Option<Outcome> {
        let mut world = self.world()?;
        let mut chances = self.scenario.chances.iter();
        let is_seen = chances.all(|chance| world.weather.has_happened(chance.0));
        let unseen = (!is_seen).then_some("not all weather was seen");
        if world.memory.is_lost {
            return None;
        }
        let most = self.scenario.file_bytes_most;
        let found = judge(self.alloc, &mut world, opened, acts, most).err();
        Some(Outcome {
            wrong: self.wrong.or(found).or(unseen),
            tally: world.network.tally,
            happened: world.weather.happened,
            acts,
            seconds: world.now / 1_000_000,
            trace: self.trace.take(),
        })
    }
}

impl<'a, L: Ledger, R: Wait + Drop> Around<'a, L, R> {
    fn sources(&self) -> Option<Vec<Stepped<'a, L, R>>> {
        let (host, alloc) = (self.host, self.alloc);
        let mut sources = Vec::new(alloc);
        for thread in 0..self.case.workers as usize {
            let system = SimThread::of(&host.world, thread)?;
            let timeout = self.case.scenario.timeout_us / 1000;
            let sockets = Sockets::new(alloc, thread, system, timeout).ok()?;
            let source = SocketSource::new(host, alloc, self.desk, self.shared, sockets)?;
            let world = host.world.clone().ok()?;
            let stepped = Stepped {
                source,
                world,
                thread,
            };
            sources.push(stepped).ok()?;
        }
        Some(sources)
    }

    fn workers<S: LinkSource + Drop>(&self, sources: Vec<S>) -> Option<SimWorkers<'a, L, S, R>> {
        let mut workers = Vec::new(self.alloc);
        let mut number = 0u32;
        for source in sources {
            number = number.saturating_add(1);
            let seat = self.desk.seat(self.host, number)?;
            self.shared.ending.begin_one();
            let worker = Worker::new(self.host, self.alloc, self.desk, seat, source, &Open);
            workers.push(Some(worker)).ok()?;
        }
        Some(workers)
    }

    /// Serves the peers of the case by a worker for each source.
    fn simulate<S: LinkSource + Drop>(
        &'a self,
        sources: Vec<S>,
    ) -> Option<(Outcome, Vec<Seat<L>>)> {
        let (host, alloc, case) = (self.host, self.alloc, self.case);
        let workers = self.workers(sources)?;
        let scene = Scene {
            alloc,
            world: &host.world,
            scenario: case.scenario,
            workers: case.workers as usize,
            people: people_of(alloc, &mut *host.world.try_borrow_mut().ok()?)?,
            drains: 0,
            given_up: 0,
            wrong: None,
            is_ending: false,
            trace: case.is_traced.then_some(Vec::new(alloc)),
        };
        let places = case.scenario.conn_max;
        let drain = Drain::begin(host, alloc, self.desk, Some(self.queue), places, None).ok()?;
        let writer: RecordWriter<SimFile> = RecordWriter::new(case.scenario.file_bytes_most);
        let daemon = Daemon {
            around: self,
            scene,
            workers,
            seats: Vec::new(alloc),
            opened: Vec::new(alloc),
            drain,
            is_drained: false,
            writer,
            is_writing: true,
        };
        daemon.serve(case)
    }
}

/// Returns what the workers of a case share.
fn shared_of<R: Wait + Drop>(
    host: &SimHost<R>,
    alloc: Global,
    case: &Case,
) -> Option<Shared<SimThread>> {
    let mut states = Vec::new(alloc);
    for thread in 0..case.workers as usize {
        let waker = SimThread::of(&host.world, thread)?;
        states.push(WorkerState::new(waker)).ok()?;
    }
    let drain = SimThread::of(&host.world, case.workers as usize)?;
    let (places, unsent) = (case.scenario.conn_max, case.scenario.unsent_bytes_most);
    Some(Shared::new(host, states, drain, places, unsent))
}

fn book_of(alloc: Global, scenario: &Scenario) -> Option<Book> {
    let config = Config::new(4369, scenario.is_relaxed, scenario.conn_max, KNOWN_MAX).ok()?;
    Book::new(alloc, config, 4).ok()
}

/// Runs a case at a new desk.
fn at_desk<L: Ledger, R: Wait + Drop>(
    host: &SimHost<R>,
    alloc: Global,
    blank: Blank,
    case: &Case,
) -> Option<Outcome>
    requires name { blank.name ≡ L.name }
    requires parts { blank.parts ≡ L.parts }
    requires enough { blank.parts ≡ PARTS }
{
    let desk: Desk<L> = Desk::new(blank, book_of(alloc, case.scenario)?);
    let queue = RecordQueue::new(alloc, PATH.to_string(alloc).ok()?);
    let shared = shared_of(host, alloc, case)?;
    let around = Around {
        alloc,
        case,
        host,
        desk: &desk,
        shared: &shared,
        queue: &queue,
    };
    let (mut outcome, seats) = around.simulate(around.sources()?)?;
    let odd = desk
        .finish(seats)
        .is_err()
        .then_some("the seats don't add up");
    outcome.wrong = outcome.wrong.or(odd);
    Some(outcome)
}

/// Runs a case. Returns `None` if memory runs out.
pub fn run_case<L: Ledger, R: Wait + Drop>(
    rt: R,
    alloc: Global,
    blank: Blank,
    case: &Case,
) -> Option<Outcome>
    requires name { blank.name ≡ L.name }
    requires parts { blank.parts ≡ L.parts }
    requires enough { blank.parts ≡ PARTS }
{
    let world = Rc::new(alloc, RefCell::new(World::of(alloc, case)?)).ok()?;
    let host = SimHost { rt, world };
    at_desk::<L, R>(&host, alloc, blank, case)
}
