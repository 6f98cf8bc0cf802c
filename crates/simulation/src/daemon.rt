//! The parts of a daemon in a world, which run step by step.
use crate::run::Case;
use crate::scene::Scene;
use crate::system::{SimFile, SimHost, SimThread};
use portmap_book::{Desk, Seat};
use portmap_recorder::{RecordQueue, RecordWriter};
use portmap_worker::{Drain, Drained, LinkSource, Open, Shared, Turn, Worker};
use std::alloc::Global;
use std::sync::Wait;
use std::sync::ledger::Ledger;

/// The state that all parts share.
#[derive(Drop)]
pub struct Around<'a, L: Ledger, R: Wait + Drop> {
    pub(crate) alloc: Global,
    pub(crate) case: &'a Case,
    pub(crate) host: &'a SimHost<R>,
    pub(crate) desk: &'a Desk<L>,
    pub(crate) shared: &'a Shared<SimThread>,
    pub(crate) queue: &'a RecordQueue,
}

/// The workers of the daemon. An ended worker is `None`.
pub type SimWorkers<'a, L, S, R> = Vec<Option<Worker<'a, L, S, Open, SimHost<R>>>>;

#[derive(Drop)]
pub struct Daemon<'a, L: Ledger, S: LinkSource + Drop, R: Wait + Drop> {
    pub(crate) around: &'a Around<'a, L, R>,
    pub(crate) scene: Scene<'a>,
    pub(crate) workers: SimWorkers<'a, L, S, R>,
    /// The seats of ended workers. Once a worker ends, all must end.
    pub(crate) seats: Vec<Seat<L>>,
    /// The connections in the order in which the desk opened them.
    pub(crate) opened: Vec<usize>,
    pub(crate) drain: Drain<'a>,
    pub(crate) is_drained: bool,
    pub(crate) writer: RecordWriter<SimFile>,
    /// The recording thread has not ended.
    pub(crate) is_writing: bool,
}

impl<'a, L: Ledger, S: LinkSource + Drop, R: Wait + Drop> Daemon<'a, L, S, R> {
    /// Runs one step of an actor that is due, or lets time pass up to `until`. Returns `None` if memory runs out.
    pub(crate) fn step(&mut self, until: u64) -> Option<()> {
        let has_parts = self.is_writing && !self.around.queue.is_idle(self.around.host);
        let Some((actor, is_kept)) = self.scene.choose(has_parts, until)? else {
            return Some(());
        };
        if !is_kept {
            self.act(actor)?;
        }
        self.scene.on_step(actor)
    }

    /// Runs an actor: a worker, the drain, the recording thread, or a peer.
    fn act(&mut self, actor: usize) -> Option<()> {
        match actor.checked_sub(self.scene.workers) {
            None => self.work(actor),
            Some(0) => self.take_out(),
            Some(1) => self.write(),
            Some(place) => {
                let mut world = self.scene.world()?;
                let person = self.scene.people.get_mut(place.saturating_sub(2))?;
                let wrong = person.act(&mut world);
                self.scene.note(wrong);
                Some(())
            }
        }
    }

    /// Runs a turn of a worker.
    fn work(&mut self, number: usize) -> Option<()> {
        let shared = self.around.shared;
        let was_unanswered = shared.noted.is_unanswered();
        let worker = self.workers.get_mut(number)?.as_mut()?;
        let acts = worker.acts();
        let (goes_on, has_acted) = (worker.turn(), worker.acts() > acts);
        // A connection ended unanswered, for the first time since the drain last looked.
        let is_unanswered = !was_unanswered && shared.noted.is_unanswered();
        let mut world = self.scene.world()?;
        let is_heeded = !is_unanswered || world.is_due(self.scene.workers);
        let met = world.met(number, goes_on);
        drop(world);
        self.scene
            .check(is_heeded, "an end without an answer is not looked into");
        match met {
            Some((Turn::Fresh { .. }, (fresh, _))) if has_acted => self.opened.push(fresh).ok()?,
            Some((Turn::Late(_), (late, has_news))) => self.scene.judge_late(late, has_news)?,
            _ => {}
        }
        if goes_on {
            return Some(());
        }
        let seat = self.workers.get_mut(number)?.take()?.leave();
        shared.end_worker(number, seat.count());
        self.seats.push(seat).ok()
    }

    /// Runs a turn of the drain.
    fn take_out(&mut self) -> Option<()> {
        let around = self.around;
        let is_owed = self.scene.world()?.is_starved() && around.shared.noted.is_unanswered();
        let (drain, alloc) = (&mut self.drain, self.scene.alloc);
        let drained = drain.turn(around.host, alloc, around.desk, around.shared);
        self.scene.drains = self.scene.drains.saturating_add(1);
        if let Drained::Wait(timeout) = drained {
            let is_out = self.weight() == 0;
            return self.scene.judge_wait(timeout, is_owed, is_out);
        }
        self.is_drained = true;
        self.scene.world()?.met(self.scene.workers, false);
        around.queue.close(around.host);
        Some(())
    }

    /// Runs a turn of the recording thread.
    fn write(&mut self) -> Option<()> {
        let around = self.around;
        self.is_writing = self.writer.turn(around.host, around.alloc, around.queue);
        let has_failed = around.queue.has_failed(around.host);
        self.scene.world()?.note_written(has_failed);
        Some(())
    }

    /// Returns whether a worker has ended or must end.
    pub(crate) fn has_ended(&self) -> bool {
        !self.seats.is_empty() || self.around.desk.halted(self.around.host)
    }

    pub(crate) fn weight(&self) -> u64 {
        self.around.desk.weight(self.around.host)
    }
}
