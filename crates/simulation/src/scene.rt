//! What surrounds a daemon: the world, its peers, and the first failed check.
use crate::checks::Wrong;
use crate::people::Person;
use crate::scenario::Scenario;
use crate::steps::Step;
use crate::system::SharedWorld;
use crate::weather::Fault;
use crate::world::World;
use std::alloc::Global;
use std::cell::RefMut;

#[derive(Drop)]
pub struct Scene<'a> {
    pub(crate) alloc: Global,
    pub(crate) world: &'a SharedWorld,
    pub(crate) scenario: &'static Scenario,
    /// The number of workers.
    pub(crate) workers: usize,
    pub(crate) people: Vec<Person>,
    /// The number of turns of the drain.
    pub(crate) drains: u64,
    /// The number of evictions.
    pub(crate) given_up: u32,
    pub(crate) wrong: Option<Wrong>,
    /// The daemon must end or has ended, so no check applies.
    pub(crate) is_ending: bool,
    /// The steps of a traced case.
    pub(crate) trace: Option<Vec<Step>>,
}

/// The outer `None` of a result is a lack of memory.
impl<'a> Scene<'a> {
    /// Borrows the world for one look or one change.
    pub(crate) fn world(&self) -> Option<RefMut<'a, World>> {
        self.world.try_borrow_mut().ok()
    }

    // ---- who acts

    /// Returns when an actor is due. The actors are the workers, the drain, the recording thread, and the peers.
    fn due_at(&self, world: &World, actor: usize, has_parts: bool) -> Option<u64> {
        match actor.checked_sub(self.workers) {
            None | Some(0) => world.due_at(actor),
            Some(1) => has_parts.then_some(world.disk.stalled_until),
            Some(place) => self.people.get(place.saturating_sub(2))?.due_at(world),
        }
    }

    /// Chooses a due actor, and lets a moment pass. Returns whether a fault holds that actor. If no actor is due, time
    /// passes up to `until`, and the result is the inner `None`.
    pub(crate) fn choose(&mut self, has_parts: bool, until: u64) -> Option<Option<(usize, bool)>> {
        let mut world = self.world()?;
        let (mut due, mut next) = (Vec::new(self.alloc), until.min(world.network.lands_at()));
        let others = self.people.len().saturating_add(2);
        for actor in 0..self.workers.saturating_add(others) {
            match self.due_at(&world, actor, has_parts) {
                Some(at) if at <= world.now => due.push(actor).ok()?,
                Some(at) => next = next.min(at),
                None => {}
            }
        }
        if due.is_empty() {
            world.now = next.max(world.now);
            world.land();
            return Some(None);
        }
        let place = world.weather.random.below(due.len() as u64) as usize;
        let actor = due.get(place).copied()?;
        let is_slow = actor < self.workers && world.happens(Fault::Slow);
        let most = if is_slow { 2000 } else { 30 };
        let pause = world.weather.random.between(1, most);
        world.now = world.now.saturating_add(pause);
        world.land();
        Some(Some((actor, world.keeps(actor, self.workers))))
    }

    /// Notes a step for the trace.
    pub(crate) fn on_step(&mut self, actor: usize) -> Option<()> {
        let world = self.world()?;
        let (now, turn) = (world.now, world.last_turn(actor));
        match &mut self.trace {
            Some(trace) => trace.push(Step { now, actor, turn }).ok(),
            None => Some(()),
        }
    }

    // ---- what is known

    pub(crate) fn now(&self) -> u64 {
        self.world().map_or(u64::MAX, |world| world.now)
    }

    /// Returns the number of polls of all workers.
    pub(crate) fn polls(&self) -> Option<u64> {
        let world = self.world()?;
        let polls = world.workers().iter().map(|thread| thread.polls);
        Some(polls.fold(0, u64::saturating_add))
    }

    /// Returns the number of names that peers hold.
    pub(crate) fn holding(&self) -> usize {
        self.people.iter().filter(|person| person.holds()).count()
    }
}
