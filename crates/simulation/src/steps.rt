//! The source of a worker, step by step.
use crate::system::{SharedWorld, SimHost, SimStream, SimThread};
use portmap_worker::{Link, LinkSource, Next, Serve, SocketSource, Turn};
use std::sync::Wait;
use std::sync::ledger::Ledger;

/// A key of no link.
const NO_KEY: u64 = u64::MAX;

/// A step: its time, its actor, and the turn of that worker.
#[derive(Clone, Copy)]
pub struct Step {
    pub now: u64,
    pub actor: usize,
    pub turn: Option<Turn>,
}

/// A source that runs one step for each turn, and notes the turn in the world.
#[derive(Drop)]
pub struct Stepped<'a, L: Ledger, R: Wait + Drop> {
    pub source: SocketSource<'a, L, SimThread, SimHost<R>>,
    pub world: SharedWorld,
    pub thread: usize,
}

impl<L: Ledger, R: Wait + Drop> Stepped<'_, L, R> {
    /// Returns the connection of a link, and whether reported bytes are unread.
    fn connection(&self, key: u64) -> Option<(usize, bool)> {
        let number = self.source.held(key)?.stream().number;
        let world = self.world.try_borrow().ok()?;
        let wire = world.network.wires.get(number)?;
        let is_unread = wire.readiness.is_reported && !wire.peer.up.is_empty();
        Some((number, is_unread))
    }

    /// Returns the connection of a link if it keeps a registration back.
    fn registration(&self, key: u64) -> Option<usize> {
        let link = self.source.held(key)?;
        link.asked_name()?;
        Some(link.stream().number)
    }
}

impl<L: Ledger, R: Wait + Drop> LinkSource for Stepped<'_, L, R> {
    type Link = Link<SimStream>;

    fn turn(&mut self) -> Turn {
        let delivered = self.source.step();
        let turn = delivered.unwrap_or(Turn::Ready(NO_KEY));
        let met = match turn {
            Turn::Fresh { key, local: _ } | Turn::Late(key) => self.connection(key),
            Turn::Ready(_) | Turn::Idle | Turn::Stop => None,
        };
        let kept = match turn {
            Turn::Ready(key) => self.registration(key),
            _ => None,
        };
        if let Ok(mut world) = self.world.try_borrow_mut() {
            world.note_turn(self.thread, delivered, met);
            if let Some(number) = kept {
                world.note_registration(self.thread, number);
            }
        }
        turn
    }

    fn lend<U: Serve<Self::Link>>(
        &mut self,
        key: u64,
        is_last: bool,
        server: &mut U,
    ) -> Option<Next> {
        self.source.lend(key, is_last, server)
    }

    fn end(&mut self, key: u64) {
        self.source.end(key);
    }
}
