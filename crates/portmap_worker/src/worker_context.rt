//! The values that the workers of a daemon share, and the work of each worker.
use crate::shared::Shared;
use crate::socket_source::SocketSource;
use crate::sockets::Sockets;
use crate::system::{System, Wake};
use crate::{Gate, serve_links};
use portmap_book::Desk;
use portmap_operator::Host;
use std::alloc::Global;
use std::rt::Clock;
use std::sync::Wait;
use std::sync::ledger::Ledger;

/// The values that the workers of a daemon share.
#[derive(Drop)]
pub struct WorkerContext<'a, L: Ledger, W: Wake, G: Gate> {
    pub desk: &'a Desk<L>,
    pub shared: &'a Shared<W>,
    pub gate: &'a G,
}

impl<L: Ledger, W: Wake, G: Gate> WorkerContext<'_, L, W, G> {
    /// Serves as the worker with these sockets, until the port mapper has halted or nothing more can be served. Then it
    /// stops all other workers. This call blocks.
    pub fn work<S: System<Waker = W>, R: Host + Wait + Clock>(
        &self,
        rt: &R,
        alloc: Global,
        sockets: Sockets<S>,
    ) {
        let worker = sockets.worker;
        let served = self.serve(rt, alloc, sockets).unwrap_or(0);
        self.shared.end_worker(worker, served);
    }

    /// Returns how many acts the worker made, or `None` if there is no seat or no worker of its index.
    fn serve<S: System<Waker = W>, R: Host + Wait + Clock>(
        &self,
        rt: &R,
        alloc: Global,
        sockets: Sockets<S>,
    ) -> Option<u64> {
        let number = sockets.number();
        let seat = self.desk.seat(rt, number)?;
        let source = SocketSource::new(rt, alloc, self.desk, self.shared, sockets)?;
        let outcome = serve_links(rt, alloc, self.desk, seat, number, source, self.gate);
        Some(outcome.served)
    }
}
