//! A worker: it carries bytes between links and a desk, whichever system its links come from. It has no threads and no
//! sockets: these are `portmap_daemon`'s, and the simulation has a world of its own.
//!
//! # Guarantees
//! - `Carrier::ready`, over any link and gate, offers what waits, then pulls once, unless a close is due. If it returns
//!   a position and an answer, these are the desk's for the bytes of that pull. The bytes that it wrote, followed by
//!   those that wait, are then the bytes that waited before and the reply. What is next is exact.
//! - If `Carrier::ready` returns no answer, nothing is lost, the seat is unchanged, and what is next says why. Over all
//!   its calls the written bytes are a prefix of the replies, in order (`only_answers_are_written`).
//! - `serve` returns the seat, whose count has risen by what it says it served.
//! - The states of a worker's links, and FIFO order, are those of `portmap_scheduler`. By clauses of the source, a turn
//!   serves the first link of the queue (`pop`), the last link gets its state before another one is served, and the
//!   poll may wait only while nothing is queued (`ask`). Between two polls there is a limited number of turns, but for
//!   those of a request that was kept back and of a peer that reads nothing (`take_turn`). The epoch that is
//!   passed had begun before the poll was asked (`poll_after`).
//! - A queued link is handed out or ended within a number of turns (`queued_are_served`), and no wake-up of an idle
//!   link is lost (`AllQuiet`, `Keeps`).
//! - A `Worker` holds a token if and only if its source, a `LinkSource`, has its link (`Agree`).
//! - Each permit that is acquired is a `Permit`, made by `Quota::take` alone and released when it is dropped. The quota
//!   therefore counts what links have.
//! - These decisions are exact functions over values:
//!   - Which connections are open: `is_free`, `is_evicted_before`, `spares_local`, `may_reset`, `unread_since`,
//!     `poll_timeout`, `is_held`, `acceptors_without`, `accept_error`, `starved_for`, `cause_of`.
//!   - The times of a link: `may_move`, `since_at`, `expire`, `take_late`. How a request waits: `immediate_turn`,
//!     `Waiting::next`, `take_list`.
//!   - When the log is drained, and when a recording that failed is tried again: `is_due`, `is_tried`.
//! - `System`, `Stream` and `Wake` are what workers ask of the system. Contracts ask of its answers only that `report`
//!   returns what the last poll reported, that `watch` shows which requests the poll accepted, and that a read or a
//!   write moves no more bytes than there is room for.
//!
//! # Tested and simulated only
//! That a worker continues to take turns, and serves a link that was handed out through `ready` alone. That the notes
//! of a link are its reads, its writes and all reports. That a connection that a worker lets go is closed at the desk.
//! That `serve` answers every connection and ends. That a peer that waits for a permit gets one or is closed. That the
//! decisions are asked.
//!
//! The `README.md` of this crate shows a proved caller, and lists errors and allocation.
#![tactic(auto)]

mod accept_scheduler;
mod admission;
mod carrier;
mod drain;
mod ending;
mod epochs;
mod first_piece;
mod gate;
mod laws;
mod limits;
mod link;
mod listener;
mod loop_state;
mod memory;
mod news;
mod open_link;
mod peer;
mod pending;
mod polling;
mod quota;
mod readiness;
mod schedule;
mod serving;
mod shared;
mod socket_source;
mod sockets;
mod source;
mod system;
mod timer;
mod unsent;
mod worker_context;

pub use crate::carrier::{Carrier, Next};
pub use crate::drain::{Drain, Drained, drain_log};
pub use crate::ending::{Shutdown, ShutdownCause};
pub use crate::gate::{Gate, Open, Point};
pub use crate::laws::{only_answers_are_written, queued_are_served};
pub use crate::limits::{
    EVENTS_MOST, PULL_BYTES_MOST, UNSENT_BYTES_MOST, numbers_are_the_profiles,
};
pub use crate::link::Link;
pub use crate::news::SharedActivity;
pub use crate::peer::is_local_peer;
pub use crate::serving::{Outcome, Worker, serve, serve_links};
pub use crate::shared::{Shared, WorkerState};
pub use crate::socket_source::SocketSource;
pub use crate::sockets::Sockets;
pub use crate::source::{HandsOut, LinkSource, Serve, Source, Turn};
pub use crate::system::{Interest, Report, Stream, System, Wake};
pub use crate::worker_context::WorkerContext;
