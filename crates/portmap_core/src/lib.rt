//! The port mapper's state machine: events in, answers out.
//!
//! # Guarantees
//! - `Core::event` makes one transition, or returns the first refusal that holds and changes nothing. The state stays
//!   valid.
//! - A close or a fault of an open slot is always answered until the machine halts. It never allocates. Nor does a
//!   timeout, or a chunk on a connection that holds a name or is done.
//! - `Core::entry` makes the same transition and returns its log entry. `Core::refusal` returns the refusal of `event`,
//!   whatever memory there is.
//! - `Core::run` applies any events, over any slots, in any order. An error has done nothing.
//! - `State::build` returns the state with these parts. It returns `None` if and only if slots do not rise, or a
//!   connection that is not waiting has bytes.
//! - `State::owned` returns whether a machine of the configuration may reach the state: whether it is valid.
//! - `State::step` returns true and moves the state if and only if the state is valid and the machine allows the entry.
//!   Otherwise it returns false and changes nothing.
//! - A `Replay` is made only of a valid state. It moves in the same way, stays valid, and finds names without a walk.
//! - `State::follow` makes the step of an entry that a machine has made in this very state. It trusts the entry, so an
//!   entry that changes no name costs no walk. It allocates only for a connect, for a chunk that does more than end
//!   its connection, and for the end of a connection that holds a name.
//! - `name_to_register` returns a name only of a chunk that is a complete registration of it.
//!
//! # Not covered
//! Which slot and which creation come next is left open. That `name_to_register` finds the name if memory is ample is
//! tested only.
//!
//! The `README.md` of this crate shows a proved caller, and lists errors and allocation.
#![tactic(auto)]

mod asked;
mod config;
mod connection;
mod connections;
mod event;
mod held;
mod held_slots;
mod laws;
mod live;
mod locality;
mod machine;
mod name_lists;
mod owning;
mod past;
mod registering;
mod replay;
mod serve;
mod state;
mod stepping;

pub use config::{Config, ConfigFault, LIMIT_MOST, numbers_are_the_profiles};
pub use connection::Phase;
pub use event::{Answer, Entry, Event, Fate, Refusal};
pub use held::Held;
pub use laws::{
    active_names_are_shown, ends_are_final, ends_leave_no_name, entries_determine,
    holders_outlast_their_time, kills_end_where_they_may, malformed_changes_no_name,
    names_belong_to_connections, names_that_left_are_not_found, refusals_give_the_right_result,
    registered_names_stay, remote_peers_may_only_look_up, runs_keep_limits, steps_keep_owned,
    taken_creations_are_new, written_is_whole,
};
pub use locality::{Ip, is_local};
pub use machine::Core;
pub use past::GhostList;
pub use portmap_table::{Old, Row};
pub use portmap_wire::{Name, NoMemory};
pub use registering::name_to_register;
pub use replay::Replay;
pub use state::State;
