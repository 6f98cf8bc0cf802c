//! The names that a port mapper knows, active and retired, and the creations that it gives.
//!
//! # Guarantees
//! - Always: no name is known twice, no slot owns two names, no more names are known than the limit allows, and
//!   creations are in range.
//! - `offer` returns what `register` would give. `register`, and `admit`, which has the creation already, require that
//!   the slot owns no active name. If the name is not known and the limit is reached, the name that was retired longest
//!   ago is forgotten.
//! - Lookups and `retire` never allocate.
//! - `name_status` returns, by one lookup, whether a name is active, exceeds the limit, or is free, and then the
//!   creation that is remembered for it.
//! - `Table::of` returns a table of these names if and only if they meet the first rule.
//!
//! The `README.md` of this crate shows a proved caller, and lists errors and allocation.
#![tactic(auto)]

mod creation;
mod entries;
mod inserting;
mod laws;
mod name_status;
mod row;
mod table;

pub use creation::{COUNTER_LEAST, choice_is_legal, creation_for, numbers_are_the_profiles};
pub use laws::{
    names_outlive_connections, newest_names_stand_last, none_is_refused_for_retired_names,
    oldest_names_are_forgotten, other_names_stay, returning_names_get_another_creation,
};
pub use name_status::NameStatus;
pub use row::{Old, Retired, Row};
pub use table::{RegFault, Table};
