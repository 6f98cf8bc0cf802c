//! Helpers for the tests of several crates. No program uses this crate.
#![tactic(auto)]

pub mod books;
pub mod bytes;
pub mod cases;
pub mod entries;
pub mod marks;
pub mod nodes;
pub mod peers;
pub mod sessions;
pub mod streams;
pub mod tape;
