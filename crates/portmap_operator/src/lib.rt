//! What an operator reads of a running daemon: notices, in lines, and counters. The calls of the host write them.
//!
//! # Guarantees
//! - These texts are exact: each notice (`Notice::put`), the names in use and the requests of other hosts that were
//!   refused (`Refused`, `RemoteRefused`), and the reason why a write failed (`WriteFault::words`).
//! - Text that is printed cannot control a terminal (`shown`, `plain_text_stays`, `controls_are_escaped`).
//! - When a notice is due is an exact function of whether there is one, and of the seconds since the last (`notice`).
//! - What an entry of the log was is exact (`Slots::note`), and is named by the definitions of the replies
//!   (`replies_have_outcomes`).
//!
//! # Tested and simulated only
//! That the counters are the sums. That what was noted is written, once. That the host's calls make, truncate and
//! replace files as they say.
#![tactic(auto)]

mod activity;
mod figures;
mod host;
mod notice;
mod operator;
mod outcome;
mod refused;
mod remote;
mod showing;
mod write_fault;

pub use crate::activity::Activity;
pub use crate::host::{Host, RecordFile, try_make};
pub use crate::notice::{Notice, path_of};
pub use crate::operator::Operator;
pub use crate::outcome::{Outcome, Slots, replies_have_outcomes};
pub use crate::refused::Refused;
pub use crate::remote::{LocalRequest, RemoteRefused};
pub use crate::showing::{controls_are_escaped, plain_text_stays, shown};
pub use crate::write_fault::{WORDS_MOST, WriteFault};
