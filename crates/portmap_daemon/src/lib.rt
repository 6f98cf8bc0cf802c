//! The daemon over sockets: its threads, `mio`, and its start and end. Its workers are those of `portmap_worker`. It
//! also exports calls of that crate, of `portmap_recorder` and of `portmap_operator`.
//!
//! # Guarantees
//! - `run` and `run_gated` require at least one address, 1 to 64 workers, and a timeout of 1 to 86,400 seconds. They
//!   return one count for each worker. `Listen(i)` names an address of the list. `run_over` is the same over sockets
//!   that listen already.
//! - These functions are exact: where a socket listens (`address_at`), at which IPv6 address another socket listens
//!   (`beside`, `address_of`), what says that there is no IPv6 (`lacks_ipv6`), what a poll reports (`report_of`) and
//!   whether it may have more to report (`is_full`).
//! - These are exact too: the address of a peer (`ip_in`), what an end says of the recording (`has_recorded`), and with
//!   which fault (`fault_of`).
//!
//! # Not covered
//! Of sockets and threads only safety is proved. That the counts are right, that `recorded` reports an incomplete
//! recording, and that the exact functions are called is tested only.
//!
//! The `README.md` of this crate shows a proved caller, and lists errors and allocation.
#![tactic(auto)]

mod daemon;
mod descriptors;
mod limits;
mod listening;
mod mio_system;
mod recording;
mod reports;

pub use crate::daemon::{RunEnd, RunFault, Settings, run, run_gated, run_over};
pub use crate::limits::{TIMEOUT_SECONDS_MOST, numbers_are_the_profiles};
pub use crate::listening::{HandedFault, beside, handed_over, lacks_ipv6};
pub use crate::mio_system::{MioStream, MioSystem, MioWaker};
pub use portmap_operator::{Host, Notice, RecordFile, Refused, shown, try_make};
pub use portmap_recorder::{FILE_BYTES_MOST, Recorder};
pub use portmap_worker::{Carrier, Gate, Next, Open, Outcome, Point, Source, Turn, serve};
