//! The command `epmd` but for its `main`: its words, settings, actions, texts and statuses.
//!
//! # Guarantees
//! - `do_once`, `do_file`, `do_client`, `do_audit` and `do_health` end with status 0 if and only if all went well. The
//!   status of `end_daemon` is exact.
//! - The text on standard error is exact: for each failure (`fail`), for words (`refuse`), for passed sockets
//!   (`refuse_handed`, `report_without_effect`), for the files of a recording (`do_audit`) and for the end of a daemon
//!   (`end_daemon`). It is that text and nothing else, or a prefix of it if no more could be written.
//! - If all went well, standard error gets nothing (`silent` of each), except what is missing of a recording.
//! - Which names are files of a recording is exact (`number_of`), and so is a line that names a file (`name_file`,
//!   `say_reason`).
//! - `read_words`: the words spell items, and at most one is an action. Each field is set by the last item for it, else
//!   by the environment, else to its default, and is in range. A fault names a word that is there.
//!
//! # Tested only
//! That all files of a recording are found and checked. That the lines of passed sockets and those that name a file are
//! printed. That the fault is the first bad word, and that a command has none. That a flushed output has passed on its
//! bytes. That each step of a health check is a request to its address.
#![tactic(auto)]

pub mod actions;
pub mod addresses;
pub mod auditing;
pub mod commands;
pub mod daemon;
pub mod errors;
pub mod faults;
pub mod figures;
pub mod files;
pub mod handing;
pub mod health;
pub mod help;
pub mod items;
pub mod numbers;
pub mod plan;
pub mod program;
pub mod words;
