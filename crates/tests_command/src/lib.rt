//! What no clause says of the command: its words, settings, texts and statuses, and what it takes from the system.
#![tactic(auto)]

#[cfg(test)]
mod actions;
#[cfg(test)]
mod auditing;
#[cfg(test)]
mod commands;
#[cfg(test)]
mod handing;
#[cfg(test)]
mod health;
#[cfg(test)]
mod printed;
#[cfg(test)]
mod program;
#[cfg(test)]
mod settings;
#[cfg(test)]
mod typed;
#[cfg(test)]
mod words;
