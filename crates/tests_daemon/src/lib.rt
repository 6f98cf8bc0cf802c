//! Tests of the daemon beyond clauses and stories: two workers over memory, the daemon over sockets of this host, and
//! its recordings.
#![tactic(auto)]

#[cfg(test)]
mod addresses;
#[cfg(test)]
mod clocks;
#[cfg(test)]
mod daemon;
#[cfg(test)]
mod drains;
#[cfg(test)]
mod files;
#[cfg(test)]
mod gates;
#[cfg(test)]
mod host;
#[cfg(test)]
mod links;
#[cfg(test)]
mod listening;
#[cfg(test)]
mod memory;
#[cfg(test)]
mod places;
#[cfg(test)]
mod polls;
#[cfg(test)]
mod recordings;
#[cfg(test)]
mod refusals;
#[cfg(test)]
mod workers;
