//! Tests of the libraries beyond the stories: long random lists of events, workers on one table, gathering segments and
//! tickets, the scheduler's orders, the client over sockets, and the adapters of readers and writers.
#![tactic(auto)]

#[cfg(test)]
mod chance;
#[cfg(test)]
mod client;
#[cfg(test)]
mod desk;
#[cfg(test)]
mod link;
#[cfg(test)]
mod refusals;
#[cfg(test)]
mod scheduler;
#[cfg(test)]
mod segments;
