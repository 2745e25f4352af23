//! Tests of nodes, and the nodes of a run for the benches.
#![tactic(auto)]

#[cfg(test)]
mod bad_messages;
pub mod cluster;
pub mod digits;
pub mod group;
#[cfg(test)]
mod runs;
#[cfg(test)]
mod streams;
