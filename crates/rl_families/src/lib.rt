//! Families of logs, one for each worker's stream: what they decide together, and the laws of it.
#![tactic(auto)]

pub mod laws;
