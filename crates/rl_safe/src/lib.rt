//! Laws of every run of all nodes: what is safe in it.
#![tactic(auto)]

pub mod laws;
