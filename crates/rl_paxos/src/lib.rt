//! What acceptors, leaders and candidates of several streams say and keep.
#![tactic(auto)]

pub mod laws;
pub mod refused;
