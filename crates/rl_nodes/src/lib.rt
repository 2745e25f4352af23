//! What a node is, and the world of all nodes: what each event does to them.
#![tactic(auto)]

pub mod laws;
pub mod node_error;
pub mod view;
