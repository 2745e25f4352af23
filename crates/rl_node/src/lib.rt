//! One node: its acceptor, its replica, and its part as a candidate or a leader.
#![tactic(auto)]

mod accepting;
mod acking;
pub mod answer;
mod bad;
mod counting;
mod electing;
mod handling;
mod idling;
mod knowing;
mod laws;
pub mod node;
mod opening;
mod part;
mod playing;
mod proposing;
mod reading;
mod recovering;
mod running;
mod sending;
pub mod setup;
mod stepping;
mod viewing;
mod working;
mod wrong;

pub use rl_nodes::node_error::NodeError;
pub use rl_nodes::view::{NodeView, Role, State, StreamView, StreamViews};
