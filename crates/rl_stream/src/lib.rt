//! The leader's side of a stream: proposals, acks, what is chosen and what to send again.
#![tactic(auto)]

mod acknowledged;
pub mod leader_stream;
pub mod propose_error;
