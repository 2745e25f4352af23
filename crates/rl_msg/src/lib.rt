//! The messages of nodes, and their bytes.
#![tactic(auto)]

pub mod decode;
pub mod encode;
mod head;
pub mod laws;
mod log;
pub mod msg;
pub mod msg_error;
