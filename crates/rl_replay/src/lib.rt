//! A node's replica, which replays the logs of all streams up to the watermark.
#![tactic(auto)]

mod cursor;
pub mod laws;
mod newest;
pub mod played;
pub mod replica;
