//! The election of a leader: promises are collected, and each stream's log is recovered from them.
#![tactic(auto)]

pub mod candidate;
pub mod laws;
mod promise;
pub mod recover_error;
