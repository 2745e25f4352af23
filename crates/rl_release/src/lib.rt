//! The queue in which replies wait for the watermark.
#![tactic(auto)]

pub mod queue;
