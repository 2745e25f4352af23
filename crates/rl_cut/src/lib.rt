//! Families of logs, and the history that the logs of all streams decide together.
#![tactic(auto)]

mod bounds;
mod due;
pub mod family;
mod lasts;
pub mod laws;
mod stamps;
