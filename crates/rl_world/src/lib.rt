//! The world of all nodes, in which the events of a script happen.
#![tactic(auto)]

mod blocks;
mod copies;
mod delivering;
mod happening;
pub mod laws;
mod lines;
mod releases;
mod run;
mod showing;
mod stepping;
mod told;
pub mod world;
pub mod world_error;
