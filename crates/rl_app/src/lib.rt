//! The commands of the program.
#![tactic(auto)]

pub mod answer;
pub mod checker;
pub mod command;
pub mod generator;
mod input;
pub mod live;
mod report;
mod run;
pub mod serial;
mod serve;
pub mod sim;
pub mod steps;
mod summary;
