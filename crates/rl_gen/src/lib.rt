//! Scripts that are generated from a number.
#![tactic(auto)]

pub mod generate;
mod requests;
mod schedule;
