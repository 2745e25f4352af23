//! Checks the report of a run of threads against its script.
#![tactic(auto)]

pub mod check;
pub mod input;
pub mod laws;
mod nodes;
mod rerun;
mod rows;
mod stamps;
pub mod verdict;
