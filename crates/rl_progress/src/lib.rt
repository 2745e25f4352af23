//! How far each stream has come, as threads share it: one word for each stream, and seats from which threads
//! publish and read.
#![tactic(auto)]

pub mod progress;
mod rule;
pub mod seat;
mod steps;
#[cfg(test)]
mod tests;
