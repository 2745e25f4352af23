//! Stamps, record words, epochs, refusals, numbers as bytes and the lists that all crates speak of.
#![tactic(auto)]

pub mod bound;
pub mod epoch;
pub mod flaw;
pub mod laws;
pub mod limit;
pub mod list;
pub mod memory;
pub mod refusal;
pub mod slices;
pub mod stamp;
pub mod word;
