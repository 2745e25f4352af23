//! Tests of replay by threads, with families of items made from steps, and a plain sequential
//! replay to compare with.
#![tactic(auto)]

pub mod family;
#[cfg(test)]
mod replays;
pub mod sequential;
