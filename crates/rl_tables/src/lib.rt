//! Record numbers.
#![tactic(auto)]

pub mod laws;
pub mod layout;
