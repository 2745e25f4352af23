//! Lines, words and numbers of a text.
#![tactic(auto)]

pub mod number;
pub mod printed;
pub mod text;
