//! Events of a script, and the lines that say them.
#![tactic(auto)]

pub mod event;
pub mod expand;
pub mod kind;
pub mod line;
pub mod printed;
pub mod word;
