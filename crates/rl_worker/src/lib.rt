//! One worker of an open leader, and the law of all of them.
#![tactic(auto)]

pub mod act;
pub mod cells;
mod commit;
pub mod laws;
pub mod opening;
mod reading;
mod reads;
pub mod words;
pub mod worker;
