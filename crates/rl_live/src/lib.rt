//! The session of a leader's workers, each in a thread of its own: what they decide is serial.
#![tactic(auto)]

mod attempt;
pub mod election;
pub mod gate;
mod handing;
mod history;
mod join;
pub mod laws;
mod line;
mod open;
pub mod run;
pub mod session;
mod tables;
mod work;
pub mod worker;
