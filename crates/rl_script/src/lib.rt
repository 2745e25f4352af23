//! Reads a script, and prints it.
#![tactic(auto)]

mod draft;
pub mod fault;
mod line;
mod operation;
pub mod printed;
mod requests;
mod schedule;
pub mod script;
mod settings;
mod word;
