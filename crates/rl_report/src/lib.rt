//! Reports of runs: their parts, their printed form, and how that is read back.
#![tactic(auto)]

pub mod block;
pub mod fault;
pub mod laws;
pub mod lent;
pub mod line;
mod line_forms;
mod line_words;
pub mod middle;
pub mod parse;
pub mod printed;
pub mod report;
pub mod rows;
