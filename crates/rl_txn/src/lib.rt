//! Transactions, what they do, and what is kept of those that have run.
#![tactic(auto)]

pub mod batch;
pub mod eval;
pub mod item;
pub mod laws;
pub mod op;
pub mod row_set;
pub mod run;
pub mod serial;
pub mod workspace;
pub mod write;
