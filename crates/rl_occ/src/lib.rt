//! Attempts to commit a transaction on shared records: it runs on one pass, locks what it writes, draws its stamp,
//! validates what it read, and installs its writes.
#![tactic(auto)]

pub mod attempt;
mod commit;
mod lock;
pub mod outcome;
mod read;
mod release;
pub mod sets;
