//! Records as shared words: versions under stamps, lock bits, and passes from which threads read and commit.
#![tactic(auto)]

mod cells;
pub mod close;
mod install;
pub mod laws;
mod lock;
mod make;
pub mod pass;
mod rule;
pub mod spent;
mod steps;
pub mod store;
mod validate;
mod view;
