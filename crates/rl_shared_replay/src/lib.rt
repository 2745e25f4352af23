//! Replay by threads: one thread for each stream, over records as shared words, where the newer
//! stamp wins.
#![tactic(auto)]

mod make;
pub mod parts;
mod read;
mod records;
pub mod replay;
mod rule;
mod run;
mod seat;
mod steps;
mod update;
mod view;
mod work;
