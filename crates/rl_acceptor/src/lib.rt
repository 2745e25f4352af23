//! The acceptor of several streams under one promise.
#![tactic(auto)]

pub mod acceptor;
mod kept;

pub use rl_paxos::refused::Refused;
