//! The messages of a network, and links that lose some.
#![tactic(auto)]

pub mod link;
pub mod message;
pub mod net;
pub mod net_error;
#[cfg(test)]
mod tests;
