//! Tests of acceptors, leaders' streams and candidates.
#![tactic(auto)]

#[cfg(test)]
mod acceptors;
#[cfg(test)]
mod candidates;
#[cfg(test)]
mod leaders;
