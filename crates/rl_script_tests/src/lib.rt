//! Tests of scripts and events.
#![tactic(auto)]

#[cfg(test)]
mod events;
#[cfg(test)]
mod faults;
#[cfg(test)]
mod scripts;
