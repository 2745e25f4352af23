//! Tests of the fields of byte strings, and of the bytes of batches and messages.
#![tactic(auto)]

#[cfg(test)]
mod batches;
#[cfg(test)]
mod fields;
#[cfg(test)]
mod messages;
