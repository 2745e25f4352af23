//! Tests of shared records and of attempts on them: what threads have read and decided, compared
//! with what one thread does. The bench of attempts stands on the bank, its requests and threads.
//!
//! No function here but the tests has a handle that may wait: what they call of the store and of
//! attempts can take no lock round the store, which would want one.
#![tactic(auto)]

pub mod bank;
#[cfg(test)]
mod draws;
#[cfg(test)]
mod limits;
#[cfg(test)]
mod one;
#[cfg(test)]
mod reads;
#[cfg(test)]
mod ready;
#[cfg(test)]
mod refusals;
pub mod requests;
#[cfg(test)]
mod serial;
pub mod threads;
