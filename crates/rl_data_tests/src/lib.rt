//! The calls of the crates of data, made once: that they succeed is what no clause tells.
#![tactic(auto)]

#[cfg(test)]
mod base;
#[cfg(test)]
mod bytes;
#[cfg(test)]
mod layouts;
#[cfg(test)]
mod transactions;
#[cfg(test)]
mod values;
