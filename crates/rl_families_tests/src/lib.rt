//! Tests of families, of the queue of replies and of replicas, and families that are drawn from a
//! seed for them and for the bench.
#![tactic(auto)]

pub mod arrivals;
#[cfg(test)]
mod families;
pub mod followers;
mod items;
#[cfg(test)]
mod ones;
#[cfg(test)]
mod plays;
#[cfg(test)]
mod queues;
#[cfg(test)]
mod yardstick;
