//! The calls of an open leader's workers, made once: that they succeed is what no clause tells.
#![tactic(auto)]

#[cfg(test)]
mod acts;
#[cfg(test)]
mod leader;
#[cfg(test)]
mod openings;
