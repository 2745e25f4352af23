//! What is printed where something is wrong: no clause tells these texts.
#![tactic(auto)]

#[cfg(test)]
mod errors;
