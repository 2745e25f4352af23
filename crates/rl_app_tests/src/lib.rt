//! Calls of the commands that no run of the program shows: reads and writes that fail, and an input that is too long.
#![tactic(auto)]

#[cfg(test)]
mod commands;
#[cfg(test)]
mod generated;
