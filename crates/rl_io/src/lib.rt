//! Where bytes come from and where they go: the two ends of the program.
#![tactic(auto)]

pub mod memory_sink;
pub mod memory_source;
pub mod sink;
pub mod slices;
pub mod source;
pub mod standard_sink;
pub mod standard_source;
