//! The fields of byte strings, read from left to right and written.
#![tactic(auto)]

pub mod decode_error;
pub mod fault;
pub mod limit;
pub mod number;
pub mod string;
pub mod writing;
