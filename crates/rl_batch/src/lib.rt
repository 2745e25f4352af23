//! The bytes of batches, in which streams carry them.
#![tactic(auto)]

pub mod batch_error;
pub mod decode;
pub mod encode;
mod item;
pub mod laws;
mod row;
mod write;
