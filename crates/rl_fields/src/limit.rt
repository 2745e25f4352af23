//! The limits of byte strings.

/// The most bytes of a batch.
pub const BATCH_BYTES: u32 = 262144;
