//! Why bytes are no batch.

use rl_fields::decode_error::DecodeError;

/// Why some bytes were not read as a batch.
pub type BatchError = DecodeError;
