//! Why bytes are no message.

use rl_fields::decode_error::DecodeError;

/// Why some bytes were not read as a message.
pub type MsgError = DecodeError;
