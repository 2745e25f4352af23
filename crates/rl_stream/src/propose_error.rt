//! Why a proposal was refused.

use rl_base::memory::Memory;
use thiserror::Error;

/// Why a batch was not proposed. The stream is unchanged then.
#[derive(Clone, Copy, Debug, PartialEq, Eq, Error)]
pub enum ProposeError {
    /// All slots of the stream have a batch.
    #[error("limit slots {slots}")]
    StreamFull { slots: u32 },
    /// There was no memory left.
    #[error("memory")]
    Memory,
}

impl From<Memory> for ProposeError {
    ghost use Rattle.std.specs.Prelude.{◌≡◌};
    ghost use Rattle.rl_stream.specs.declared.propose_error.ProposeError.TheVariants.{Memory};

    ghost from_gives = { λ _ e. e ≡ Memory };

    fn from(_e: Memory) -> ProposeError {
        ProposeError::Memory
    }
}
