//! Why nothing was recovered.

use rl_base::memory::Memory;
use thiserror::Error;

/// Why the logs were not recovered. The candidate is unchanged then.
#[derive(Clone, Copy, Debug, PartialEq, Eq, Error)]
pub enum RecoverError {
    /// Fewer nodes have promised than are needed.
    #[error("promises {have} of {need}")]
    NotYet { have: u32, need: u32 },
    /// There was no memory left.
    #[error("memory")]
    Memory,
}

impl From<Memory> for RecoverError {
    ghost use Rattle.std.specs.Prelude.{◌≡◌};
    ghost use Rattle.rl_election.specs.declared.recover_error.RecoverError.TheVariants.{Memory};

    ghost from_gives = { λ _ e. e ≡ Memory };

    fn from(_e: Memory) -> RecoverError {
        RecoverError::Memory
    }
}
