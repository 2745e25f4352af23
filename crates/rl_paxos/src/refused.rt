//! Why an acceptor refuses.

use rl_base::memory::Memory;
use thiserror::Error;

/// Why an acceptor refused a message. It is unchanged then.
#[derive(Clone, Copy, Debug, PartialEq, Eq, Error)]
pub enum Refused {
    /// It has promised a later epoch.
    #[error("promised {promised}")]
    Promised { promised: u32 },
    /// The stream's log was adopted at another ballot.
    #[error("ballot {ballot}")]
    OtherBallot { ballot: u32 },
    /// The slot lies past the end of the stream's log.
    #[error("order {len}")]
    OutOfOrder { len: u32 },
    /// There was no memory left.
    #[error("memory")]
    Memory,
}

impl From<Memory> for Refused {
    ghost use Rattle.std.specs.Prelude.{◌≡◌};
    ghost use Rattle.rl_paxos.specs.declared.refused.Refused.TheVariants.{Memory};

    ghost from_gives = { λ _ e. e ≡ Memory };

    fn from(_e: Memory) -> Refused {
        Refused::Memory
    }
}
