//! Why a message was not sent, delivered or discarded.

use std::alloc::{AllocError, AllocFailed};
use thiserror::Error;

/// Why a message was not sent. The network is unchanged then.
#[derive(Clone, Copy, Debug, PartialEq, Eq, Error)]
pub enum NetError {
    /// With it, the bytes of all messages would be more than the limit.
    #[error("limit bytes {limit}")]
    NetFull { limit: u32 },
    /// There was no memory left.
    #[error("memory")]
    Memory,
}

impl From<AllocError> for NetError {
    ghost use Rattle.std.specs.Prelude.{◌≡◌};
    ghost use Rattle.rl_net.specs.declared.net_error.NetError.TheVariants.{Memory};

    ghost from_gives = { λ _ e. e ≡ Memory };

    fn from(_e: AllocError) -> NetError {
        NetError::Memory
    }
}

impl<T: Drop> From<AllocFailed<T>> for NetError {
    ghost use Rattle.std.specs.Prelude.{◌≡◌};
    ghost use Rattle.rl_net.specs.declared.net_error.NetError.TheVariants.{Memory};

    ghost from_gives = { λ _ e. e ≡ Memory };

    fn from(_e: AllocFailed<T>) -> NetError {
        NetError::Memory
    }
}

/// No message of this number was sent.
#[derive(Clone, Copy, Debug, PartialEq, Eq, Error)]
#[error("nomessage {number}")]
pub struct NoMessage {
    pub number: u64,
}
