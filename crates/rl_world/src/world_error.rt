//! Why the world does not take an event.

use rl_base::limit::LimitName;
use rl_base::memory::Memory;
use rl_net::net_error::NetError;
use rl_script::fault::name_of_limit;
use thiserror::Error;

/// Why the world does not take an event. It answers the same to each later one.
#[derive(Clone, Copy, Debug, PartialEq, Eq, Error)]
pub enum WorldError {
    /// The event passes a limit: the slots of a stream, or the bytes of all messages.
    #[error("limit {word} {limit}", word = name_of_limit(*.name))]
    Limit { name: LimitName, limit: u32 },
    /// There was no memory left.
    #[error("memory")]
    Memory,
}

impl From<Memory> for WorldError {
    ghost use Rattle.std.specs.Prelude.{◌≡◌};
    ghost use Rattle.rl_world.specs.declared.world_error.WorldError.TheVariants.{Memory};

    ghost from_gives = { λ _ e. e ≡ Memory };

    fn from(_e: Memory) -> WorldError {
        WorldError::Memory
    }
}

impl From<NetError> for WorldError {
    ghost use Rattle.std.specs.Prelude.{◌≡◌};
    ghost use Rattle.rl_world.specs.Refusing.{error_of_net};

    ghost from_gives = { λ refused e. e ≡ error_of_net refused };

    fn from(e: NetError) -> WorldError {
        match e {
            NetError::NetFull { limit } => WorldError::Limit {
                name: LimitName::Bytes,
                limit,
            },
            NetError::Memory => WorldError::Memory,
        }
    }
}
