//! Why bytes were not decoded.

use crate::fault::ReadError;
use rl_base::flaw::Flaw;
use rl_base::memory::Memory;
use thiserror::Error;

/// Why some bytes were not decoded.
#[derive(Clone, Copy, Debug, PartialEq, Eq, Error)]
pub enum DecodeError {
    /// They encode nothing: the offset of the first fault, counted from 0, and what it is.
    #[error("{kind:?} at {at}")]
    Fault { at: u64, kind: Flaw },
    /// There was no memory left.
    #[error("memory")]
    Memory,
}

impl DecodeError {
    ghost use Rattle.std.specs.Prelude.{◌≡◌};
    ghost use Rattle.rl_fields.specs.Answers.{decode_error};

    /// The error with the offset of its fault, counted from the first of so many bytes.
    pub fn new(len: usize, e: ReadError) -> DecodeError
        ensures { result ≡ decode_error len e }
    {
        match e {
            ReadError::Fault(fault) => DecodeError::Fault {
                at: len.saturating_sub(fault.left) as u64,
                kind: fault.kind,
            },
            ReadError::Memory => DecodeError::Memory,
        }
    }
}

impl From<Memory> for DecodeError {
    ghost use Rattle.std.specs.Prelude.{◌≡◌};
    ghost use Rattle.rl_fields.specs.declared.decode_error.DecodeError.TheVariants.{Memory};

    ghost from_gives = { λ _ e. e ≡ Memory };

    fn from(_e: Memory) -> DecodeError {
        DecodeError::Memory
    }
}
