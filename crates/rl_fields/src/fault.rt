//! Why bytes were not read.

ghost use Rattle.std.specs.Prelude.{◌≡◌};
ghost use Rattle.rl_fields.specs.Faults.{fault_at};

use rl_base::flaw::Flaw;
use rl_base::memory::Memory;
use std::alloc::{AllocError, AllocFailed};

/// The first fault of some bytes: what it is, and how many bytes were left there.
#[derive(Clone, Copy, Debug, PartialEq, Eq)]
pub struct Fault {
    pub left: usize,
    pub kind: Flaw,
}

impl Fault {
    /// The fault of a kind at the first of these bytes.
    pub fn at(bytes: &[u8], kind: Flaw) -> Fault
        ensures { result ≡ fault_at bytes.now kind }
    {
        Fault {
            left: bytes.len(),
            kind,
        }
    }
}

/// Why bytes were not read.
#[derive(Clone, Copy, Debug, PartialEq, Eq)]
pub enum ReadError {
    /// Something is wrong with them.
    Fault(Fault),
    /// There was no memory left.
    Memory,
}

impl From<Fault> for ReadError {
    ghost use Rattle.std.specs.Prelude.{◌≡◌};
    ghost use Rattle.rl_fields.specs.declared.fault.ReadError.TheVariants as errors;

    ghost from_gives = { λ fault e. e ≡ errors.Fault fault };

    fn from(fault: Fault) -> ReadError {
        ReadError::Fault(fault)
    }
}

impl From<Memory> for ReadError {
    ghost use Rattle.std.specs.Prelude.{◌≡◌};
    ghost use Rattle.rl_fields.specs.declared.fault.ReadError.TheVariants.{Memory};

    ghost from_gives = { λ _ e. e ≡ Memory };

    fn from(_e: Memory) -> ReadError {
        ReadError::Memory
    }
}

impl From<AllocError> for ReadError {
    ghost use Rattle.std.specs.Prelude.{◌≡◌};
    ghost use Rattle.rl_fields.specs.declared.fault.ReadError.TheVariants.{Memory};

    ghost from_gives = { λ _ e. e ≡ Memory };

    fn from(_e: AllocError) -> ReadError {
        ReadError::Memory
    }
}

impl<T: Drop> From<AllocFailed<T>> for ReadError {
    ghost use Rattle.std.specs.Prelude.{◌≡◌};
    ghost use Rattle.rl_fields.specs.declared.fault.ReadError.TheVariants.{Memory};

    ghost from_gives = { λ _ e. e ≡ Memory };

    fn from(_e: AllocFailed<T>) -> ReadError {
        ReadError::Memory
    }
}
