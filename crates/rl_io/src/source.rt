//! Where bytes come from.

ghost use Rattle.std.specs.Prelude.{◌≡◌, ◌<◌, ◌≤◌, ℕ, List, [], Option, Some, Ok, length, take, IfOk, OnOk, OnErr, IfSome, IsErrOf};
ghost use Rattle.std.specs.Io.KnownBytes.{prepend_known};
ghost use Rattle.rl_io.specs.Faults.{Rose};

use rl_base::list::Bytes;
use rl_base::memory::Memory;
use std::alloc::Global;
use thiserror::Error;

/// A read or a write failed.
#[derive(Clone, Copy, Debug, PartialEq, Eq)]
pub struct Failed;

/// A place that gives bytes.
pub trait Source {
    /// How many of its calls have failed. It never falls.
    ghost faults: { Self → ℕ };

    /// The bytes still to come, where the source tells them.
    ghost left: { Self → Option (List ℕ) };

    /// Puts the next bytes into the buffer, from its first on, and answers how many. No byte for a
    /// buffer that has room is the end of the input. After `Failed` the bytes still to come are the
    /// same.
    fn read(&mut self, buf: &mut [u8]) -> Result<usize, Failed>
        ensures within { IfOk result (λ n. n ≤ length buf.new) }
        ensures given { IfOk result
            (λ n. left self.old ≡ prepend_known (take n buf.new) (left self.new)) }
        ensures end { result ≡ Ok 0 → 0 < length buf.new
            → IfSome (left self.old) (λ left. left ≡ []) }
        ensures kept { OnErr result (left self.new ≡ left self.old) }
        ensures ok { OnOk result (faults self.new ≡ faults self.old) }
        ensures fault { OnErr result (Rose (faults self.old) (faults self.new)) }
        ensures counted { faults self.old ≤ faults self.new };
}

/// Why not all of the input was read.
#[derive(Clone, Copy, Debug, PartialEq, Eq, Error)]
pub enum ReadError {
    /// A read failed.
    #[error("read fault")]
    ReadFault,
    /// More bytes came than the limit.
    #[error("limit input {limit}")]
    TooLong { limit: usize },
    /// There was no memory left.
    #[error("memory")]
    Memory,
}

impl From<Memory> for ReadError {
    ghost use Rattle.std.specs.Prelude.{◌≡◌};
    ghost use Rattle.rl_io.specs.declared.source.ReadError.TheVariants.{Memory};

    ghost from_gives = { λ _ e. e ≡ Memory };

    fn from(_e: Memory) -> ReadError {
        ReadError::Memory
    }
}

/// All bytes up to the end of the input, where they are no more than the limit.
///
/// The first read that fails is the last: `ReadFault` comes only where one failed, all other
/// answers only where none did. `TooLong` comes exactly where more than `limit` bytes came. After
/// an error some of the bytes are gone.
pub fn read_all<S: Source>(alloc: Global, source: &mut S, limit: usize) -> Result<Bytes, ReadError>
    ensures within { IfOk result (λ bytes. length bytes ≤ limit) }
    ensures all { IfOk result (λ bytes. IfSome (S.left source.old)
        (λ left. (bytes ≡ left) × (S.left source.new ≡ Some []))) }
    ensures too_long { IsErrOf result (ReadError.TooLong limit)
        → IfSome (S.left source.old) (λ left. limit < length left) }
    ensures the_limit { (n : ℕ) → IsErrOf result (ReadError.TooLong n) → n ≡ limit }

    ensures ok { OnOk result (S.faults source.new ≡ S.faults source.old) }
    ensures too_long_unfailed { IsErrOf result (ReadError.TooLong limit)
        → S.faults source.new ≡ S.faults source.old }
    ensures memory_unfailed { IsErrOf result ReadError.Memory
        → S.faults source.new ≡ S.faults source.old }
    ensures fault { IsErrOf result ReadError.ReadFault
        → Rose (S.faults source.old) (S.faults source.new) }
    ensures counted { S.faults source.old ≤ S.faults source.new }
{
    let mut bytes = Bytes::new(alloc);
    let mut buf = [0u8; 4096];
    'reads: loop {
        let count = match source.read(&mut buf) {
            Ok(count) => count,
            Err(Failed) => return Err(ReadError::ReadFault),
        };
        if count == 0 {
            return Ok(bytes);
        }
        if limit - bytes.len() < count {
            return Err(ReadError::TooLong { limit });
        }
        bytes.append(&buf[..count])?;
    }
}
