//! Batches from bytes.

ghost use Rattle.std.specs.Prelude.{◌≡◌, IfOk, Ok};
ghost use Rattle.rl_txn.specs.declared.batch.Batch.{Batch};
ghost use Rattle.rl_fields.specs.Fields.{whole};
ghost use Rattle.rl_fields.specs.Answers.{IsRead, IsReadUnlessMemory, IsDecoded};
ghost use Rattle.rl_batch.specs.Ranges.{BatchInRange, HasWords};
ghost use Rattle.rl_batch.specs.Encoding.{batch_bytes};
ghost use Rattle.rl_batch.specs.Reading.{mark, batch, read_batch};

use crate::batch_error::BatchError;
use crate::item::{LAST_EPOCH, items_at};
use rl_base::flaw::Flaw;
use rl_base::stamp::Stamp;
use rl_fields::fault::{Fault, ReadError};
use rl_fields::number::{u32_within, u64_within};
use rl_fields::string::alone;
use rl_txn::batch::Batch;
use std::alloc::Global;

/// The seq of an end mark, the greatest of all.
const END_SEQ: u64 = (1 << 40) - 1;

/// The batch that some bytes encode.
///
/// `Fault` exactly where they encode none: the first fault from left to right, and its offset counted from 0. `Kind` is
/// an unknown first byte; `Short` a field that ends past the bytes, at its first byte; `Range` a field out of its
/// range; `Order` a seq that does not rise along the batch, or the table of a write whose place does not rise along
/// its item; `Extra` the first byte after the end.
pub fn decode_batch(alloc: Global, x: &[u8]) -> Result<Batch, BatchError>
    // A batch comes back only for its one encoding,
    ensures encoded { IfOk result (λ b. x.now ≡ batch_bytes b) }
    ensures in_range { IfOk result (λ b. BatchInRange b) }
    // and what encodes a batch is read as that batch.
    ensures read_back { (b : Batch) → BatchInRange b → HasWords b
        → x.now ≡ batch_bytes b → read_batch x.now ≡ Ok b }
    // What is read comes back, the batch or its fault, unless memory runs out.
    ensures exact { IsDecoded (read_batch x.now) result }
{
    read(alloc, x)
}

/// The batch that some bytes are, or their first fault.
fn read(alloc: Global, x: &[u8]) -> Result<Batch, BatchError>
    ensures { IsDecoded (read_batch x.now) result }
{
    match whole(alloc, x) {
        Ok(batch) => Ok(batch),
        Err(e) => Err(BatchError::new(x.len(), e)),
    }
}

/// A batch that no byte follows.
#[tactic(auto, unfolding(rl_fields::specs::Fields::whole))]
fn whole(alloc: Global, bytes: &[u8]) -> Result<Batch, ReadError>
    ensures { IsReadUnlessMemory (λ b. b) result (whole batch bytes.now) }
{
    let (batch, rest) = batch_at(alloc, bytes)?;
    Ok(alone(batch, rest)?)
}

/// A batch, and the bytes after it.
#[tactic(auto, unfolding(crate::specs::Reading::batch))]
fn batch_at(alloc: Global, bytes: &[u8]) -> Result<(Batch, &[u8]), ReadError>
    ensures { IsReadUnlessMemory (λ x. (x.0, x.1.now)) result (batch bytes.now) }
{
    match bytes {
        [] => Err(Fault::at(bytes, Flaw::Short).into()),
        [1, rest @ ..] => {
            let (items, rest) = items_at(alloc, rest)?;
            Ok((Batch::Items(items), rest))
        }
        [2, rest @ ..] => {
            let (stamp, rest) = mark_at(2, END_SEQ, rest)?;
            Ok((Batch::Idle(stamp), rest))
        }
        [3, rest @ ..] => {
            let (stamp, rest) = mark_at(1, 1, rest)?;
            Ok((Batch::Opened(stamp), rest))
        }
        [_, ..] => Err(Fault::at(bytes, Flaw::Kind).into()),
    }
}

/// A mark whose seq is from `low` to `high`, and the bytes after it.
#[tactic(auto, unfolding(crate::specs::Reading::mark))]
fn mark_at(low: u64, high: u64, bytes: &[u8]) -> Result<(Stamp, &[u8]), Fault>
    ensures { IsRead (λ x. (x.0, x.1.now)) result (mark low high bytes.now) }
{
    let (epoch, rest) = u32_within(1, LAST_EPOCH, bytes)?;
    let (seq, rest) = u64_within(low, high, rest)?;
    Ok((Stamp { epoch, seq }, rest))
}
