//! Batches of a log of bytes.

ghost use Rattle.std.specs.Prelude.{◌≡◌, ℕ, ◌-◌, ◌≤◌, ◌<◌, ◌++◌, ◌∷◌, [], true, length, take, is_some, slice_set, Some, None, IfOk, IfSome, OnOk, OnErr, MatchResult};
ghost use Rattle.rl_batch.specs.Ranges.{BatchInRange};
ghost use Rattle.rl_cut.specs.Refusals.{extend_refusal};
ghost use Rattle.rl_families.specs.Logs.{IsRising, stamps_in_batch, stamps_along};
ghost use Rattle.rl_families.specs.Streams.{log_at};
ghost use Rattle.rl_nodes.specs.Batches.{batch_of, batches_of, are_batches};
ghost use Rattle.rl_node.specs.Knowing.{HasFront};

use rl_base::list::{Bytes, Log};
use rl_base::memory::Memory;
use rl_batch::batch_error::BatchError;
use rl_batch::decode::decode_batch;
use rl_cut::family::{ExtendError, Family};
use rl_txn::batch::Batch;
use std::alloc::Global;

/// The batch that some bytes are, where they are one.
pub fn batch_of(alloc: Global, bytes: &Bytes) -> Result<Option<Batch>, Memory>
    ensures batch { IfOk result (λ batch. batch ≡ batch_of bytes.now) }
    ensures in_range { IfOk result (λ batch. IfSome batch BatchInRange) }
{
    match decode_batch(alloc, bytes.as_slice()) {
        Ok(batch) => Ok(Some(batch)),
        Err(BatchError::Fault { .. }) => Ok(None),
        Err(BatchError::Memory) => Err(Memory),
    }
}

/// The batch that some bytes encode.
pub fn read(alloc: Global, bytes: &Bytes) -> Result<Batch, Memory>
    requires { is_some (batch_of bytes.now) ≡ true }
    ensures batch { IfOk result (λ batch. batch_of bytes.now ≡ Some batch) }
    ensures in_range { IfOk result BatchInRange }
{
    match batch_of(alloc, bytes)? {
        Some(batch) => Ok(batch),
        None => unreachable!(),
    }
}

/// Appends a batch that goes on to the log of a stream.
fn append(family: &mut Family, stream: u32, batch: Batch) -> Result<(), Memory>
    requires first { 1 ≤ stream }
    requires last { stream ≤ length family.old }
    requires rising { IsRising (stamps_in_batch batch) }
    requires free { extend_refusal family.old stream batch ≡ None }
    ensures ok { OnOk result (family.new ≡ slice_set family.old (stream - 1) (log_at family.old stream ++ batch ∷ [])) }
    ensures err { OnErr result (family.new ≡ family.old) }
{
    match family.extend(stream, batch) {
        Ok(()) => Ok(()),
        Err(ExtendError::Memory) => Err(Memory),
        Err(ExtendError::Order { .. }) => unreachable!(),
    }
}

/// Appends the batches of a log in some of its slots to that of a stream, which ends before them. After `Memory` it has
/// the first of them.
pub fn append_slots(
    alloc: Global,
    family: &mut Family,
    stream: u32,
    log: &Log,
    from: u32,
    to: u32,
) -> Result<(), Memory>
    requires first { 1 ≤ stream }
    requires last { stream ≤ length family.old }
    requires order { from ≤ to }
    requires within { to ≤ length log.now }
    requires batches { are_batches log.now ≡ true }
    requires rising { IsRising (stamps_along (batches_of log.now)) }
    requires begins { log_at family.old stream ≡ batches_of (take from log.now) }
    ensures { MatchResult result
        (λ _. family.new ≡ slice_set family.old (stream - 1) (batches_of (take to log.now)))
        (λ _. HasFront family.old family.new stream log.now from to) }
{
    for slot in from..to {
        let batch = read(alloc, log.get(slot as usize))?;
        append(family, stream, batch)?;
    }
    Ok(())
}
