//! Batches as bytes.

ghost use Rattle.std.specs.Prelude.{◌≡◌, ◌≤◌, ◌++◌, length, IfOk, OnOk, Ok};
ghost use Rattle.rl_fields.specs.declared.limit.TheConstants.{BATCH_BYTES};
ghost use Rattle.rl_batch.specs.Ranges.{BatchInRange, HasWords};
ghost use Rattle.rl_batch.specs.Encoding.{mark_bytes, batch_bytes};
ghost use Rattle.rl_batch.specs.Reading.{read_batch};

use crate::item::push_items;
use rl_base::list::Bytes;
use rl_base::memory::Memory;
use rl_base::stamp::Stamp;
use rl_fields::writing::{push_u8, push_u32, push_u64};
use rl_txn::batch::Batch;
use std::alloc::Global;

/// The one encoding of a batch.
///
/// A batch has one where it is 1 to 64 items, an idle mark or an open mark, of epoch 1 to 2^20 - 1. An idle mark has seq
/// 2 to 2^40 - 1, and an open mark seq 1. The items have one epoch, one worker 1 to 16, and rising seqs 2 to 2^40 - 2.
/// Each has index 1 to 8192, at most 64 outs, and at most 64 writes by rising table and, within a table, rising key:
/// tables 0 to 15, keys 0 to 65535, and a row of 1 to 4 columns or none. Where an op declined it is 1 to 64, and there
/// are no writes.
pub fn encode_batch(alloc: Global, b: &Batch) -> Result<Bytes, Memory>
    requires { BatchInRange b.now }
    ensures encoded { IfOk result (λ bytes. bytes ≡ batch_bytes b.now) }
    ensures some { IfOk result (λ bytes. 1 ≤ length bytes) }
    ensures short { IfOk result (λ bytes. length bytes ≤ BATCH_BYTES) }
    // Reading it gives the batch again.
    ensures read_back { IfOk result (λ bytes. read_batch bytes ≡ Ok b.now) }
{
    encode(alloc, b)
}

/// The bytes of a batch.
fn encode(alloc: Global, b: &Batch) -> Result<Bytes, Memory>
    requires { BatchInRange b.now }
    ensures encoded { IfOk result (λ bytes. bytes ≡ batch_bytes b.now) }
    ensures words { OnOk result (HasWords b.now) }
{
    let mut out = Bytes::new(alloc);
    match b {
        Batch::Items(items) => {
            push_u8(&mut out, 1)?;
            push_items(&mut out, items.as_slice())?;
        }
        Batch::Idle(stamp) => {
            push_u8(&mut out, 2)?;
            push_mark(&mut out, *stamp)?;
        }
        Batch::Opened(stamp) => {
            push_u8(&mut out, 3)?;
            push_mark(&mut out, *stamp)?;
        }
    }
    Ok(out)
}

/// Appends a mark's epoch and seq.
fn push_mark(out: &mut Bytes, stamp: Stamp) -> Result<(), Memory>
    ensures { OnOk result (out.new ≡ out.old ++ mark_bytes stamp) }
{
    push_u32(out, stamp.epoch)?;
    push_u64(out, stamp.seq)
}
