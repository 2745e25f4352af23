//! The bytes of items.

ghost use Rattle.std.specs.Prelude.{◌≡◌, ◌<◌, ◌++◌, ◌^◌, All, IfOk, OnOk};
ghost use Rattle.rl_fields.specs.Answers.{IsReadUnlessMemory};
ghost use Rattle.rl_fields.specs.Fields.{series};
ghost use Rattle.rl_batch.specs.Ranges.{EndInRange, ItemInRange, ItemsInRange, ItemHasWords, most_writes};
ghost use Rattle.rl_batch.specs.Encoding.{end_number, item_bytes, items_bytes};
ghost use Rattle.rl_batch.specs.Reading.{end_of, item, items, seq_after};

use crate::row::{outs_at, push_numbers};
use crate::write::{push_writes, writes_at};
use rl_base::flaw::Flaw;
use rl_base::limit::{OPS, REQUESTS, WORKERS};
use rl_base::list::{Bytes, Seq};
use rl_base::memory::Memory;
use rl_base::stamp::Stamp;
use rl_fields::fault::{Fault, ReadError};
use rl_fields::number::{u8_within, u32_within, u64_within};
use rl_fields::writing::{push_u8, push_u32, push_u64};
use rl_txn::item::{Item, Items};
use rl_txn::write::{End, Reply};
use std::alloc::Global;

/// The greatest epoch.
pub const LAST_EPOCH: u32 = (1 << 20) - 1;

/// The most items of a batch.
pub const BATCH_ITEMS: u8 = 64;

/// The greatest seq that an item may have.
const LAST_SEQ: u64 = (1 << 40) - 2;

/// What all items of a batch share.
#[derive(Clone, Copy)]
struct Shared {
    epoch: u32,
    worker: u32,
}

/// The items of a batch, and the bytes after them.
#[tactic(auto, unfolding(crate::specs::Reading::items))]
pub fn items_at(alloc: Global, bytes: &[u8]) -> Result<(Items, &[u8]), ReadError>
    ensures { IsReadUnlessMemory (λ x. (x.0, x.1.now)) result (items bytes.now) }
{
    let (count, rest) = u8_within(1, BATCH_ITEMS, bytes)?;
    let (epoch, rest) = u32_within(1, LAST_EPOCH, rest)?;
    let (worker, rest) = u8_within(1, WORKERS as u8, rest)?;
    let worker = u32::from(worker);
    series_at(alloc, Shared { epoch, worker }, count, rest)
}

/// So many items, and the bytes after them.
fn series_at(
    alloc: Global,
    shared: Shared,
    count: u8,
    bytes: &[u8],
) -> Result<(Items, &[u8]), ReadError>
    ensures { IsReadUnlessMemory (λ x. (x.0, x.1.now)) result
        (series (item shared.epoch shared.worker) seq_after count 0 bytes.now) }
{
    let mut items = Vec::with_capacity(alloc, usize::from(count))?;
    let mut least = 0;
    let mut rest = bytes;
    for _item in 0..count {
        let (item, after) = item_at(alloc, shared, least, rest)?;
        least = item.stamp.seq + 1;
        items.push(item)?;
        rest = after;
    }
    Ok((Seq::from_vec(items), rest))
}

/// An item with a seq from the least on, and the bytes after it.
#[tactic(auto, unfolding(crate::specs::Reading::item, crate::specs::Reading::rising))]
fn item_at(
    alloc: Global,
    shared: Shared,
    least: u64,
    bytes: &[u8],
) -> Result<(Item, &[u8]), ReadError>
    ensures read { IsReadUnlessMemory (λ x. (x.0, x.1.now)) result
        (item shared.epoch shared.worker least bytes.now) }
    ensures seq { IfOk result (λ x. x.0.stamp.seq < 2 ^ 40) }
{
    let (seq, rest) = u64_within(2, LAST_SEQ, bytes)?;
    if seq < least {
        return Err(Fault::at(bytes, Flaw::Order).into());
    }
    let (index, rest) = u32_within(1, REQUESTS, rest)?;
    let (end, rest) = u8_within(0, OPS as u8, rest)?;
    let end = end_of(end);
    let (outs, rest) = outs_at(alloc, rest)?;
    let (writes, rest) = writes_at(alloc, most_writes(end), rest)?;
    let item = Item {
        stamp: Stamp {
            epoch: shared.epoch,
            seq,
        },
        worker: shared.worker,
        index,
        reply: Reply { outs, end },
        writes,
    };
    Ok((item, rest))
}

/// The end of a number: 0 is done, and another is the op that declined.
fn end_of(number: u8) -> End
    ensures { result ≡ end_of number }
{
    if number == 0 {
        End::Done
    } else {
        End::Declined {
            op: u32::from(number),
        }
    }
}

/// How many writes an item may have.
fn most_writes(end: End) -> u8
    ensures { result ≡ most_writes end }
{
    match end {
        End::Done => OPS as u8,
        End::Declined { .. } => 0,
    }
}

/// Appends how many items there are, what they share, and each of them.
pub fn push_items(out: &mut Bytes, items: &[Item]) -> Result<(), Memory>
    requires { ItemsInRange items.now }
    ensures encoded { OnOk result (out.new ≡ out.old ++ items_bytes items.now) }
    ensures words { OnOk result (All ItemHasWords items.now) }
{
    let first = &items[0];
    push_u8(out, items.len() as u8)?;
    push_u32(out, first.stamp.epoch)?;
    push_u8(out, first.worker as u8)?;
    for item in items {
        push_item(out, item)?;
    }
    Ok(())
}

/// Appends an item.
fn push_item(out: &mut Bytes, item: &Item) -> Result<(), Memory>
    requires { ItemInRange item.now }
    ensures encoded { OnOk result (out.new ≡ out.old ++ item_bytes item.now) }
    ensures words { OnOk result (ItemHasWords item.now) }
{
    push_u64(out, item.stamp.seq)?;
    push_u32(out, item.index)?;
    push_u8(out, end_number(item.reply.end))?;
    push_numbers(out, item.reply.outs.as_slice())?;
    push_writes(out, item.writes.as_slice())
}

/// 0 where done, else the number of the op that declined.
fn end_number(end: End) -> u8
    requires { EndInRange end }
    ensures { result ≡ end_number end }
{
    match end {
        End::Done => 0,
        End::Declined { op } => op as u8,
    }
}
