//! Batches of one stamp each, in the order in which some streams get them.

ghost use Rattle.std.specs.Prelude.{◌≡◌, ◌≤◌, length, IfOk};
ghost use Rattle.rl_families.specs.Logs.{stamps_in_batch};

use crate::items::item;
use rl_base::list::Seq;
use rl_base::memory::Memory;
use rl_base::stamp::Stamp;
use rl_cut::family::{ExtendError, Family};
use rl_txn::batch::Batch;
use rl_txn::item::Items;
use std::alloc::Global;

/// A batch of one stamp.
#[derive(Clone, Copy)]
pub enum One {
    Opened(u32),
    Item(u32, u64),
    Idle(u32, u64),
}

/// The stamp of a batch.
pub fn stamp_of(one: One) -> Stamp {
    match one {
        One::Opened(epoch) => Stamp { epoch, seq: 1 },
        One::Item(epoch, seq) => Stamp { epoch, seq },
        One::Idle(epoch, seq) => Stamp { epoch, seq },
    }
}

/// The last stamp that a stream got, or (0, 0).
pub fn last_of(ones: &[(u32, One)], stream: u32) -> Stamp {
    let mut last = Stamp { epoch: 0, seq: 0 };
    for &(owner, one) in ones {
        if owner == stream {
            last = stamp_of(one);
        }
    }
    last
}

/// The batch itself; the worker of an item is that of the stream.
fn batch_of(alloc: Global, stream: u32, one: One) -> Result<Batch, Memory>
    ensures { IfOk result (λ batch. length (stamps_in_batch batch) ≡ 1) }
{
    match one {
        One::Opened(epoch) => Ok(Batch::Opened(Stamp { epoch, seq: 1 })),
        One::Item(epoch, seq) => Ok(Batch::Items(only(alloc, stream, Stamp { epoch, seq })?)),
        One::Idle(epoch, seq) => Ok(Batch::Idle(Stamp { epoch, seq })),
    }
}

/// One item that writes nothing.
fn only(alloc: Global, stream: u32, stamp: Stamp) -> Result<Items, Memory>
    ensures { IfOk result (λ items. length items ≡ 1) }
{
    let mut made = item(alloc, stamp, Seq::new(alloc));
    made.worker = stream;
    let mut items = Items::new(alloc);
    items.push(made)?;
    Ok(items)
}

/// A stream of a family gets one more.
pub fn extend(alloc: Global, family: &mut Family, stream: u32, one: One) -> Result<(), ExtendError>
    requires first_stream { 1 ≤ stream }
    requires last_stream { stream ≤ length family.old }
    ensures { length family.new ≡ length family.old }
{
    family.extend(stream, batch_of(alloc, stream, one)?)
}
