//! Batches of some streams, drawn from a seed, that arrive in a mixed order.

ghost use Rattle.std.specs.Prelude.{◌≡◌, ◌<◌, ◌≤◌, length, IfOk};
ghost use Rattle.rl_families.specs.Logs.{stamps_in_batch, IsRising};

use crate::items::item;
use rl_base::list::Seq;
use rl_base::memory::Memory;
use rl_base::stamp::Stamp;
use rl_txn::batch::Batch;
use rl_txn::item::{Item, Items};
use rl_txn::write::{Write, Writes};
use rl_value::row::Row;
use std::alloc::Global;

/// What has arrived so far: how many batches, and the last stamp of each stream.
#[derive(Drop)]
pub struct Arrivals {
    pub draw: u64,
    pub count: u64,
    pub lasts: Vec<Stamp>,
}

impl Arrivals {
    /// Nothing of some streams.
    pub fn new(alloc: Global, streams: u32, seed: u64) -> Result<Arrivals, Memory>
        ensures { IfOk result (λ arrivals. length arrivals.lasts.items ≡ streams) }
    {
        let mut lasts = Vec::new(alloc);
        for _stream in 0..streams {
            lasts.push(Stamp { epoch: 0, seq: 0 })?;
        }
        Ok(Arrivals {
            draw: seed,
            count: 0,
            lasts,
        })
    }

    /// The next batch and its stream: `len` items, an idle mark where `len` is 0, or the open mark
    /// of the newest epoch. An epoch begins after every `epoch_len` batches. The stamps of different
    /// streams are mixed, and some are equal.
    pub fn next(&mut self, alloc: Global, len: u64, epoch_len: u64) -> Result<(u32, Batch), Memory>
        requires some { 0 < length self.old.lasts.items }
        requires few { length self.old.lasts.items ≤ 16 }
        requires len { len ≤ 8 }
        ensures streams { length self.new.lasts.items ≡ length self.old.lasts.items }
        ensures first { IfOk result (λ next. 1 ≤ next.0) }
        ensures last { IfOk result (λ next. next.0 ≤ length self.old.lasts.items) }
        ensures rising { IfOk result (λ next. IsRising (stamps_in_batch next.1)) }
    {
        self.draw = drawn_after(self.draw);
        let at = place_in(self.draw, self.lasts.len());
        let stream = at as u32 + 1;
        let last = self.lasts[at];
        let first = first_behind(last, near(self.draw, self.count));
        let epoch = epoch_of(self.count, epoch_len);
        self.count = self.count.saturating_add(1);
        if last.epoch < epoch {
            let stamp = Stamp { epoch, seq: 1 };
            self.lasts[at] = stamp;
            return Ok((stream, Batch::Opened(stamp)));
        }
        let seq = first + len;
        self.lasts[at] = Stamp { epoch, seq };
        let stamp = Stamp { epoch, seq: first };
        if len == 0 {
            return Ok((stream, Batch::Idle(stamp)));
        }
        Ok((stream, Batch::Items(items_from(alloc, stream, stamp, len)?)))
    }
}

/// One of so many places.
fn place_in(draw: u64, len: usize) -> usize
    requires { 0 < len }
    ensures { result < len }
{
    (draw / 256 % len as u64) as usize
}

/// The epoch in which a batch of this number arrives.
fn epoch_of(count: u64, epoch_len: u64) -> u32 {
    (count / epoch_len.max(1)).min(1_000_000) as u32 + 1
}

/// A seq near those of the batches that arrive about this number.
fn near(draw: u64, count: u64) -> u64
    ensures { result ≤ 8000000064 }
{
    count.min(1_000_000_000) * 8 + draw / 65536 % 65
}

/// The seq of a batch behind a last one.
fn first_behind(last: Stamp, near: u64) -> u64
    requires { near ≤ 8000000064 }
    ensures { result ≤ 1099511627777 }
{
    near.max(last.seq.min(1 << 40) + 1)
}

/// The next number of a sequence that a seed begins (a linear congruence).
pub fn drawn_after(draw: u64) -> u64
    ensures { result < 4294967296 }
{
    (draw % 4294967296 * 1103515245 + 12345) % 4294967296
}

/// Items of a stream with this stamp and those after it, each with a write.
fn items_from(alloc: Global, stream: u32, first: Stamp, len: u64) -> Result<Items, Memory>
    requires first { first.seq ≤ 1099511627777 }
    requires len { len ≤ 8 }
    ensures { IfOk result (λ items. IsRising (stamps_in_batch (Batch.Items items))) }
{
    let mut items = Items::new(alloc);
    for i in 0..len {
        let stamp = Stamp {
            epoch: first.epoch,
            seq: first.seq + i,
        };
        items.push(writing(alloc, stream, stamp)?)?;
    }
    Ok(items)
}

/// An item of a stream that writes one row.
fn writing(alloc: Global, stream: u32, stamp: Stamp) -> Result<Item, Memory>
    ensures { IfOk result (λ item. item.stamp ≡ stamp) }
{
    let mut writes = Writes::new(alloc);
    writes.push(Write {
        table: 0,
        key: (stamp.seq % 4096) as u32,
        row: Some(Row::from_slice(&[stamp.seq])),
    })?;
    let mut made = item(alloc, stamp, writes);
    made.worker = stream;
    Ok(made)
}
