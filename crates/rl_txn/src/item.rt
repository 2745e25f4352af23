//! Transactions that have run.

ghost use Rattle.std.specs.Prelude.{◌≡◌, IfOk, OnOk, OnErr, ℕ, take};
ghost use Rattle.rl_txn.specs.Serial.{with_write, after_writes};

use crate::write::{Reply, Write, Writes, copy_writes};
use rl_base::list::Seq;
use rl_base::memory::Memory;
use rl_base::stamp::Stamp;
use rl_value::map::Map;
use std::alloc::Global;

/// A transaction that has run: request `index` of the list of `worker`, both counted from 1.
#[derive(Debug, Drop)]
pub struct Item {
    pub stamp: Stamp,
    pub worker: u32,
    pub index: u32,
    pub reply: Reply,
    pub writes: Writes,
}

/// A list of transactions that have run.
pub type Items = Seq<Item>;

impl Item {
    /// An equal item.
    pub fn copy(&self, alloc: Global) -> Result<Item, Memory>
        ensures { IfOk result (λ copy. copy ≡ self.now) }
    {
        Ok(Item {
            stamp: self.stamp,
            worker: self.worker,
            index: self.index,
            reply: self.reply.copy(alloc)?,
            writes: copy_writes(alloc, &self.writes)?,
        })
    }
}

/// Makes the writes of an item. After `Memory` a prefix of them is made.
pub fn apply(m: &mut Map, item: &Item) -> Result<(), Memory>
    ensures ok { OnOk result (m.new ≡ after_writes m.old item.now.writes) }
    ensures err { OnErr result ((n : ℕ) × (m.new ≡ after_writes m.old (take n item.now.writes))) }
{
    for write in item.writes.as_slice() {
        apply_write(m, write)?;
    }
    Ok(())
}

/// Makes one write. After `Memory` the map is unchanged.
pub fn apply_write(m: &mut Map, write: &Write) -> Result<(), Memory>
    ensures ok { OnOk result (m.new ≡ with_write m.old write.now) }
    ensures err { OnErr result (m.new ≡ m.old) }
{
    match &write.row {
        Some(row) => m.put(write.table, write.key, row.copy())?,
        None => m.del(write.table, write.key),
    }
    Ok(())
}
