//! What a stream replicates at one slot.

ghost use Rattle.std.specs.Prelude.{◌≡◌, IfOk};

use crate::item::Items;
use rl_base::list::Seq;
use rl_base::memory::Memory;
use rl_base::stamp::Stamp;
use std::alloc::Global;

/// What stands at one slot of a log.
#[derive(Debug, Drop)]
pub enum Batch {
    /// Some items of one worker.
    Items(Items),
    /// A mark of a worker that had nothing to do: its stream has reached this stamp.
    Idle(Stamp),
    /// The mark with which a leader opens its epoch.
    Opened(Stamp),
}

/// A list of batches.
pub type Batches = Seq<Batch>;

impl Batch {
    /// An equal batch.
    pub fn copy(&self, alloc: Global) -> Result<Batch, Memory>
        ensures { IfOk result (λ copy. copy ≡ self.now) }
    {
        match self {
            Batch::Items(items) => Ok(Batch::Items(copy_items(alloc, items)?)),
            Batch::Idle(stamp) => Ok(Batch::Idle(*stamp)),
            Batch::Opened(stamp) => Ok(Batch::Opened(*stamp)),
        }
    }
}

/// Equal items.
pub fn copy_items(alloc: Global, items: &Items) -> Result<Items, Memory>
    ensures { IfOk result (λ copy. copy ≡ items.now) }
{
    let mut copy = Vec::with_capacity(alloc, items.len())?;
    for item in items.as_slice() {
        copy.push(item.copy(alloc)?)?;
    }
    Ok(Seq::from_vec(copy))
}
