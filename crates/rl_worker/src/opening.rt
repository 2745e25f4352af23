//! The stamps with which the records of an epoch open.

ghost use Rattle.std.specs.Prelude.{◌≡◌, ◌^◌, ◌<◌, IfOk, All, length, sum, slice_index, EachIndex};
ghost use Rattle.rl_worker.specs.Stamping.{WritesAreThere, HasStamp, stamp_after, opening_stamps};

use rl_base::list::Stamps;
use rl_base::memory::Memory;
use rl_base::stamp::pack;
use rl_tables::layout::Layout;
use rl_txn::item::{Item, Items};
use std::alloc::Global;

/// Each record's stamp as an epoch opens: that of the last item of the opening list that writes it, or 0.
pub fn opening_stamps(alloc: Global, layout: &Layout, items: &Items) -> Result<Stamps, Memory>
    requires there { All (WritesAreThere layout.now) items.now }
    requires stamps { All HasStamp items.now }
    ensures { IfOk result (λ stamps. stamps ≡ opening_stamps layout.now items.now) }
{
    let mut stamps = vec![in alloc; 0u64; layout.count() as usize]?;
    for item in items.as_slice() {
        stamp_writes(&mut stamps, layout, item);
    }
    Ok(Stamps::from_vec(stamps))
}

/// Gives each record that an item writes the item's stamp.
fn stamp_writes(stamps: &mut Vec<u64>, layout: &Layout, item: &Item)
    requires there { WritesAreThere layout.now item.now }
    requires stamp { HasStamp item.now }
    requires count { length stamps.old.items ≡ sum layout.now }
    ensures count { length stamps.new.items ≡ length stamps.old.items }
    ensures stamps { EachIndex stamps.new.items (λ r. slice_index stamps.new.items r
        ≡ stamp_after layout.now r (slice_index stamps.old.items r) item.now) }
{
    let stamp = pack(item.stamp);
    for write in item.writes.as_slice() {
        stamps[layout.record(write.table, write.key) as usize] = stamp;
    }
}
