//! The stamps with which the records of an epoch open.

ghost use Rattle.std.specs.Prelude.{◌≡◌, ◌<◌, IfOk, All, length, slice_index};
ghost use Rattle.rl_worker.specs.Stamping.{WritesAreThere, HasStamp};

use rl_base::memory::Memory;
use rl_base::stamp::{Stamp, pack};
use rl_tables::layout::Layout;
use rl_txn::item::{Item, Items};
use rl_txn::write::{End, Outs, Reply, Write, Writes};
use rl_value::schema::Schema;
use rl_worker::opening::opening_stamps;
use std::alloc::Global;
use std::test::Fail;

/// The records of a table of three keys.
fn three_records(alloc: Global) -> Result<Layout, Fail>
    ensures table { IfOk result (λ layout. 0 < length layout) }
    ensures keys { IfOk result (λ layout. slice_index layout 0 ≡ 3) }
{
    let mut schema = Schema::new(alloc);
    schema.declare(alloc, "a", 3, 1)?;
    Ok(Layout::new(alloc, &schema)?)
}

/// An item of a stamp that takes the row of a key away.
fn item(alloc: Global, layout: &Layout, stamp: Stamp, key: u32) -> Result<Item, Memory>
    requires table { 0 < length layout.now }
    requires key { key < slice_index layout.now 0 }
    ensures stamp { IfOk result (λ item. item.stamp ≡ stamp) }
    ensures there { IfOk result (λ item. WritesAreThere layout.now item) }
{
    let mut writes = Writes::new(alloc);
    writes.push(Write {
        table: 0,
        key,
        row: None,
    })?;
    Ok(Item {
        stamp,
        worker: 1,
        index: 1,
        reply: Reply {
            outs: Outs::new(alloc),
            end: End::Done,
        },
        writes,
    })
}

/// An opening list of one item, which takes the row of the second key away.
fn opening_list(alloc: Global, layout: &Layout) -> Result<Items, Memory>
    requires table { 0 < length layout.now }
    requires keys { slice_index layout.now 0 ≡ 3 }
    ensures there { IfOk result (λ items. All (WritesAreThere layout.now) items) }
    ensures stamps { IfOk result (λ items. All HasStamp items) }
{
    let stamp = Stamp { epoch: 1, seq: 3 };
    let mut items = Items::new(alloc);
    items.push(item(alloc, layout, stamp, 1)?)?;
    Ok(items)
}

#[test]
fn records_open_with_the_stamp_of_their_last_write(rt: HostRuntime) -> Result<(), Fail> {
    let layout = three_records(rt.alloc())?;
    let items = opening_list(rt.alloc(), &layout)?;
    let stamps = opening_stamps(rt.alloc(), &layout, &items)?;
    let wanted = [0, pack(Stamp { epoch: 1, seq: 3 }), 0];
    assert_eq!(rt; stamps.as_slice(), wanted.as_slice());
    Ok(())
}
