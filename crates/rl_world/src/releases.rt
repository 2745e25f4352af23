//! The released list.

ghost use Rattle.std.specs.Prelude.{◌≡◌, ◌++◌, true, map, OnOk};
ghost use Rattle.std.specs.Option.{option_map_or};
ghost use Rattle.rl_base.specs.Order.{is_below};
ghost use Rattle.rl_families.specs.Logs.{last_stamp};
ghost use Rattle.rl_nodes.specs.World.{unreleased};

use rl_base::memory::Memory;
use rl_base::stamp::{Stamp, is_below};
use rl_txn::item::Items;

/// The last released stamp.
fn last_stamp(released: &Items) -> Option<Stamp>
    ensures { result ≡ last_stamp (map (λ x. x.stamp) released.now) }
{
    Some(released.as_slice().last()?.stamp)
}

/// Appends those of some items that are above the last released one.
pub fn release(released: &mut Items, items: Items) -> Result<(), Memory>
    ensures { OnOk result (released.new ≡ released.old ++ unreleased released.old items) }
{
    if items.is_empty() {
        return Ok(());
    }
    let last = last_stamp(released);
    for item in items.into_vec() {
        if is_above(item.stamp, last) {
            released.push(item)?;
        }
    }
    Ok(())
}

/// Whether a stamp is above the last one, if there is one.
fn is_above(stamp: Stamp, last: Option<Stamp>) -> bool
    ensures { result ≡ option_map_or (λ last. is_below last stamp) last true }
{
    match last {
        Some(last) => is_below(last, stamp),
        None => true,
    }
}
