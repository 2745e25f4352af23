//! Which stamps a run of threads may give.

ghost use Rattle.std.specs.Prelude.{◌≡◌, ◌≤◌, ℕ, List, All};
ghost use Rattle.std.specs.Bool.{OnTrue, OnFalse};
ghost use Rattle.rl_base.specs.Stamps.{packed};
ghost use Rattle.rl_txn.specs.declared.item.Item.{Item};
ghost use Rattle.rl_check.specs.Right.{HasItemRange, KeepsStops, MayGive};
ghost use Rattle.rl_check.specs.Verdicts.{MayFollow};
ghost use Rattle.rl_check.specs.Counts.{IsGreatest};

use rl_base::stamp::{Stamp, pack};
use rl_script::script::Stops;

/// The least seq of an item.
const FIRST_SEQ: u64 = 2;

/// The greatest seq of an item.
const LAST_SEQ: u64 = (1 << 40) - 2;

/// The greatest epoch.
const LAST_EPOCH: u32 = (1 << 20) - 1;

/// Whether a stamp is in the ranges of an item.
fn has_item_range(stamp: Stamp) -> bool
    ensures yes { OnTrue result (HasItemRange stamp) }
    ensures no { OnFalse result (HasItemRange stamp → ⊥) }
{
    stamp.epoch >= 1 && stamp.epoch <= LAST_EPOCH && stamp.seq >= FIRST_SEQ && stamp.seq <= LAST_SEQ
}

/// Whether the stops allow a stamp, which is in the ranges of an item.
fn keeps_stops(stops: &Stops, stamp: Stamp) -> bool
    requires { HasItemRange stamp }
    ensures yes { OnTrue result (KeepsStops stops.now stamp) }
    ensures no { OnFalse result (KeepsStops stops.now stamp → ⊥) }
{
    let before = (stamp.epoch - 1) as usize;
    if before < stops.len() {
        stamp.seq - 1 <= *stops.get(before)
    } else {
        before == stops.len()
    }
}

/// Whether a run of threads may give a stamp.
fn may_give(stops: &Stops, stamp: Stamp) -> bool
    ensures yes { OnTrue result (MayGive stops.now stamp) }
    ensures no { OnFalse result (MayGive stops.now stamp → ⊥) }
{
    if !has_item_range(stamp) {
        return false;
    }
    keeps_stops(stops, stamp)
}

/// Whether a run of threads may give a stamp behind those of some items, the last of which is `last` as a
/// number.
pub fn may_follow(stops: &Stops, last: u64, stamp: Stamp) -> bool
    ensures yes { (items : List Item) → IsGreatest items last → OnTrue result (MayFollow stops.now items stamp) }
    ensures no { (items : List Item) → IsGreatest items last → OnFalse result (MayFollow stops.now items stamp → ⊥) }
{
    if !may_give(stops, stamp) {
        return false;
    }
    last < pack(stamp)
}
