//! Replay by threads.

ghost use Rattle.std.specs.Prelude.{◌≡◌, All, IfOk};
ghost use Rattle.rl_value.specs.Fits.{RowsFit};
ghost use Rattle.rl_txn.specs.Serial.{rows_after};
ghost use Rattle.rl_families.specs.Order.{in_order};
ghost use Rattle.rl_replay.specs.Replay.{AreDistinct};
ghost use Rattle.rl_shared_replay.specs.Replayable.{IsReplayable};
ghost use Rattle.rl_shared_replay.specs.Start.{all_items};

use crate::make::make;
use crate::parts::Parts;
use crate::run::{hand_out, join_all, run_all};
use rl_base::memory::Memory;
use rl_value::map::Map;
use rl_value::schema::Schema;
use std::alloc::Global;
use std::sync::Wait;
use std::thread::Threads;

/// The rows after all items of the parts in the order of their stamps, in every schedule. Each part
/// has a thread, which makes a write where its stamp is newer than its record's. The opening rows
/// and the items fit the schema, and no two items have one stamp.
///
/// `Memory`: nothing is left of the replay.
pub fn replay<R: Threads + Wait + Sync>(
    rt: &R,
    alloc: Global,
    schema: &Schema,
    opening: &Map,
    parts: Parts,
) -> Result<Map, Memory>
    requires opening { RowsFit schema.now opening.now }
    requires items { All (All (IsReplayable schema.now)) parts }
    requires stamps { AreDistinct (all_items parts) }
    ensures { IfOk result (λ map. map ≡ rows_after opening.now (in_order (all_items parts))) }
{
    let (records, mut seat, parts) = make(alloc, schema, opening, parts)?;
    let jobs = hand_out(alloc, &records, &mut seat, parts)?;
    let seats = run_all(rt, &records, jobs)?;
    let seat = join_all(&records, seat, seats);
    records.into_map(alloc, seat)
}
