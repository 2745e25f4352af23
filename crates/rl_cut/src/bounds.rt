//! The bounds of epochs that all streams have left: they are settled.

ghost use Rattle.std.specs.Prelude.{◌≡◌, ◌≤◌, ◌&&◌, nat_lt, nat_le, filter, OnOk, All};
ghost use Rattle.rl_base.specs.Lists.{IsPrefix};
ghost use Rattle.rl_cut.specs.Kept.{AreByEpoch, AreSettled, least_epoch};

use crate::lasts::{Lasts, least_seq};
use rl_base::memory::Memory;
use rl_base::stamp::Stamp;

/// Settles the bounds of the epochs that all streams have left since the epoch `before`. After
/// `Memory` some of them may stand behind those that were settled.
pub fn settle(
    reached: &[Lasts],
    before: u32,
    now: u32,
    settled: &mut Vec<Stamp>,
) -> Result<(), Memory>
    requires epochs { All AreByEpoch reached.now }
    requires settled { AreSettled reached.now before settled.old.items }
    requires rises { before ≤ now }
    requires now { now ≡ least_epoch reached.now }
    ensures settled { OnOk result (AreSettled reached.now now settled.new.items) }
    ensures kept { IsPrefix settled.old.items settled.new.items }
{
    if before == now {
        return Ok(());
    }
    let Some(first) = reached.first() else {
        return Ok(());
    };
    for stamp in of_epochs(first.as_slice(), before, now) {
        let seq = least_seq(reached, stamp.epoch);
        settled.push(Stamp {
            epoch: stamp.epoch,
            seq,
        })?;
    }
    Ok(())
}

/// The stamps of the epochs from `start` on that are below `end`.
fn of_epochs(stamps: &[Stamp], start: u32, end: u32) -> &[Stamp]
    requires epochs { AreByEpoch stamps.now }
    requires rises { start ≤ end }
    ensures { result.now ≡ filter (λ s. nat_le start s.epoch && nat_lt s.epoch end) stamps.now }
{
    let from = stamps.partition_point(|stamp| stamp.epoch < start);
    let to = stamps.partition_point(|stamp| stamp.epoch < end);
    &stamps[from..to]
}
