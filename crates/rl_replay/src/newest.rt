//! Writes where the newer stamp wins.

ghost use Rattle.std.specs.Prelude.{◌≡◌, ℕ, [], ◌∷◌, take, OnOk, OnErr};
ghost use Rattle.std.specs.FinMap as finite;
ghost use Rattle.rl_txn.specs.Serial.{after_writes};
ghost use Rattle.rl_replay.specs.Newest.{is_old, fresh, stamped};

use rl_base::memory::Memory;
use rl_base::stamp::{Stamp, is_below};
use rl_txn::item::{Item, apply_write};
use rl_txn::write::Write;
use rl_value::map::{Map, Places};

/// The stamp of the newest write of each key.
pub type Newest = Places<Stamp>;

/// Makes each write of an item, unless its key has a newer one. After `Memory` a prefix of these
/// writes is made.
pub fn apply_newest(map: &mut Map, newest: &mut Newest, item: &Item) -> Result<(), Memory>
    ensures rows { OnOk result (map.new
        ≡ after_writes map.old (fresh newest.old item.now.stamp item.now.writes)) }
    ensures stamps { OnOk result ((q : ℕ × ℕ) → finite.get newest.new q
        ≡ stamped (finite.get newest.old q) item.now.stamp q
        (fresh newest.old item.now.stamp item.now.writes)) }
    ensures prefix { OnErr result ((n : ℕ) × (map.new
        ≡ after_writes map.old (take n (fresh newest.old item.now.stamp item.now.writes)))) }
{
    for write in item.writes.as_slice() {
        apply_one(map, newest, item.stamp, write)?;
    }
    Ok(())
}

/// Makes a write, unless its key has a newer one. After `Memory` the map is unchanged.
fn apply_one(map: &mut Map, newest: &mut Newest, stamp: Stamp, write: &Write) -> Result<(), Memory>
    ensures rows { OnOk result (map.new ≡ after_writes map.old (fresh newest.old stamp (write.now ∷ []))) }
    ensures stamps { OnOk result ((q : ℕ × ℕ) → finite.get newest.new q
        ≡ stamped (finite.get newest.old q) stamp q (fresh newest.old stamp (write.now ∷ []))) }
    ensures unchanged { OnErr result (map.new ≡ map.old) }
{
    if is_old(newest, stamp, write) {
        return Ok(());
    }
    newest.put(write.table, write.key, stamp)?;
    apply_write(map, write)?;
    Ok(())
}

/// Whether the key of a write has a newer one.
fn is_old(newest: &Newest, stamp: Stamp, write: &Write) -> bool
    ensures { result ≡ is_old (finite.get newest.now (write.now.table, write.now.key)) stamp }
{
    match newest.get(write.table, write.key) {
        Some(newer) => is_below(stamp, *newer),
        None => false,
    }
}
