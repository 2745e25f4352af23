//! The locks of an attempt: the records that it writes, by rising number.

ghost use Rattle.std.specs.Prelude.{◌≡◌, [], length, map, take, IfOk, IfErr};
ghost use Rattle.rl_tables.specs.Numbers.{sizes_of};
ghost use Rattle.rl_store.specs.Refusals.{why};
ghost use Rattle.rl_store.specs.Views.{stopped};
ghost use Rattle.smallvec.specs.SmallVec.{HasRoomFor};
ghost use Rattle.rl_occ.specs.Fits.{AreWrites, IsStoreOf, rec_of};
ghost use Rattle.rl_occ.specs.Locking.{RefusesLock, held_of, lock_rec, with_locks};
ghost use Rattle.rl_occ.specs.Reading.{OnlyReads};

use crate::sets::Lock;
use rl_base::refusal::Refusal;
use rl_store::pass::Pass;
use rl_store::store::Store;
use rl_tables::layout::Layout;
use rl_txn::write::Writes;
use rl_value::schema::Schema;
use smallvec::SmallVec;

/// Locks the records of all writes, and stops at the first that is locked by another.
pub fn lock_all(
    store: &Store,
    layout: &Layout,
    schema: &Schema,
    pass: &mut Pass,
    writes: &Writes,
    locks: &mut SmallVec<Lock, 8>,
) -> Result<(), Refusal>
    requires layout { layout.now ≡ sizes_of schema.now }
    requires store { IsStoreOf store.now.made schema.now }
    requires table { pass.old.table ≡ store.now.table }
    requires writes { AreWrites schema.now writes.now }
    requires none { locks.old.items ≡ [] }
    requires room { HasRoomFor locks.old (length writes.now) }
    requires read { OnlyReads pass.old.view }
    ensures table { pass.new.table ≡ pass.old.table }
    ensures locks { map lock_rec locks.new.items ≡ map (rec_of schema.now) (take (length locks.new.items) writes.now) }
    ensures all { IfOk result (λ _. length locks.new.items ≡ length writes.now) }
    ensures locked { IfOk result (λ _. pass.new.view ≡ with_locks pass.old.view locks.new.items) }
    ensures refused { IfErr result (λ refusal. pass.new.view ≡ stopped (map held_of locks.new.items) (with_locks pass.old.view locks.new.items) (why refusal)) }
    ensures cause { IfErr result (λ refusal. RefusesLock locks.new.items refusal) }
{
    for i in 0..writes.len() {
        let write = writes.get(i);
        let rec = layout.record(write.table, write.key);
        let old = store.lock(pass, rec)?;
        locks.push_reserved(Lock { rec, old });
    }
    Ok(())
}
