//! The commit of an attempt that holds its locks and has drawn: it validates its reads, and installs its writes.

ghost use Rattle.std.specs.Prelude.{◌≡◌, ℕ, ◌+◌, ◌*◌, ◌^◌, ◌<◌, Some, length, map, IfOk, IfErr, MatchBool};
ghost use Rattle.rl_tables.specs.Numbers.{sizes_of};
ghost use Rattle.rl_store.specs.Entries.{In};
ghost use Rattle.rl_store.specs.Refusals.{why};
ghost use Rattle.rl_store.specs.Views.{settled};
ghost use Rattle.rl_occ.specs.Committing.{IsToInstall, IsToValidate, all_closed, all_valid, with_refusal};
ghost use Rattle.rl_occ.specs.Fits.{AreWrites, IsStoreOf, rec_of};
ghost use Rattle.rl_occ.specs.Locking.{AreApart, AreBelow, lock_rec};
ghost use Rattle.rl_occ.specs.Outcomes.{HasRefused, IsStopped, RefusesReads};

use crate::release::release;
use crate::sets::{Lock, Seen};
use rl_base::refusal::Refusal;
use rl_store::pass::Pass;
use rl_store::store::Store;
use rl_tables::layout::Layout;
use rl_txn::write::{Writes, copy_row};
use rl_value::schema::Schema;

/// Validates all reads, and stops at the first refusal.
pub fn validate_all(
    store: &Store,
    pass: &mut Pass,
    seen: &[Seen],
    locks: &[Lock],
) -> Result<(), Refusal>
    requires table { pass.old.table ≡ store.now.table }
    requires records { (x : Seen) → In x seen.now → x.rec < length store.now.made.columns }
    requires drawn { IsToValidate pass.old.view seen.now locks.now }
    requires apart { AreApart locks.now }
    ensures table { pass.new.table ≡ pass.old.table }
    ensures valid { IfOk result (λ _. pass.new.view ≡ settled (all_valid pass.old.view)) }
    ensures refused { IfErr result (λ refusal. HasRefused pass.old.view pass.new.view (why refusal)) }
    ensures tries { IfErr result (λ _. (pass.new.view.tries ≡ pass.old.view.tries) × (pass.new.view.draws ≡ pass.old.view.draws)) }
    ensures some { IfErr result (λ _. 0 < length seen.now) }
    ensures stopped { IfErr result (λ _. IsStopped pass.new.view locks.now) }
    ensures cause { IfErr result (λ refusal. RefusesReads seen.now locks.now refusal) }
{
    for i in 0..seen.len() {
        let Seen { rec, word } = seen[i];
        store.validate(pass, rec, word, is_locked(locks, rec))?;
    }
    Ok(())
}

/// Whether the attempt itself has locked a record.
fn is_locked(locks: &[Lock], rec: u32) -> bool
    ensures { MatchBool result (In rec (map lock_rec locks.now)) (In rec (map lock_rec locks.now) → ⊥) }
{
    for i in 0..locks.len() {
        if locks[i].rec == rec {
            return true;
        }
    }
    false
}

/// Installs all writes under the stamp of this seq.
pub fn install_all(
    store: &Store,
    layout: &Layout,
    schema: &Schema,
    pass: &mut Pass,
    seq: u64,
    writes: &Writes,
)
    requires layout { layout.now ≡ sizes_of schema.now }
    requires store { IsStoreOf store.now.made schema.now }
    requires table { pass.old.table ≡ store.now.table }
    requires writes { AreWrites schema.now writes.now }
    requires seq { seq < 2 ^ 40 }
    requires decided { IsToInstall schema.now pass.old.view (store.now.made.epoch * 2 ^ 40 + seq) writes.now }
    ensures table { pass.new.table ≡ pass.old.table }
    ensures installed { pass.new.view ≡ settled (all_closed schema.now pass.old.view writes.now) }
{
    for i in 0..writes.len() {
        let write = writes.get(i);
        let rec = layout.record(write.table, write.key);
        store.install(pass, rec, seq, copy_row(&write.row));
    }
}

/// Validates and installs, and answers a refusal where it is refused. The pass is then at rest.
pub fn finish(
    store: &Store,
    layout: &Layout,
    schema: &Schema,
    pass: &mut Pass,
    seq: u64,
    writes: &Writes,
    seen: &[Seen],
    locks: &[Lock],
) -> Result<(), Refusal>
    requires layout { layout.now ≡ sizes_of schema.now }
    requires store { IsStoreOf store.now.made schema.now }
    requires table { pass.old.table ≡ store.now.table }
    requires records { (x : Seen) → In x seen.now → x.rec < length store.now.made.columns }
    requires writes { AreWrites schema.now writes.now }
    requires locks { map lock_rec locks.now ≡ map (rec_of schema.now) writes.now }
    requires seq { seq < 2 ^ 40 }
    requires drawn { IsToValidate pass.old.view seen.now locks.now }
    requires stamp { 0 < length locks.now → pass.old.view.attempt.drawn ≡ Some (store.now.made.epoch * 2 ^ 40 + seq) }
    ensures table { pass.new.table ≡ pass.old.table }
    ensures committed { IfOk result (λ _. pass.new.view ≡ settled (all_closed schema.now (settled (all_valid pass.old.view)) writes.now)) }
    ensures lost { IfErr result (λ refusal. pass.new.view ≡ with_refusal pass.old.view (why refusal)) }
    ensures some { IfErr result (λ _. 0 < length seen.now) }
    ensures cause { IfErr result (λ refusal. RefusesReads seen.now locks.now refusal) }
{
    if let Err(refusal) = validate_all(store, pass, seen, locks) {
        release(store, pass, locks);
        return Err(refusal);
    }
    install_all(store, layout, schema, pass, seq, writes);
    Ok(())
}
