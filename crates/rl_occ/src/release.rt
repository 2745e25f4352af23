//! The end of an attempt that isn't decided.

ghost use Rattle.std.specs.Prelude.{◌≡◌, map, length};
ghost use Rattle.rl_store.specs.Entries.{IsDecided};
ghost use Rattle.rl_store.specs.Views.{rested};
ghost use Rattle.rl_occ.specs.Locking.{AreApart, AreBelow, held_of};

use crate::sets::Lock;
use rl_store::pass::Pass;
use rl_store::store::Store;

/// Lets all locked records go, or ends an attempt that holds none: the pass is then at rest.
pub fn release(store: &Store, pass: &mut Pass, locks: &[Lock])
    requires table { pass.old.table ≡ store.now.table }
    requires held { pass.old.view.attempt.held ≡ map held_of locks.now }
    requires apart { AreApart locks.now }
    requires records { AreBelow (length store.now.made.columns) locks.now }
    requires undecided { IsDecided pass.old.view.attempt → ⊥ }
    ensures table { pass.new.table ≡ pass.old.table }
    ensures rested { pass.new.view ≡ rested pass.old.view }
{
    if locks.is_empty() {
        store.rest(pass);
        return;
    }
    for i in 0..locks.len() {
        let lock = locks[i];
        store.unlock(pass, lock.rec, lock.old);
    }
}
