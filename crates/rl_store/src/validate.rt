//! The validation of a read.

ghost use Rattle.std.specs.Prelude.{◌≡◌, ◌≢◌, ℕ, ◌+◌, ◌*◌, ◌%◌, ◌<◌, MatchBool, length, IfOk, IfErr};
ghost use Rattle.rl_base.specs.Words.{without_lock};
ghost use Rattle.rl_store.specs.Entries.{Holds, In};
ghost use Rattle.rl_store.specs.Passes.{HasDrawn, HasReadWord, RefusesRead, held_bit};
ghost use Rattle.rl_store.specs.Refusals.{why};
ghost use Rattle.rl_store.specs.Views.{changed_at, locked_at, settled, stopped, with_valid};

use crate::pass::Pass;
use crate::steps::{Number, Validates};
use crate::store::Store;
use rl_base::refusal::Refusal;
use rl_base::word::unlocked;
use std::marker::Brand;

impl Store {
    /// Validates a read by one load: the record still has the word that was read, but for the lock of this attempt.
    /// With the last read the attempt is decided, and where it holds nothing it is an item. It is refused where
    /// another has locked the record, or where its stamp is another; that gives the attempt up, or ends it where it
    /// holds nothing.
    pub fn validate(&self, pass: &mut Pass, rec: u32, word: u64, held: bool) -> Result<(), Refusal>
        requires table { pass.old.table ≡ self.now.table }
        requires record { rec < length self.now.made.columns }
        requires read { HasReadWord pass.old.view rec word }
        requires once { In rec pass.old.view.attempt.validated → ⊥ }
        requires drawn { HasDrawn pass.old.view }
        requires held { MatchBool held (Holds pass.old.view rec) (Holds pass.old.view rec → ⊥) }
        ensures table { pass.new.table ≡ pass.old.table }
        ensures valid { IfOk result (λ _. pass.new.view ≡ settled (with_valid pass.old.view rec)) }
        ensures refused { IfErr result (λ refusal. pass.new.view ≡ stopped pass.old.view.attempt.held pass.old.view (why refusal)) }
        ensures cause { IfErr result (λ refusal. RefusesRead rec word held refusal) }
    {
        let found = self.validate_as::<Brand>(pass, rec, word, held);
        if found == word + u64::from(held) {
            return Ok(());
        }
        if !held && found % 2 == 1 {
            return Err(Refusal::Locked { rec, word: found });
        }
        Err(Refusal::Changed {
            rec,
            seen: word,
            found: unlocked(found),
        })
    }

    fn validate_as<N: Number>(&self, pass: &mut Pass, rec: u32, word: u64, held: bool) -> u64
        requires table { pass.old.table ≡ self.now.table }
        requires record { rec < length self.now.made.columns }
        requires read { HasReadWord pass.old.view rec word }
        requires once { In rec pass.old.view.attempt.validated → ⊥ }
        requires drawn { HasDrawn pass.old.view }
        requires held { MatchBool held (Holds pass.old.view rec) (Holds pass.old.view rec → ⊥) }
        requires number { N.number ≡ held_bit held }
        ensures table { pass.new.table ≡ pass.old.table }
        ensures valid { result ≡ word + held_bit held → pass.new.view ≡ settled (with_valid pass.old.view rec) }
        ensures locked { result ≢ word + held_bit held → held_bit held ≡ 0 → result % 2 ≡ 1 → pass.new.view ≡ stopped pass.old.view.attempt.held pass.old.view (locked_at rec result) }
        ensures changed { result ≢ word + held_bit held → result % 2 ≡ held_bit held → pass.new.view ≡ stopped pass.old.view.attempt.held pass.old.view (changed_at rec word (without_lock result)) }
        ensures own { held_bit held ≡ 1 → result % 2 ≡ 1 }
    {
        self.table
            .shared
            .load::<Validates<N>>(&mut pass.inner, 1 + 6 * rec as usize)
    }
}
