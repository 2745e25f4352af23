//! Locks, and the draw of a stamp.

ghost use Rattle.std.specs.Prelude.{◌≡◌, ℕ, ◌+◌, ◌*◌, ◌%◌, ◌^◌, ◌<◌, ◌≤◌, None, length, IfOk, IfErr, OnErr};
ghost use Rattle.rl_store.specs.Entries.{IsDecided};
ghost use Rattle.rl_store.specs.Passes.{HoldsWord, IsAbove, IsLockedRefusal};
ghost use Rattle.rl_store.specs.Refusals.{StopsDraw, after_stop, why};
ghost use Rattle.rl_store.specs.Views.{above_at, settled, stopped, unlocked_with, with_draw, with_lock, without};

use crate::pass::Pass;
use crate::spent::{DrawStop, TriesSpent};
use crate::steps::{Bound, ClosesOld, Draws, DrawsBelow, Locks, Number};
use crate::store::Store;
use rl_base::refusal::Refusal;
use std::marker::Brand;

impl Store {
    /// Locks a record, and answers its word as it was. It is refused where the word is locked, also where this attempt
    /// itself holds the record; that gives the attempt up, or ends it where it holds nothing. So lock each record once,
    /// by rising number.
    pub fn lock(&self, pass: &mut Pass, rec: u32) -> Result<u64, Refusal>
        requires table { pass.old.table ≡ self.now.table }
        requires record { rec < length self.now.made.columns }
        requires undrawn { pass.old.view.attempt.drawn ≡ None }
        ensures table { pass.new.table ≡ pass.old.table }
        ensures locked { IfOk result (λ word. pass.new.view ≡ with_lock pass.old.view rec word) }
        ensures unlocked { IfOk result (λ word. word % 2 ≡ 0) }
        ensures refused { IfErr result (λ refusal. pass.new.view ≡ stopped pass.old.view.attempt.held pass.old.view (why refusal)) }
        ensures cause { IfErr result (λ refusal. IsLockedRefusal rec refusal) }
    {
        let word = self
            .table
            .shared
            .fetch_or::<Locks>(&mut pass.inner, 1 + 6 * rec as usize, 1);
        if word % 2 == 1 {
            return Err(Refusal::Locked { rec, word });
        }
        Ok(word)
    }

    /// Lets a record go: closes it with its old word. The first unlock gives up an attempt that is still running, and
    /// the last one ends it.
    pub fn unlock(&self, pass: &mut Pass, rec: u32, old: u64)
        requires table { pass.old.table ≡ self.now.table }
        requires record { rec < length self.now.made.columns }
        requires held { HoldsWord pass.old.view rec old }
        requires undecided { IsDecided pass.old.view.attempt → ⊥ }
        ensures table { pass.new.table ≡ pass.old.table }
        ensures unlocked { pass.new.view ≡ unlocked_with (without rec pass.old.view.attempt.held) pass.old.view rec }
    {
        self.table
            .shared
            .store::<ClosesOld>(&mut pass.inner, 1 + 6 * rec as usize, old);
    }

    /// Draws the next seq. An attempt that has read nothing and holds nothing is then decided, and is an item.
    /// `TriesSpent` exactly where the pass has no try left; it is unchanged then.
    pub fn draw(&self, pass: &mut Pass) -> Result<u64, TriesSpent>
        requires table { pass.old.table ≡ self.now.table }
        requires undrawn { pass.old.view.attempt.drawn ≡ None }
        ensures table { pass.new.table ≡ pass.old.table }
        ensures drawn { IfOk result (λ seq. pass.new.view ≡ settled (with_draw pass.old.view (self.now.made.epoch * 2 ^ 40 + seq))) }
        ensures seq { IfOk result (λ seq. (2 ≤ seq) × (seq + 2 ≤ 2 ^ 40)) }
        ensures above { IfOk result (λ seq. IsAbove pass.old.view (self.now.made.epoch * 2 ^ 40 + seq)) }
        ensures left { IfOk result (λ _. 0 < pass.old.view.tries) }
        ensures spent { IfErr result (λ _. pass.old.view.tries ≡ 0) }
        ensures unchanged { OnErr result (pass.new ≡ pass.old) }
    {
        if pass.left == 0 {
            return Err(TriesSpent);
        }
        Ok(self.draw_as::<Brand>(pass))
    }

    /// Draws the next seq where it isn't above the limit, as `draw` does. A seq above it was drawn too, and refuses: that
    /// gives the attempt up, which keeps its locks, or ends it where it holds nothing. `TriesSpent` is that of `draw`.
    pub fn draw_below(&self, pass: &mut Pass, limit: u64) -> Result<u64, DrawStop>
        requires table { pass.old.table ≡ self.now.table }
        requires undrawn { pass.old.view.attempt.drawn ≡ None }
        ensures table { pass.new.table ≡ pass.old.table }
        ensures drawn { IfOk result (λ seq. pass.new.view ≡ settled (with_draw pass.old.view (self.now.made.epoch * 2 ^ 40 + seq))) }
        ensures seq { IfOk result (λ seq. (2 ≤ seq) × (seq + 2 ≤ 2 ^ 40)) }
        ensures limit { IfOk result (λ seq. seq ≤ limit) }
        ensures above { IfOk result (λ seq. IsAbove pass.old.view (self.now.made.epoch * 2 ^ 40 + seq)) }
        ensures left { IfOk result (λ _. 0 < pass.old.view.tries) }
        ensures cause { IfErr result (λ stop. StopsDraw limit pass.old.view.tries stop) }
        ensures stopped { IfErr result (λ stop. pass.new.view ≡ after_stop (self.now.made.epoch * 2 ^ 40) pass.old.view stop) }
    {
        if pass.left == 0 {
            return Err(DrawStop::TriesSpent);
        }
        let seq = self.draw_below_as::<Brand>(pass, limit);
        if seq > limit {
            return Err(DrawStop::Above { seq });
        }
        Ok(seq)
    }

    fn draw_below_as<N: Bound>(&self, pass: &mut Pass, limit: u64) -> u64
        requires table { pass.old.table ≡ self.now.table }
        requires undrawn { pass.old.view.attempt.drawn ≡ None }
        requires left { 0 < pass.old.view.tries }
        requires base { N.base ≡ self.now.made.epoch * 2 ^ 40 }
        requires limit { N.limit ≡ limit }
        ensures table { pass.new.table ≡ pass.old.table }
        ensures drawn { result ≤ limit → pass.new.view ≡ settled (with_draw pass.old.view (self.now.made.epoch * 2 ^ 40 + result)) }
        ensures stopped { limit < result → pass.new.view ≡ stopped pass.old.view.attempt.held (with_draw pass.old.view (self.now.made.epoch * 2 ^ 40 + result)) (above_at result) }
        ensures seq { (2 ≤ result) × (result + 2 ≤ 2 ^ 40) }
        ensures above { IsAbove pass.old.view (self.now.made.epoch * 2 ^ 40 + result) }
    {
        let seq = self
            .table
            .shared
            .fetch_add::<DrawsBelow<N>>(&mut pass.inner, 0, 1);
        pass.left -= 1;
        seq
    }

    fn draw_as<N: Number>(&self, pass: &mut Pass) -> u64
        requires table { pass.old.table ≡ self.now.table }
        requires undrawn { pass.old.view.attempt.drawn ≡ None }
        requires left { 0 < pass.old.view.tries }
        requires base { N.number ≡ self.now.made.epoch * 2 ^ 40 }
        ensures table { pass.new.table ≡ pass.old.table }
        ensures drawn { pass.new.view ≡ settled (with_draw pass.old.view (self.now.made.epoch * 2 ^ 40 + result)) }
        ensures seq { (2 ≤ result) × (result + 2 ≤ 2 ^ 40) }
        ensures above { IsAbove pass.old.view (self.now.made.epoch * 2 ^ 40 + result) }
    {
        let seq = self
            .table
            .shared
            .fetch_add::<Draws<N>>(&mut pass.inner, 0, 1);
        pass.left -= 1;
        seq
    }
}
