//! A pass: a thread's part in a store.

ghost use Rattle.std.specs.Prelude.{◌≡◌, ◌≤◌};
ghost use Rattle.rl_store.specs.Views.{IsAtRest, joined, split_left, split_right};

use crate::steps::{Joins, Number, Rests, Splits};
use crate::store::Store;
use crate::view::View;
use std::marker::{Brand, Model};

/// The right to try so many commits, and what its attempt and its items have done. Contracts see which table it is
/// of, and its view.
#[derive(Drop)]
pub struct Pass {
    pub(crate) inner: atomic_table::Seat<(), View>,
    pub(crate) left: u64,
}

impl Model for Pass {
    ghost use Rattle.rl_store.specs.Passes.{PassFits, PassOf};

    ghost Value = { PassOf };

    ghost view = { λ p. record { table = p.inner.table_id; view = p.inner.me.0 } };

    ghost invariant = { λ p. PassFits p.left p.inner.me };
}

impl Pass {
    /// The tries that are left.
    pub fn tries(&self) -> u64
        ensures { result ≡ self.now.view.tries }
    {
        self.left
    }

    /// Moves tries over to a new pass at rest.
    pub fn split(&mut self, store: &Store, tries: u64) -> Pass
        requires table { self.old.table ≡ store.now.table }
        requires enough { tries ≤ self.old.view.tries }
        ensures tables { (self.new.table ≡ self.old.table) × (result.table ≡ self.old.table) }
        ensures left { self.new.view ≡ split_left tries self.old.view }
        ensures right { result.view ≡ split_right tries self.old.view }
    {
        self.split_as::<Brand>(store, tries)
    }

    fn split_as<N: Number>(&mut self, store: &Store, tries: u64) -> Pass
        requires table { self.old.table ≡ store.now.table }
        requires enough { tries ≤ self.old.view.tries }
        requires number { N.number ≡ tries }
        ensures tables { (self.new.table ≡ self.old.table) × (result.table ≡ self.old.table) }
        ensures left { self.new.view ≡ split_left tries self.old.view }
        ensures right { result.view ≡ split_right tries self.old.view }
    {
        let inner = store.table.shared.split_seat::<Splits<N>>(&mut self.inner);
        self.left -= tries;
        Pass { inner, left: tries }
    }

    /// Takes in the items and tries of another pass. Both are at rest.
    pub fn join(&mut self, store: &Store, other: Pass)
        requires tables { (self.old.table ≡ store.now.table) × (other.table ≡ store.now.table) }
        requires rest { IsAtRest self.old.view × IsAtRest other.view }
        ensures table { self.new.table ≡ self.old.table }
        ensures joined { self.new.view ≡ joined self.old.view other.view }
    {
        let Pass { inner, left } = other;
        store
            .table
            .shared
            .join_seat::<Joins>(&mut self.inner, inner);
        let _found = store.table.shared.load::<Rests>(&mut self.inner, 0);
        self.left += left;
    }
}
