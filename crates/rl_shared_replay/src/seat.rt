//! A seat: a thread's part in the replay.

ghost use Rattle.std.specs.Prelude.{◌≡◌, None};
ghost use Rattle.rl_shared_replay.specs.Views.{blank, joined};

use crate::records::Records;
use crate::steps::{Joins, Splits};
use crate::view::View;
use std::marker::Model;

/// A seat. Contracts see which table it is of, and its view.
#[derive(Drop)]
pub(crate) struct Seat {
    pub(crate) inner: atomic_table::Seat<(), View>,
}

impl Model for Seat {
    ghost use Rattle.std.specs.Prelude.{◌≡◌, []};
    ghost use Rattle.rl_shared_replay.specs.Calls.{SeatOf};

    ghost Value = { SeatOf };

    ghost view = { λ s. record { table = s.inner.table_id; view = s.inner.me.0 } };

    ghost invariant = { λ s. s.inner.me.1 ≡ [] };
}

impl Seat {
    /// A new seat, which has made and seen nothing.
    pub(crate) fn split(&mut self, records: &Records) -> Seat
        requires { self.old.table ≡ records.now.table }
        ensures unchanged { self.new ≡ self.old }
        ensures table { result.table ≡ records.now.table }
        ensures blank { result.view ≡ blank }
    {
        let inner = records.table.shared.split_seat::<Splits>(&mut self.inner);
        Seat { inner }
    }

    /// Takes in what another seat has made and seen, which holds nothing.
    pub(crate) fn join(&mut self, records: &Records, other: Seat)
        requires tables { (self.old.table ≡ records.now.table) × (other.table ≡ records.now.table) }
        requires free { other.view.held ≡ None }
        ensures table { self.new.table ≡ self.old.table }
        ensures joined { self.new.view ≡ joined self.old.view other.view }
    {
        let Seat { inner } = other;
        records
            .table
            .shared
            .join_seat::<Joins>(&mut self.inner, inner);
    }
}
