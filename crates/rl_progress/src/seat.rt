//! A seat: a thread's part in the progress.

ghost use Rattle.std.specs.Prelude.{◌≡◌};
ghost use Rattle.rl_progress.specs.Rule.{IsReader, joined, reader};

use crate::progress::Progress;
use crate::rule::View;
use crate::steps::{Joins, Splits};
use rl_base::list::Seq;
use std::marker::Model;

/// A seat publishes one stream or only reads, and knows what it has seen of each stream. Contracts see which
/// table it is of, and its view.
#[derive(Drop)]
pub struct Seat {
    pub(crate) stream: usize,
    pub(crate) inner: atomic_table::Seat<(), View>,
}

/// Seats.
pub type Seats = Seq<Seat>;

impl Model for Seat {
    ghost use Rattle.rl_progress.specs.Seats.{SeatFits, SeatOf};

    ghost Value = { SeatOf };

    ghost view = { λ s. record { table = s.inner.table_id; view = s.inner.me.0 } };

    ghost invariant = { λ s. SeatFits s.stream s.inner.table_id s.inner.me };
}

impl Seat {
    /// A seat that only reads, and has seen what this one has seen.
    pub fn split(&mut self, progress: &Progress) -> Seat
        requires { self.old.table ≡ progress.now }
        ensures unchanged { self.new ≡ self.old }
        ensures table { result.table ≡ progress.now }
        ensures reader { result.view ≡ reader self.old.view }
    {
        let stream = self.stream;
        let inner = progress.table.shared.split_seat::<Splits>(&mut self.inner);
        Seat { stream, inner }
    }

    /// Takes in what another seat has seen, which only reads.
    pub fn join(&mut self, progress: &Progress, other: Seat)
        requires tables { (self.old.table ≡ progress.now) × (other.table ≡ progress.now) }
        requires reader { IsReader other.view }
        ensures table { self.new.table ≡ self.old.table }
        ensures joined { self.new.view ≡ joined self.old.view other.view }
    {
        let Seat { stream: _, inner } = other;
        progress
            .table
            .shared
            .join_seat::<Joins>(&mut self.inner, inner);
    }
}
