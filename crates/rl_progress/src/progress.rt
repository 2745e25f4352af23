//! The shared words.

ghost use Rattle.std.specs.Prelude.{◌≡◌, ℕ, ◌^◌, ◌<◌, ◌≤◌, [], IfOk, length, slice_index};
ghost use Rattle.rl_progress.specs.Rule.{IsPublisher, dealer, dealt, loaded, published, rest_of};
ghost use Rattle.rl_progress.specs.Seats.{IsLeast, LoadedEach, publishers};

use crate::rule::{Law, View};
use crate::seat::{Seat, Seats};
use crate::steps::{Deals, Loads, Publishes};
use atomic_table::Table;
use rl_base::memory::Memory;
use std::alloc::Global;
use std::marker::Model;

/// For each stream a word, which has the last seq that was published of it, or 0. Contracts see which table it is.
#[derive(Drop)]
pub struct Progress {
    pub(crate) table: Table<(), View, usize, Law, Global>,
}

impl Model for Progress {
    ghost use Rattle.std.specs.Prelude.{◌≡◌};
    ghost use Rattle.atomic_table.specs.Seated.{TableId};

    ghost Value = { TableId };

    ghost view = { λ p. p.table.shared.table_id };

    ghost invariant = { λ p. p.table.shared.key ≡ p.table.shared.table_id.words };
}

impl Progress {
    /// A word for each stream, all 0, and a publishing seat for each stream.
    pub fn make(alloc: Global, streams: u32) -> Result<(Progress, Seats), Memory>
        ensures words { IfOk result (λ made. made.0.words ≡ streams) }
        ensures seats { IfOk result (λ made. made.1 ≡ publishers made.0) }
    {
        let count = streams as usize;
        let words = vec![in alloc; 0u64; count]?;
        let (table, undealt) = Table::<(), View, usize, Law, Global>::of_words(
            alloc,
            words.as_slice(),
            &count,
        )?;
        let progress = Progress { table };
        let seats = progress.deal(alloc, undealt)?;
        Ok((progress, seats))
    }

    /// Stores a seq to the word of the seat's stream.
    pub fn publish(&self, seat: &mut Seat, seq: u64)
        requires table { seat.old.table ≡ self.now }
        requires publishes { IsPublisher seat.old.view }
        requires rises { seat.old.view.last < seq }
        requires small { seq < 2 ^ 40 }
        ensures table { seat.new.table ≡ seat.old.table }
        ensures published { seat.new.view ≡ published seat.old.view seq }
    {
        self.table
            .shared
            .store::<Publishes>(&mut seat.inner, seat.stream, seq);
    }

    /// Loads each word once, and answers the least that the seat has then seen of any stream.
    pub fn watermark(&self, seat: &mut Seat) -> u64
        requires { seat.old.table ≡ self.now }
        ensures table { seat.new.table ≡ seat.old.table }
        ensures loaded { LoadedEach seat.old.view seat.new.view }
        ensures least { IsLeast seat.new.view.seen result }
        ensures small { result < 2 ^ 40 }
    {
        let _own = seat.stream;
        let mut least = u64::MAX;
        for stream in 0..self.table.word_count() {
            let found = self.load(seat, stream);
            if found < least {
                least = found;
            }
        }
        least
    }

    /// Loads one word.
    fn load(&self, seat: &mut Seat, stream: usize) -> u64
        requires table { seat.old.table ≡ self.now }
        requires stream { stream < self.now.words }
        ensures table { seat.new.table ≡ seat.old.table }
        ensures loaded { seat.new.view ≡ loaded seat.old.view stream result }
        ensures rises { slice_index seat.old.view.seen stream ≤ result }
        ensures small { result < 2 ^ 40 }
        ensures wide { (length seat.old.view.seen ≡ self.now.words) × (length seat.old.view.loads ≡ self.now.words) }
    {
        self.table.shared.load::<Loads>(&mut seat.inner, stream)
    }

    /// Splits a publishing seat off for each stream.
    fn deal(
        &self,
        alloc: Global,
        mut undealt: atomic_table::Seat<(), View>,
    ) -> Result<Seats, Memory>
        requires table { undealt.table_id ≡ self.now }
        requires view { undealt.me ≡ (dealer self.now.words 0, []) }
        ensures { IfOk result (λ seats. seats ≡ publishers self.now) }
    {
        let count = self.table.word_count();
        let mut seats = Vec::with_capacity(alloc, count)?;
        for stream in 0..count {
            let seat = self.deal_one(&mut undealt, stream);
            seats.push(seat)?;
        }
        Ok(Seats::from_vec(seats))
    }

    /// Splits the publishing seat of one stream off.
    fn deal_one(&self, undealt: &mut atomic_table::Seat<(), View>, stream: usize) -> Seat
        requires table { undealt.old.table_id ≡ self.now }
        requires stream { stream < self.now.words }
        requires view { undealt.old.me ≡ (dealer self.now.words stream, []) }
        ensures table { (undealt.new.table_id ≡ self.now) × (result.table ≡ self.now) }
        ensures rest { undealt.new.me ≡ (rest_of undealt.old.me.0, []) }
        ensures dealt { result.view ≡ dealt undealt.old.me.0 }
    {
        let inner = self.table.shared.split_seat::<Deals>(undealt);
        Seat { stream, inner }
    }
}
