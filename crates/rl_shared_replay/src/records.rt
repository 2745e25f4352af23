//! Records as shared words, and the steps on one.

ghost use Rattle.std.specs.Prelude.{◌≡◌, ℕ, ◌+◌, ◌%◌, ◌<◌, ◌≤◌, None, length, slice_index, IsTrue, true};
ghost use Rattle.rl_base.specs.Words.{stamp_in};
ghost use Rattle.rl_shared_replay.specs.Calls.{IsHolding, IsPlanned, IsStoring, KeepsSettled, version_in};
ghost use Rattle.rl_shared_replay.specs.Views.{Settled, with_hold, with_seen};

use crate::rule::{Law, Start};
use crate::seat::Seat;
use crate::steps::{Closes, ColumnStores, Loads, Locks};
use crate::update::{Update, cell_of};
use crate::view::View;
use atomic_table::Table;
use rl_base::word::{is_locked, stamp_of, word_of};
use rl_tables::layout::Layout;
use std::alloc::Global;
use std::marker::Model;
use std::snapshot::Snapshot;

/// The words of all records. Contracts see which table it is, and what the replay starts from.
#[derive(Drop)]
pub(crate) struct Records {
    pub(crate) table: Table<(), View, Snapshot<Start>, Law, Global>,
    pub(crate) columns: Vec<u32>,
    pub(crate) layout: Layout,
}

impl Model for Records {
    ghost use Rattle.rl_shared_replay.specs.Calls.{RecordsFit, RecordsOf};
    ghost use Rattle.rl_shared_replay.specs.Start.{made_of};

    ghost Value = { RecordsOf };

    ghost view = { λ s. record { table = s.table.shared.table_id; made = made_of s.table.shared.key.value } };

    ghost invariant = { λ s. RecordsFit s.table.shared.table_id s.table.shared.key.value s.columns.items s.layout };
}

impl Records {
    /// Makes one write, unless the record has a newer one. False where the record is busy: then
    /// nothing is made.
    pub(crate) fn try_update(&self, seat: &mut Seat, update: &Update) -> bool
        requires table { seat.old.table ≡ self.now.table }
        requires record { update.now.rec < length self.now.made.columns }
        requires planned { IsPlanned self.now.made update.now }
        requires free { seat.old.view.held ≡ None }
        ensures table { seat.new.table ≡ seat.old.table }
        ensures free { seat.new.view.held ≡ None }
        ensures kept { KeepsSettled seat.old.view seat.new.view }
        ensures settled { IsTrue result → Settled seat.new.view (version_in update.now) }
    {
        let word = self.load(seat, update.rec);
        if update.stamp <= stamp_of(word) {
            return true;
        }
        if is_locked(word) {
            return false;
        }
        self.lock_and_update(seat, update)
    }

    /// The same with the lock, which may find a newer write too.
    fn lock_and_update(&self, seat: &mut Seat, update: &Update) -> bool
        requires table { seat.old.table ≡ self.now.table }
        requires record { update.now.rec < length self.now.made.columns }
        requires planned { IsPlanned self.now.made update.now }
        requires free { seat.old.view.held ≡ None }
        ensures table { seat.new.table ≡ seat.old.table }
        ensures free { seat.new.view.held ≡ None }
        ensures kept { KeepsSettled seat.old.view seat.new.view }
        ensures settled { IsTrue result → Settled seat.new.view (version_in update.now) }
    {
        let word = self.lock(seat, update.rec);
        if is_locked(word) {
            return false;
        }
        let is_older = update.stamp <= stamp_of(word);
        if is_older {
            self.let_go(seat, update, word);
        } else {
            self.store_cells(seat, update);
            self.close(seat, update);
        }
        true
    }

    /// Loads a record's word.
    fn load(&self, seat: &mut Seat, rec: u32) -> u64
        requires table { seat.old.table ≡ self.now.table }
        requires record { rec < length self.now.made.columns }
        ensures table { seat.new.table ≡ seat.old.table }
        ensures seen { seat.new.view ≡ with_seen seat.old.view rec (stamp_in result) }
    {
        self.table
            .shared
            .load::<Loads>(&mut seat.inner, 1 + 6 * rec as usize)
    }

    /// Sets the lock bit of a record, and answers its word as it was. A locked one is another's.
    fn lock(&self, seat: &mut Seat, rec: u32) -> u64
        requires table { seat.old.table ≡ self.now.table }
        requires record { rec < length self.now.made.columns }
        requires free { seat.old.view.held ≡ None }
        ensures table { seat.new.table ≡ seat.old.table }
        ensures busy { result % 2 ≡ 1 → seat.new.view ≡ seat.old.view }
        ensures locked { result % 2 ≡ 0 → seat.new.view ≡ with_hold seat.old.view rec (stamp_in result) }
    {
        self.table
            .shared
            .fetch_or::<Locks>(&mut seat.inner, 1 + 6 * rec as usize, 1)
    }

    /// Stores presence and all columns of the record that is held, 0s where there is no row.
    fn store_cells(&self, seat: &mut Seat, update: &Update)
        requires table { seat.old.table ≡ self.now.table }
        requires record { update.now.rec < length self.now.made.columns }
        requires planned { IsPlanned self.now.made update.now }
        requires storing { IsStoring self.now.made (version_in update.now) 0 seat.old.view }
        ensures table { seat.new.table ≡ seat.old.table }
        ensures seen { seat.new.view.seen ≡ seat.old.view.seen }
        ensures stored { IsStoring self.now.made (version_in update.now) (1 + slice_index self.now.made.columns update.now.rec) seat.new.view }
    {
        let count = 1 + self.columns[update.rec as usize];
        for k in 0..count {
            self.store_cell(seat, update, k);
        }
    }

    /// Stores presence or one column of the record that is held.
    fn store_cell(&self, seat: &mut Seat, update: &Update, k: u32)
        requires table { seat.old.table ≡ self.now.table }
        requires record { update.now.rec < length self.now.made.columns }
        requires planned { IsPlanned self.now.made update.now }
        requires storing { IsStoring self.now.made (version_in update.now) k seat.old.view }
        requires more { k < 1 + slice_index self.now.made.columns update.now.rec }
        ensures table { seat.new.table ≡ seat.old.table }
        ensures seen { seat.new.view.seen ≡ seat.old.view.seen }
        ensures stored { IsStoring self.now.made (version_in update.now) (k + 1) seat.new.view }
    {
        let value = cell_of(update.row.as_ref(), k);
        self.table.shared.store::<ColumnStores>(
            &mut seat.inner,
            2 + (6 * update.rec as usize + k as usize),
            value,
        );
    }

    /// Closes the record that is held, with the stamp of the write.
    fn close(&self, seat: &mut Seat, update: &Update)
        requires table { seat.old.table ≡ self.now.table }
        requires record { update.now.rec < length self.now.made.columns }
        requires planned { IsPlanned self.now.made update.now }
        requires stored { IsStoring self.now.made (version_in update.now) (1 + slice_index self.now.made.columns update.now.rec) seat.old.view }
        ensures table { seat.new.table ≡ seat.old.table }
        ensures free { seat.new.view.held ≡ None }
        ensures kept { KeepsSettled seat.old.view seat.new.view }
        ensures settled { Settled seat.new.view (version_in update.now) }
    {
        let word = word_of(update.stamp);
        self.table
            .shared
            .store::<Closes>(&mut seat.inner, 1 + 6 * update.rec as usize, word);
    }

    /// Lets the record go that is held, whose word is at least as new as the write.
    fn let_go(&self, seat: &mut Seat, update: &Update, word: u64)
        requires table { seat.old.table ≡ self.now.table }
        requires record { update.now.rec < length self.now.made.columns }
        requires held { IsHolding update.now.rec word seat.old.view }
        requires newer { update.now.stamp ≤ stamp_in word }
        ensures table { seat.new.table ≡ seat.old.table }
        ensures free { seat.new.view.held ≡ None }
        ensures kept { KeepsSettled seat.old.view seat.new.view }
        ensures settled { Settled seat.new.view (version_in update.now) }
    {
        self.table
            .shared
            .store::<Closes>(&mut seat.inner, 1 + 6 * update.rec as usize, word);
    }
}
