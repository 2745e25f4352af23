//! The shared words, and reads of records.

ghost use Rattle.std.specs.Prelude.{◌≡◌, ◌≢◌, ◌+◌, ◌*◌, ◌/◌, ◌%◌, ◌^◌, ◌<◌, ◌≤◌, [], None, Some, length, slice_index, IfOk, IfErr};
ghost use Rattle.rl_base.specs.Words.{stamp_in};
ghost use Rattle.rl_value.specs.Cells.{row_of};
ghost use Rattle.rl_store.specs.Entries.{IsDecided};
ghost use Rattle.rl_store.specs.Passes.{Refuses};
ghost use Rattle.rl_store.specs.Refusals.{why};
ghost use Rattle.rl_store.specs.Views.{HasNotRead, begun, changed_at, loaded, locked_at, reading_of, refused, rested, with_read, with_reading};

use crate::cells::Cells;
use crate::pass::Pass;
use crate::rule::{Law, Start};
use crate::steps::{ColumnLoads, Confirms, FirstLoads, Rests};
use crate::view::View;
use atomic_table::Table;
use rl_base::refusal::Refusal;
use rl_value::row::Row;
use std::alloc::Global;
use std::marker::Model;
use std::snapshot::Snapshot;

/// Records as shared words. Contracts see which table it is, and what it was made of.
#[derive(Drop)]
pub struct Store {
    pub(crate) table: Table<(), View, Snapshot<Start>, Law, Global>,
    pub(crate) columns: Vec<u32>,
    pub(crate) epoch: u32,
}

impl Model for Store {
    ghost use Rattle.rl_store.specs.Opening.{made_of};
    ghost use Rattle.rl_store.specs.Passes.{StoreFits, StoreOf};

    ghost Value = { StoreOf };

    ghost view = { λ s. record { table = s.table.shared.table_id; made = made_of s.table.shared.key.value } };

    ghost invariant = { λ s. StoreFits s.table.shared.table_id s.table.shared.key.value s.columns.items s.epoch };
}

/// What was read of a record: its word, which is not locked, and its row.
#[derive(Debug, Drop)]
pub struct Observed {
    pub word: u64,
    pub row: Option<Row>,
}

impl Store {
    /// The epoch of its stamps.
    pub fn epoch(&self) -> u32
        ensures epoch { result ≡ self.now.made.epoch }
        ensures few { result < 2 ^ 20 }
    {
        self.epoch
    }

    /// Reads a record: its word, presence and columns, and its word again. It is refused where the word is locked, or
    /// is another at the end.
    pub fn observe(&self, pass: &mut Pass, rec: u32) -> Result<Observed, Refusal>
        requires table { pass.old.table ≡ self.now.table }
        requires record { rec < length self.now.made.columns }
        requires free { (pass.old.view.attempt.held ≡ []) × (pass.old.view.attempt.drawn ≡ None) }
        requires once { HasNotRead pass.old.view rec }
        ensures table { pass.new.table ≡ pass.old.table }
        ensures read { IfOk result (λ seen. pass.new.view ≡ with_read pass.old.view rec (stamp_in seen.word) seen.row) }
        ensures unlocked { IfOk result (λ seen. seen.word % 2 ≡ 0) }
        ensures refused { IfErr result (λ refusal. pass.new.view ≡ refused pass.old.view (why refusal)) }
        ensures cause { IfErr result (λ refusal. Refuses rec refusal) }
    {
        let word = self.first_load(pass, rec);
        if word % 2 == 1 {
            return Err(Refusal::Locked { rec, word });
        }
        let cells = self.column_loads(pass, rec, word);
        let found = self.confirm(pass, rec, word, &cells);
        if found == word {
            let row = cells.to_row();
            return Ok(Observed { word, row });
        }
        if found % 2 == 1 {
            return Err(Refusal::Locked { rec, word: found });
        }
        Err(Refusal::Changed {
            rec,
            seen: word,
            found,
        })
    }

    /// Ends a running attempt that holds nothing: the pass is then at rest.
    pub fn rest(&self, pass: &mut Pass)
        requires table { pass.old.table ≡ self.now.table }
        requires free { pass.old.view.attempt.held ≡ [] }
        requires undecided { IsDecided pass.old.view.attempt → ⊥ }
        ensures table { pass.new.table ≡ pass.old.table }
        ensures rested { pass.new.view ≡ rested pass.old.view }
    {
        let _found = self.table.shared.load::<Rests>(&mut pass.inner, 0);
    }

    fn first_load(&self, pass: &mut Pass, rec: u32) -> u64
        requires table { pass.old.table ≡ self.now.table }
        requires record { rec < length self.now.made.columns }
        requires free { (pass.old.view.attempt.held ≡ []) × (pass.old.view.attempt.drawn ≡ None) }
        ensures table { pass.new.table ≡ pass.old.table }
        ensures locked { result % 2 ≡ 1 → pass.new.view ≡ refused pass.old.view (locked_at rec result) }
        ensures begun { result % 2 ≡ 0 → pass.new.view ≡ begun pass.old.view rec (result / 2) }
    {
        self.table
            .shared
            .load::<FirstLoads>(&mut pass.inner, 1 + 6 * rec as usize)
    }

    fn column_load(&self, pass: &mut Pass, rec: u32, word: u64, cells: &Cells) -> u64
        requires table { pass.old.table ≡ self.now.table }
        requires record { rec < length self.now.made.columns }
        requires free { (pass.old.view.attempt.held ≡ []) × (pass.old.view.attempt.drawn ≡ None) }
        requires reading { pass.old.view.attempt.reading ≡ Some (reading_of rec (word / 2) cells.now) }
        requires more { length cells.now < 1 + slice_index self.now.made.columns rec }
        ensures table { pass.new.table ≡ pass.old.table }
        ensures loaded { pass.new.view ≡ loaded pass.old.view (reading_of rec (word / 2) cells.now) result }
    {
        self.table
            .shared
            .load::<ColumnLoads>(&mut pass.inner, 2 + (6 * rec as usize + cells.len()))
    }

    fn column_loads(&self, pass: &mut Pass, rec: u32, word: u64) -> Cells
        requires table { pass.old.table ≡ self.now.table }
        requires record { rec < length self.now.made.columns }
        requires free { (pass.old.view.attempt.held ≡ []) × (pass.old.view.attempt.drawn ≡ None) }
        requires reading { pass.old.view.attempt.reading ≡ Some (reading_of rec (word / 2) []) }
        ensures table { pass.new.table ≡ pass.old.table }
        ensures loaded { pass.new.view ≡ with_reading pass.old.view (reading_of rec (word / 2) result) }
        ensures full { length result ≡ 1 + slice_index self.now.made.columns rec }
        ensures some { 2 ≤ length result }
    {
        let count = 1 + self.columns[rec as usize];
        let mut cells = Cells::new();
        for _cell in 0..count {
            let found = self.column_load(pass, rec, word, &cells);
            cells.push(found);
        }
        cells
    }

    fn confirm(&self, pass: &mut Pass, rec: u32, word: u64, cells: &Cells) -> u64
        requires table { pass.old.table ≡ self.now.table }
        requires record { rec < length self.now.made.columns }
        requires free { (pass.old.view.attempt.held ≡ []) × (pass.old.view.attempt.drawn ≡ None) }
        requires reading { pass.old.view.attempt.reading ≡ Some (reading_of rec (word / 2) cells.now) }
        requires full { length cells.now ≡ 1 + slice_index self.now.made.columns rec }
        requires unlocked { word % 2 ≡ 0 }
        requires once { HasNotRead pass.old.view rec }
        ensures table { pass.new.table ≡ pass.old.table }
        ensures read { result ≡ word → pass.new.view ≡ with_read pass.old.view rec (word / 2) (row_of cells.now) }
        ensures locked { result ≢ word → result % 2 ≡ 1 → pass.new.view ≡ refused pass.old.view (locked_at rec result) }
        ensures changed { result ≢ word → result % 2 ≡ 0 → pass.new.view ≡ refused pass.old.view (changed_at rec word result) }
    {
        self.table
            .shared
            .load::<Confirms>(&mut pass.inner, 1 + 6 * rec as usize)
    }
}
