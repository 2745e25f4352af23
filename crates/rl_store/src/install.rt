//! The installation of a new row.

ghost use Rattle.std.specs.Prelude.{◌≡◌, ℕ, ◌+◌, ◌*◌, ◌^◌, ◌<◌, List, [], Some, length, slice_index};
ghost use Rattle.rl_store.specs.Entries.{IsDecided};
ghost use Rattle.rl_store.specs.Layout.{FitsColumns};
ghost use Rattle.rl_store.specs.Passes.{HasStored};
ghost use Rattle.rl_store.specs.Storing.{with_cells};
ghost use Rattle.rl_store.specs.Views.{closed_with, with_cell, without};

use crate::cells::Cells;
use crate::pass::Pass;
use crate::steps::{ClosesNew, ColumnStores};
use crate::store::Store;
use rl_value::row::Row;

impl Store {
    /// Stores a row, or its absence, in a record that a decided attempt holds, and closes the record with the new
    /// stamp, whose seq this attempt drew. With its last record closed the attempt is an item.
    pub fn install(&self, pass: &mut Pass, rec: u32, seq: u64, row: Option<Row>)
        requires table { pass.old.table ≡ self.now.table }
        requires record { rec < length self.now.made.columns }
        requires held { HasStored pass.old.view rec [] }
        requires decided { IsDecided pass.old.view.attempt }
        requires drawn { pass.old.view.attempt.drawn ≡ Some (self.now.made.epoch * 2 ^ 40 + seq) }
        requires seq { seq < 2 ^ 40 }
        requires fits { FitsColumns (slice_index self.now.made.columns rec) row }
        ensures table { pass.new.table ≡ pass.old.table }
        ensures installed { pass.new.view ≡ closed_with (without rec pass.old.view.attempt.held) pass.old.view (self.now.made.epoch * 2 ^ 40 + seq) rec row }
    {
        let cells = Cells::of_row(self.columns[rec as usize], &row);
        self.column_stores(pass, rec, &cells);
        let stamp = u64::from(self.epoch) * (1 << 40) + seq;
        self.table
            .shared
            .store::<ClosesNew>(&mut pass.inner, 1 + 6 * rec as usize, 2 * stamp);
    }

    fn column_stores(&self, pass: &mut Pass, rec: u32, cells: &Cells)
        requires table { pass.old.table ≡ self.now.table }
        requires record { rec < length self.now.made.columns }
        requires held { HasStored pass.old.view rec [] }
        requires decided { IsDecided pass.old.view.attempt }
        requires full { length cells.now ≡ 1 + slice_index self.now.made.columns rec }
        ensures table { pass.new.table ≡ pass.old.table }
        ensures stored { pass.new.view ≡ with_cells pass.old.view rec cells.now }
    {
        for cell in 0..cells.len() {
            self.column_store(pass, rec, cell, cells.get_or_zero(cell));
        }
    }

    fn column_store(&self, pass: &mut Pass, rec: u32, cell: usize, value: u64)
        requires table { pass.old.table ≡ self.now.table }
        requires record { rec < length self.now.made.columns }
        requires held { (xs : List ℕ) × (length xs ≡ cell) × HasStored pass.old.view rec xs }
        requires decided { IsDecided pass.old.view.attempt }
        requires more { cell < 1 + slice_index self.now.made.columns rec }
        ensures table { pass.new.table ≡ pass.old.table }
        ensures stored { pass.new.view ≡ with_cell pass.old.view rec value }
    {
        self.table
            .shared
            .store::<ColumnStores>(&mut pass.inner, 2 + (6 * rec as usize + cell), value);
    }
}
