//! A write, as the words of its record take it.

ghost use Rattle.std.specs.Prelude.{◌≡◌, slice_index};
ghost use Rattle.std.specs.Option.{option_copied};
ghost use Rattle.rl_value.specs.Cells.{cells_of};

use rl_value::row::Row;

/// A write: the number of its record, its packed stamp, and its row.
#[derive(Drop)]
pub(crate) struct Update {
    pub(crate) rec: u32,
    pub(crate) stamp: u64,
    pub(crate) row: Option<Row>,
}

/// Presence (cell 0) or a column of a row, 0 past the last.
pub(crate) fn cell_of(row: Option<&Row>, k: u32) -> u64
    ensures { result ≡ slice_index (cells_of 4 (option_copied row.entry)) k }
{
    match row {
        None => 0,
        Some(_) if k == 0 => 1,
        Some(row) => row.column_or_zero(k - 1),
    }
}
