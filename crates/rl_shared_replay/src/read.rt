//! How the rows are read back.

ghost use Rattle.std.specs.Prelude.{◌≡◌, ℕ, ◌+◌, ◌*◌, ◌<◌, ◌≤◌, length, slice_index, sum, IfOk, OnOk};
ghost use Rattle.std.specs.Mem.Slots.{slots_items, slots_len, IsFull};
ghost use Rattle.rl_shared_replay.specs.Calls.{AllSettled};
ghost use Rattle.rl_shared_replay.specs.Ends.{IsNewestMap, ReadBelow, put_present};
ghost use Rattle.rl_shared_replay.specs.Layout.{RowOf, Shows};
ghost use Rattle.rl_shared_replay.specs.Start.{plan_in};

use crate::records::Records;
use crate::seat::Seat;
use atomic_table::Closed;
use rl_base::memory::Memory;
use rl_tables::layout::Layout;
use rl_value::map::Map;
use rl_value::row::Row;
use std::alloc::Global;

impl Records {
    /// The rows at the end. A seat that has all writes settled tells that each is the newest of its
    /// key.
    pub(crate) fn into_map(self, alloc: Global, seat: Seat) -> Result<Map, Memory>
        requires table { seat.table ≡ self.table }
        requires settled { AllSettled seat.view (plan_in self.made).versions }
        ensures { IfOk result (λ map. IsNewestMap self.made map) }
    {
        let Records {
            table,
            columns,
            layout,
        } = self;
        let Seat { inner } = seat;
        let closed = table.close_with(inner);
        let map = read_rows(alloc, &closed, columns.as_slice(), &layout);
        closed.free();
        map
    }
}

/// The rows that the words show.
fn read_rows(
    alloc: Global,
    closed: &Closed<(), Global>,
    columns: &[u32],
    layout: &Layout,
) -> Result<Map, Memory>
    requires full { IsFull closed.now.words }
    requires long { slots_len closed.now.words ≡ 1 + 6 * sum layout.now }
    requires columns { length columns.now ≡ sum layout.now }
    requires wide { (r : ℕ) → r < length columns.now → (0 < slice_index columns.now r) × (slice_index columns.now r ≤ 4) }
    ensures { IfOk result (λ map. ReadBelow layout.now columns.now (slots_items closed.now.words) (sum layout.now) map) }
{
    let mut map = Map::new(alloc);
    for r in 0..layout.count() {
        let (t, k) = layout.place(r);
        let row = row_at(closed, r as usize, columns[r as usize]);
        put_row(&mut map, t, k, row)?;
    }
    Ok(map)
}

/// Puts a row, where there is one. After `Memory` the map is unchanged.
fn put_row(map: &mut Map, t: u32, k: u32, row: Option<Row>) -> Result<(), Memory>
    ensures { OnOk result (map.new ≡ put_present map.old (t, k) row) }
{
    if let Some(row) = row {
        map.put(t, k, row)?;
    }
    Ok(())
}

/// The row that the words show at a record.
fn row_at(closed: &Closed<(), Global>, r: usize, columns: u32) -> Option<Row>
    requires full { IsFull closed.now.words }
    requires inside { 6 * r + 7 ≤ slots_len closed.now.words }
    requires columns { (0 < columns) × (columns ≤ 4) }
    ensures { (row : RowOf) → Shows columns (slots_items closed.now.words) r row → result ≡ row }
{
    if closed.word(2 + 6 * r) == 0 {
        return None;
    }
    let cells = [
        closed.word(3 + 6 * r),
        closed.word(4 + 6 * r),
        closed.word(5 + 6 * r),
        closed.word(6 + 6 * r),
    ];
    Some(Row::from_slice(&cells[..columns as usize]))
}
