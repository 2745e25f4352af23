//! How the store of an epoch opens.

ghost use Rattle.std.specs.Prelude.{◌≡◌, ℕ, ◌+◌, ◌<◌, ◌≤◌, ◌^◌, length, slice_index, sum, IfOk};
ghost use Rattle.std.specs.FinMap as finite;
ghost use Rattle.rl_tables.specs.Numbers.{sizes_of};
ghost use Rattle.rl_value.specs.Fits.{RowsFit};
ghost use Rattle.rl_value.specs.Tables.{IsSchema};
ghost use Rattle.rl_shared_replay.specs.Opening.{Wide};
ghost use Rattle.rl_store.specs.Layout.{stamp_at};
ghost use Rattle.rl_store.specs.Opening.{first_view};
ghost use Rattle.rl_live.specs.Decided.{OpensWithRows};
ghost use Rattle.rl_live.specs.Handing.{HasRows};
ghost use Rattle.rl_live.specs.declared.open.TheConstants.{TRIES};

use rl_base::memory::Memory;
use rl_script::script::Script;
use rl_store::pass::Pass;
use rl_store::store::Store;
use rl_tables::layout::Layout;
use rl_value::map::Map;
use rl_value::row::Row;
use rl_value::schema::Schema;
use std::alloc::Global;

/// The tries of all workers of an epoch together.
pub const TRIES: u64 = 1099511627773;

/// A store of the records of a script's tables, with the opening rows under stamp 0, and the pass
/// that has all tries.
pub(crate) fn open(
    alloc: Global,
    script: &Script,
    layout: &Layout,
    epoch: u32,
) -> Result<(Store, Pass), Memory>
    requires layout { layout.now ≡ sizes_of script.now.schema }
    requires tables { IsSchema script.now.schema }
    requires rows { RowsFit script.now.schema script.now.rows }
    requires epoch { (1 ≤ epoch) × (epoch < 2 ^ 20) }
    ensures table { IfOk result (λ made. made.1.table ≡ made.0.table) }
    ensures view { IfOk result (λ made. made.1.view ≡ first_view TRIES) }
    ensures epoch { IfOk result (λ made. made.0.made.epoch ≡ epoch) }
    ensures tries { IfOk result (λ made. made.0.made.tries ≡ TRIES) }
    ensures opens { IfOk result (λ made. OpensWithRows script.now.schema script.now.rows made.0.made) }
    ensures zero { IfOk result (λ made. (r : ℕ) → r < sum (sizes_of script.now.schema) → stamp_at made.0.made.words r ≡ 0) }
{
    let columns = columns_of(alloc, &script.schema, layout)?;
    let stamps = zeros(alloc, layout.count())?;
    let rows = rows_of(alloc, layout, &script.rows)?;
    Store::make(
        alloc,
        columns.as_slice(),
        stamps.as_slice(),
        rows.as_slice(),
        epoch,
        TRIES,
    )
}

/// So many stamps that are 0.
fn zeros(alloc: Global, count: u32) -> Result<Vec<u64>, Memory>
    ensures long { IfOk result (λ stamps. length stamps.items ≡ count) }
    ensures zero { IfOk result (λ stamps. (r : ℕ) → r < count → slice_index stamps.items r ≡ 0) }
{
    Ok(vec![in alloc; 0u64; count as usize]?)
}

/// The columns of each record.
fn columns_of(alloc: Global, schema: &Schema, layout: &Layout) -> Result<Vec<u32>, Memory>
    requires { layout.now ≡ sizes_of schema.now }
    ensures { IfOk result (λ columns. Wide schema.now layout.now (sum layout.now) columns.items) }
{
    let count = layout.count();
    let mut columns = Vec::with_capacity(alloc, count as usize)?;
    for r in 0..count {
        let (t, _) = layout.place(r);
        columns.push(schema.columns(t))?;
    }
    Ok(columns)
}

/// The row of each record, if it has one.
fn rows_of(alloc: Global, layout: &Layout, map: &Map) -> Result<Vec<Option<Row>>, Memory>
    ensures { IfOk result (λ rows. HasRows layout.now map.now (sum layout.now) rows.items) }
{
    let count = layout.count();
    let mut rows = Vec::with_capacity(alloc, count as usize)?;
    for r in 0..count {
        let (t, k) = layout.place(r);
        rows.push(row_at(map, t, k))?;
    }
    Ok(rows)
}

/// The row of a key, copied.
fn row_at(map: &Map, t: u32, k: u32) -> Option<Row>
    ensures { result ≡ finite.get map.now (t, k) }
{
    match map.get(t, k) {
        Some(row) => Some(row.copy()),
        None => None,
    }
}
