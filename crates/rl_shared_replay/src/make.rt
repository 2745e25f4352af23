//! How the words of a replay are made.

ghost use Rattle.std.specs.Prelude.{◌≡◌, ◌++◌, IfOk, OnOk, sum};
ghost use Rattle.std.specs.Option.{option_copied};
ghost use Rattle.rl_tables.specs.Numbers.{sizes_of};
ghost use Rattle.rl_value.specs.Fits.{RowsFit};
ghost use Rattle.rl_shared_replay.specs.Opening.{CanOpen, Filled, IsStart, Wide, six_words};
ghost use Rattle.rl_shared_replay.specs.Start.{made_of};
ghost use Rattle.rl_shared_replay.specs.Views.{blank};

use crate::parts::Parts;
use crate::records::Records;
use crate::rule::{Law, Start};
use crate::seat::Seat;
use crate::update::cell_of;
use crate::view::View;
use atomic_table::Table;
use rl_base::memory::Memory;
use rl_tables::layout::Layout;
use rl_value::map::Map;
use rl_value::row::Row;
use rl_value::schema::Schema;
use std::alloc::Global;
use std::snapshot::Snapshot;

/// The words of all records, with the opening rows under stamp 0, and a seat. The parts come back.
pub(crate) fn make(
    alloc: Global,
    schema: &Schema,
    opening: &Map,
    parts: Parts,
) -> Result<(Records, Seat, Parts), Memory>
    requires { RowsFit schema.now opening.now }
    ensures start { IfOk result (λ made. IsStart schema.now opening.now parts made.0.made) }
    ensures table { IfOk result (λ made. made.1.table ≡ made.0.table) }
    ensures blank { IfOk result (λ made. made.1.view ≡ blank) }
    ensures parts { IfOk result (λ made. made.2 ≡ parts) }
{
    let layout = Layout::new(alloc, schema)?;
    let columns = columns_by_record(alloc, schema, &layout)?;
    let words = opening_words(alloc, &layout, opening)?;
    let start = Start {
        words,
        columns,
        layout,
        parts,
    };
    open(alloc, start)
}

/// The columns of each record.
fn columns_by_record(alloc: Global, schema: &Schema, layout: &Layout) -> Result<Vec<u32>, Memory>
    requires { layout.now ≡ sizes_of schema.now }
    ensures { IfOk result (λ columns. Wide schema.now layout.now (sum layout.now) columns.items) }
{
    let count = layout.count();
    let mut columns = Vec::with_capacity(alloc, count as usize)?;
    for r in 0..count {
        let (t, _) = layout.place(r);
        columns.push(schema.columns(t))?;
    }
    Ok(columns)
}

/// Word 0, and the words of each record: stamp 0, not locked, and the cells of its opening row.
fn opening_words(alloc: Global, layout: &Layout, opening: &Map) -> Result<Vec<u64>, Memory>
    ensures { IfOk result (λ words. Filled layout.now opening.now (sum layout.now) words.items) }
{
    let count = layout.count();
    let mut words = Vec::with_capacity(alloc, 1 + 6 * count as usize)?;
    words.push(0)?;
    for r in 0..count {
        let (t, k) = layout.place(r);
        push_record(&mut words, opening.get(t, k))?;
    }
    Ok(words)
}

/// Appends the six words of a record that was never written.
fn push_record(words: &mut Vec<u64>, row: Option<&Row>) -> Result<(), Memory>
    ensures { OnOk result (words.new.items ≡ words.old.items ++ six_words (option_copied row.entry)) }
{
    words.extend_from_slice(&[
        0,
        cell_of(row, 0),
        cell_of(row, 1),
        cell_of(row, 2),
        cell_of(row, 3),
        cell_of(row, 4),
    ])?;
    Ok(())
}

/// Opens the records on their words.
fn open(alloc: Global, start: Start) -> Result<(Records, Seat, Parts), Memory>
    requires { CanOpen (made_of start) }
    ensures made { IfOk result (λ made. made.0.made ≡ made_of start) }
    ensures table { IfOk result (λ made. made.1.table ≡ made.0.table) }
    ensures blank { IfOk result (λ made. made.1.view ≡ blank) }
    ensures parts { IfOk result (λ made. made.2 ≡ start.parts) }
{
    let key = Snapshot::of(&start);
    let (table, inner) = Table::<(), View, Snapshot<Start>, Law, Global>::of_words(
        alloc,
        start.words.as_slice(),
        &key,
    )?;
    let Start {
        words: _,
        columns,
        layout,
        parts,
    } = start;
    let records = Records {
        table,
        columns,
        layout,
    };
    Ok((records, Seat { inner }, parts))
}
