//! How a store is made.

ghost use Rattle.std.specs.Prelude.{◌≡◌, ℕ, ◌+◌, ◌*◌, ◌^◌, ◌<◌, ◌≤◌, ◌∷◌, ◌++◌, None, length, slice_index, slice_index_or, IfOk, OnOk};
ghost use Rattle.rl_value.specs.Cells.{cells_of};
ghost use Rattle.rl_store.specs.Opening.{CanOpen, Filled, OpensWith, first_view, made_of, six_words};
ghost use Rattle.rl_store.specs.Layout.{FitsColumns};

use crate::cells::Cells;
use crate::pass::Pass;
use crate::rule::{Law, Start};
use crate::store::Store;
use crate::view::View;
use atomic_table::Table;
use rl_base::memory::Memory;
use rl_value::row::Row;
use std::alloc::Global;
use std::snapshot::Snapshot;

impl Store {
    /// A store of one epoch, whose records have one to four columns each and open under stamps of earlier epochs,
    /// and the pass that has all its tries.
    pub fn make(
        alloc: Global,
        columns: &[u32],
        stamps: &[u64],
        rows: &[Option<Row>],
        epoch: u32,
        tries: u64,
    ) -> Result<(Store, Pass), Memory>
        requires lengths { (length stamps.now ≡ length columns.now) × (length rows.now ≡ length columns.now) }
        requires records { length columns.now ≤ 65536 }
        requires columns { (r : ℕ) → r < length columns.now → (0 < slice_index columns.now r) × (slice_index columns.now r ≤ 4) }
        requires rows { (r : ℕ) → r < length columns.now → FitsColumns (slice_index columns.now r) (slice_index_or rows.now r None) }
        requires epoch { epoch < 2 ^ 20 }
        requires earlier { (r : ℕ) → r < length columns.now → slice_index stamps.now r < epoch * 2 ^ 40 }
        requires tries { tries + 3 ≤ 2 ^ 40 }
        ensures table { IfOk result (λ made. made.1.table ≡ made.0.table) }
        ensures columns { IfOk result (λ made. made.0.made.columns ≡ columns.now) }
        ensures epoch { IfOk result (λ made. made.0.made.epoch ≡ epoch) }
        ensures tries { IfOk result (λ made. made.0.made.tries ≡ tries) }
        ensures opens { IfOk result (λ made. (r : ℕ) → r < length columns.now → OpensWith made.0.made r (slice_index stamps.now r) (slice_index_or rows.now r None)) }
        ensures view { IfOk result (λ made. made.1.view ≡ first_view tries) }
    {
        let words = opening_words(alloc, columns, stamps, rows)?;
        let columns = Vec::from_slice(alloc, columns)?;
        let start = Start {
            words,
            columns,
            epoch,
            tries,
        };
        open(alloc, start)
    }
}

/// Opens a store on its words.
fn open(alloc: Global, start: Start) -> Result<(Store, Pass), Memory>
    requires ready { CanOpen (made_of start) }
    requires early { start.epoch < 2 ^ 20 }
    requires records { length start.columns.items ≤ 65536 }
    requires some { (r : ℕ) → r < length start.columns.items → 0 < slice_index start.columns.items r }
    ensures table { IfOk result (λ made. made.1.table ≡ made.0.table) }
    ensures made { IfOk result (λ made. made.0.made ≡ made_of start) }
    ensures view { IfOk result (λ made. made.1.view ≡ first_view start.tries) }
{
    let key = Snapshot::of(&start);
    let (table, inner) = Table::<(), View, Snapshot<Start>, Law, Global>::of_words(
        alloc,
        start.words.as_slice(),
        &key,
    )?;
    let Start {
        words: _,
        columns,
        epoch,
        tries,
    } = start;
    let store = Store {
        table,
        columns,
        epoch,
    };
    Ok((store, Pass { inner, left: tries }))
}

/// The counter, and the words of each record.
fn opening_words(
    alloc: Global,
    columns: &[u32],
    stamps: &[u64],
    rows: &[Option<Row>],
) -> Result<Vec<u64>, Memory>
    requires lengths { (length stamps.now ≡ length columns.now) × (length rows.now ≡ length columns.now) }
    requires records { length columns.now ≤ 65536 }
    requires columns { (r : ℕ) → r < length columns.now → slice_index columns.now r ≤ 4 }
    requires stamps { (r : ℕ) → r < length columns.now → slice_index stamps.now r < 2 ^ 60 }
    ensures { IfOk result (λ words. Filled (length columns.now) columns.now stamps.now rows.now words.items) }
{
    let mut words = Vec::new(alloc);
    words.push(2)?;
    for r in 0..columns.len() {
        let cells = Cells::of_row(columns[r], &rows[r]);
        push_record(&mut words, 2 * stamps[r], &cells)?;
    }
    Ok(words)
}

/// Appends the six words of a record, with zeros behind its last column.
fn push_record(words: &mut Vec<u64>, word: u64, cells: &Cells) -> Result<(), Memory>
    ensures { OnOk result (words.new.items ≡ words.old.items ++ six_words word cells.now) }
{
    words.extend_from_slice(&[
        word,
        cells.get_or_zero(0),
        cells.get_or_zero(1),
        cells.get_or_zero(2),
        cells.get_or_zero(3),
        cells.get_or_zero(4),
    ])?;
    Ok(())
}
