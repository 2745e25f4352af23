//! The end of a store.

ghost use Rattle.std.specs.Prelude.{◌≡◌, ◌+◌, ◌*◌, ◌<◌, ◌≤◌, length, IfOk, IfErr};
ghost use Rattle.std.specs.Mem.Slots.{slots_items, slots_len, IsFull};
ghost use Rattle.rl_store.specs.Ends.{EndsAfter, IsWhole};
ghost use Rattle.rl_store.specs.Layout.{HasRow};
ghost use Rattle.rl_store.specs.Opening.{opening_of};
ghost use Rattle.rl_store.specs.Views.{IsAtRest};

use crate::cells::Cells;
use crate::pass::Pass;
use crate::store::Store;
use rl_base::list::{Seq, Stamps};
use rl_base::memory::Memory;
use rl_value::row::Row;
use std::alloc::Global;
use std::marker::Model;

/// The row of each record, or that it has none.
pub type Rows = Seq<Option<Row>>;

/// What a store was when it was closed. No other call makes one.
#[derive(Debug, Drop)]
pub struct Closed {
    epoch: u32,
    words: Stamps,
    rows: Rows,
}

impl Model for Closed {
    ghost use Rattle.rl_store.specs.Ends.{ClosedOf};

    ghost Value = { ClosedOf };

    ghost view = { λ c. record { epoch = c.epoch; words = c.words; rows = c.rows } };
}

impl Closed {
    /// The epoch with which the store was made.
    pub fn epoch(&self) -> u32
        ensures { result ≡ self.now.epoch }
    {
        self.epoch
    }

    /// The word of each record.
    pub fn words(&self) -> &Stamps
        ensures { result.now ≡ self.now.words }
    {
        &self.words
    }

    /// The row of each record.
    pub fn rows(&self) -> &Rows
        ensures { result.now ≡ self.now.rows }
    {
        &self.rows
    }
}

impl Store {
    /// Takes each record's word and row out. With a whole pass at rest the stamps in the words, and the rows, are those
    /// after all its items in the order of their stamps, and these are serial. A record that another pass still holds
    /// has its lock bit set. After `Memory` the store and the pass come back.
    pub fn close(self, alloc: Global, pass: Pass) -> Result<Closed, (Store, Pass, Memory)>
        requires table { pass.table ≡ self.table }
        ensures epoch { IfOk result (λ closed. closed.epoch ≡ self.made.epoch) }
        ensures words { IfOk result (λ closed. length closed.words ≡ length self.made.columns) }
        ensures rows { IfOk result (λ closed. length closed.rows ≡ length self.made.columns) }
        ensures whole { IfOk result (λ closed. IsWhole (opening_of self.made) pass.view → IsAtRest pass.view → EndsAfter (opening_of self.made) pass.view closed.words closed.rows) }
        ensures back { IfErr result (λ back. (back.0 ≡ self) × (back.1 ≡ pass)) }
    {
        let count = self.columns.len();
        let Ok(mut words) = Vec::with_capacity(alloc, count) else {
            return Err((self, pass, Memory));
        };
        let Ok(mut rows) = Vec::with_capacity(alloc, count) else {
            return Err((self, pass, Memory));
        };
        let Store {
            table,
            columns,
            epoch,
        } = self;
        let Pass { inner, left: _ } = pass;
        let closed = table.close_with(inner);
        for r in 0..count {
            words.push_reserved(closed.word(1 + 6 * r));
            rows.push_reserved(row_at(&closed, r, columns[r]));
        }
        closed.free();
        Ok(Closed {
            epoch,
            words: Stamps::from_vec(words),
            rows: Rows::from_vec(rows),
        })
    }
}

/// The row that the words show at a record.
fn row_at(closed: &atomic_table::Closed<(), Global>, r: usize, columns: u32) -> Option<Row>
    requires full { IsFull closed.now.words }
    requires inside { 6 * r + 7 ≤ slots_len closed.now.words }
    requires columns { (0 < columns) × (columns ≤ 4) }
    ensures { HasRow columns (slots_items closed.now.words) r result }
{
    let mut cells = Cells::new();
    for cell in 0..1 + columns as usize {
        cells.push(closed.word(2 + (6 * r + cell)));
    }
    cells.to_row()
}
