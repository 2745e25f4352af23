//! The cells of a record.

ghost use Rattle.std.specs.Prelude.{◌≡◌, ◌+◌, ◌<◌, ◌≤◌, ◌∷◌, [], ◌++◌, length, slice_index, replicate};
ghost use Rattle.rl_value.specs.Cells.{cells_of, row_of};

use rl_value::row::Row;
use std::marker::Model;

/// Presence (0 or 1), and up to four columns. They take no memory of their own.
#[derive(Debug, Drop)]
pub struct Cells {
    cells: [u64; 5],
    count: usize,
}

impl Model for Cells {
    ghost use Rattle.std.specs.Prelude.{List, ℕ, take, ◌≤◌};

    ghost Value = { List ℕ };

    ghost view = { λ c. take c.count c.cells };

    ghost invariant = { λ c. c.count ≤ 5 };
}

impl Cells {
    /// No cells yet.
    pub fn new() -> Cells
        ensures { result ≡ [] }
    {
        Cells {
            cells: [0; 5],
            count: 0,
        }
    }

    /// The cells of a row, or of its absence.
    pub fn of_row(columns: u32, row: &Option<Row>) -> Cells
        requires { columns ≤ 4 }
        ensures { result ≡ cells_of columns row.now }
    {
        match row {
            Some(row) => Self::present(row),
            None => Self::absent(columns),
        }
    }

    /// The cells of a row.
    fn present(row: &Row) -> Cells
        ensures { result ≡ 1 ∷ row.now }
    {
        let count = row.columns();
        let mut cells = Self::new();
        cells.push(1);
        for c in 0..count {
            cells.push(row.column(c));
        }
        cells
    }

    /// No presence, and zeros for the columns.
    fn absent(columns: u32) -> Cells
        requires { columns ≤ 4 }
        ensures { result ≡ 0 ∷ replicate columns 0 }
    {
        let mut cells = Self::new();
        cells.push(0);
        for _ in 0..columns {
            cells.push(0);
        }
        cells
    }

    /// Appends a cell.
    pub fn push(&mut self, value: u64)
        requires { length self.old < 5 }
        ensures { self.new ≡ self.old ++ value ∷ [] }
    {
        self.cells[self.count] = value;
        self.count += 1;
    }

    /// How many cells there are, up to five.
    pub fn len(&self) -> usize
        ensures count { result ≡ length self.now }
        ensures few { result ≤ 5 }
    {
        self.count
    }

    /// One cell, or 0 past the last.
    pub fn get_or_zero(&self, i: usize) -> u64
        ensures { result ≡ slice_index self.now i }
    {
        if i < self.count { self.cells[i] } else { 0 }
    }

    /// The row that presence and one to four columns stand for.
    pub fn to_row(&self) -> Option<Row>
        requires { 2 ≤ length self.now }
        ensures { result ≡ row_of self.now }
    {
        if self.cells[0] == 0 {
            None
        } else {
            Some(Row::from_slice(&self.cells[1..self.count]))
        }
    }
}
