//! A row of one to four numbers.

ghost use Rattle.std.specs.Prelude.{◌≡◌, ◌<◌, ◌≤◌, length, slice_index};

use std::alloc::AllocError;
use std::marker::Model;

/// One to four numbers, which take no memory of their own.
#[derive(Debug, Drop)]
pub struct Row {
    cells: [u64; 4],
    count: usize,
}

impl Model for Row {
    ghost use Rattle.std.specs.Prelude.{List, ℕ, take, ◌≤◌, ◌<◌};

    ghost Value = { List ℕ };

    ghost view = { λ r. take r.count r.cells };

    ghost invariant = { λ r. (0 < r.count) × (r.count ≤ 4) };
}

impl Row {
    /// The row of one to four numbers.
    pub fn from_slice(x: &[u64]) -> Row
        requires some { 0 < length x.now }
        requires few { length x.now ≤ 4 }
        ensures { result ≡ x.now }
    {
        let mut cells = [0; 4];
        cells[..x.len()].copy_from_slice(x);
        Row {
            cells,
            count: x.len(),
        }
    }

    /// The number in one of its columns.
    pub fn column(&self, c: u32) -> u64
        requires { c < length self.now }
        ensures { result ≡ slice_index self.now c }
    {
        self.cells[c as usize]
    }

    /// The number in a column, or 0 past the last.
    pub fn column_or_zero(&self, c: u32) -> u64
        ensures { result ≡ slice_index self.now c }
    {
        if c < self.columns() {
            self.column(c)
        } else {
            0
        }
    }

    /// How many columns it has, one to four.
    pub fn columns(&self) -> u32
        ensures count { result ≡ length self.now }
        ensures some { 0 < result }
        ensures few { result ≤ 4 }
    {
        self.count as u32
    }

    /// Its numbers, lent.
    pub fn as_slice(&self) -> &[u64]
        ensures { result.now ≡ self.now }
    {
        &self.cells[..self.count]
    }

    /// An equal row.
    pub fn copy(&self) -> Row
        ensures { result ≡ self.now }
    {
        Row {
            cells: self.cells,
            count: self.count,
        }
    }
}

impl Clone for Row {
    ghost use Rattle.std.specs.Prelude.{◌≡◌};

    ghost is_clone = { λ row copy. copy ≡ row };

    fn clone(&self) -> Result<Row, AllocError> {
        Ok(self.copy())
    }
}
