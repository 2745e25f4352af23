//! The rows that an attempt has read or written.

ghost use Rattle.std.specs.Prelude.{◌≡◌, ◌+◌, ◌<◌, ◌≤◌, IfOk, IfErr, IsNone, T, map, length, is_some, vec_capacity, [], IsTrue};
ghost use Rattle.std.specs.List.{HoldsAt};
ghost use Rattle.std.specs.List.Sorted.{IsSearchInRange, IsPartitionPoint};
ghost use Rattle.std.specs.Option.{option_copied};
ghost use Rattle.std.specs.FinMap as finite;
ghost use Rattle.std.specs.declared.cmp.Ordering.TheVariants.{Less, Greater};
ghost use Rattle.rl_value.specs.Rows.{place_cmp};
ghost use Rattle.rl_txn.specs.Run.{write_of};
ghost use Rattle.rl_txn.specs.RowSets.{place_at, IsInOrder};

use crate::write::{Write, Writes};
use rl_base::list::Seq;
use rl_base::memory::Memory;
use rl_value::row::Row;
use smallvec::SmallVec;
use std::alloc::Global;
use std::marker::Model;

/// A row, or its absence, at a key of a table.
#[derive(Debug, Default, Drop)]
pub struct RowAt {
    pub table: u32,
    pub key: u32,
    pub row: Option<Row>,
}

/// Rows, and absences, at some keys, by rising table and key, with room for more of them.
/// Contracts see them as a map, beside how many more fit with no memory.
#[derive(Drop)]
pub struct RowSet {
    rows: SmallVec<RowAt, 4>,
}

impl Model for RowSet {
    ghost use Rattle.std.specs.Prelude.{Option, List, ℕ, ◌-◌, length};
    ghost use Rattle.std.specs.FinMap as finite;
    ghost use Rattle.std.specs.Coded.{coded_ℕ, coded×, coded_option, coded_list};
    ghost use Rattle.rl_value.specs.Rows.{place_cmp};
    ghost use Rattle.rl_txn.specs.RowSets.{rows_at, IsInOrder};

    ghost Value = { finite.FinMap place_cmp (Option (List ℕ)) × ℕ };

    ghost coded = { coded×
        (finite.code (coded× coded_ℕ coded_ℕ) (coded_option (coded_list coded_ℕ))) coded_ℕ };

    ghost view = { λ s. (rows_at s.rows.items, s.rows.capacity - length s.rows.items) };

    ghost invariant = { λ s. IsInOrder s.rows.items };
}

impl RowSet {
    /// No rows, with room for some.
    pub fn with_room(alloc: Global, count: usize) -> Result<RowSet, Memory>
        ensures none { IfOk result (λ set. set.0 ≡ finite.empty) }
        ensures room { IfOk result (λ set. count ≤ set.1) }
    {
        Ok(RowSet {
            rows: SmallVec::with_capacity(alloc, count)?,
        })
    }

    /// What it has at a key, if anything.
    pub fn get(&self, table: u32, key: u32) -> Option<&Option<Row>>
        ensures { option_copied result ≡ finite.get self.now.0 (table, key) }
    {
        match search(&self.rows, table, key) {
            Ok(at) => Some(&self.rows[at].row),
            Err(_) => None,
        }
    }

    /// How many rows at further keys it has room for.
    pub fn room(&self) -> usize
        ensures { result ≡ self.now.1 }
    {
        self.rows.capacity() - self.rows.len()
    }

    /// Whether it has something at a key.
    pub fn contains(&self, table: u32, key: u32) -> bool
        ensures { result ≡ is_some (finite.get self.now.0 (table, key)) }
    {
        self.get(table, key).is_some()
    }

    /// Makes what it has at a key this row, or absence.
    pub fn put(&mut self, table: u32, key: u32, row: Option<Row>)
        requires { 0 < self.old.1 }
        ensures rows { self.new.0 ≡ finite.insert self.old.0 (table, key) row }
        ensures room { self.old.1 ≤ self.new.1 + 1 }
        ensures used { IsNone (finite.get self.old.0 (table, key)) → self.old.1 ≡ self.new.1 + 1 }
    {
        match search(&self.rows, table, key) {
            Ok(at) => self.rows[at] = RowAt { table, key, row },
            Err(at) => {
                let _room_was_made = self.rows.insert(at, RowAt { table, key, row });
            }
        }
    }

    /// The same rows as writes, in a vector that has room for them.
    pub fn into_writes(self, room: Vec<Write>) -> Writes
        requires empty { room.items ≡ [] }
        requires room { length (finite.entries self.0) ≤ vec_capacity room }
        ensures { result ≡ map write_of (finite.entries self.0) }
    {
        let mut writes = room;
        for at in self.rows {
            writes.push_reserved(Write {
                table: at.table,
                key: at.key,
                row: at.row,
            });
        }
        Seq::from_vec(writes)
    }
}

/// Where a key stands among rows in order, or where it would go.
fn search(rows: &[RowAt], table: u32, key: u32) -> Result<usize, usize>
    requires { IsInOrder rows.now }
    ensures within { IsSearchInRange result (length rows.now) }
    ensures found { IfOk result (HoldsAt (λ r. place_at r ≡ (table, key)) rows.now) }
    ensures between { IfErr result (IsPartitionPoint
        (λ r. place_cmp (place_at r) (table, key) ≡ Less)
        (λ r. place_cmp (place_at r) (table, key) ≡ Greater) rows.now) }
{
    rows.binary_search_by_key(&(table, key), |r| (r.table, r.key))
}
