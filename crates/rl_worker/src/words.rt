//! The records of an open leader.

ghost use Rattle.std.specs.Prelude.{◌≡◌, ◌*◌, ◌+◌, ◌^◌, ◌<◌, ◌≤◌, IfOk, length, sum, All, Some, None, ◌==◌, if◌then◌else◌};
ghost use Rattle.rl_value.specs.Fits.{RowsFit};
ghost use Rattle.rl_tables.specs.Numbers.{sizes_of};
ghost use Rattle.rl_worker.specs.Opening.{opening_recs};
ghost use Rattle.rl_worker.specs.Phases.{other};
ghost use Rattle.rl_worker.specs.Told.{word};
ghost use Rattle.rl_worker.specs.Workers.{RecordsFit};

use crate::cells::Cells;
use rl_base::list::Stamps;
use rl_base::memory::Memory;
use rl_base::refusal::Refusal;
use rl_base::word::{locked, word_of};
use rl_tables::layout::Layout;
use rl_value::map::Map;
use rl_value::schema::Schema;
use std::alloc::Global;

/// A record: the stamp of its newest write, the worker that holds it, and its cells, which are
/// presence (0 or 1) and then the columns.
#[derive(Debug, Drop)]
pub struct Record {
    pub stamp: u64,
    pub holder: Option<u32>,
    pub cells: Cells,
}

/// The records by number, and the next seq.
#[derive(Drop)]
pub struct Words {
    pub records: Vec<Record>,
    pub next: u64,
}

impl Words {
    /// The records as an epoch opens, each with the stamp of its last write or 0. The next seq is 2.
    pub fn at(
        alloc: Global,
        layout: &Layout,
        schema: &Schema,
        map: &Map,
        stamps: &Stamps,
    ) -> Result<Words, Memory>
        requires layout { layout.now ≡ sizes_of schema.now }
        requires rows { RowsFit schema.now map.now }
        requires stamps { length stamps.now ≡ sum layout.now }
        requires earlier { All (λ stamp. stamp < 2 ^ 60) stamps.now }
        ensures records { IfOk result (λ words. words.records.items ≡ opening_recs schema.now map.now stamps.now) }
        ensures next { IfOk result (λ words. words.next ≡ 2) }
        ensures fits { IfOk result (λ words. RecordsFit schema.now words.records.items) }
    {
        let count = layout.count();
        let mut records = Vec::with_capacity(alloc, count as usize)?;
        for rec in 0..count {
            let (table, key) = layout.place(rec);
            let columns = schema.columns(table);
            records.push(Record {
                stamp: *stamps.get(rec as usize),
                holder: None,
                cells: Cells::of_row(columns, map.get(table, key)),
            })?;
        }
        Ok(Words { records, next: 2 })
    }
}

impl Record {
    /// Its word: twice the stamp, and the lock bit where a worker holds it.
    pub fn word(&self) -> u64
        requires { self.now.stamp < 2 ^ 60 }
        ensures { result ≡ word self.now }
    {
        let word = word_of(self.stamp);
        match self.holder {
            Some(_) => locked(word),
            None => word,
        }
    }

    /// Whether a worker other than this one holds it.
    pub fn is_held_by_other(&self, worker: u32) -> bool
        ensures { result ≡ other worker self.now.holder }
    {
        match self.holder {
            Some(holder) => holder != worker,
            None => false,
        }
    }

    /// What stands against a read of it under a stamp, if anything: that it is locked by another, or has
    /// another stamp now.
    pub fn conflict(&self, rec: u32, seen: u64, is_locked: bool) -> Option<Refusal>
        requires stamp { self.now.stamp < 2 ^ 60 }
        requires seen { seen < 2 ^ 60 }
        ensures { result ≡ (if is_locked then Some (Refusal.Locked rec (2 * self.now.stamp + 1))
            else if self.now.stamp == seen then None
            else Some (Refusal.Changed rec (2 * seen) (2 * self.now.stamp))) }
    {
        if is_locked {
            Some(Refusal::Locked {
                rec,
                word: locked(word_of(self.stamp)),
            })
        } else if self.stamp == seen {
            None
        } else {
            Some(Refusal::Changed {
                rec,
                seen: word_of(seen),
                found: word_of(self.stamp),
            })
        }
    }
}
