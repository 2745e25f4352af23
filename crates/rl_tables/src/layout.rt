//! One number for each record of all tables.

ghost use Rattle.std.specs.Prelude.{◌≡◌, ℕ, ◌+◌, ◌<◌, ◌≤◌, length, sum, slice_index, IsErr, IfOk, IfErr, ◌↔◌};
ghost use Rattle.rl_value.specs.Tables.{record_count};
ghost use Rattle.rl_tables.specs.Numbers.{sizes_of, record_of, place_of, IsPlace};

use rl_base::limit::RECORDS;
use rl_base::memory::Memory;
use rl_value::schema::Schema;
use std::alloc::Global;
use std::marker::Model;
use thiserror::Error;

/// Records that follow one another.
#[derive(Clone, Copy, Debug, PartialEq, Eq)]
pub struct Records {
    pub first: u32,
    pub count: u32,
}

/// A key is not below the size of its table.
#[derive(Clone, Copy, Debug, PartialEq, Eq, Error)]
#[error("key out of range: {size}")]
pub struct KeyOutOfRange {
    pub size: u32,
}

/// The numbers of the records of some tables: table by table, by rising key. Contracts see how
/// many keys each table has.
#[derive(Drop)]
pub struct Layout {
    sizes: Vec<u32>,
}

impl Model for Layout {
    ghost use Rattle.std.specs.Prelude.{List, ℕ, length, sum, ◌≤◌};
    ghost use Rattle.rl_base.specs.declared.limit.TheConstants.{RECORDS, TABLES};

    ghost Value = { List ℕ };

    ghost view = { λ l. l.sizes.items };

    ghost invariant = { λ l. (length l.sizes.items ≤ TABLES) × (sum l.sizes.items ≤ RECORDS) };
}

impl Layout {
    /// The numbers of the records of a schema.
    pub fn new(alloc: Global, schema: &Schema) -> Result<Layout, Memory>
        ensures { IfOk result (λ layout. layout ≡ sizes_of schema.now) }
    {
        let count = schema.count();
        let mut sizes = Vec::with_capacity(alloc, count as usize)?;
        for t in 0..count {
            sizes.push(schema.size(t))?;
        }
        Ok(Layout { sizes })
    }

    /// The records of `n` keys of a table from the key `lo` on, with 1 to 256 for `n`.
    ///
    /// `KeyOutOfRange`, with the table's size, where not all of them are keys of the table.
    pub fn range(&self, t: u32, lo: u64, n: u32) -> Result<Records, KeyOutOfRange>
        requires table { t < length self.now }
        requires some { 1 ≤ n }
        requires few { n ≤ 256 }
        ensures refused { IsErr result ↔ (slice_index self.now t < lo + n) }
        ensures size { IfErr result (λ e. e.size ≡ slice_index self.now t) }
        ensures first { IfOk result (λ records. records.first ≡ record_of self.now t lo) }
        ensures count { IfOk result (λ records. records.count ≡ n) }
        ensures last { IfOk result (λ records. records.first + n ≤ sum self.now) }
    {
        let size = self.sizes[t as usize];
        if n > size || lo > u64::from(size - n) {
            return Err(KeyOutOfRange { size });
        }
        Ok(Records {
            first: self.record(t, lo as u32),
            count: n,
        })
    }

    /// The number of the record of a key, whose place `place` gives again.
    pub fn record(&self, t: u32, k: u32) -> u32
        requires table { t < length self.now }
        requires key { k < slice_index self.now t }
        ensures number { result ≡ record_of self.now t k }
        ensures there { result < sum self.now }
        ensures few { result < RECORDS }
        ensures place { place_of self.now result ≡ (t, k) }
    {
        self.before(t) + k
    }

    /// How many records the tables before one have.
    #[tactic(auto, using(crate::proofs::Sizes::sum_before))]
    fn before(&self, t: u32) -> u32
        requires { t < length self.now }
        ensures first { result ≡ record_of self.now t 0 }
        ensures rest { result + slice_index self.now t ≤ sum self.now }
        ensures few { sum self.now ≤ RECORDS }
    {
        total(&self.sizes[..t as usize])
    }

    /// The table and the key of a record.
    pub fn place(&self, rec: u32) -> (u32, u32)
        requires { rec < sum self.now }
        ensures place { result ≡ place_of self.now rec }
        ensures is { IsPlace self.now rec result.0 result.1 }
    {
        let mut t = 0;
        let mut key = rec;
        for size in &self.sizes {
            if key < *size {
                return (t, key);
            }
            key -= *size;
            t += 1;
        }
        unreachable!()
    }

    /// How many records there are.
    pub fn count(&self) -> u32
        ensures count { result ≡ sum self.now }
        ensures few { result ≤ RECORDS }
    {
        self.sizes.iter().sum()
    }
}

/// The sum of some sizes.
fn total(sizes: &[u32]) -> u32
    requires { sum sizes.now ≤ RECORDS }
    ensures { result ≡ sum sizes.now }
{
    sizes.iter().sum()
}
