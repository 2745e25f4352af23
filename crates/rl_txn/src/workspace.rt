//! What an attempt has come to so far, in room that was taken at its start.

ghost use Rattle.std.specs.Prelude.{◌≡◌, ℕ, ◌+◌, ◌^◌, ◌<◌, ◌≤◌, All, length, map, [], ◌∷◌, ◌++◌, IfSome, IfOk, MatchOption, vec_len, vec_capacity, Some, None, true, false, nat_lt, if◌then◌else◌};
ghost use Rattle.std.specs.Bool.{OnFalse};
ghost use Rattle.std.specs.Option.{option_copied};
ghost use Rattle.std.specs.FinMap as finite;
ghost use Rattle.rl_base.specs.declared.limit.TheConstants.{RECORDS};
ghost use Rattle.rl_value.specs.Tables.{size_of};
ghost use Rattle.rl_txn.specs.Fits.{OperandFits, OpFits};
ghost use Rattle.rl_txn.specs.Run.{value_of, column_of, row_seen, scan_sum, op_done, passes, beginning, with_reg, with_row, only_if, holds};
ghost use Rattle.rl_txn.specs.Eval.{progress_of, places_read, reads_at_most, rows_of, places, unknown};
ghost use Rattle.rl_txn.specs.Steps.{Leaves, StepLeaves, UsesRoom};

use crate::op::{Op, Operand, Operands};
use crate::row_set::RowSet;
use rl_base::memory::Memory;
use rl_value::row::Row;
use rl_value::schema::Schema;
use std::alloc::Global;

/// Some keys of a table, one after another.
#[derive(Clone, Copy, Debug, PartialEq, Eq)]
pub struct Keys {
    pub table: u32,
    pub first: u32,
    pub count: u32,
}

/// The registers, the outputs, and the rows that were written and read.
#[derive(Drop)]
pub struct Workspace {
    pub regs: [u64; 16],
    pub outs: Vec<u64>,
    pub written: RowSet,
    pub read: RowSet,
}

impl Workspace {
    /// Nothing is done yet. There is room for this many ops and reads.
    pub fn begin(alloc: Global, ops: usize, reads: usize) -> Result<Workspace, Memory>
        ensures begun { IfOk result (λ work. progress_of work ≡ beginning) }
        ensures none_read { IfOk result (λ work. work.read.0 ≡ finite.empty) }
        ensures outs { IfOk result (λ work. ops ≤ vec_capacity work.outs) }
        ensures writes { IfOk result (λ work. ops ≤ work.written.1) }
        ensures reads { IfOk result (λ work. reads ≤ work.read.1) }
    {
        Ok(Workspace {
            regs: [0; 16],
            outs: Vec::with_capacity(alloc, ops)?,
            written: RowSet::with_room(alloc, ops)?,
            read: RowSet::with_room(alloc, reads)?,
        })
    }

    /// What an operand stands for.
    fn value(&self, a: Operand) -> u64
        requires { OperandFits a }
        ensures { result ≡ value_of (progress_of self.now) a }
    {
        match a {
            Operand::Reg(r) => self.regs[r as usize],
            Operand::Num(n) => n,
        }
    }

    /// The keys of a table from an operand's on, where all of them are keys of it.
    fn keys(&self, schema: &Schema, table: u32, key: Operand, count: u32) -> Option<Keys>
        requires table { table < length schema.now }
        requires operand { OperandFits key }
        requires few { count ≤ 256 }
        ensures none { let k = value_of (progress_of self.now) key in MatchOption result
            (size_of schema.now table < k + count) (λ keys. k + count ≤ size_of schema.now table) }
        ensures keys { let k = value_of (progress_of self.now) key in
            IfSome result (λ keys. keys ≡ record { table = table; first = k; count = count }) }
        ensures small { IfSome result (λ keys. keys.first + count ≤ RECORDS) }
    {
        let key = self.value(key);
        let size = schema.size(table);
        if count > size || key > u64::from(size - count) {
            return None;
        }
        Some(Keys {
            table,
            first: key as u32,
            count,
        })
    }

    /// The keys that an op reads, if any.
    pub fn reads(&self, schema: &Schema, op: &Op) -> Option<Keys>
        requires { OpFits schema.now op.now }
        ensures places { let read = places_read schema.now op.now (progress_of self.now) in
            MatchOption result (read ≡ []) (λ keys. read ≡ places keys.table keys.first keys.count) }
        ensures count { IfSome result (λ keys. keys.count ≡ reads_at_most op.now) }
        ensures small { IfSome result (λ keys. keys.first + keys.count ≤ RECORDS) }
        ensures there { IfSome result (λ keys. (keys.table < length schema.now)
            × (keys.first + keys.count ≤ size_of schema.now keys.table)) }
    {
        match op {
            Op::Get { table, key, .. } | Op::Has { table, key, .. } => {
                self.keys(schema, *table, *key, 1)
            }
            Op::Scan {
                table,
                key,
                count,
                ..
            } => self.keys(schema, *table, *key, *count),
            _ => None,
        }
    }

    /// Whether a key was neither read nor written.
    pub fn is_unknown(&self, table: u32, key: u32) -> bool
        ensures { result ≡ unknown self.now.read.0 self.now.written.0 (table, key) }
    {
        !self.read.contains(table, key) && !self.written.contains(table, key)
    }

    /// The row of a key as the attempt sees it, with its own writes.
    fn row_at(&self, table: u32, key: u32) -> Option<&Row>
        ensures { option_copied result
            ≡ row_seen (rows_of self.now.read.0) self.now.written.0 table key }
    {
        match self.written.get(table, key) {
            Some(written) => written.as_ref(),
            None => match self.read.get(table, key) {
                Some(read) => read.as_ref(),
                None => None,
            },
        }
    }

    /// One number of the row of a key, or 0 where there is none.
    fn column(&self, table: u32, key: u32, column: u32) -> u64
        ensures { result
            ≡ column_of (row_seen (rows_of self.now.read.0) self.now.written.0 table key) column }
    {
        match self.row_at(table, key) {
            Some(row) => row.column_or_zero(column),
            None => 0,
        }
    }

    /// The wrapping sum of a column over the rows of some keys.
    fn sum(&self, table: u32, key: u32, count: u32, column: u32) -> u64
        requires { key + count < 2 ^ 32 }
        ensures { result
            ≡ scan_sum (rows_of self.now.read.0) self.now.written.0 table key count column }
    {
        let mut sum: u64 = 0;
        for k in key..key + count {
            sum = sum.wrapping_add(self.column(table, k, column));
        }
        sum
    }

    /// The row that some operands make.
    fn row(&self, values: &[Operand]) -> Row
        requires fit { All OperandFits values.now }
        requires some { 0 < length values.now }
        requires few { length values.now ≤ 4 }
        ensures { result ≡ map (value_of (progress_of self.now)) values.now }
    {
        let mut cells = [0; 4];
        for (i, a) in values.iter().enumerate() {
            cells[i] = self.value(*a);
        }
        Row::from_slice(&cells[..values.len()])
    }

    fn set(&mut self, d: u32, value: u64)
        requires { d < 16 }
        ensures { self.new
            ≡ record self.old { regs = (with_reg (progress_of self.old) d value).regs } }
    {
        self.regs[d as usize] = value;
    }

    /// Does `get`, and answers whether it did not decline.
    #[tactic(auto, unfolding(crate::specs::Run::op_done))]
    fn get(&mut self, schema: &Schema, table: u32, key: Operand, column: u32, d: u32) -> bool
        requires { OpFits schema.now (Op.Get table key column d) }
        ensures leaves { StepLeaves schema.now (Op.Get table key column d) self.old self.new result }
        ensures room { UsesRoom self.old self.new }
        ensures same { OnFalse result (self.new ≡ self.old) }
    {
        match self.keys(schema, table, key, 1) {
            Some(keys) => {
                self.set(d, self.column(table, keys.first, column));
                true
            }
            None => false,
        }
    }

    /// Does `has`, and answers whether it did not decline.
    #[tactic(auto, unfolding(crate::specs::Run::op_done))]
    fn has(&mut self, schema: &Schema, table: u32, key: Operand, d: u32) -> bool
        requires { OpFits schema.now (Op.Has table key d) }
        ensures leaves { StepLeaves schema.now (Op.Has table key d) self.old self.new result }
        ensures room { UsesRoom self.old self.new }
        ensures same { OnFalse result (self.new ≡ self.old) }
    {
        match self.keys(schema, table, key, 1) {
            Some(keys) => {
                let present = u64::from(self.row_at(table, keys.first).is_some());
                self.set(d, present);
                true
            }
            None => false,
        }
    }

    /// Does `scan`, and answers whether it did not decline.
    #[tactic(auto, unfolding(crate::specs::Run::op_done))]
    fn scan(
        &mut self,
        schema: &Schema,
        table: u32,
        key: Operand,
        count: u32,
        column: u32,
        d: u32,
    ) -> bool
        requires { OpFits schema.now (Op.Scan table key count column d) }
        ensures leaves { StepLeaves schema.now (Op.Scan table key count column d) self.old self.new result }
        ensures room { UsesRoom self.old self.new }
        ensures same { OnFalse result (self.new ≡ self.old) }
    {
        match self.keys(schema, table, key, count) {
            Some(keys) => {
                self.set(d, self.sum(table, keys.first, count, column));
                true
            }
            None => false,
        }
    }

    /// Makes the row of a key this one, or takes it away, and answers whether it is a key.
    fn write(&mut self, schema: &Schema, table: u32, key: Operand, row: Option<Row>) -> bool
        requires table { table < length schema.now }
        requires operand { OperandFits key }
        requires room { 0 < self.old.written.1 }
        ensures leaves { let k = value_of (progress_of self.old) key in
            Leaves (only_if (nat_lt k (size_of schema.now table)) (with_row (progress_of self.old) table k row))
            (progress_of self.old) (progress_of self.new) result }
        ensures room { UsesRoom self.old self.new }
        ensures same { OnFalse result (self.new ≡ self.old) }
    {
        match self.keys(schema, table, key, 1) {
            Some(keys) => {
                self.written.put(table, keys.first, row);
                true
            }
            None => false,
        }
    }

    fn put_out(&mut self, a: Operand)
        requires operand { OperandFits a }
        requires room { length self.old.outs.items < vec_capacity self.old.outs }
        ensures leaves { progress_of self.new ≡ record (progress_of self.old) {
          outs = self.old.outs.items ++ value_of (progress_of self.old) a ∷ [];
        } }
        ensures room { UsesRoom self.old self.new }
    {
        let value = self.value(a);
        self.outs.push_reserved(value);
    }

    /// Does one op on the rows that were read, and answers whether it did not decline. A declined
    /// op changes nothing.
    #[tactic(auto, unfolding(crate::specs::Run::op_done))]
    pub fn step(&mut self, schema: &Schema, op: &Op) -> bool
        requires fits { OpFits schema.now op.now }
        requires outs { length self.old.outs.items < vec_capacity self.old.outs }
        requires writes { 0 < self.old.written.1 }
        ensures leaves { StepLeaves schema.now op.now self.old self.new result }
        ensures room { UsesRoom self.old self.new }
        ensures same { OnFalse result (self.new ≡ self.old) }
    {
        match op {
            Op::Set { d, a } => self.set(*d, self.value(*a)),
            Op::Add { d, a, b } => self.set(*d, self.value(*a).wrapping_add(self.value(*b))),
            Op::Sub { d, a, b } => self.set(*d, self.value(*a).wrapping_sub(self.value(*b))),
            Op::Mul { d, a, b } => self.set(*d, self.value(*a).wrapping_mul(self.value(*b))),
            Op::Get {
                table,
                key,
                column,
                d,
            } => return self.get(schema, *table, *key, *column, *d),
            Op::Has { table, key, d } => return self.has(schema, *table, *key, *d),
            Op::Put { table, key, values } => {
                let row = self.row(values.as_slice());
                return self.write(schema, *table, *key, Some(row));
            }
            Op::Del { table, key } => return self.write(schema, *table, *key, None),
            Op::Scan {
                table,
                key,
                count,
                column,
                d,
            } => return self.scan(schema, *table, *key, *count, *column, *d),
            Op::Need { a, rel, b } => return rel.holds(self.value(*a), self.value(*b)),
            Op::Skip { .. } => {}
            Op::Out { a } => self.put_out(*a),
        }
        true
    }

    /// How many of the ops after it an op skips.
    pub fn passes(&self, schema: &Schema, op: &Op) -> u32
        requires { OpFits schema.now op.now }
        ensures passes { result ≡ passes op.now (progress_of self.now) }
        ensures few { result ≤ 64 }
    {
        match op {
            Op::Skip { a, rel, b, count } if rel.holds(self.value(*a), self.value(*b)) => *count,
            _ => 0,
        }
    }

    /// How many of some keys are known, from a number of them on that are.
    pub fn known_keys(&self, keys: Keys, from: u32) -> u32
        requires from { from ≤ keys.count }
        requires small { keys.first + keys.count ≤ RECORDS }
        ensures more { from ≤ result }
        ensures few { result ≤ keys.count }
        ensures known { (j : ℕ) → from ≤ j → j < result
            → unknown self.now.read.0 self.now.written.0 (keys.table, keys.first + j) ≡ false }
        ensures next { result < keys.count
            → unknown self.now.read.0 self.now.written.0 (keys.table, keys.first + result) ≡ true }
    {
        for n in from..keys.count {
            if self.is_unknown(keys.table, keys.first + n) {
                return n;
            }
        }
        keys.count
    }
}
