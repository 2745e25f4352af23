//! A transaction that runs record by record.

ghost use Rattle.std.specs.Prelude.{◌≡◌, ℕ, ◌+◌, ◌<◌, ◌≤◌, Some, None, true, false, IfOk, IfSome, IfNone, List, length, drop, sum_by};
ghost use Rattle.std.specs.Bool.{OnTrue, OnFalse};
ghost use Rattle.std.specs.FinMap as finite;
ghost use Rattle.rl_value.specs.Rows.{Rows};
ghost use Rattle.rl_value.specs.Tables.{Table};
ghost use Rattle.rl_txn.specs.declared.op.Op.{Op};
ghost use Rattle.rl_txn.specs.Fits.{TxnFits, OpFits};
ghost use Rattle.rl_txn.specs.Run.{run};
ghost use Rattle.rl_txn.specs.Eval.{reads_at_most, HasRows, IsEval, rows_given, reads_room, wants, WantsFit, IsAsked, Awaits, awaited, HasEnded, StandsAt};
ghost use Rattle.rl_txn.specs.Steps.{AllKnown};

use crate::op::{Op, Txn};
use crate::workspace::Workspace;
use crate::write::{End, Reply, Write, Writes};
use rl_base::list::Seq;
use rl_base::memory::Memory;
use rl_value::row::Row;
use rl_value::schema::Schema;
use std::alloc::Global;

/// What an evaluation wants next.
#[derive(Clone, Copy, Debug, PartialEq, Eq)]
pub enum Wants {
    /// The row of a key, to be given.
    Read { table: u32, key: u32 },
    /// Nothing: the transaction has ended.
    Ended(End),
}

/// The evaluation of a transaction, which is given its records one by one. A record is wanted
/// where the transaction reads it and has neither read nor written it before.
#[derive(Drop)]
pub struct Eval {
    work: Workspace,
    writes: Vec<Write>,
    done: usize,
    scanned: u32,
    wants: Option<Wants>,
}

impl Eval {
    /// Nothing is done yet. Room for everything is taken here.
    pub fn start(alloc: Global, schema: &Schema, txn: &Txn) -> Result<Eval, Memory>
        requires { TxnFits schema.now txn.now }
        ensures begun { IfOk result (λ eval. IsEval schema.now txn.now eval) }
        ensures none { IfOk result (λ eval. rows_given eval ≡ finite.empty) }
    {
        let ops = txn.len();
        Ok(Eval {
            work: Workspace::begin(alloc, ops, most_reads(schema, txn))?,
            writes: Vec::with_capacity(alloc, ops)?,
            done: 0,
            scanned: 0,
            wants: None,
        })
    }

    /// How many more rows it can be given with no memory.
    pub fn room(&self) -> usize
        ensures { result ≡ reads_room self.now }
    {
        self.work.read.room()
    }

    /// Runs up to the next wanted record, or to the end, and takes no memory.
    pub fn advance(&mut self, schema: &Schema, txn: &Txn) -> Wants
        requires fits { TxnFits schema.now txn.now }
        requires of { IsEval schema.now txn.now self.old }
        ensures wants { result ≡ wants schema.now txn.now (rows_given self.old) }
        ensures there { WantsFit schema.now result }
        ensures known { rows_given self.new ≡ rows_given self.old }
        ensures room { reads_room self.new ≡ reads_room self.old }
        ensures of { IsEval schema.now txn.now self.new }
        ensures stands { StandsAt self.new result }
    {
        self.wants = None;
        let wants = self.run_on(schema, txn);
        self.wants = Some(wants);
        wants
    }

    /// Gives the row that the last `advance` wanted, and takes no memory.
    pub fn give(&mut self, row: Option<Row>)
        requires { Awaits self.old }
        ensures known { rows_given self.new ≡ finite.insert (rows_given self.old) (awaited self.old) row }
        ensures room { reads_room self.old ≡ reads_room self.new + 1 }
        ensures of { (tables : List Table) (txn : List Op)
            → IsEval tables txn self.old → IsEval tables txn self.new }
    {
        if let Some(Wants::Read { table, key }) = self.wants {
            self.work.read.put(table, key, row);
            self.scanned += 1;
            self.wants = None;
        }
    }

    /// The reply and the writes, which are what the transaction does on any rows that have those
    /// given. It takes no memory.
    pub fn finish(self) -> (Reply, Writes)
        requires { HasEnded self }
        ensures { (tables : List Table) (txn : List Op) (rows : Rows)
            → IsEval tables txn self → HasRows (rows_given self) rows → result ≡ run tables txn rows }
    {
        let Eval {
            work,
            writes: room,
            done: _,
            scanned: _,
            wants,
        } = self;
        let Workspace {
            regs: _,
            outs,
            written,
            read: _,
        } = work;
        let Some(Wants::Ended(end)) = wants else {
            unreachable!()
        };
        let writes = match end {
            End::Done => written.into_writes(room),
            End::Declined { .. } => Seq::from_vec(room),
        };
        let reply = Reply {
            outs: Seq::from_vec(outs),
            end,
        };
        (reply, writes)
    }

    /// Does ops up to the next wanted record, or to the end.
    fn run_on(&mut self, schema: &Schema, txn: &Txn) -> Wants
        requires fits { TxnFits schema.now txn.now }
        requires of { IsEval schema.now txn.now self.old }
        requires nothing { self.old.wants ≡ None }
        ensures wants { result ≡ wants schema.now txn.now (rows_given self.old) }
        ensures there { WantsFit schema.now result }
        ensures read { self.new.work.read ≡ self.old.work.read }
        ensures of { IsEval schema.now txn.now self.new }
        ensures nothing { self.new.wants ≡ None }
        ensures asked { IsAsked schema.now txn.now self.new (Some result) }
    {
        while self.done < txn.len() {
            if let Some(wants) = self.next_wanted(schema, txn) {
                return wants;
            }
            if !self.do_op(schema, txn) {
                let op = (self.done + 1) as u32;
                return Wants::Ended(End::Declined { op });
            }
        }
        Wants::Ended(End::Done)
    }

    /// The first record that the op at hand wants, if any.
    fn next_wanted(&mut self, schema: &Schema, txn: &Txn) -> Option<Wants>
        requires fits { TxnFits schema.now txn.now }
        requires of { IsEval schema.now txn.now self.old }
        requires nothing { self.old.wants ≡ None }
        requires more { self.old.done < length txn.now }
        ensures of { IsEval schema.now txn.now self.new }
        ensures nothing { self.new.wants ≡ None }
        ensures read { self.new.work.read ≡ self.old.work.read }
        ensures done { self.new.done ≡ self.old.done }
        ensures none { IfNone result (AllKnown schema.now (drop self.new.done txn.now) self.new) }
        ensures some { IfSome result (λ w. w ≡ wants schema.now txn.now (rows_given self.old)) }
        ensures there { IfSome result (WantsFit schema.now) }
        ensures asked { IfSome result (λ w. IsAsked schema.now txn.now self.new (Some w)) }
    {
        let op = txn.get(self.done);
        let keys = self.work.reads(schema, op)?;
        self.scanned = self.work.known_keys(keys, self.scanned);
        if self.scanned == keys.count {
            return None;
        }
        Some(Wants::Read {
            table: keys.table,
            key: keys.first + self.scanned,
        })
    }

    /// Does the op at hand, all of whose records are known, and answers whether it did not
    /// decline. A declined op stays at hand.
    fn do_op(&mut self, schema: &Schema, txn: &Txn) -> bool
        requires fits { TxnFits schema.now txn.now }
        requires of { IsEval schema.now txn.now self.old }
        requires nothing { self.old.wants ≡ None }
        requires more { self.old.done < length txn.now }
        requires ready { AllKnown schema.now (drop self.old.done txn.now) self.old }
        ensures of { IsEval schema.now txn.now self.new }
        ensures nothing { self.new.wants ≡ None }
        ensures read { self.new.work.read ≡ self.old.work.read }
        ensures more { OnTrue result (self.old.done < self.new.done) }
        ensures same { OnFalse result (self.new.done ≡ self.old.done) }
        ensures wants { OnFalse result (Wants.Ended (End.Declined (self.old.done + 1))
            ≡ wants schema.now txn.now (rows_given self.old)) }
        ensures asked { OnFalse result (IsAsked schema.now txn.now self.new
            (Some (Wants.Ended (End.Declined (self.old.done + 1))))) }
    {
        let op = txn.get(self.done);
        let passes = self.work.passes(schema, op) as usize;
        if !self.work.step(schema, op) {
            return false;
        }
        self.done = (self.done + 1 + passes).min(txn.len());
        self.scanned = 0;
        true
    }
}

/// How many records a transaction reads at most.
fn most_reads(schema: &Schema, txn: &Txn) -> usize
    requires { TxnFits schema.now txn.now }
    ensures { result ≡ sum_by reads_at_most txn.now }
{
    let mut count = 0;
    for op in txn.as_slice() {
        count += most_reads_of(schema, op) as usize;
    }
    count
}

/// How many records an op reads at most.
fn most_reads_of(schema: &Schema, op: &Op) -> u32
    requires { OpFits schema.now op.now }
    ensures most { result ≡ reads_at_most op.now }
    ensures few { result ≤ 256 }
{
    match op {
        Op::Get { .. } | Op::Has { .. } => 1,
        Op::Scan { count, .. } => *count,
        _ => 0,
    }
}
