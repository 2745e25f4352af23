//! The part of an attempt in which it runs its transaction and reads what that wants.

ghost use Rattle.std.specs.Prelude.{◌≡◌, ℕ, ◌+◌, ◌*◌, ◌^◌, ◌<◌, ◌≤◌, IfOk, IfErr, IfSome, IfNone, MatchResult, List, ◌&&◌, Some, None, [], length, nat_le, true, false};
ghost use Rattle.std.specs.FinMap as finite;
ghost use Rattle.std.specs.Result.{result_err};
ghost use Rattle.rl_txn.specs.Fits.{TxnFits};
ghost use Rattle.rl_txn.specs.Eval.{Awaits, awaited, rows_given, reads_room, IsEval};
ghost use Rattle.rl_txn.specs.declared.op.Op.{Op};
ghost use Rattle.rl_value.specs.Tables.{Table};
ghost use Rattle.rl_worker.specs.Phases.{Setting, with_read};
ghost use Rattle.rl_value.specs.Cells.{row_of};
ghost use Rattle.rl_worker.specs.Told.{NamesRecord, found, word};
ghost use Rattle.rl_worker.specs.Workers.{IsReading, RecordsFit, reading_phase};
ghost use Rattle.rl_worker.specs.Attempts.{IsAct, IsAsking, IsLoad, confirmed_phase};

use crate::act::{Act, Moved};
use crate::cells::Cells;
use crate::reads::{Read, Reads};
use crate::words::Words;
use rl_base::memory::Memory;
use rl_base::refusal::Refusal;
use rl_txn::eval::Eval;
use rl_txn::op::Txn;
use rl_value::schema::Schema;
use std::alloc::Global;

/// An attempt that reads. It runs up to the next record that it wants, and loads that record word
/// by word: `next` is the read of it, and is open once the record's word was seen.
#[derive(Drop)]
pub struct Reading {
    pub eval: Eval,
    pub reads: Reads,
    pub next: Read,
    pub is_open: bool,
}

impl Reading {
    /// Nothing is read yet. Room for everything is taken here.
    pub fn start(alloc: Global, schema: &Schema, txn: &Txn) -> Result<Reading, Memory>
        requires { TxnFits schema.now txn.now }
        ensures asking { IfOk result (λ reading. IsAsking schema.now txn.now reading) }
        ensures none { IfOk result (λ reading. reading.reads.0 ≡ []) }
    {
        let eval = Eval::start(alloc, schema, txn)?;
        let reads = Reads::with_room(alloc, eval.room())?;
        Ok(Reading {
            eval,
            reads,
            next: Read::of(0),
            is_open: false,
        })
    }

    /// Whether the next read is open, and all cells of its record are loaded.
    pub fn is_loaded(&self, words: &Words) -> bool
        requires { self.now.next.rec < length words.now.records.items }
        ensures { result ≡ (self.now.is_open
            && nat_le (length (found words.now.records.items self.now.next.rec).cells) (length self.now.next.row)) }
    {
        self.is_open && self.next.row.len() >= words.records[self.next.rec as usize].cells.len()
    }

    /// Loads the wanted record's word, or its next cell where the read of it is open.
    pub fn load(&mut self, words: &Words, schema: &Schema, txn: &Txn) -> Moved
        requires reading { IsReading schema.now txn.now self.old }
        requires records { RecordsFit schema.now words.now.records.items }
        requires more { (self.old.is_open
            && nat_le (length (found words.now.records.items self.old.next.rec).cells) (length self.old.next.row)) ≡ false }
        ensures act { IsLoad self.old self.new words.now result }
        ensures reading { IsReading schema.now txn.now self.new }
        ensures there { NamesRecord schema.now result.refused }
    {
        if self.is_open {
            self.column_load(words, schema, txn)
        } else {
            self.first_load(words, schema, txn)
        }
    }

    /// Loads the wanted record's word, or is refused where a worker holds it.
    fn first_load(&mut self, words: &Words, schema: &Schema, txn: &Txn) -> Moved
        requires reading { IsReading schema.now txn.now self.old }
        requires records { RecordsFit schema.now words.now.records.items }
        requires first { self.old.is_open ≡ false }
        ensures act { IsLoad self.old self.new words.now result }
        ensures reading { IsReading schema.now txn.now self.new }
        ensures there { NamesRecord schema.now result.refused }
    {
        let rec = self.next.rec;
        let record = &words.records[rec as usize];
        let word = record.word();
        let act = Act::FirstLoad { rec, word };
        if record.holder.is_some() {
            return Moved::by(act, Some(Refusal::Locked { rec, word }));
        }
        self.next.seen = record.stamp;
        self.next.row = Cells::new();
        self.is_open = true;
        Moved::by(act, None)
    }

    /// Loads the next cell of the open read's record.
    fn column_load(&mut self, words: &Words, schema: &Schema, txn: &Txn) -> Moved
        requires reading { IsReading schema.now txn.now self.old }
        requires records { RecordsFit schema.now words.now.records.items }
        requires later { self.old.is_open ≡ true }
        requires more { length self.old.next.row < length (found words.now.records.items self.old.next.rec).cells }
        ensures act { IsLoad self.old self.new words.now result }
        ensures reading { IsReading schema.now txn.now self.new }
        ensures there { NamesRecord schema.now result.refused }
    {
        let rec = self.next.rec;
        let cells = &words.records[rec as usize].cells;
        let column = self.next.row.len();
        let value = cells.get(column as u32);
        if column < cells.len() {
            self.next.row.push(value);
        }
        Moved::by(
            Act::ColumnLoad {
                rec,
                column: column as u32,
                value,
            },
            None,
        )
    }

    /// Confirms the open read, which counts then and is given to the evaluation; or is refused.
    pub fn confirm(self, words: &Words, schema: &Schema, txn: &Txn) -> Result<Reading, Refusal>
        requires reading { IsReading schema.now txn.now self }
        requires records { RecordsFit schema.now words.now.records.items }
        requires later { self.is_open ≡ true }
        requires loaded { length (found words.now.records.items self.next.rec).cells ≤ length self.next.row }
        ensures act { (s : Setting) (w epoch q : ℕ)
            → let found_word = word (found words.now.records.items self.next.rec) in
            IsAct s w epoch (reading_phase q self) (confirmed_phase q result) words.now words.now
            (record { act = Act.Confirm self.next.rec found_word; refused = result_err result; ended = None }) }
        ensures asking { IfOk result (IsAsking schema.now txn.now) }
        ensures there { NamesRecord schema.now (result_err result) }
    {
        let record = &words.records[self.next.rec as usize];
        let conflict = record.conflict(self.next.rec, self.next.seen, record.holder.is_some());
        match conflict {
            Some(refusal) => Err(refusal),
            None => Ok(self.counted()),
        }
    }

    /// The open read counts.
    fn counted(self) -> Reading
        requires awaits { Awaits self.eval }
        requires room { 0 < self.reads.1 }
        requires row { 2 ≤ length self.next.row }
        ensures given { rows_given result.eval ≡ finite.insert (rows_given self.eval) (awaited self.eval) (row_of self.next.row) }
        ensures eval { (tables : List Table) (txn : List Op) → IsEval tables txn self.eval → IsEval tables txn result.eval }
        ensures reads { result.reads.0 ≡ with_read self.next self.reads.0 }
        ensures less { reads_room self.eval ≡ reads_room result.eval + 1 }
        ensures room { self.reads.1 ≡ result.reads.1 + 1 }
        ensures closed { result.is_open ≡ false }
    {
        let Reading {
            mut eval,
            mut reads,
            next,
            is_open: _,
        } = self;
        eval.give(next.row.to_row());
        reads.insert(next);
        Reading {
            eval,
            reads,
            next: Read::of(0),
            is_open: false,
        }
    }
}

impl Read {
    /// A read of a record, of which nothing is loaded.
    pub fn of(rec: u32) -> Read
        ensures rec { result.rec ≡ rec }
        ensures seen { result.seen ≡ 0 }
        ensures row { result.row ≡ [] }
    {
        Read {
            rec,
            seen: 0,
            row: Cells::new(),
        }
    }
}
