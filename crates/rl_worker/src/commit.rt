//! The part of an attempt that commits it, after Silo's protocol.

ghost use Rattle.std.specs.Prelude.{◌≡◌, ◌+◌, ◌*◌, ◌^◌, ◌-◌, ◌<◌, ◌≤◌, ℕ, List, Some, None, length, get_or, slice_get, IfSome};
ghost use Rattle.rl_value.specs.Tables.{Table, columns_of};
ghost use Rattle.rl_tables.specs.Numbers.{sizes_of};
ghost use Rattle.rl_value.specs.Cells.{cells_of};
ghost use Rattle.rl_txn.specs.Fits.{RowHas};
ghost use Rattle.rl_worker.specs.Told.{NamesRecord};
ghost use Rattle.rl_worker.specs.Workers.{CommitFits, HasMore, RecordsFit, is_storing};
ghost use Rattle.rl_worker.specs.Attempts.{IsCommitAct, IsOfAttempt, decided, is_over};

use crate::act::{Act, Moved};
use crate::reads::Reads;
use crate::words::Words;
use rl_base::refusal::Refusal;
use rl_base::stamp::pack;
use rl_base::word::word_of;
use rl_tables::layout::Layout;
use rl_txn::item::Item;
use rl_txn::write::Write;
use rl_value::schema::Schema;

/// How far a commit has come.
#[derive(Clone, Copy, Debug, PartialEq, Eq)]
pub enum Part {
    /// So many of the writes are locked.
    Locking { held: usize },
    /// All are locked, the stamp is drawn, and so many of the reads are validated.
    Validating { done: usize },
    /// It is decided. So many of the writes are installed, and so many cells of the next one.
    Storing { closed: usize, stored: u32 },
    /// It is refused. So many of the locks that were held are let go.
    Refusing { closed: usize, held: usize },
}

/// An attempt whose transaction has ended: what it read, and the item that it is to be. The
/// item's stamp is drawn when all its writes are locked, and its seq is 0 before.
#[derive(Drop)]
pub struct Commit {
    pub reads: Reads,
    pub item: Item,
    pub part: Part,
}

impl Commit {
    /// Locks the next write, or is refused.
    pub fn lock(
        &mut self,
        words: &mut Words,
        layout: &Layout,
        schema: &Schema,
        held: usize,
    ) -> Moved
        requires layout { layout.now ≡ sizes_of schema.now }
        requires fits { CommitFits schema.now self.old }
        requires records { RecordsFit schema.now words.old.records.items }
        requires part { self.old.part ≡ Part.Locking held }
        requires more { held < length self.old.item.writes }
        ensures act { IsCommitAct schema.now self.old self.new words.old words.new result }
        ensures fits { CommitFits schema.now self.new }
        ensures there { NamesRecord schema.now result.refused }
        ensures attempt { IsOfAttempt self.old self.new }
        ensures records { RecordsFit schema.now words.new.records.items }
    {
        let write = &self.item.writes.as_slice()[held];
        let rec = layout.record(write.table, write.key);
        let record = &mut words.records[rec as usize];
        let word = record.word();
        let refused = match record.holder {
            None => {
                record.holder = Some(self.item.worker);
                self.part = Part::Locking { held: held + 1 };
                None
            }
            Some(_) => {
                self.part = Part::Refusing { closed: 0, held };
                Some(Refusal::Locked { rec, word })
            }
        };
        Moved::by(Act::Lock { rec, word }, refused)
    }

    /// Draws the stamp. All writes are locked.
    pub fn draw(&mut self, words: &mut Words, schema: &Schema) -> Moved
        requires fits { CommitFits schema.now self.old }
        requires part { self.old.part ≡ Part.Locking (length self.old.item.writes) }
        requires next { words.old.next < 2 ^ 40 - 1 }
        ensures act { IsCommitAct schema.now self.old self.new words.old words.new result }
        ensures fits { CommitFits schema.now self.new }
        ensures there { NamesRecord schema.now result.refused }
        ensures attempt { IsOfAttempt self.old self.new }
        ensures records { words.new.records ≡ words.old.records }
    {
        let seq = words.next;
        words.next += 1;
        self.item.stamp.seq = seq;
        self.part = Part::Validating { done: 0 };
        Moved::by(Act::Draw { seq }, None)
    }

    /// Validates the next read, or is refused.
    pub fn validate(&mut self, words: &Words, schema: &Schema, done: usize) -> Moved
        requires fits { CommitFits schema.now self.old }
        requires records { RecordsFit schema.now words.now.records.items }
        requires part { self.old.part ≡ Part.Validating done }
        requires more { done < length self.old.reads.0 }
        ensures act { IsCommitAct schema.now self.old self.new words.now words.now result }
        ensures fits { CommitFits schema.now self.new }
        ensures there { NamesRecord schema.now result.refused }
        ensures attempt { IsOfAttempt self.old self.new }
    {
        let read = &self.reads.as_slice()[done];
        let rec = read.rec;
        let record = &words.records[rec as usize];
        let refused = record.conflict(rec, read.seen, record.is_held_by_other(self.item.worker));
        self.part = match refused {
            None => Part::Validating { done: done + 1 },
            Some(_) => Part::Refusing {
                closed: 0,
                held: self.item.writes.len(),
            },
        };
        Moved::by(
            Act::Validate {
                rec,
                word: record.word(),
            },
            refused,
        )
    }

    /// Stores the next cell of a write, or closes its record under the new stamp.
    pub fn store(
        &mut self,
        words: &mut Words,
        layout: &Layout,
        schema: &Schema,
        closed: usize,
        stored: u32,
    ) -> Moved
        requires layout { layout.now ≡ sizes_of schema.now }
        requires fits { CommitFits schema.now self.old }
        requires records { RecordsFit schema.now words.old.records.items }
        requires part { self.old.part ≡ Part.Storing closed stored }
        requires more { closed < length self.old.item.writes }
        ensures act { IsCommitAct schema.now self.old self.new words.old words.new result }
        ensures fits { CommitFits schema.now self.new }
        ensures there { NamesRecord schema.now result.refused }
        ensures attempt { IsOfAttempt self.old self.new }
        ensures records { RecordsFit schema.now words.new.records.items }
    {
        let write = &self.item.writes.as_slice()[closed];
        let rec = layout.record(write.table, write.key);
        let record = &mut words.records[rec as usize];
        if stored <= schema.columns(write.table) {
            let value = cell_of(write, stored);
            record.cells.set(stored, value);
            self.part = Part::Storing {
                closed,
                stored: stored + 1,
            };
            return Moved::by(
                Act::ColumnStore {
                    rec,
                    column: stored,
                    value,
                },
                None,
            );
        }
        let stamp = pack(self.item.stamp);
        record.stamp = stamp;
        record.holder = None;
        self.part = Part::Storing {
            closed: closed + 1,
            stored: 0,
        };
        Moved::by(
            Act::Close {
                rec,
                word: word_of(stamp),
            },
            None,
        )
    }

    /// Lets go of the next lock, and leaves the record as it was.
    pub fn release(
        &mut self,
        words: &mut Words,
        layout: &Layout,
        schema: &Schema,
        closed: usize,
        held: usize,
    ) -> Moved
        requires layout { layout.now ≡ sizes_of schema.now }
        requires fits { CommitFits schema.now self.old }
        requires records { RecordsFit schema.now words.old.records.items }
        requires part { self.old.part ≡ Part.Refusing closed held }
        requires more { closed < held }
        ensures act { IsCommitAct schema.now self.old self.new words.old words.new result }
        ensures fits { CommitFits schema.now self.new }
        ensures there { NamesRecord schema.now result.refused }
        ensures attempt { IsOfAttempt self.old self.new }
        ensures records { RecordsFit schema.now words.new.records.items }
    {
        let write = &self.item.writes.as_slice()[closed];
        let rec = layout.record(write.table, write.key);
        let record = &mut words.records[rec as usize];
        record.holder = None;
        let word = word_of(record.stamp);
        self.part = Part::Refusing {
            closed: closed + 1,
            held,
        };
        Moved::by(Act::Close { rec, word }, None)
    }

    /// Makes the next act.
    pub fn act(&mut self, words: &mut Words, layout: &Layout, schema: &Schema) -> Moved
        requires layout { layout.now ≡ sizes_of schema.now }
        requires fits { CommitFits schema.now self.old }
        requires more { HasMore self.old self.old.part }
        requires records { RecordsFit schema.now words.old.records.items }
        requires next { words.old.next < 2 ^ 40 - 1 }
        ensures act { IsCommitAct schema.now self.old self.new words.old words.new result }
        ensures fits { CommitFits schema.now self.new }
        ensures there { NamesRecord schema.now result.refused }
        ensures attempt { IsOfAttempt self.old self.new }
        ensures records { RecordsFit schema.now words.new.records.items }
    {
        match self.part {
            Part::Locking { held } if held < self.item.writes.len() => {
                self.lock(words, layout, schema, held)
            }
            Part::Locking { .. } => self.draw(words, schema),
            Part::Validating { done } => self.validate(words, schema, done),
            Part::Storing { closed, stored } => self.store(words, layout, schema, closed, stored),
            Part::Refusing { closed, held } => self.release(words, layout, schema, closed, held),
        }
    }

    /// Decides the attempt, where it has validated all that it read.
    pub fn decide(&mut self)
        ensures { self.new ≡ decided self.old }
    {
        if let Part::Validating { done } = self.part {
            if done == self.reads.len() {
                self.part = Part::Storing {
                    closed: 0,
                    stored: 0,
                };
            }
        }
    }

    /// Whether nothing is left to do.
    pub fn is_over(&self) -> bool
        ensures { result ≡ is_over self.now self.now.part }
    {
        match self.part {
            Part::Storing { closed, .. } => closed == self.item.writes.len(),
            Part::Refusing { closed, held } => closed == held,
            _ => false,
        }
    }

    /// Whether it is decided.
    pub fn is_decided(&self) -> bool
        ensures { result ≡ is_storing self.now.part }
    {
        matches!(self.part, Part::Storing { .. })
    }
}

/// One cell of the row that a write makes: presence, or a column, which is 0 where it makes none.
fn cell_of(write: &Write, at: u32) -> u64
    ensures { (columns : ℕ) → RowHas columns write.now.row → at ≤ columns
        → result ≡ get_or (cells_of columns write.now.row) at 0 }
{
    match &write.row {
        None => 0,
        Some(_) if at == 0 => 1,
        Some(row) => row.column_or_zero(at - 1),
    }
}
