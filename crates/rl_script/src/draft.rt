//! What the lines of a script say so far.

ghost use Rattle.std.specs.Prelude.{◌≡◌, ◌≤◌, ◌<◌, [], ◌∷◌, All, MatchResult, None, Ok, Err, IfOk, OnOk, true, false, length, map, vec_len};
ghost use Rattle.rl_value.specs.Names.{is_name};
ghost use Rattle.rl_text.specs.Numbers.{IsNumber};
ghost use Rattle.rl_events.specs.Words.{number};
ghost use Rattle.rl_script.specs.Answers.{Fails};
ghost use Rattle.rl_script.specs.Problems.{as_problem};
ghost use Rattle.rl_script.specs.Drafts.{DraftFits};
ghost use Rattle.rl_script.specs.Sections.{is_before_requests, is_events, is_settings};
ghost use Rattle.rl_script.specs.Operations.{each_word};
ghost use Rattle.rl_script.specs.Read.{with_table, row_joined, txn_ended, in_order, read_kind, read_words, read_line, opening_draft};

use crate::fault::LineError;
use crate::line::{LineKind, OpWord, line_kind};
use crate::operation::{read_op, table_for};
use crate::requests::RequestLists;
use crate::schedule::Schedule;
use crate::settings::{SettingWord, Settings};
use rl_base::limit::{LimitName, OPS, RECORDS, REQUESTS, TABLES};
use rl_base::memory::Memory;
use rl_events::kind::Kind;
use rl_events::line::{EventWord, read_event};
use rl_events::word::{number, within};
use rl_text::text::{printable, words};
use rl_txn::op::Txn;
use rl_value::map::Map;
use rl_value::name::is_name;
use rl_value::row::Row;
use rl_value::schema::{DeclareError, Schema};
use std::alloc::Global;

/// Which part of a script the last line belongs to.
#[derive(Clone, Copy, Debug, PartialEq, Eq)]
pub enum Section {
    Settings,
    Tables,
    Transactions,
    Events,
}

/// A transaction whose `end` has not come yet.
#[derive(Drop)]
pub struct OpenTxn {
    pub worker: u32,
    pub txn: Txn,
}

/// What the lines so far say.
#[derive(Drop)]
pub struct Draft {
    pub section: Section,
    pub settings: Settings,
    pub schema: Schema,
    pub rows: Map,
    pub lists: RequestLists,
    pub current: Option<OpenTxn>,
    pub events: Schedule,
}

/// The numbers that some words are.
#[tactic(auto, using(crate::proofs::Each::each))]
fn numbers(alloc: Global, words: &[&str]) -> Result<Vec<u64>, LineError>
    ensures numbers { MatchResult result
        (λ numbers. each_word number (map (λ w. w.now) words.now) ≡ Ok numbers.items)
        (λ e. Fails e (as_problem (each_word number (map (λ w. w.now) words.now)))) }
    ensures count { IfOk result (λ numbers. vec_len numbers ≡ length words.now) }
    ensures each { IfOk result (λ numbers. All IsNumber numbers.items) }
{
    let mut numbers = Vec::new(alloc);
    for word in words {
        match number(word) {
            Ok(n) => numbers.push(n)?,
            Err(kind) => return Err(kind.into()),
        }
    }
    Ok(numbers)
}

impl Draft {
    /// Nothing is declared yet, and each list is empty.
    pub fn new(alloc: Global) -> Result<Draft, Memory>
        ensures opening { IfOk result (λ draft. draft ≡ opening_draft) }
        ensures fits { IfOk result (λ draft. DraftFits draft) }
    {
        Ok(Draft {
            section: Section::Settings,
            settings: Settings::new(alloc),
            schema: Schema::new(alloc),
            rows: Map::new(alloc),
            lists: RequestLists::empty(alloc, 1)?,
            current: None,
            events: Schedule::new(alloc),
        })
    }

    /// A setting: each worker has an empty list.
    fn setting(&mut self, alloc: Global, word: SettingWord, value: &str) -> Result<(), LineError>
        requires fits { DraftFits self.old }
        requires first { is_settings self.old.section ≡ true }
        ensures setting { MatchResult result
            (λ _. read_kind self.old (LineKind.Setting word) (value.now ∷ []) ≡ Ok self.new)
            (λ e. Fails e (read_kind self.old (LineKind.Setting word) (value.now ∷ []))) }
        ensures fits { IfOk result (λ _. DraftFits self.new) }
    {
        self.settings.set(word, value)?;
        self.lists = RequestLists::empty(alloc, self.settings.workers())?;
        Ok(())
    }

    /// A new table joins the others.
    fn join(&mut self, alloc: Global, name: &str, size: u32, columns: u32) -> Result<(), LineError>
        requires name { is_name name.now ≡ true }
        requires some_keys { 1 ≤ size }
        requires few_keys { size ≤ RECORDS }
        requires some_columns { 1 ≤ columns }
        requires few_columns { columns ≤ 4 }
        requires fits { DraftFits self.old }
        requires first { is_before_requests self.old.section ≡ true }
        ensures joined { MatchResult result
            (λ _. with_table self.old (record { name = name.now; size = size; columns = columns }) ≡ Ok self.new)
            (λ e. Fails e (with_table self.old (record { name = name.now; size = size; columns = columns }))) }
        ensures fits { IfOk result (λ _. DraftFits self.new) }
    {
        self.section = Section::Tables;
        match self.schema.declare(alloc, name, size, columns) {
            Ok(_) => Ok(()),
            Err(DeclareError::DuplicateTable) => Err(Kind::Duplicate.into()),
            Err(DeclareError::TooManyTables) => Err(LineError::limit(LimitName::Tables, TABLES)),
            Err(DeclareError::TooManyRecords) => Err(LineError::limit(LimitName::Records, RECORDS)),
            Err(DeclareError::Memory) => Err(LineError::Memory),
        }
    }

    /// `table NAME SIZE COLUMNS`
    #[tactic(auto, unfolding(crate::specs::Read::read_table))]
    fn table(
        &mut self,
        alloc: Global,
        name: &str,
        size: &str,
        columns: &str,
    ) -> Result<(), LineError>
        requires fits { DraftFits self.old }
        requires first { is_before_requests self.old.section ≡ true }
        ensures declared { MatchResult result
            (λ _. read_kind self.old LineKind.Table (name.now ∷ size.now ∷ columns.now ∷ []) ≡ Ok self.new)
            (λ e. Fails e (read_kind self.old LineKind.Table (name.now ∷ size.now ∷ columns.now ∷ []))) }
        ensures fits { IfOk result (λ _. DraftFits self.new) }
    {
        if !is_name(name) {
            return Err(Kind::Name.into());
        }
        let size = within(1, RECORDS, size)?;
        let columns = within(1, 4, columns)?;
        self.join(alloc, name, size, columns)
    }

    /// `row NAME KEY C0` up to the last column
    #[tactic(auto, unfolding(crate::specs::Read::row_joined))]
    fn row(&mut self, alloc: Global, name: &str, key: &str, cells: &[&str]) -> Result<(), LineError>
        requires fits { DraftFits self.old }
        requires first { is_before_requests self.old.section ≡ true }
        ensures row { MatchResult result
            (λ _. row_joined self.old name.now key.now (map (λ w. w.now) cells.now) ≡ Ok self.new)
            (λ e. Fails e (row_joined self.old name.now key.now (map (λ w. w.now) cells.now))) }
        ensures fits { IfOk result (λ _. DraftFits self.new) }
    {
        let t = table_for(&self.schema, name, cells.len())?;
        let key = within(0, self.schema.size(t) - 1, key)?;
        let cells = numbers(alloc, cells)?;
        if self.rows.get(t, key).is_some() {
            return Err(Kind::Duplicate.into());
        }
        self.section = Section::Tables;
        self.rows.put(t, key, Row::from_slice(cells.as_slice()))?;
        Ok(())
    }

    /// `txn W`
    fn begin(&mut self, alloc: Global, worker: &str) -> Result<(), LineError>
        requires fits { DraftFits self.old }
        requires rest { self.old.current ≡ None }
        requires no_events { is_events self.old.section ≡ false }
        ensures begun { MatchResult result
            (λ _. read_kind self.old LineKind.Txn (worker.now ∷ []) ≡ Ok self.new)
            (λ e. Fails e (read_kind self.old LineKind.Txn (worker.now ∷ []))) }
        ensures fits { IfOk result (λ _. DraftFits self.new) }
    {
        let worker = within(1, self.lists.workers() as u32, worker)?;
        if self.lists.are_full() {
            return Err(LineError::limit(LimitName::Requests, REQUESTS));
        }
        self.section = Section::Transactions;
        self.current = Some(OpenTxn {
            worker,
            txn: Txn::new(alloc),
        });
        Ok(())
    }

    /// `end`
    fn end(&mut self) -> Result<(), Memory>
        requires fits { DraftFits self.old }
        ensures ended { OnOk result (self.new ≡ txn_ended self.old) }
        ensures fits { OnOk result (DraftFits self.new) }
    {
        let Some(OpenTxn { worker, txn }) = self.current.take() else {
            return Ok(());
        };
        self.lists.push(worker, txn)?;
        Ok(())
    }

    /// The line of an op.
    fn op(&mut self, alloc: Global, word: OpWord, words: &[&str]) -> Result<(), LineError>
        requires fits { DraftFits self.old }
        ensures op { MatchResult result
            (λ _. read_kind self.old (LineKind.Op word) (map (λ w. w.now) words.now) ≡ Ok self.new)
            (λ e. Fails e (read_kind self.old (LineKind.Op word) (map (λ w. w.now) words.now))) }
        ensures fits { IfOk result (λ _. DraftFits self.new) }
    {
        let op = read_op(alloc, &self.schema, word, words)?;
        let Some(OpenTxn { worker, mut txn }) = self.current.take() else {
            return Err(Kind::Order.into());
        };
        if txn.len() == OPS as usize {
            return Err(LineError::limit(LimitName::Ops, OPS));
        }
        txn.push(op)?;
        self.current = Some(OpenTxn { worker, txn });
        Ok(())
    }

    /// `events`
    fn begin_events(&mut self)
        requires fits { DraftFits self.old }
        ensures events { self.new ≡ record self.old { section = Section.Events } }
        ensures fits { DraftFits self.new }
    {
        self.section = Section::Events;
    }

    /// The line of an event.
    fn event(&mut self, word: EventWord, words: &[&str]) -> Result<(), LineError>
        requires fits { DraftFits self.old }
        requires last { is_events self.old.section ≡ true }
        ensures event { MatchResult result
            (λ _. read_kind self.old (LineKind.Event word) (map (λ w. w.now) words.now) ≡ Ok self.new)
            (λ e. Fails e (read_kind self.old (LineKind.Event word) (map (λ w. w.now) words.now))) }
        ensures fits { IfOk result (λ _. DraftFits self.new) }
    {
        let nodes = self.settings.nodes();
        let event = read_event(word, words, nodes, self.settings.workers())?;
        self.events.push(event)
    }

    /// Whether a line of a kind can stand here.
    fn takes(&self, kind: LineKind) -> bool
        ensures { result ≡ in_order self.now kind }
    {
        let section = self.section;
        match kind {
            LineKind::Setting(_) => section == Section::Settings,
            LineKind::Table | LineKind::Row => {
                section == Section::Settings || section == Section::Tables
            }
            LineKind::Txn | LineKind::Events => {
                self.current.is_none() && section != Section::Events
            }
            LineKind::End | LineKind::Op(_) => self.current.is_some(),
            LineKind::Event(_) => section == Section::Events,
        }
    }

    /// A line of a kind that can stand here, without its first word.
    fn kind(&mut self, alloc: Global, kind: LineKind, words: &[&str]) -> Result<(), LineError>
        requires fits { DraftFits self.old }
        requires order { in_order self.old kind ≡ true }
        ensures kind { MatchResult result
            (λ _. read_kind self.old kind (map (λ w. w.now) words.now) ≡ Ok self.new)
            (λ e. Fails e (read_kind self.old kind (map (λ w. w.now) words.now))) }
        ensures fits { IfOk result (λ _. DraftFits self.new) }
    {
        match kind {
            LineKind::Setting(word) => match words {
                [value] => self.setting(alloc, word, value),
                _ => Err(Kind::Count.into()),
            },
            LineKind::Table => match words {
                [name, size, columns] => self.table(alloc, name, size, columns),
                _ => Err(Kind::Count.into()),
            },
            LineKind::Row => match words {
                [name, key, cells @ ..] => self.row(alloc, name, key, cells),
                _ => Err(Kind::Count.into()),
            },
            LineKind::Txn => match words {
                [worker] => self.begin(alloc, worker),
                _ => Err(Kind::Count.into()),
            },
            LineKind::End => match words {
                [] => Ok(self.end()?),
                _ => Err(Kind::Count.into()),
            },
            LineKind::Op(word) => self.op(alloc, word, words),
            LineKind::Events => match words {
                [] => Ok(self.begin_events()),
                _ => Err(Kind::Count.into()),
            },
            LineKind::Event(word) => self.event(word, words),
        }
    }

    /// The words of a line.
    #[tactic(auto, unfolding(crate::specs::Read::read_words))]
    fn words(&mut self, alloc: Global, words: &[&str]) -> Result<(), LineError>
        requires fits { DraftFits self.old }
        ensures words { MatchResult result
            (λ _. read_words self.old (map (λ w. w.now) words.now) ≡ Ok self.new)
            (λ e. Fails e (read_words self.old (map (λ w. w.now) words.now))) }
        ensures fits { IfOk result (λ _. DraftFits self.new) }
    {
        let [first, rest @ ..] = words else {
            return Ok(());
        };
        if first.starts_with('#') {
            return Ok(());
        }
        match line_kind(self.section, first) {
            None => Err(Kind::Word.into()),
            Some(kind) if self.takes(kind) => self.kind(alloc, kind, rest),
            Some(_) => Err(Kind::Order.into()),
        }
    }

    /// A line after the first. After an error the draft is of no use.
    #[tactic(auto, unfolding(crate::specs::Read::read_line))]
    pub fn line(&mut self, alloc: Global, line: &[u8]) -> Result<(), LineError>
        requires fits { DraftFits self.old }
        ensures line { MatchResult result
            (λ _. read_line self.old line.now ≡ Ok self.new)
            (λ e. Fails e (read_line self.old line.now)) }
        ensures fits { IfOk result (λ _. DraftFits self.new) }
    {
        let Some(text) = printable(line) else {
            return Err(Kind::Byte.into());
        };
        let words = words(alloc, text)?;
        self.words(alloc, words.as_slice())
    }
}
