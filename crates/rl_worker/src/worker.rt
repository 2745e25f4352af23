//! One worker of an open leader.

ghost use Rattle.std.specs.Prelude.{◌≡◌, ℕ, List, [], ◌+◌, ◌-◌, ◌*◌, ◌^◌, ◌<◌, ◌≤◌, IfOk, OnOk, OnErr, IfSome, IfNone, IsErr, IsTrue, Some, None, true, false, length};
ghost use Rattle.std.specs.Option.{option_copied};
ghost use Rattle.std.specs.Result.{result_err};
ghost use Rattle.rl_base.specs.declared.limit.TheConstants.{REQUESTS};
ghost use Rattle.rl_value.specs.Rows.{Rows};
ghost use Rattle.rl_tables.specs.Numbers.{sizes_of};
ghost use Rattle.rl_value.specs.Tables.{Table};
ghost use Rattle.rl_txn.specs.Fits.{TxnFits, ListsFit};
ghost use Rattle.rl_txn.specs.Run.{run};
ghost use Rattle.rl_txn.specs.Eval.{HasEnded, IsEval, HasRows, rows_given};
ghost use Rattle.rl_txn.specs.Serial.{request};
ghost use Rattle.rl_txn.specs.declared.op.Op.{Op};
ghost use Rattle.rl_worker.specs.declared.commit.Commit.{Commit};
ghost use Rattle.rl_worker.specs.Phases.{asked, Rest, Setting};
ghost use Rattle.rl_worker.specs.Acts.{Core, resting, idle, step};
ghost use Rattle.rl_worker.specs.Opening.{outcome, setting_of};
ghost use Rattle.rl_worker.specs.Told.{NamesRecord};
ghost use Rattle.rl_worker.specs.Workers.{StageFits, stage_phase, phase_of_worker, WorkerFits, RecordsFit, Stands, number_of, epoch_of, next_of, decided_item, decided_at, is_resting, Steps, act_of_step};
ghost use Rattle.rl_worker.specs.Attempts.{IsAsking, IsAct, IsAttemptOf, HasBegun, is_reading, is_loaded, Confirms, ran_on, IsCommitting, Commits, ended_worker, IsActed};

use crate::act::{Act, Moved};
use crate::commit::{Commit, Part};
use crate::reading::Reading;
use crate::reads::Read;
use crate::words::Words;
use rl_base::memory::Memory;
use rl_base::refusal::Refusal;
use rl_base::stamp::Stamp;
use rl_tables::layout::Layout;
use rl_txn::eval::Wants;
use rl_txn::item::Item;
use rl_txn::op::{Lists, Txn};
use rl_value::schema::Schema;
use std::alloc::Global;
use std::mem;

/// What a worker is about.
#[derive(Drop)]
pub enum Stage {
    /// At rest.
    Resting,
    /// In an attempt that reads.
    Reading(Reading),
    /// In an attempt that commits.
    Committing(Commit),
}

/// A worker, which takes the requests of its list one after another. A refused attempt begins
/// anew.
#[derive(Drop)]
pub struct Worker {
    number: u32,
    epoch: u32,
    index: u32,
    stage: Stage,
}

impl Worker {
    /// At rest before a request of its list.
    pub fn new(worker: u32, epoch: u32, next: u32) -> Worker
        ensures number { number_of result ≡ worker }
        ensures epoch { epoch_of result ≡ epoch }
        ensures rests { (tables : List Table) → phase_of_worker tables result ≡ Rest next }
        ensures next { next_of result ≡ next }
        ensures undecided { decided_item result ≡ None }
        ensures fits { (tables : List Table) (lists : List (List (List Op)))
            → 1 ≤ worker → worker ≤ length lists → epoch < 2 ^ 20 → WorkerFits tables lists result }
    {
        Worker {
            number: worker,
            epoch,
            index: next,
            stage: Stage::Resting,
        }
    }

    /// Whether it is at rest. Then it stands before the request `next`, and no decided item is open.
    pub fn at_rest(&self) -> bool
        ensures rests { (tables : List Table) → result ≡ resting (phase_of_worker tables self.now) }
        ensures next { IsTrue result → (tables : List Table) → phase_of_worker tables self.now ≡ Rest (next_of self.now) }
        ensures undecided { IsTrue result → decided_item self.now ≡ None }
    {
        matches!(self.stage, Stage::Resting)
    }

    /// The index of the attempt's request, or at rest of the request to come.
    pub fn next(&self) -> u32
        ensures { result ≡ next_of self.now }
    {
        self.index
    }

    /// The decided item of an attempt that has not ended yet, if there is one: the one that it installs.
    pub fn decided(&self) -> Option<&Item>
        ensures { option_copied result ≡ decided_item self.now }
    {
        match &self.stage {
            Stage::Committing(commit) if commit.is_decided() => Some(&commit.item),
            _ => None,
        }
    }

    /// Draws a seq for a mark. It rests before and after.
    pub fn idle(&mut self, words: &mut Words) -> u64
        requires rests { (tables : List Table) → resting (phase_of_worker tables self.old) ≡ true }
        requires next { words.old.next < 2 ^ 40 - 1 }
        ensures drawn { result ≡ words.old.next }
        ensures same { self.new ≡ self.old }
        ensures words { words.new ≡ record words.old { next = words.old.next + 1 } }
        ensures idle { (tables : List Table) (core : Core) → Stands tables self.old words.old core
            → Stands tables self.new words.new (idle core (number_of self.old)) }
    {
        let seq = words.next;
        words.next += 1;
        seq
    }

    /// The request that it is at, if there is one.
    fn request<'a>(&self, lists: &'a Lists) -> Option<&'a Txn>
        requires first { 1 ≤ self.now.number }
        requires list { self.now.number ≤ length lists.now }
        ensures { option_copied result ≡ request lists.now self.now.number self.now.index }
    {
        if self.index == 0 {
            return None;
        }
        let list = lists.get(self.number as usize - 1);
        list.as_slice().get(self.index as usize - 1)
    }

    /// Runs the transaction on, up to the next record that it wants or to its end.
    fn run_on(&self, reading: Reading, layout: &Layout, schema: &Schema, txn: &Txn) -> Stage
        requires layout { layout.now ≡ sizes_of schema.now }
        requires txn { TxnFits schema.now txn.now }
        requires asking { IsAsking schema.now txn.now reading }
        requires epoch { self.now.epoch < 2 ^ 20 }
        ensures phase { stage_phase schema.now self.now.index result
            ≡ asked self.now.index reading.reads.0 (outcome schema.now txn.now reading.reads.0) }
        ensures fits { StageFits schema.now txn.now self.now result }
        ensures undecided { decided_at result ≡ None }
        ensures attempt { is_resting result ≡ false }
    {
        let mut reading = reading;
        match reading.eval.advance(schema, txn) {
            Wants::Read { table, key } => {
                reading.next = Read::of(layout.record(table, key));
                Stage::Reading(reading)
            }
            Wants::Ended(_) => Stage::Committing(self.commit(reading)),
        }
    }

    /// The commit of an attempt whose transaction has ended.
    fn commit(&self, reading: Reading) -> Commit
        requires { HasEnded reading.eval }
        ensures reads { result.reads ≡ reading.reads }
        ensures part { result.part ≡ Part.Locking 0 }
        ensures worker { result.item.worker ≡ self.now.number }
        ensures index { result.item.index ≡ self.now.index }
        ensures stamp { result.item.stamp ≡ record { epoch = self.now.epoch; seq = 0 } }
        ensures run { (tables : List Table) (txn : List Op) (rows : Rows)
            → IsEval tables txn reading.eval → HasRows (rows_given reading.eval) rows
            → (result.item.reply, result.item.writes) ≡ run tables txn rows }
    {
        let Reading {
            eval,
            reads,
            next: _,
            is_open: _,
        } = reading;
        let (reply, writes) = eval.finish();
        Commit {
            reads,
            item: Item {
                stamp: Stamp {
                    epoch: self.epoch,
                    seq: 0,
                },
                worker: self.number,
                index: self.index,
                reply,
                writes,
            },
            part: Part::Locking { held: 0 },
        }
    }

    /// Begins an attempt of a request where it rests, up to the first record that it wants or to its end. Room
    /// for all of the attempt is taken here; after `Memory` the worker is unchanged.
    fn begin(
        &mut self,
        alloc: Global,
        layout: &Layout,
        schema: &Schema,
        txn: &Txn,
    ) -> Result<(), Memory>
        requires layout { layout.now ≡ sizes_of schema.now }
        requires txn { TxnFits schema.now txn.now }
        requires fits { StageFits schema.now txn.now self.old self.old.stage }
        requires epoch { self.old.epoch < 2 ^ 20 }
        ensures begun { OnOk result (HasBegun schema.now txn.now self.old self.new) }
        ensures same { OnOk result (IsAttemptOf self.old self.new) }
        ensures fits { OnOk result (StageFits schema.now txn.now self.new self.new.stage) }
        ensures attempt { OnOk result (is_resting self.new.stage ≡ false) }
        ensures rests { IsErr result → is_resting self.old.stage ≡ true }
        ensures unchanged { OnErr result (self.new ≡ self.old) }
    {
        if !self.at_rest() {
            return Ok(());
        }
        self.start(alloc, layout, schema, txn)
    }

    /// Starts an attempt of a request, up to the first record that it wants or to its end. Apart from `begin`, since only
    /// here room on the stack is cleared for an attempt.
    fn start(
        &mut self,
        alloc: Global,
        layout: &Layout,
        schema: &Schema,
        txn: &Txn,
    ) -> Result<(), Memory>
        requires layout { layout.now ≡ sizes_of schema.now }
        requires txn { TxnFits schema.now txn.now }
        requires epoch { self.old.epoch < 2 ^ 20 }
        requires rests { is_resting self.old.stage ≡ true }
        ensures begun { OnOk result (HasBegun schema.now txn.now self.old self.new) }
        ensures same { OnOk result (IsAttemptOf self.old self.new) }
        ensures fits { OnOk result (StageFits schema.now txn.now self.new self.new.stage) }
        ensures attempt { OnOk result (is_resting self.new.stage ≡ false) }
        ensures unchanged { OnErr result (self.new ≡ self.old) }
    {
        let reading = Reading::start(alloc, schema, txn)?;
        self.stage = self.run_on(reading, layout, schema, txn);
        Ok(())
    }

    /// Loads, where the attempt reads.
    fn load(&mut self, words: &Words, schema: &Schema, txn: &Txn) -> Moved
        requires fits { StageFits schema.now txn.now self.old self.old.stage }
        requires records { RecordsFit schema.now words.now.records.items }
        requires reads { is_reading self.old.stage ≡ true }
        requires more { is_loaded self.old.stage words.now ≡ false }
        ensures act { (s : Setting) (w epoch : ℕ)
            → IsAct s w epoch (phase_of_worker schema.now self.old) (phase_of_worker schema.now self.new) words.now words.now result }
        ensures attempt { IsAttemptOf self.old self.new }
        ensures fits { StageFits schema.now txn.now self.new self.new.stage }
        ensures undecided { decided_item self.new ≡ None }
        ensures there { NamesRecord schema.now result.refused }
    {
        let Stage::Reading(reading) = &mut self.stage else {
            unreachable!()
        };
        let moved = reading.load(words, schema, txn);
        if moved.refused.is_some() {
            self.stage = Stage::Resting;
        }
        moved
    }

    /// Confirms the read of the wanted record, whose cells are all loaded, and runs on.
    fn confirm(&mut self, words: &Words, layout: &Layout, schema: &Schema, txn: &Txn) -> Moved
        requires layout { layout.now ≡ sizes_of schema.now }
        requires txn { TxnFits schema.now txn.now }
        requires fits { StageFits schema.now txn.now self.old self.old.stage }
        requires epoch { self.old.epoch < 2 ^ 20 }
        requires records { RecordsFit schema.now words.now.records.items }
        requires loaded { is_loaded self.old.stage words.now ≡ true }
        ensures act { Confirms schema.now txn.now self.old self.new words.now result }
        ensures attempt { IsAttemptOf self.old self.new }
        ensures fits { StageFits schema.now txn.now self.new self.new.stage }
        ensures undecided { decided_item self.new ≡ None }
        ensures there { NamesRecord schema.now result.refused }
    {
        let Stage::Reading(reading) = mem::replace(&mut self.stage, Stage::Resting) else {
            unreachable!()
        };
        let rec = reading.next.rec;
        let word = words.records[rec as usize].word();
        let (stage, refused) = self.after_confirm(
            reading.confirm(words, schema, txn),
            layout,
            schema,
            txn,
        );
        self.stage = stage;
        Moved::by(Act::Confirm { rec, word }, refused)
    }

    /// The stage after a read was confirmed or refused, and the refusal.
    fn after_confirm(
        &self,
        confirmed: Result<Reading, Refusal>,
        layout: &Layout,
        schema: &Schema,
        txn: &Txn,
    ) -> (Stage, Option<Refusal>)
        requires layout { layout.now ≡ sizes_of schema.now }
        requires txn { TxnFits schema.now txn.now }
        requires asking { IfOk confirmed (IsAsking schema.now txn.now) }
        requires epoch { self.now.epoch < 2 ^ 20 }
        ensures phase { stage_phase schema.now self.now.index result.0 ≡ ran_on schema.now txn.now self.now.index confirmed }
        ensures refused { result.1 ≡ result_err confirmed }
        ensures fits { StageFits schema.now txn.now self.now result.0 }
        ensures undecided { decided_at result.0 ≡ None }
    {
        match confirmed {
            Ok(reading) => (self.run_on(reading, layout, schema, txn), None),
            Err(refusal) => (Stage::Resting, Some(refusal)),
        }
    }

    /// Makes the next act of a commit, and ends the attempt where nothing is left to do.
    fn commit_on(&mut self, words: &mut Words, layout: &Layout, schema: &Schema) -> Moved
        requires layout { layout.now ≡ sizes_of schema.now }
        requires records { RecordsFit schema.now words.old.records.items }
        requires next { words.old.next < 2 ^ 40 - 1 }
        requires commits { IsCommitting schema.now self.old self.old.stage }
        requires index { self.old.index ≤ REQUESTS }
        ensures act { Commits schema.now self.old self.new words.old words.new result }
        ensures there { NamesRecord schema.now result.refused }
        ensures records { RecordsFit schema.now words.new.records.items }
    {
        let Stage::Committing(commit) = &mut self.stage else {
            unreachable!()
        };
        let mut moved = commit.act(words, layout, schema);
        commit.decide();
        if commit.is_over() {
            moved.ended = self.end();
        }
        moved
    }

    /// Ends the attempt, and answers its item if it was decided.
    fn end(&mut self) -> Option<Item>
        requires { self.old.index ≤ REQUESTS }
        ensures { (c : Commit) → self.old.stage ≡ Stage.Committing c
            → (self.new ≡ ended_worker self.old c) × (result ≡ decided_at self.old.stage) }
    {
        let Stage::Committing(commit) = mem::replace(&mut self.stage, Stage::Resting) else {
            return None;
        };
        if !commit.is_decided() {
            return None;
        }
        self.index += 1;
        Some(commit.item)
    }

    /// Makes the next act of an attempt of a request, and what follows it.
    fn act(&mut self, words: &mut Words, layout: &Layout, schema: &Schema, txn: &Txn) -> Moved
        requires layout { layout.now ≡ sizes_of schema.now }
        requires txn { TxnFits schema.now txn.now }
        requires fits { StageFits schema.now txn.now self.old self.old.stage }
        requires attempt { is_resting self.old.stage ≡ false }
        requires epoch { self.old.epoch < 2 ^ 20 }
        requires index { self.old.index ≤ REQUESTS }
        requires records { RecordsFit schema.now words.old.records.items }
        requires next { words.old.next < 2 ^ 40 - 1 }
        ensures acted { IsActed schema.now txn.now self.old self.new words.old words.new result }
        ensures there { NamesRecord schema.now result.refused }
        ensures records { RecordsFit schema.now words.new.records.items }
    {
        match &self.stage {
            Stage::Reading(reading) => {
                if reading.is_loaded(words) {
                    self.confirm(words, layout, schema, txn)
                } else {
                    self.load(words, schema, txn)
                }
            }
            Stage::Committing(_) => self.commit_on(words, layout, schema),
            Stage::Resting => unreachable!(),
        }
    }

    /// Makes one act. A step at rest begins the next request first, and does nothing where there is none.
    ///
    /// It takes memory at rest alone; after `Memory` the worker and the records are unchanged.
    pub fn step(
        &mut self,
        alloc: Global,
        words: &mut Words,
        layout: &Layout,
        schema: &Schema,
        lists: &Lists,
    ) -> Result<Moved, Memory>
        requires layout { layout.now ≡ sizes_of schema.now }
        requires lists { ListsFit schema.now lists.now }
        requires fits { WorkerFits schema.now lists.now self.old }
        requires records { RecordsFit schema.now words.old.records.items }
        requires next { words.old.next < 2 ^ 40 - 1 }
        ensures step { (core : Core) → Stands schema.now self.old words.old core
            → let setting = setting_of schema.now lists.now (epoch_of self.old) in
            let core_new = step setting core (number_of self.old) in
            IfOk result (λ told. Steps schema.now self.old self.new words.new told core core_new) }
        ensures act { (core : Core) → Stands schema.now self.old words.old core
            → let setting = setting_of schema.now lists.now (epoch_of self.old) in
            IfOk result (λ told. told.act ≡ act_of_step setting words.old.next core (number_of self.old)) }
        ensures there { IfOk result (λ told. NamesRecord schema.now told.refused) }
        ensures fits { IfOk result (λ _. WorkerFits schema.now lists.now self.new) }
        ensures records { IfOk result (λ _. RecordsFit schema.now words.new.records.items) }
        ensures at_rest { IsErr result → resting (phase_of_worker schema.now self.old) ≡ true }
        ensures unchanged { IsErr result → self.new ≡ self.old }
        ensures unchanged_words { IsErr result → words.new ≡ words.old }
    {
        let Some(txn) = self.request(lists) else {
            return Ok(Moved::by(Act::Rest, None));
        };
        self.begin(alloc, layout, schema, txn)?;
        Ok(self.act(words, layout, schema, txn))
    }
}
