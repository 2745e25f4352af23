//! An attempt of one transaction on one pass.

ghost use Rattle.std.specs.Prelude.{◌≡◌, length, IfOk, IfErr};
ghost use Rattle.rl_tables.specs.Numbers.{sizes_of};
ghost use Rattle.rl_txn.specs.Fits.{TxnFits};
ghost use Rattle.rl_store.specs.Refusals.{why};
ghost use Rattle.rl_store.specs.Views.{IsAtRest, refused, rested};
ghost use Rattle.rl_occ.specs.declared.attempt.Phase.{Phase};
ghost use Rattle.rl_occ.specs.Attempts.{CommitFails, HaltsAs, StopsAs, IsCommitted, RefusesOther, gone_on};
ghost use Rattle.rl_occ.specs.Fits.{IsStoreOf};
ghost use Rattle.rl_occ.specs.Locking.{AreBelow};
ghost use Rattle.rl_occ.specs.Outcomes.{HasRefused, IsStopped};
ghost use Rattle.rl_occ.specs.Reading.{RefusesSome, SameButAttempt};

use crate::commit::finish;
use crate::lock::lock_all;
use crate::outcome::{CommitError, Decided, Halt, Halted};
use crate::read::run_on;
use crate::release::release;
use crate::sets::{Lock, Seen};
use rl_base::memory::Memory;
use rl_base::refusal::Refusal;
use rl_base::stamp::Stamp;
use rl_store::pass::Pass;
use rl_store::spent::DrawStop;
use rl_store::store::Store;
use rl_tables::laws::records_and_places;
use rl_tables::layout::Layout;
use rl_txn::eval::Eval;
use rl_txn::laws::answers;
use rl_txn::op::Txn;
use rl_txn::write::{Reply, Writes};
use rl_value::schema::Schema;
use smallvec::SmallVec;
use std::alloc::Global;
use std::marker::Model;
use std::mem;

/// How far an attempt has come.
#[derive(Clone, Copy, Debug, PartialEq, Eq)]
pub enum Phase {
    /// It has begun.
    Begun,
    /// Its transaction has run to its end.
    Executed,
    /// It holds the records of all its writes.
    Locked,
    /// It was refused.
    Stopped,
}

/// What an attempt has at hand in each phase.
#[derive(Drop)]
enum Work {
    Begun(Eval),
    Executed(Reply, Writes),
    Locked(Reply, Writes),
    Stopped,
}

/// An attempt to commit one transaction: `execute`, `lock` and `commit` in this order, and after a refusal `abandon`
/// alone. All its memory is taken at the beginning.
#[derive(Drop)]
pub struct Attempt<'a> {
    store: &'a Store,
    layout: &'a Layout,
    schema: &'a Schema,
    txn: &'a Txn,
    pass: Pass,
    work: Work,
    seen: SmallVec<Seen, 8>,
    locks: SmallVec<Lock, 8>,
}

impl<'a> Model for Attempt<'a> {
    ghost use Rattle.rl_occ.specs.Attempts.{AttemptOf};
    ghost use Rattle.rl_occ.specs.Working.{AttemptFits, WorkFits, phase_of};

    ghost Value = { AttemptOf };

    ghost view = { λ a. record { store = a.store.now; tables = a.schema.now; txn = a.txn.now; view = a.pass.view; phase = phase_of a.work } };

    ghost invariant = { λ a. AttemptFits a.store.now a.layout.now a.schema.now a.txn.now a.pass × WorkFits a.schema.now a.txn.now a.store.now.made a.pass.view a.seen a.locks a.work };
}

impl<'a> Attempt<'a> {
    /// Begins an attempt on a pass at rest. After `Memory` the pass comes back.
    pub fn begin(
        alloc: Global,
        store: &'a Store,
        layout: &'a Layout,
        schema: &'a Schema,
        txn: &'a Txn,
        pass: Pass,
    ) -> Result<Attempt<'a>, (Pass, Memory)>
        requires layout { layout.now ≡ sizes_of schema.now }
        requires store { IsStoreOf store.now.made schema.now }
        requires fits { TxnFits schema.now txn.now }
        requires table { pass.table ≡ store.now.table }
        requires rest { IsAtRest pass.view }
        ensures begun { IfOk result (λ attempt. attempt ≡ record { store = store.now; tables = schema.now; txn = txn.now; view = pass.view; phase = Phase.Begun }) }
        ensures back { IfErr result (λ back. back.0 ≡ pass) }
    {
        let Ok(eval) = Eval::start(alloc, schema, txn) else {
            return Err((pass, Memory));
        };
        let Ok(seen) = SmallVec::with_capacity(alloc, eval.room()) else {
            return Err((pass, Memory));
        };
        let Ok(locks) = SmallVec::with_capacity(alloc, txn.len()) else {
            return Err((pass, Memory));
        };
        Ok(Attempt {
            store,
            layout,
            schema,
            txn,
            pass,
            work: Work::Begun(eval),
            seen,
            locks,
        })
    }

    /// Runs the transaction to its end, and reads what it wants. A refusal ends the attempt.
    pub fn execute(&mut self) -> Result<(), Refusal>
        requires begun { self.old.phase ≡ Phase.Begun }
        ensures executed { IfOk result (λ _. self.new ≡ gone_on self.old self.new.view Phase.Executed) }
        ensures same { IfOk result (λ _. SameButAttempt self.old.view self.new.view) }
        ensures refused { IfErr result (λ refusal. self.new ≡ gone_on self.old (refused self.old.view (why refusal)) Phase.Stopped) }
        ensures cause { IfErr result (RefusesSome self.old.tables) }
    {
        // For the proof alone: the laws of transactions and of record numbers.
        answers();
        records_and_places();
        let Work::Begun(mut eval) = mem::replace(&mut self.work, Work::Stopped) else {
            unreachable!()
        };
        run_on(
            self.store,
            self.layout,
            self.schema,
            self.txn,
            &mut self.pass,
            &mut eval,
            &mut self.seen,
        )?;
        let (reply, writes) = eval.finish();
        self.work = Work::Executed(reply, writes);
        Ok(())
    }

    /// Locks the records of all writes. A refusal gives the attempt up, or ends it where it holds nothing yet.
    pub fn lock(&mut self) -> Result<(), Refusal>
        requires executed { self.old.phase ≡ Phase.Executed }
        ensures locked { IfOk result (λ _. self.new ≡ gone_on self.old self.new.view Phase.Locked) }
        ensures same { IfOk result (λ _. SameButAttempt self.old.view self.new.view) }
        ensures reads { IfOk result (λ _. self.new.view.attempt.reads ≡ self.old.view.attempt.reads) }
        ensures stopped { IfErr result (λ _. self.new ≡ gone_on self.old self.new.view Phase.Stopped) }
        ensures refused { IfErr result (λ refusal. HasRefused self.old.view self.new.view (why refusal)) }
        ensures tries { IfErr result (λ _. (self.new.view.tries ≡ self.old.view.tries) × (self.new.view.draws ≡ self.old.view.draws)) }
        ensures cause { IfErr result (λ refusal. RefusesOther self.new.view refusal) }
    {
        let Work::Executed(reply, writes) = mem::replace(&mut self.work, Work::Stopped) else {
            unreachable!()
        };
        lock_all(
            self.store,
            self.layout,
            self.schema,
            &mut self.pass,
            &writes,
            &mut self.locks,
        )?;
        self.work = Work::Locked(reply, writes);
        Ok(())
    }

    /// Ends the attempt: it lets go what it holds, and the pass is at rest.
    pub fn abandon(self) -> Pass
        ensures table { result.table ≡ self.entry.store.table }
        ensures rested { result.view ≡ rested self.entry.view }
    {
        let Attempt {
            store,
            layout: _,
            schema: _,
            txn: _,
            mut pass,
            work: _,
            seen: _,
            locks,
        } = self;
        release(store, &mut pass, locks.as_slice());
        pass
    }

    /// Draws a stamp, validates the reads and installs the writes. The pass is then at rest, and no lock is held. It is
    /// refused where a record that it read is locked by another or has another stamp; `TriesSpent` exactly where the
    /// pass has no try left.
    pub fn commit(self) -> (Pass, Result<Decided, CommitError>)
        requires locked { self.phase ≡ Phase.Locked }
        ensures table { result.0.table ≡ self.entry.store.table }
        ensures decided { IfOk result.1 (λ decided. IsCommitted self.entry result.0.view decided) }
        ensures failed { IfErr result.1 (λ error. CommitFails self.entry result.0.view error) }
    {
        let Attempt {
            store,
            layout,
            schema,
            txn: _,
            mut pass,
            work,
            seen,
            locks,
        } = self;
        let Work::Locked(reply, writes) = work else {
            unreachable!()
        };
        let Ok(seq) = store.draw(&mut pass) else {
            release(store, &mut pass, locks.as_slice());
            return (pass, Err(CommitError::TriesSpent));
        };
        let finished = finish(
            store,
            layout,
            schema,
            &mut pass,
            seq,
            &writes,
            seen.as_slice(),
            locks.as_slice(),
        );
        match finished {
            Ok(()) => (pass, Ok(decided(store, seq, reply, writes))),
            Err(refusal) => (pass, Err(CommitError::Refused(refusal))),
        }
    }

    /// As `commit`, where no seq above the limit may be drawn: such a seq stops the attempt, which then keeps its locks.
    pub fn commit_below(self, limit: u64) -> (Halt, Result<Decided, CommitError>)
        requires locked { self.phase ≡ Phase.Locked }
        ensures { HaltsAs limit self.entry result.0 result.1 }
    {
        let Attempt {
            store,
            layout,
            schema,
            txn: _,
            mut pass,
            work,
            seen,
            locks,
        } = self;
        let Work::Locked(reply, writes) = work else {
            unreachable!()
        };
        let seq = match store.draw_below(&mut pass, limit) {
            Ok(seq) => seq,
            Err(stop) => {
                let (halt, error) = stopped(store, pass, locks, stop);
                return (halt, Err(error));
            }
        };
        let finished = finish(
            store,
            layout,
            schema,
            &mut pass,
            seq,
            &writes,
            seen.as_slice(),
            locks.as_slice(),
        );
        match finished {
            Ok(()) => (Halt::Free(pass), Ok(decided(store, seq, reply, writes))),
            Err(refusal) => (Halt::Free(pass), Err(CommitError::Refused(refusal))),
        }
    }
}

/// What was decided under a seq of the store's epoch.
fn decided(store: &Store, seq: u64, reply: Reply, writes: Writes) -> Decided
    ensures stamp { result.stamp ≡ record { epoch = store.now.made.epoch; seq = seq } }
    ensures run { (result.reply ≡ reply) × (result.writes ≡ writes) }
{
    let epoch = store.epoch();
    Decided {
        stamp: Stamp { epoch, seq },
        reply,
        writes,
    }
}

/// The pass of an attempt that was stopped at its draw, and the cause. Without tries it lets go what it holds.
fn stopped(
    store: &Store,
    pass: Pass,
    locks: SmallVec<Lock, 8>,
    stop: DrawStop,
) -> (Halt, CommitError)
    requires table { pass.table ≡ store.now.table }
    requires stopped { IsStopped pass.view locks.items }
    requires records { AreBelow (length store.now.made.columns) locks.items }
    ensures { StopsAs pass locks.items stop result.0 result.1 }
{
    let mut pass = pass;
    match stop {
        DrawStop::TriesSpent => {
            release(store, &mut pass, locks.as_slice());
            (Halt::Free(pass), CommitError::TriesSpent)
        }
        DrawStop::Above { seq } => {
            let error = CommitError::Above { seq };
            if locks.is_empty() {
                (Halt::Free(pass), error)
            } else {
                (Halt::Held(Halted::of(pass, locks)), error)
            }
        }
    }
}
