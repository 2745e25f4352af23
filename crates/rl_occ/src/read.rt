//! The reads of an attempt, in the order in which its transaction wants them.

ghost use Rattle.std.specs.Prelude.{◌≡◌, ◌<◌, List, IfOk, IfErr};
ghost use Rattle.rl_value.specs.Tables.{Table};
ghost use Rattle.rl_tables.specs.Numbers.{sizes_of};
ghost use Rattle.rl_txn.specs.Fits.{TxnFits};
ghost use Rattle.rl_txn.specs.Eval.{Awaits, HasEnded, IsEval, WantsFit, awaited, rows_given, reads_room};
ghost use Rattle.rl_txn.specs.declared.eval.Wants.{Wants};
ghost use Rattle.rl_txn.specs.declared.op.Op.{Op};
ghost use Rattle.rl_store.specs.Refusals.{why};
ghost use Rattle.rl_store.specs.Views.{refused};
ghost use Rattle.smallvec.specs.SmallVec.{HasRoomFor};
ghost use Rattle.rl_occ.specs.Fits.{IsStoreOf};
ghost use Rattle.rl_occ.specs.Reading.{HasRead, RefusesSome, SameButAttempt};

use crate::sets::Seen;
use rl_base::refusal::Refusal;
use rl_store::pass::Pass;
use rl_store::store::Store;
use rl_tables::layout::Layout;
use rl_txn::eval::{Eval, Wants};
use rl_txn::op::Txn;
use rl_value::schema::Schema;
use smallvec::SmallVec;

/// Runs the transaction to its end: reads what it wants, and stops at the first refusal, which ends the attempt.
pub fn run_on(
    store: &Store,
    layout: &Layout,
    schema: &Schema,
    txn: &Txn,
    pass: &mut Pass,
    eval: &mut Eval,
    seen: &mut SmallVec<Seen, 8>,
) -> Result<(), Refusal>
    requires fits { TxnFits schema.now txn.now }
    requires layout { layout.now ≡ sizes_of schema.now }
    requires store { IsStoreOf store.now.made schema.now }
    requires table { pass.old.table ≡ store.now.table }
    requires eval { IsEval schema.now txn.now eval.old }
    requires read { HasRead schema.now pass.old.view (rows_given eval.old) seen.old.items }
    requires room { HasRoomFor seen.old (reads_room eval.old) }
    ensures table { pass.new.table ≡ pass.old.table }
    ensures ended { IfOk result (λ _. HasEnded eval.new) }
    ensures eval { IfOk result (λ _. IsEval schema.now txn.now eval.new) }
    ensures read { IfOk result (λ _. HasRead schema.now pass.new.view (rows_given eval.new) seen.new.items) }
    ensures same { IfOk result (λ _. SameButAttempt pass.old.view pass.new.view) }
    ensures refused { IfErr result (λ refusal. pass.new.view ≡ refused pass.old.view (why refusal)) }
    ensures cause { IfErr result (RefusesSome schema.now) }
{
    loop {
        let Wants::Read { table, key } = eval.advance(schema, txn) else {
            return Ok(());
        };
        read_one(store, layout, schema, pass, eval, seen, table, key)?;
    }
}

/// Reads the wanted record, and gives its row to the evaluation.
fn read_one(
    store: &Store,
    layout: &Layout,
    schema: &Schema,
    pass: &mut Pass,
    eval: &mut Eval,
    seen: &mut SmallVec<Seen, 8>,
    table: u32,
    key: u32,
) -> Result<(), Refusal>
    requires layout { layout.now ≡ sizes_of schema.now }
    requires store { IsStoreOf store.now.made schema.now }
    requires table { pass.old.table ≡ store.now.table }
    requires read { HasRead schema.now pass.old.view (rows_given eval.old) seen.old.items }
    requires room { HasRoomFor seen.old (reads_room eval.old) }
    requires awaits { Awaits eval.old }
    requires wants { awaited eval.old ≡ (table, key) }
    requires there { WantsFit schema.now (Wants.Read table key) }
    ensures table { pass.new.table ≡ pass.old.table }
    ensures eval { (tables : List Table) (txn : List Op) → IsEval tables txn eval.old → IsEval tables txn eval.new }
    ensures less { IfOk result (λ _. reads_room eval.new < reads_room eval.old) }
    ensures room { IfOk result (λ _. HasRoomFor seen.new (reads_room eval.new)) }
    ensures read { IfOk result (λ _. HasRead schema.now pass.new.view (rows_given eval.new) seen.new.items) }
    ensures same { IfOk result (λ _. SameButAttempt pass.old.view pass.new.view) }
    ensures refused { IfErr result (λ refusal. pass.new.view ≡ refused pass.old.view (why refusal)) }
    ensures cause { IfErr result (RefusesSome schema.now) }
{
    let rec = layout.record(table, key);
    let observed = store.observe(pass, rec)?;
    seen.push_reserved(Seen {
        rec,
        word: observed.word,
    });
    eval.give(observed.row);
    Ok(())
}
