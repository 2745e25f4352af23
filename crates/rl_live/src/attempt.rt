//! Attempts at a transaction, until one is decided.

ghost use Rattle.std.specs.Prelude.{◌≡◌, ◌<◌, IfOk, MatchOption};
ghost use Rattle.rl_tables.specs.Numbers.{sizes_of};
ghost use Rattle.rl_txn.specs.Fits.{TxnFits};
ghost use Rattle.rl_occ.specs.Fits.{IsStoreOf};
ghost use Rattle.rl_store.specs.Views.{IsAtRest};
ghost use Rattle.rl_live.specs.Attempts.{IsUndecided, HasDecided};

use crate::gate::{Gate, Point};
use rl_base::memory::Memory;
use rl_occ::attempt::Attempt;
use rl_occ::outcome::Decided;
use rl_store::pass::Pass;
use rl_store::store::Store;
use rl_tables::layout::Layout;
use rl_txn::op::Txn;
use rl_value::schema::Schema;
use std::alloc::Global;
use std::sync::Wait;
use std::thread;

/// One attempt on a pass with a try left. Nothing was decided where it was refused.
fn attempt<R: Wait, G: Gate>(
    rt: &R,
    alloc: Global,
    gate: &G,
    store: &Store,
    layout: &Layout,
    schema: &Schema,
    number: u32,
    txn: &Txn,
    pass: Pass,
) -> Result<(Pass, Option<Decided>), Memory>
    requires layout { layout.now ≡ sizes_of schema.now }
    requires store { IsStoreOf store.now.made schema.now }
    requires fits { TxnFits schema.now txn.now }
    requires table { pass.table ≡ store.now.table }
    requires rest { IsAtRest pass.view }
    requires left { 0 < pass.view.tries }
    ensures table { IfOk result (λ after. after.0.table ≡ store.now.table) }
    ensures after { IfOk result (λ after. MatchOption after.1
        (IsUndecided pass.view after.0.view)
        (HasDecided schema.now store.now.made.epoch txn.now pass.view after.0.view)) }
{
    gate.at(rt, number, Point::Begin);
    let Ok(mut attempt) = Attempt::begin(alloc, store, layout, schema, txn, pass) else {
        return Err(Memory);
    };
    let Ok(()) = attempt.execute() else {
        return Ok((attempt.abandon(), None));
    };
    let Ok(()) = attempt.lock() else {
        return Ok((attempt.abandon(), None));
    };
    gate.at(rt, number, Point::Locked);
    let (pass, committed) = attempt.commit();
    let Ok(decided) = committed else {
        return Ok((pass, None));
    };
    gate.at(rt, number, Point::Decided);
    Ok((pass, Some(decided)))
}

/// Attempts until one is decided. With no try left it stays here for ever.
pub(crate) fn decide<R: Wait, G: Gate>(
    rt: &R,
    alloc: Global,
    gate: &G,
    store: &Store,
    layout: &Layout,
    schema: &Schema,
    number: u32,
    txn: &Txn,
    pass: Pass,
) -> Result<(Pass, Decided), Memory>
    requires layout { layout.now ≡ sizes_of schema.now }
    requires store { IsStoreOf store.now.made schema.now }
    requires fits { TxnFits schema.now txn.now }
    requires table { pass.table ≡ store.now.table }
    requires rest { IsAtRest pass.view }
    ensures table { IfOk result (λ after. after.0.table ≡ store.now.table) }
    ensures decided { IfOk result (λ after. HasDecided schema.now store.now.made.epoch txn.now pass.view after.0.view after.1) }
{
    let mut pass = pass;
    for _ in rt.forever() {
        if pass.tries() > 0 {
            let (after, decided) = attempt(
                rt, alloc, gate, store, layout, schema, number, txn, pass,
            )?;
            pass = after;
            if let Some(decided) = decided {
                return Ok((pass, decided));
            }
        }
        thread::yield_now();
    }
    unreachable!()
}
