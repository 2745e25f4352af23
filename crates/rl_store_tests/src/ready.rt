//! Attempts up to their commit.

ghost use Rattle.std.specs.Prelude.{◌≡◌, IfOk};
ghost use Rattle.rl_tables.specs.Numbers.{sizes_of};
ghost use Rattle.rl_txn.specs.Fits.{TxnFits};
ghost use Rattle.rl_store.specs.Views.{IsAtRest};
ghost use Rattle.rl_occ.specs.Fits.{IsStoreOf};
ghost use Rattle.rl_occ.specs.declared.attempt.Phase.{Phase};

use rl_base::memory::Memory;
use rl_occ::attempt::Attempt;
use rl_store::pass::Pass;
use rl_store::store::Store;
use rl_tables::layout::Layout;
use rl_txn::op::Txn;
use rl_value::schema::Schema;
use std::alloc::Global;
use std::test::Fail;

/// An attempt whose transaction has run to its end.
pub fn executed<'a>(
    alloc: Global,
    store: &'a Store,
    layout: &'a Layout,
    schema: &'a Schema,
    txn: &'a Txn,
    pass: Pass,
) -> Result<Attempt<'a>, Fail>
    requires layout { layout.now ≡ sizes_of schema.now }
    requires store { IsStoreOf store.now.made schema.now }
    requires fits { TxnFits schema.now txn.now }
    requires table { pass.table ≡ store.now.table }
    requires rest { IsAtRest pass.view }
    ensures store { IfOk result (λ attempt. attempt.store ≡ store.now) }
    ensures executed { IfOk result (λ attempt. attempt.phase ≡ Phase.Executed) }
{
    let Ok(mut attempt) = Attempt::begin(alloc, store, layout, schema, txn, pass) else {
        return Err(Memory.into());
    };
    let Ok(()) = attempt.execute() else {
        return Err("a read was refused".into());
    };
    Ok(attempt)
}

/// An attempt that holds the records that it writes.
pub fn locked<'a>(
    alloc: Global,
    store: &'a Store,
    layout: &'a Layout,
    schema: &'a Schema,
    txn: &'a Txn,
    pass: Pass,
) -> Result<Attempt<'a>, Fail>
    requires layout { layout.now ≡ sizes_of schema.now }
    requires store { IsStoreOf store.now.made schema.now }
    requires fits { TxnFits schema.now txn.now }
    requires table { pass.table ≡ store.now.table }
    requires rest { IsAtRest pass.view }
    ensures store { IfOk result (λ attempt. attempt.store ≡ store.now) }
    ensures locked { IfOk result (λ attempt. attempt.phase ≡ Phase.Locked) }
{
    let mut attempt = executed(alloc, store, layout, schema, txn, pass)?;
    let Ok(()) = attempt.lock() else {
        return Err("a lock was refused".into());
    };
    Ok(attempt)
}
