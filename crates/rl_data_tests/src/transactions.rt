//! Transactions that run, on rows or record by record, and items of those that have run. What each op does is shown by
//! examples of the program.

ghost use Rattle.std.specs.Prelude.{IfOk};
ghost use Rattle.rl_txn.specs.Fits.{TxnFits};

use rl_base::memory::Memory;
use rl_base::stamp::Stamp;
use rl_txn::batch::Batch;
use rl_txn::eval::{Eval, Wants};
use rl_txn::item::{Item, Items, apply};
use rl_txn::op::{Lists, Op, Operand, Requests, Txn};
use rl_txn::run::run;
use rl_txn::serial::run_serially;
use rl_txn::write::{End, Outs, Reply, Write, Writes};
use rl_value::map::Map;
use rl_value::row::Row;
use rl_value::schema::Schema;
use std::alloc::Global;
use std::test::Fail;

/// Puts 7 out.
fn puts_out(alloc: Global, schema: &Schema) -> Result<Txn, Memory>
    ensures { IfOk result (λ txn. TxnFits schema.now txn) }
{
    let mut txn = Txn::new(alloc);
    txn.push(Op::Out { a: Operand::Num(7) })?;
    Ok(txn)
}

#[test]
fn a_transaction_runs_on_rows(rt: HostRuntime) -> Result<(), Fail> {
    let schema = Schema::new(rt.alloc());
    let txn = puts_out(rt.alloc(), &schema)?;
    let (reply, writes) = run(rt.alloc(), &schema, &txn, &Map::new(rt.alloc()))?;
    assert_eq!(rt; reply.outs.as_slice(), [7].as_slice());
    assert_eq!(rt; writes.len(), 0);
    Ok(())
}

#[test]
fn an_evaluation_ends(rt: HostRuntime) -> Result<(), Fail> {
    let schema = Schema::new(rt.alloc());
    let txn = puts_out(rt.alloc(), &schema)?;
    let mut eval = Eval::start(rt.alloc(), &schema, &txn)?;
    let end = End::Done;
    assert_eq!(rt; eval.advance(&schema, &txn), Wants::Ended(end));
    Ok(())
}

#[test]
fn requests_run_one_after_another(rt: HostRuntime) -> Result<(), Fail> {
    let schema = Schema::new(rt.alloc());
    let mut requests = Requests::new(rt.alloc());
    requests.push(puts_out(rt.alloc(), &schema)?)?;
    let mut lists = Lists::new(rt.alloc());
    lists.push(requests)?;
    let (items, _) = run_serially(rt.alloc(), &schema, &lists, Map::new(rt.alloc()))?;
    assert_eq!(rt; items.len(), 1);
    Ok(())
}

/// Takes the row of one key away, and makes that of the next.
fn two_writes(alloc: Global) -> Result<Writes, Memory> {
    let mut writes = Writes::new(alloc);
    writes.push(Write {
        table: 0,
        key: 1,
        row: None,
    })?;
    writes.push(Write {
        table: 0,
        key: 2,
        row: Some(Row::from_slice(&[5])),
    })?;
    Ok(writes)
}

/// The third request of the first list.
fn third_item(alloc: Global) -> Result<Item, Memory> {
    let mut outs = Outs::new(alloc);
    outs.push(70)?;
    let end = End::Done;
    Ok(Item {
        stamp: Stamp { epoch: 1, seq: 2 },
        worker: 1,
        index: 3,
        reply: Reply { outs, end },
        writes: two_writes(alloc)?,
    })
}

/// A copy of a batch of this item.
fn copied(alloc: Global, item: Item) -> Result<Items, Fail> {
    let mut items = Items::new(alloc);
    items.push(item)?;
    let Batch::Items(copy) = Batch::Items(items).copy(alloc)? else {
        return Err("another batch".into());
    };
    Ok(copy)
}

#[test]
fn items_are_copied_and_applied(rt: HostRuntime) -> Result<(), Fail> {
    let copy = copied(rt.alloc(), third_item(rt.alloc())?)?;
    let mut rows = Map::new(rt.alloc());
    rows.put(0, 1, Row::from_slice(&[4]))?;
    for item in copy.as_slice() {
        assert_eq!(rt; item.reply.outs.as_slice(), [70].as_slice());
        apply(&mut rows, item)?;
    }
    assert!(rt; rows.get(0, 1).is_none() && rows.get(0, 2).is_some());
    Ok(())
}
