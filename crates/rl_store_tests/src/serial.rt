//! Workers in threads, whose decided requests are compared with what one thread does.

ghost use Rattle.std.specs.Prelude.{◌≡◌, length};
ghost use Rattle.rl_value.specs.Tables.{columns_of};
ghost use Rattle.rl_store_tests.specs.Banks.{IsBank};

use crate::bank::{accounts, opened};
use crate::requests::{Mix, all_requests, request};
use crate::threads::{hand_out, join_all, run_all};
use rl_base::memory::Memory;
use rl_store::close::Closed;
use rl_tables::layout::Layout;
use rl_txn::item::{Item, Items, apply};
use rl_txn::run::run;
use rl_txn::write::{Reply, Writes};
use rl_value::map::Map;
use rl_value::row::Row;
use rl_value::schema::Schema;
use std::alloc::Global;
use std::test::Fail;
use std::thread::Threads;

const ACCOUNTS: u32 = 8;

const BALANCE: u64 = 1000;

/// The money in all accounts.
fn total(closed: &Closed) -> u64 {
    let mut sum: u64 = 0;
    for row in closed.rows().as_slice() {
        if let Some(row) = row {
            sum = sum.wrapping_add(row.column_or_zero(0));
        }
    }
    sum
}

/// What some workers have decided of so many requests each, in threads of their own, and the store at its end.
fn decided<R: Threads + Sync>(
    rt: &R,
    alloc: Global,
    schema: &Schema,
    mix: Mix,
    workers: u32,
    count: u32,
) -> Result<(Vec<Items>, Closed), Memory>
    requires bank { IsBank 8 schema.now }
    requires tables { length schema.now ≡ 1 }
    requires columns { columns_of schema.now 0 ≡ 1 }
{
    let layout = Layout::new(alloc, schema)?;
    let (store, mut pass) = opened(alloc, schema, 8, BALANCE, 1 << 30)?;
    let lists = all_requests(alloc, schema, mix, 8, workers, count)?;
    let jobs = hand_out(alloc, &store, schema, &mut pass, lists)?;
    let ended = run_all(rt, alloc, &store, &layout, schema, jobs)?;
    let (pass, lists) = join_all(alloc, &store, pass, ended)?;
    match store.close(alloc, pass) {
        Ok(closed) => Ok((lists, closed)),
        Err((_store, _pass, memory)) => Err(memory),
    }
}

/// Whether an item is what its request does on these rows.
fn is_run(alloc: Global, schema: &Schema, map: &Map, item: &Item) -> Result<bool, Memory>
    requires tables { length schema.now ≡ 1 }
    requires columns { columns_of schema.now 0 ≡ 1 }
{
    let txn = request(alloc, schema, Mix::All, ACCOUNTS, item.worker, item.index)?;
    let (reply, writes) = run(alloc, schema, &txn, map)?;
    Ok(are_same_replies(&reply, &item.reply) && are_same_writes(&writes, &item.writes))
}

fn are_same_replies(x: &Reply, y: &Reply) -> bool {
    x.end == y.end && x.outs.as_slice() == y.outs.as_slice()
}

fn are_same_writes(xs: &Writes, ys: &Writes) -> bool {
    if xs.len() != ys.len() {
        return false;
    }
    for i in 0..xs.len() {
        let (x, y) = (xs.get(i), ys.get(i));
        if x.table != y.table || x.key != y.key || !are_same_rows(&x.row, &y.row) {
            return false;
        }
    }
    true
}

fn are_same_rows(x: &Option<Row>, y: &Option<Row>) -> bool {
    match (x, y) {
        (Some(x), Some(y)) => x.as_slice() == y.as_slice(),
        (None, None) => true,
        _ => false,
    }
}

/// The items of all lists by rising stamp: which list, and the number there.
fn in_order(alloc: Global, lists: &[Items]) -> Result<Vec<(u64, usize, usize)>, Memory> {
    let mut order = Vec::new(alloc);
    for l in 0..lists.len() {
        for k in 0..lists[l].len() {
            order.push((lists[l].get(k).stamp.seq, l, k))?;
        }
    }
    order.sort_unstable();
    Ok(order)
}

/// Whether each item is what its request does after the items of lower stamps, and the store ends with the rows after
/// all.
fn is_serial(
    alloc: Global,
    schema: &Schema,
    lists: &[Items],
    closed: &Closed,
) -> Result<bool, Memory>
    requires tables { length schema.now ≡ 1 }
    requires columns { columns_of schema.now 0 ≡ 1 }
{
    let mut map = Map::new(alloc);
    for key in 0..ACCOUNTS {
        map.put(0, key, Row::from_slice(&[BALANCE]))?;
    }
    let mut last = 0;
    for &(seq, l, k) in in_order(alloc, lists)?.as_slice() {
        if seq <= last || l >= lists.len() || k >= lists[l].len() {
            return Ok(false);
        }
        last = seq;
        let item = lists[l].get(k);
        if !is_run(alloc, schema, &map, item)? {
            return Ok(false);
        }
        apply(&mut map, item)?;
    }
    Ok(has_rows(&map, closed))
}

/// Whether a closed store has the rows of a map.
fn has_rows(map: &Map, closed: &Closed) -> bool {
    let rows = closed.rows();
    if rows.len() != ACCOUNTS as usize {
        return false;
    }
    for key in 0..ACCOUNTS {
        let same = match (map.get(0, key), rows.get(key as usize)) {
            (Some(x), Some(y)) => x.as_slice() == y.as_slice(),
            (None, None) => true,
            _ => false,
        };
        if !same {
            return false;
        }
    }
    true
}

/// How many items there are.
fn count_of(lists: &[Items]) -> usize {
    let mut count: usize = 0;
    for list in lists {
        count = count.saturating_add(list.len());
    }
    count
}

#[test]
fn transfers_keep_the_sum_of_balances(rt: HostRuntime) -> Result<(), Fail> {
    let schema = accounts(rt.alloc(), 8)?;
    let (lists, closed) = decided(&rt, rt.alloc(), &schema, Mix::Transfers, 2, 1000)?;
    assert_eq!(rt; count_of(lists.as_slice()), 2000);
    assert_eq!(rt; total(&closed), 8000);
    Ok(())
}

#[test]
fn items_of_four_threads_are_serial(rt: HostRuntime) -> Result<(), Fail> {
    let schema = accounts(rt.alloc(), 8)?;
    let (lists, closed) = decided(&rt, rt.alloc(), &schema, Mix::All, 4, 400)?;
    assert_eq!(rt; count_of(lists.as_slice()), 1600);
    assert!(rt; is_serial(rt.alloc(), &schema, lists.as_slice(), &closed)?);
    Ok(())
}
