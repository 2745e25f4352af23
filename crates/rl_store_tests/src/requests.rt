//! Requests by their numbers.

ghost use Rattle.std.specs.Prelude.{◌≡◌, ◌≤◌, All, length, IfOk};
ghost use Rattle.rl_value.specs.Tables.{columns_of};
ghost use Rattle.rl_txn.specs.Fits.{TxnFits};

use crate::bank::{close_account, open_account, scan, transfer};
use rl_base::memory::Memory;
use rl_txn::op::{Requests, Txn};
use rl_value::schema::Schema;
use std::alloc::Global;

/// Which requests there are.
#[derive(Clone, Copy, Debug, PartialEq, Eq)]
pub enum Mix {
    /// Transfers alone.
    Transfers,
    /// Transfers, scans, and accounts that are closed and opened again.
    All,
}

/// The request of a number in a worker's list, on the first accounts.
pub fn request(
    alloc: Global,
    schema: &Schema,
    mix: Mix,
    accounts: u32,
    worker: u32,
    index: u32,
) -> Result<Txn, Memory>
    requires tables { length schema.now ≡ 1 }
    requires columns { columns_of schema.now 0 ≡ 1 }
    requires some { 1 ≤ accounts }
    ensures fits { IfOk result (λ txn. TxnFits schema.now txn) }
{
    let state = next(next(u64::from(worker) << 32 | u64::from(index)));
    let from = (state >> 32) as u32 % accounts;
    let to = (state >> 45) as u32 % accounts;
    let kind = if mix == Mix::All { state >> 62 } else { 0 };
    match kind {
        0 => transfer(alloc, schema, from, to, 1 + state % 8),
        1 => scan(alloc, schema, from, to),
        2 => close_account(alloc, schema, from),
        _ => open_account(alloc, schema, from),
    }
}

/// The first requests of a worker's list, which are numbered from 1.
pub fn requests(
    alloc: Global,
    schema: &Schema,
    mix: Mix,
    accounts: u32,
    worker: u32,
    count: u32,
) -> Result<Requests, Memory>
    requires tables { length schema.now ≡ 1 }
    requires columns { columns_of schema.now 0 ≡ 1 }
    requires some { 1 ≤ accounts }
    ensures fits { IfOk result (λ list. All (TxnFits schema.now) list) }
{
    let mut list = Requests::new(alloc);
    for k in 0..count {
        list.push(request(alloc, schema, mix, accounts, worker, k + 1)?)?;
    }
    Ok(list)
}

/// The lists of some workers, which are numbered from 1.
pub fn all_requests(
    alloc: Global,
    schema: &Schema,
    mix: Mix,
    accounts: u32,
    workers: u32,
    count: u32,
) -> Result<Vec<Requests>, Memory>
    requires tables { length schema.now ≡ 1 }
    requires columns { columns_of schema.now 0 ≡ 1 }
    requires some { 1 ≤ accounts }
    ensures fits { IfOk result (λ lists. All (All (TxnFits schema.now)) lists.items) }
{
    let mut lists = Vec::new(alloc);
    for w in 0..workers {
        lists.push(requests(alloc, schema, mix, accounts, w + 1, count)?)?;
    }
    Ok(lists)
}

/// The next number of a linear congruential generator.
fn next(state: u64) -> u64 {
    state
        .wrapping_mul(6_364_136_223_846_793_005)
        .wrapping_add(1_442_695_040_888_963_407)
}
