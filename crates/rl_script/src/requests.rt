//! The requests of a script so far.

ghost use Rattle.std.specs.Prelude.{◌≡◌, ◌-◌, ◌<◌, ◌≤◌, ◌==◌, [], IfOk, OnOk, OnErr, length, replicate, sum_by};
ghost use Rattle.rl_base.specs.Lists.{with_last};

use rl_base::limit::REQUESTS;
use rl_base::memory::Memory;
use rl_txn::op::{Lists, Requests, Txn};
use std::alloc::Global;
use std::marker::Model;

/// A list of requests for each worker, with at most 8,192 together. Contracts see the lists.
#[derive(Drop)]
pub struct RequestLists {
    lists: Lists,
    count: u32,
}

impl Model for RequestLists {
    ghost use Rattle.std.specs.Prelude.{◌≡◌, ◌≤◌, List, length, sum_by};
    ghost use Rattle.rl_base.specs.declared.limit.TheConstants.{REQUESTS};
    ghost use Rattle.rl_txn.specs.declared.op.Op.{Op};

    ghost Value = { List (List (List Op)) };

    ghost view = { λ r. r.lists };

    ghost invariant = { λ r. (r.count ≡ sum_by length r.lists) × (r.count ≤ REQUESTS) };
}

impl RequestLists {
    /// An empty list for each of some workers.
    pub fn empty(alloc: Global, workers: u32) -> Result<RequestLists, Memory>
        ensures { IfOk result (λ lists. lists ≡ replicate workers []) }
    {
        Ok(RequestLists {
            lists: empty_lists(alloc, workers)?,
            count: 0,
        })
    }

    /// How many workers have a list.
    pub fn workers(&self) -> usize
        ensures { result ≡ length self.now }
    {
        self.lists.len()
    }

    /// Whether no request can join them.
    pub fn are_full(&self) -> bool
        ensures { result ≡ (sum_by length self.now == REQUESTS) }
    {
        self.count == REQUESTS
    }

    /// A request becomes the last of a worker's. After `Memory` they are unchanged.
    pub fn push(&mut self, worker: u32, txn: Txn) -> Result<(), Memory>
        requires some { 1 ≤ worker }
        requires there { worker ≤ length self.old }
        requires room { sum_by length self.old < REQUESTS }
        ensures ok { OnOk result (self.new ≡ with_last self.old (worker - 1) txn) }
        ensures err { OnErr result (self.new ≡ self.old) }
    {
        self.lists.push_at(worker as usize - 1, txn)?;
        self.count += 1;
        Ok(())
    }

    /// The lists.
    pub fn into_lists(self) -> Lists
        ensures { result ≡ self }
    {
        self.lists
    }
}

/// An empty list for each of some workers.
fn empty_lists(alloc: Global, workers: u32) -> Result<Lists, Memory>
    ensures { IfOk result (λ lists. lists ≡ replicate workers []) }
{
    let mut lists = Lists::new(alloc);
    for worker in 0..workers {
        lists.push(Requests::new(alloc))?;
    }
    Ok(lists)
}
