//! Workers that decide their requests, each in a thread of its own.

ghost use Rattle.std.specs.Prelude.{◌≡◌, All, IfOk};
ghost use Rattle.rl_tables.specs.Numbers.{sizes_of};
ghost use Rattle.rl_txn.specs.Fits.{TxnFits};
ghost use Rattle.rl_store.specs.Views.{IsAtRest};
ghost use Rattle.rl_occ.specs.Fits.{IsStoreOf};
ghost use Rattle.rl_store_tests.specs.Jobs.{IsDone, IsReady};

use rl_base::memory::Memory;
use rl_occ::attempt::Attempt;
use rl_occ::outcome::Decided;
use rl_store::pass::Pass;
use rl_store::store::Store;
use rl_tables::layout::Layout;
use rl_txn::item::{Item, Items};
use rl_txn::op::{Requests, Txn};
use rl_value::schema::Schema;
use std::alloc::Global;
use std::thread::{Threads, map_vec, yield_now};

/// How often a transaction is tried.
const TURNS: u32 = 1_000_000;

/// One attempt: what was decided, or none where it was refused or no try was left.
pub fn attempt(
    alloc: Global,
    store: &Store,
    layout: &Layout,
    schema: &Schema,
    txn: &Txn,
    pass: Pass,
) -> Result<(Pass, Option<Decided>), Memory>
    requires layout { layout.now ≡ sizes_of schema.now }
    requires store { IsStoreOf store.now.made schema.now }
    requires fits { TxnFits schema.now txn.now }
    requires table { pass.table ≡ store.now.table }
    requires rest { IsAtRest pass.view }
    ensures table { IfOk result (λ done. done.0.table ≡ store.now.table) }
    ensures rest { IfOk result (λ done. IsAtRest done.0.view) }
{
    let mut attempt = match Attempt::begin(alloc, store, layout, schema, txn, pass) {
        Ok(attempt) => attempt,
        Err((_pass, memory)) => return Err(memory),
    };
    if attempt.execute().is_err() {
        return Ok((attempt.abandon(), None));
    }
    if attempt.lock().is_err() {
        return Ok((attempt.abandon(), None));
    }
    let (pass, result) = attempt.commit();
    Ok((pass, result.ok()))
}

/// Tries a transaction until it is decided, or many times.
fn decide(
    alloc: Global,
    store: &Store,
    layout: &Layout,
    schema: &Schema,
    txn: &Txn,
    pass: Pass,
) -> Result<(Pass, Option<Decided>), Memory>
    requires layout { layout.now ≡ sizes_of schema.now }
    requires store { IsStoreOf store.now.made schema.now }
    requires fits { TxnFits schema.now txn.now }
    requires table { pass.table ≡ store.now.table }
    requires rest { IsAtRest pass.view }
    ensures table { IfOk result (λ done. done.0.table ≡ store.now.table) }
    ensures rest { IfOk result (λ done. IsAtRest done.0.view) }
{
    let mut pass = pass;
    for _turn in 0..TURNS {
        let (back, decided) = attempt(alloc, store, layout, schema, txn, pass)?;
        pass = back;
        if decided.is_some() {
            return Ok((pass, decided));
        }
        yield_now();
    }
    Ok((pass, None))
}

/// A thread's work: a worker's requests, and a pass.
#[derive(Drop)]
pub struct Job {
    pub worker: u32,
    pub list: Requests,
    pub pass: Pass,
}

/// What a thread gives back: the pass, and the items of what it has decided.
#[derive(Drop)]
pub struct Done {
    pub pass: Pass,
    pub items: Items,
}

/// Decides the requests of a job in order.
fn work(
    alloc: Global,
    store: &Store,
    layout: &Layout,
    schema: &Schema,
    job: Job,
) -> Result<Done, Memory>
    requires layout { layout.now ≡ sizes_of schema.now }
    requires store { IsStoreOf store.now.made schema.now }
    requires ready { IsReady store.now schema.now job }
    ensures { IsDone store.now result }
{
    let Job {
        worker,
        list,
        mut pass,
    } = job;
    let mut items = Items::new(alloc);
    let mut index: u32 = 0;
    for txn in list.as_slice() {
        let (back, decided) = decide(alloc, store, layout, schema, txn, pass)?;
        pass = back;
        index = index.wrapping_add(1);
        if let Some(decided) = decided {
            items.push(item_of(worker, index, decided))?;
        }
    }
    Ok(Done { pass, items })
}

/// The item of a decided request.
fn item_of(worker: u32, index: u32, decided: Decided) -> Item {
    let Decided {
        stamp,
        reply,
        writes,
    } = decided;
    Item {
        stamp,
        worker,
        index,
        reply,
        writes,
    }
}

/// A job for each list, whose pass has half of the tries that were left.
pub fn hand_out(
    alloc: Global,
    store: &Store,
    schema: &Schema,
    pass: &mut Pass,
    lists: Vec<Requests>,
) -> Result<Vec<Job>, Memory>
    requires table { pass.old.table ≡ store.now.table }
    requires rest { IsAtRest pass.old.view }
    requires fits { All (All (TxnFits schema.now)) lists.items }
    ensures table { pass.new.table ≡ store.now.table }
    ensures rest { IsAtRest pass.new.view }
    ensures ready { IfOk result (λ jobs. All (IsReady store.now schema.now) jobs.items) }
{
    let mut jobs = Vec::new(alloc);
    let mut worker: u32 = 0;
    for list in lists {
        worker = worker.wrapping_add(1);
        let half = pass.tries() / 2;
        let own = pass.split(store, half);
        jobs.push(Job {
            worker,
            list,
            pass: own,
        })?;
    }
    Ok(jobs)
}

/// Runs each job in a thread of its own.
pub fn run_all<R: Threads + Sync>(
    rt: &R,
    alloc: Global,
    store: &Store,
    layout: &Layout,
    schema: &Schema,
    jobs: Vec<Job>,
) -> Result<Vec<Result<Done, Memory>>, Memory>
    requires layout { layout.now ≡ sizes_of schema.now }
    requires store { IsStoreOf store.now.made schema.now }
    requires ready { All (IsReady store.now schema.now) jobs.items }
    ensures { IfOk result (λ ended. All (IsDone store.now) ended.items) }
{
    let ended = map_vec(
        rt,
        jobs,
        &|job: Job| -> Result<Done, Memory>
            requires { (layout.now ≡ sizes_of schema.now) × IsStoreOf store.now.made schema.now × IsReady store.now schema.now job }
            ensures { IsDone store.entry.now result }
        { work(alloc, store, layout, schema, job) },
    )?;
    Ok(ended)
}

/// The pass takes in those of all threads. Their items come beside it, worker by worker.
pub fn join_all(
    alloc: Global,
    store: &Store,
    pass: Pass,
    ended: Vec<Result<Done, Memory>>,
) -> Result<(Pass, Vec<Items>), Memory>
    requires table { pass.table ≡ store.now.table }
    requires rest { IsAtRest pass.view }
    requires done { All (IsDone store.now) ended.items }
    ensures table { IfOk result (λ joined. joined.0.table ≡ store.now.table) }
    ensures rest { IfOk result (λ joined. IsAtRest joined.0.view) }
{
    let mut pass = pass;
    let mut lists = Vec::new(alloc);
    for done in ended {
        let Done { pass: other, items } = done?;
        pass.join(store, other);
        lists.push(items)?;
    }
    Ok((pass, lists))
}
