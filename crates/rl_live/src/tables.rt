//! The tables of a node, by replay of its logs as far as the history goes.

ghost use Rattle.std.specs.Prelude.{◌≡◌, ℕ, ◌++◌, List, length, map, All, OnOk, IfOk};
ghost use Rattle.std.specs.List.{filter};
ghost use Rattle.rl_value.specs.Fits.{RowsFit};
ghost use Rattle.rl_txn.specs.Serial.{rows_after};
ghost use Rattle.rl_families.specs.Families.{history, is_counted};
ghost use Rattle.rl_paxos.specs.Logs.{Log};
ghost use Rattle.rl_live.specs.Reading.{CanReplay, KeepsRead, counted_of};

use crate::history::{ReadLogs, read_logs};
use crate::run::{Acceptors, NodeRun, NodeRuns};
use rl_base::bound::Bound;
use rl_base::memory::Memory;
use rl_base::stamp::Stamp;
use rl_cut::family::Family;
use rl_script::script::Script;
use rl_shared_replay::parts::Parts;
use rl_shared_replay::replay::replay;
use rl_txn::batch::{Batch, Batches};
use rl_txn::item::Items;
use std::alloc::Global;
use std::sync::Wait;
use std::thread::Threads;

/// All nodes with their tables, in order.
pub(crate) fn node_runs<R: Threads + Wait + Sync>(
    rt: &R,
    alloc: Global,
    script: &Script,
    family: &Family,
    nodes: Vec<Acceptors>,
) -> Result<NodeRuns, Memory>
    requires opening { RowsFit script.now.schema script.now.rows }
    requires replayed { CanReplay script.now.schema family.now }
    requires read { All (λ node. (epoch : ℕ) × (logs : List Log) × KeepsRead epoch logs family.now node) nodes.items }
    ensures acceptors { IfOk result (λ runs. map (λ run. run.acceptors) runs ≡ nodes.items) }
    ensures maps { IfOk result (λ runs. All (λ run. run.map ≡ rows_after script.now.rows (history family.now)) runs) }
{
    let mut runs = NodeRuns::new(alloc);
    for acceptors in nodes {
        runs.push(node_run(rt, alloc, script, family, acceptors)?)?;
    }
    Ok(runs)
}

/// A node with its tables: what its logs have of the history is replayed by threads.
fn node_run<R: Threads + Wait + Sync>(
    rt: &R,
    alloc: Global,
    script: &Script,
    family: &Family,
    acceptors: Acceptors,
) -> Result<NodeRun, Memory>
    requires opening { RowsFit script.now.schema script.now.rows }
    requires replayed { CanReplay script.now.schema family.now }
    requires read { (epoch : ℕ) × (logs : List Log) × KeepsRead epoch logs family.now acceptors }
    ensures acceptors { IfOk result (λ run. run.acceptors ≡ acceptors) }
    ensures maps { IfOk result (λ run. run.map ≡ rows_after script.now.rows (history family.now)) }
{
    let logs = read_logs(alloc, &acceptors)?;
    let parts = parts_of(alloc, family, logs)?;
    let map = replay(rt, alloc, &script.schema, &script.rows, parts)?;
    Ok(NodeRun { acceptors, map })
}

/// The items of each log that count in the history of a family.
fn parts_of(alloc: Global, family: &Family, logs: ReadLogs) -> Result<Parts, Memory>
    ensures { IfOk result (λ parts. parts ≡ map (counted_of family.now) logs) }
{
    let mut parts = Parts::new(alloc);
    for log in logs.into_vec() {
        parts.push(part_of(alloc, family, log)?)?;
    }
    Ok(parts)
}

/// The items of a log that count.
fn part_of(alloc: Global, family: &Family, log: Batches) -> Result<Items, Memory>
    ensures { IfOk result (λ part. part ≡ counted_of family.now log) }
{
    let mut part = Items::new(alloc);
    for batch in log.into_vec() {
        if let Batch::Items(items) = batch {
            take_counted(family, &mut part, items)?;
        }
    }
    Ok(part)
}

/// Appends those of some items that count.
fn take_counted(family: &Family, part: &mut Items, items: Items) -> Result<(), Memory>
    ensures { OnOk result (part.new ≡ part.old ++ filter (λ x. is_counted family.now x.stamp) items) }
{
    for item in items.into_vec() {
        if counts(family, item.stamp) {
            part.push(item)?;
        }
    }
    Ok(())
}

/// Whether a stamp counts in the history of a family.
fn counts(family: &Family, stamp: Stamp) -> bool
    ensures { result ≡ is_counted family.now stamp }
{
    match family.bound(stamp.epoch) {
        Bound::Final { seq } | Bound::Rising { seq } => 0 < stamp.epoch && stamp.seq <= seq,
        Bound::Beyond => false,
    }
}
