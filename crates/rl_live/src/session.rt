//! The session: an election, one thread for each worker, and what they leave.

ghost use Rattle.std.specs.Prelude.{◌≡◌, ℕ, ◌*◌, ◌<◌, ◌≤◌, [], List, All, IfOk, length, replicate};
ghost use Rattle.rl_paxos.specs.Acceptors.{new_acceptor};
ghost use Rattle.rl_paxos.specs.Logs.{Log};
ghost use Rattle.rl_tables.specs.Numbers.{sizes_of};
ghost use Rattle.rl_store.specs.Opening.{first_view};
ghost use Rattle.rl_txn.specs.declared.batch.Batch.{Batch};
ghost use Rattle.rl_live.specs.declared.open.TheConstants.{TRIES};
ghost use Rattle.rl_live.specs.Elections.{led_with, with_mark};
ghost use Rattle.rl_live.specs.Handing.{AllFrom, CanFinish, HasFinished, HasRun, IsEndAs, IsLive, IsReadyAs, IsStage};
ghost use Rattle.rl_live.specs.Run.{IsCommitStamp, IsServed, RunOk, without_stops};
ghost use Rattle.rl_live.specs.Workers.{IsSetUp, HasDone};

use crate::election::{Led, elect};
use crate::gate::Gate;
use crate::handing::hand_out;
use crate::history::{family_of, read_logs};
use crate::join::{Nodes, join_all};
use crate::open::{TRIES, open};
use crate::run::{Acceptors, LiveRun};
use crate::tables::node_runs;
use crate::work::work;
use crate::worker::{Done, Worker};
use rl_acceptor::acceptor::Acceptor;
use rl_base::memory::Memory;
use rl_net::link::Link;
use rl_progress::progress::Progress;
use rl_script::script::Script;
use rl_store::close::Closed;
use rl_store::pass::Pass;
use rl_store::store::Store;
use rl_tables::layout::Layout;
use std::alloc::Global;
use std::sync::Wait;
use std::thread;
use std::thread::Threads;

/// Runs all requests of a script, each list by a worker in a thread of its own, under the leader of
/// epoch 1. Lines `stop` are passed over: the run is one of the script without them. The gate is
/// told of each point that a worker comes to, and may hold it. The call may never return: where a
/// gate holds a worker, or where messages never arrive.
///
/// `Memory`: there was too little, at the start or in a worker's thread; nothing is left of the
/// session.
pub fn session<R: Threads + Wait + Sync, G: Gate>(
    rt: &R,
    alloc: Global,
    script: &Script,
    gate: &G,
) -> Result<LiveRun, Memory>
    requires { IsLive script.now }
    ensures run { IfOk result (λ run. RunOk (without_stops script.now) run) }
    ensures served { IfOk result (λ run. IsServed script.now run.items) }
    ensures stamps { IfOk result (λ run. All (λ item. IsCommitStamp 1 item.stamp) run.items) }
{
    let layout = Layout::new(alloc, &script.schema)?;
    let (store, pass) = open(alloc, script, &layout, 1)?;
    let leds = first_leds(rt, alloc, script)?;
    let (pass, nodes) = run_epoch(rt, alloc, gate, script, &layout, &store, pass, leds)?;
    let Ok(closed) = store.close(alloc, pass) else {
        return Err(Memory);
    };
    finish(rt, alloc, script, nodes, closed)
}

/// The streams of the leader of epoch 1: no node keeps anything before.
fn first_leds<R: Wait>(rt: &R, alloc: Global, script: &Script) -> Result<Vec<Led>, Memory>
    requires { IsLive script.now }
    ensures { IfOk result (λ leds. leds.items ≡ replicate script.now.workers (led_with 1 script.now.nodes (with_mark 1 []))) }
{
    let nodes = new_nodes(alloc, script.nodes, script.workers)?;
    let mut link = Link::new(script.seed, script.loss);
    elect(rt, alloc, &mut link, 1, script.workers, nodes)
}

/// For each node an acceptor of each worker's stream.
fn new_nodes(alloc: Global, nodes: u32, streams: u32) -> Result<Vec<Acceptors>, Memory>
    ensures { IfOk result (λ all. all.items ≡ replicate nodes (replicate streams (new_acceptor 1))) }
{
    let mut all = Vec::new(alloc);
    for _node in 0..nodes {
        all.push(new_node(alloc, streams)?)?;
    }
    Ok(all)
}

/// An acceptor of each worker's stream.
fn new_node(alloc: Global, streams: u32) -> Result<Acceptors, Memory>
    ensures { IfOk result (λ acceptors. acceptors ≡ replicate streams (new_acceptor 1)) }
{
    let mut acceptors = Acceptors::new(alloc);
    for _stream in 0..streams {
        acceptors.push(Acceptor::new(alloc, 1)?)?;
    }
    Ok(acceptors)
}

/// Runs all workers of an epoch, and joins them.
fn run_epoch<R: Threads + Wait + Sync, G: Gate>(
    rt: &R,
    alloc: Global,
    gate: &G,
    script: &Script,
    layout: &Layout,
    store: &Store,
    pass: Pass,
    leds: Vec<Led>,
) -> Result<(Pass, Nodes), Memory>
    requires layout { layout.now ≡ sizes_of script.now.schema }
    requires stage { IsStage script.now store.now }
    requires own { pass.table ≡ store.now.table }
    requires view { pass.view ≡ first_view TRIES }
    requires leds { leds.items ≡ replicate script.now.workers (led_with store.now.made.epoch script.now.nodes (with_mark store.now.made.epoch [])) }
    ensures { IfOk result (λ run. HasRun script.now store.now TRIES run.0 run.1) }
{
    let mut pass = pass;
    let tries = TRIES / u64::from(script.workers);
    let (progress, seats) = Progress::make(alloc, script.workers)?;
    let workers = hand_out(
        alloc, script, store, &progress, &mut pass, tries, leds, seats,
    )?;
    let results = run_all(rt, alloc, gate, script, layout, store, &progress, workers)?;
    join_all(alloc, script, store, pass, results)
}

/// Runs each worker in a thread of its own. Where a thread can't be started, the caller does its
/// work.
fn run_all<'a, R: Threads + Wait + Sync, G: Gate>(
    rt: &R,
    alloc: Global,
    gate: &G,
    script: &Script,
    layout: &Layout,
    store: &Store,
    progress: &Progress,
    workers: Vec<Worker<'a>>,
) -> Result<Vec<Result<Done, Memory>>, Memory>
    requires layout { layout.now ≡ sizes_of script.now.schema }
    requires ready { (tries : ℕ) × AllFrom (IsReadyAs script.now store.now progress.now tries) 1 workers.items }
    ensures many { IfOk result (λ results. length results.items ≡ length workers.entry.items) }
    ensures ended { IfOk result (λ results. (tries : ℕ) → AllFrom (IsReadyAs script.now store.now progress.now tries) 1 workers.entry.items
        → AllFrom (IsEndAs script.now store.now progress.now tries) 1 results.items) }
{
    let results = thread::map_vec(
        rt,
        workers,
        &|worker: Worker| -> Result<Done, Memory>
            requires { (layout.now ≡ sizes_of script.now.schema) × IsSetUp script.now.schema store.now progress.now worker }
            ensures { IfOk result (HasDone script.entry.now.schema store.entry.now worker.entry) }
        {
            work(
                rt,
                alloc,
                gate,
                store,
                layout,
                &script.schema,
                progress,
                worker,
            )
        },
    )?;
    Ok(results)
}

/// The history of the nodes' logs, and each node with its tables.
fn finish<R: Threads + Wait + Sync>(
    rt: &R,
    alloc: Global,
    script: &Script,
    nodes: Nodes,
    closed: Closed,
) -> Result<LiveRun, Memory>
    requires live { IsLive script.now }
    requires read { (epoch : ℕ) × (logs : List Log) × (family : List (List Batch)) × CanFinish script.now epoch logs family nodes }
    ensures { IfOk result (λ run. (epoch : ℕ) (logs : List Log) (family : List (List Batch)) → CanFinish script.now epoch logs family nodes
        → HasFinished script.now family nodes closed run) }
{
    let logs = read_logs(alloc, nodes.get(0))?;
    let family = family_of(alloc, logs)?;
    let items = family.history(alloc)?;
    let nodes = node_runs(rt, alloc, script, &family, nodes.into_vec())?;
    Ok(LiveRun {
        items,
        nodes,
        closed,
    })
}
