//! The election of an epoch's leader through a link that loses messages: each message is sent until it was answered.

ghost use Rattle.std.specs.Prelude.{◌≡◌, ℕ, ◌+◌, ◌<◌, ◌≤◌, ◌^◌, ◌++◌, ◌∷◌, [], length, map, All, List, OnOk, IfOk};
ghost use Rattle.rl_base.specs.declared.limit.TheConstants.{NODES, SLOTS};
ghost use Rattle.rl_paxos.specs.Acceptors.{kept_ballot, kept_log, prepared};
ghost use Rattle.rl_paxos.specs.Logs.{Log};
ghost use Rattle.rl_live.specs.Elections.{CanPromise, HaveSameLogs, led_with, new_led, promising, with_mark, with_node, with_nodes};

use crate::run::Acceptors;
use rl_acceptor::acceptor::Acceptor;
use rl_base::list::{Ballots, Bytes, Log, Logs, Seq};
use rl_base::memory::Memory;
use rl_base::stamp::Stamp;
use rl_batch::encode::encode_batch;
use rl_election::candidate::Candidate;
use rl_election::recover_error::RecoverError;
use rl_net::link::Link;
use rl_stream::leader_stream::LeaderStream;
use rl_txn::batch::Batch;
use std::alloc::Global;
use std::sync::Wait;

/// A stream at its leader, and its acceptor at every node.
#[derive(Drop)]
pub struct Led {
    pub stream: LeaderStream,
    pub acceptors: Acceptors,
}

/// Makes a leader of an epoch: every node promises it, each stream's log is recovered, and with the
/// epoch's open mark behind it every node adopts it and acks it. The acceptors of a node stand in
/// the order of the streams. All nodes keep the same logs before. The call may never return, where
/// messages never arrive.
///
/// `Memory`: nothing is left of the nodes.
pub fn elect<R: Wait>(
    rt: &R,
    alloc: Global,
    link: &mut Link,
    epoch: u32,
    streams: u32,
    nodes: Vec<Acceptors>,
) -> Result<Vec<Led>, Memory>
    requires epoch { (1 ≤ epoch) × (epoch < 2 ^ 20) }
    requires some { 1 ≤ length nodes.items }
    requires few { length nodes.items ≤ NODES }
    requires ready { All (All (CanPromise epoch)) nodes.items }
    requires same { (logs : List Log) × HaveSameLogs logs streams nodes.items }
    ensures { IfOk result (λ leds. (logs : List Log) → HaveSameLogs logs streams nodes.items
        → leds.items ≡ map (led_with epoch (length nodes.items)) (map (with_mark epoch) logs)) }
{
    let count = nodes.len() as u32;
    let (nodes, logs) = recover(rt, alloc, link, epoch, streams, nodes)?;
    let mut leds = lead(alloc, epoch, count, logs)?;
    sync(rt, alloc, link, epoch, nodes, &mut leds)?;
    Ok(leds)
}

/// Sends a Prepare to each node until it was answered, and recovers the streams' logs.
fn recover<R: Wait>(
    rt: &R,
    alloc: Global,
    link: &mut Link,
    epoch: u32,
    streams: u32,
    nodes: Vec<Acceptors>,
) -> Result<(Vec<Acceptors>, Logs), Memory>
    requires some { 1 ≤ length nodes.items }
    requires few { length nodes.items ≤ NODES }
    requires ready { All (All (CanPromise epoch)) nodes.items }
    requires same { (logs : List Log) × HaveSameLogs logs streams nodes.items }
    ensures nodes { IfOk result (λ r. r.0.items ≡ map (promising epoch) nodes.items) }
    ensures logs { IfOk result (λ r. (logs : List Log) → HaveSameLogs logs streams nodes.items → r.1 ≡ logs) }
{
    let count = nodes.len() as u32;
    let mut candidate = Candidate::start(alloc, epoch, count, streams, count / 2 + 1)?;
    let mut promised = Vec::new(alloc);
    for node in nodes {
        let (node, ballots, logs) = promise(rt, alloc, link, epoch, node)?;
        promised.push(node)?;
        candidate.promise(promised.len() as u32, ballots, logs);
    }
    match candidate.recover(alloc) {
        Ok(logs) => Ok((promised, logs)),
        Err(RecoverError::Memory) => Err(Memory),
        Err(RecoverError::NotYet { .. }) => unreachable!(),
    }
}

/// Sends a Prepare to a node until it was answered: the ballots and the logs with which it promises.
fn promise<R: Wait>(
    rt: &R,
    alloc: Global,
    link: &mut Link,
    epoch: u32,
    node: Acceptors,
) -> Result<(Acceptors, Ballots, Logs), Memory>
    requires { All (CanPromise epoch) node }
    ensures node { IfOk result (λ r. r.0 ≡ promising epoch node) }
    ensures ballots { IfOk result (λ r. r.1 ≡ map (λ a. kept_ballot a 1) node) }
    ensures logs { IfOk result (λ r. r.2 ≡ map (λ a. kept_log a 1) node) }
{
    let ballots = ballots_of(alloc, node.as_slice())?;
    let logs = logs_of(alloc, node.as_slice())?;
    let mut node = node.into_vec();
    for _ in rt.forever() {
        if link.lost() {
            continue;
        }
        prepare(&mut node, epoch);
        if !link.lost() {
            return Ok((Seq::from_vec(node), ballots, logs));
        }
    }
    unreachable!()
}

/// All acceptors of a node promise an epoch.
fn prepare(node: &mut Vec<Acceptor>, epoch: u32)
    requires { All (CanPromise epoch) node.old.items }
    ensures { node.new.items ≡ promising epoch node.old.items }
{
    for i in 0..node.len() {
        let Ok(()) = node[i].prepare(epoch) else {
            unreachable!()
        };
    }
}

/// The ballot of each stream at a node.
fn ballots_of(alloc: Global, node: &[Acceptor]) -> Result<Ballots, Memory>
    requires { All (λ a. length a.streams ≡ 1) node.now }
    ensures { IfOk result (λ ballots. ballots ≡ map (λ a. kept_ballot a 1) node.now) }
{
    let mut ballots = Ballots::new(alloc);
    for acceptor in node {
        ballots.push(acceptor.ballot(1))?;
    }
    Ok(ballots)
}

/// The log of each stream at a node, copied.
fn logs_of(alloc: Global, node: &[Acceptor]) -> Result<Logs, Memory>
    requires { All (λ a. length a.streams ≡ 1) node.now }
    ensures { IfOk result (λ logs. logs ≡ map (λ a. kept_log a 1) node.now) }
{
    let mut logs = Logs::new(alloc);
    for acceptor in node {
        logs.push(acceptor.log(1).copy(alloc)?)?;
    }
    Ok(logs)
}

/// The leader's streams, each with a recovered log and the epoch's open mark behind it.
fn lead(alloc: Global, epoch: u32, nodes: u32, logs: Logs) -> Result<Vec<Led>, Memory>
    requires epoch { (1 ≤ epoch) × (epoch < 2 ^ 20) }
    requires some { 1 ≤ nodes }
    requires room { All (λ log. length log < SLOTS) logs }
    ensures { IfOk result (λ leds. leds.items ≡ map (new_led epoch nodes) (map (with_mark epoch) logs)) }
{
    let mut leds = Vec::new(alloc);
    for log in logs.into_vec() {
        leds.push(begin(alloc, epoch, nodes, log)?)?;
    }
    Ok(leds)
}

/// A leader's stream with a recovered log and the epoch's open mark behind it.
fn begin(alloc: Global, epoch: u32, nodes: u32, log: Log) -> Result<Led, Memory>
    requires epoch { (1 ≤ epoch) × (epoch < 2 ^ 20) }
    requires some { 1 ≤ nodes }
    requires room { length log < SLOTS }
    ensures { IfOk result (λ led. led ≡ new_led epoch nodes (with_mark epoch log)) }
{
    let mut log = log;
    log.push(mark_bytes(alloc, epoch)?)?;
    let stream = LeaderStream::new(alloc, epoch, nodes, nodes / 2 + 1, log)?;
    let acceptors = Acceptors::new(alloc);
    Ok(Led { stream, acceptors })
}

/// The bytes of the mark that opens an epoch.
fn mark_bytes(alloc: Global, epoch: u32) -> Result<Bytes, Memory>
    requires { (1 ≤ epoch) × (epoch < 2 ^ 20) }
    ensures { IfOk result (λ bytes. with_mark epoch [] ≡ bytes ∷ []) }
{
    encode_batch(alloc, &Batch::Opened(Stamp { epoch, seq: 1 }))
}

/// Sends to each node the Sync of each stream.
fn sync<R: Wait>(
    rt: &R,
    alloc: Global,
    link: &mut Link,
    epoch: u32,
    nodes: Vec<Acceptors>,
    leds: &mut Vec<Led>,
) -> Result<(), Memory>
    requires few { length nodes.items ≤ NODES }
    requires ready { All (All (CanPromise epoch)) nodes.items }
    requires streams { All (λ node. length node ≡ length leds.old.items) nodes.items }
    ensures { OnOk result (leds.new.items ≡ map (with_nodes epoch (length nodes.items)) leds.old.items) }
{
    let mut number = 0;
    for node in nodes {
        number += 1;
        sync_node(rt, alloc, link, epoch, number, node, leds)?;
    }
    Ok(())
}

/// Sends to a node the Sync of each stream.
fn sync_node<R: Wait>(
    rt: &R,
    alloc: Global,
    link: &mut Link,
    epoch: u32,
    number: u32,
    node: Acceptors,
    leds: &mut Vec<Led>,
) -> Result<(), Memory>
    requires ready { All (CanPromise epoch) node }
    requires streams { length node ≡ length leds.old.items }
    ensures { OnOk result (leds.new.items ≡ map (with_node epoch number) leds.old.items) }
{
    let mut s = 0;
    for acceptor in node.into_vec() {
        sync_one(rt, alloc, link, epoch, number, acceptor, &mut leds[s])?;
        s += 1;
    }
    Ok(())
}

/// Sends the Sync of a stream to a node until it was answered, and counts its Ack.
fn sync_one<R: Wait>(
    rt: &R,
    alloc: Global,
    link: &mut Link,
    epoch: u32,
    number: u32,
    acceptor: Acceptor,
    led: &mut Led,
) -> Result<(), Memory>
    requires { CanPromise epoch acceptor }
    ensures { OnOk result (led.new ≡ with_node epoch number led.old) }
{
    let mut acceptor = acceptor;
    for _ in rt.forever() {
        if link.lost() {
            continue;
        }
        let log = led.stream.log().copy(alloc)?;
        let Ok(len) = acceptor.sync(epoch, 1, log) else {
            unreachable!()
        };
        if !link.lost() {
            led.stream.ack(number, len);
            led.acceptors.push(acceptor)?;
            return Ok(());
        }
    }
    unreachable!()
}
