//! The events of a generated script.

ghost use Rattle.std.specs.Prelude.{◌≡◌, ◌≤◌, ◌<◌, ◌^◌, [], ◌∷◌, ◌++◌, IfOk, OnOk, replicate, map};
ghost use Rattle.std.specs.List.{range_with_len};
ghost use Rattle.rl_gen.specs.Events.{times, each_worker, round, block, block_count, events_of};

use rl_base::limit::{GENERATED, WORKERS};
use rl_base::memory::Memory;
use rl_events::event::{Event, Events};
use std::alloc::Global;

/// Each worker makes five steps.
fn push_round(events: &mut Events, workers: u32) -> Result<(), Memory>
    requires { workers ≤ WORKERS }
    ensures { OnOk result (events.new ≡ events.old ++ round workers) }
{
    for done in 0..workers {
        events.push(Event::Step {
            node: 1,
            worker: done + 1,
            count: 5,
        })?;
    }
    Ok(())
}

/// Eight rounds, and then all messages are delivered.
#[tactic(auto, unfolding(crate::specs::Events::block))]
fn push_block(events: &mut Events, workers: u32) -> Result<(), Memory>
    requires { workers ≤ WORKERS }
    ensures { OnOk result (events.new ≡ events.old ++ block workers) }
{
    for done in 0..8u32 {
        push_round(events, workers)?;
    }
    events.push(Event::All)
}

/// Some blocks.
fn push_blocks(events: &mut Events, workers: u32, count: u32) -> Result<(), Memory>
    requires { workers ≤ WORKERS }
    ensures { OnOk result (events.new ≡ events.old ++ times count (block workers)) }
{
    for done in 0..count {
        push_block(events, workers)?;
    }
    Ok(())
}

/// All messages are delivered, so many times.
fn push_all(events: &mut Events, count: u32) -> Result<(), Memory>
    ensures { OnOk result (events.new ≡ events.old ++ replicate count Event.All) }
{
    for done in 0..count {
        events.push(Event::All)?;
    }
    Ok(())
}

/// Each worker proposes what it has pending.
fn push_flushes(events: &mut Events, workers: u32) -> Result<(), Memory>
    requires { workers ≤ WORKERS }
    ensures { OnOk result (events.new ≡ events.old ++ each_worker workers (Event.Flush 1)) }
{
    for done in 0..workers {
        events.push(Event::Flush {
            node: 1,
            worker: done + 1,
        })?;
    }
    Ok(())
}

/// Each worker proposes an idle mark.
fn push_idles(events: &mut Events, workers: u32) -> Result<(), Memory>
    requires { workers ≤ WORKERS }
    ensures { OnOk result (events.new ≡ events.old ++ each_worker workers (Event.Idle 1)) }
{
    for done in 0..workers {
        events.push(Event::Idle {
            node: 1,
            worker: done + 1,
        })?;
    }
    Ok(())
}

/// Each node plays all streams.
fn push_plays(events: &mut Events, nodes: u32) -> Result<(), Memory>
    requires { nodes < 2 ^ 31 }
    ensures { OnOk result (events.new ≡ events.old ++ map Event.PlayAll (range_with_len 1 nodes)) }
{
    for done in 0..nodes {
        events.push(Event::PlayAll { node: done + 1 })?;
    }
    Ok(())
}

/// What is pending is proposed, delivered and played everywhere.
fn push_ending(events: &mut Events, nodes: u32, workers: u32) -> Result<(), Memory>
    requires nodes { nodes < 2 ^ 31 }
    requires workers { workers ≤ WORKERS }
    ensures { OnOk result (events.new ≡ events.old ++ each_worker workers (Event.Flush 1)
        ++ each_worker workers (Event.Idle 1) ++ replicate 3 Event.All ++ map Event.PlayAll (range_with_len 1 nodes)) }
{
    push_flushes(events, workers)?;
    push_idles(events, workers)?;
    push_all(events, 3)?;
    push_plays(events, nodes)
}

/// All events.
#[tactic(auto, unfolding(crate::specs::Events::events_of))]
pub fn events_of(
    alloc: Global,
    seed: u32,
    nodes: u32,
    workers: u32,
    requests: u32,
) -> Result<Events, Memory>
    requires nodes { nodes < 2 ^ 31 }
    requires some_workers { 1 ≤ workers }
    requires few_workers { workers ≤ WORKERS }
    requires requests { requests ≤ GENERATED }
    ensures { IfOk result (λ events. events ≡ events_of seed nodes workers requests) }
{
    let mut events = Events::new(alloc);
    events.push(Event::Elect { node: 1 })?;
    push_all(&mut events, 4)?;
    push_blocks(&mut events, workers, (requests + workers - 1) / workers)?;
    events.push(Event::Random {
        seed: u64::from(seed),
        count: 2000,
    })?;
    push_ending(&mut events, nodes, workers)?;
    Ok(events)
}
