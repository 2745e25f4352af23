//! The way of a worker's batches to every node.

ghost use Rattle.std.specs.Prelude.{◌≡◌, ℕ, ◌+◌, ◌^◌, ◌<◌, ◌≤◌, ◌∷◌, ◌++◌, [], length, Ok, OnOk, IfOk, Contains};
ghost use Rattle.rl_base.specs.declared.limit.TheConstants.{SLOTS};
ghost use Rattle.rl_batch.specs.Encoding.{batch_bytes};
ghost use Rattle.rl_batch.specs.Ranges.{BatchInRange, ItemsInRange};
ghost use Rattle.rl_batch.specs.Reading.{read_batch};
ghost use Rattle.rl_paxos.specs.Acceptors.{kept_log};
ghost use Rattle.rl_paxos.specs.Leaders.{acknowledged_len};
ghost use Rattle.rl_progress.specs.Rule.{IsPublisher, published};
ghost use Rattle.rl_live.specs.Run.{acceptor_at};
ghost use Rattle.rl_live.specs.Workers.{end_mark};
ghost use Rattle.rl_live.specs.Sending.{IsLastToSend, IsLedAt, IsSpread, IsSameLine};

use crate::gate::{Gate, Point};
use crate::run::Acceptors;
use rl_acceptor::acceptor::Acceptor;
use rl_base::limit::SLOTS;
use rl_base::list::{Bytes, Seq};
use rl_base::memory::Memory;
use rl_base::stamp::Stamp;
use rl_batch::encode::encode_batch;
use rl_net::link::Link;
use rl_progress::progress::Progress;
use rl_progress::seat::Seat;
use rl_release::queue::Queue;
use rl_stream::leader_stream::LeaderStream;
use rl_txn::batch::Batch;
use rl_txn::item::{Item, Items};
use std::alloc::Global;
use std::sync::Wait;

/// The seq of the mark that ends an epoch.
const END_SEQ: u64 = (1 << 40) - 1;

/// A worker's stream with its acceptor at each node, and the replies that wait for the watermark.
#[derive(Drop)]
pub(crate) struct Line {
    pub(crate) number: u32,
    pub(crate) stream: LeaderStream,
    pub(crate) acceptors: Vec<Acceptor>,
    pub(crate) seat: Seat,
    pub(crate) link: Link,
    pub(crate) queue: Queue,
}

/// Sends a batch for the next slot to a node until the node acked it. The answer is the length in the ack.
fn send_one<R: Wait>(
    rt: &R,
    alloc: Global,
    link: &mut Link,
    acceptor: &mut Acceptor,
    epoch: u32,
    slot: u32,
    batch: &Bytes,
) -> Result<u32, Memory>
    requires led { IsLedAt epoch acceptor.old }
    requires next { slot ≡ length (kept_log acceptor.old 1) }
    requires room { slot < SLOTS }
    ensures taken { OnOk result (acceptor.new ≡ acceptor_at epoch (kept_log acceptor.old 1 ++ batch.now ∷ [])) }
    ensures len { IfOk result (λ len. len ≡ slot + 1) }
{
    for _ in rt.forever() {
        if link.lost() {
            continue;
        }
        let copy = Bytes::from_slice(alloc, batch.as_slice())?;
        let Ok(len) = acceptor.accept(epoch, 1, slot, copy) else {
            return Err(Memory);
        };
        if !link.lost() {
            return Ok(len);
        }
    }
    unreachable!()
}

impl Line {
    /// The line of a stream that every node has as its leader has it.
    pub(crate) fn new(
        alloc: Global,
        number: u32,
        stream: LeaderStream,
        acceptors: Acceptors,
        seat: Seat,
        link: Link,
    ) -> Line
        ensures { (result.number ≡ number) × (result.stream ≡ stream) × (result.acceptors.items ≡ acceptors) × (result.seat ≡ seat) }
    {
        Line {
            number,
            stream,
            acceptors: acceptors.into_vec(),
            seat,
            link,
            queue: Queue::new(alloc),
        }
    }

    /// The acceptors of all nodes.
    pub(crate) fn into_acceptors(self) -> Acceptors
        ensures { result ≡ self.acceptors.items }
    {
        Seq::from_vec(self.acceptors)
    }

    /// Sends the mark that ends an epoch.
    pub(crate) fn finish<R: Wait, G: Gate>(
        &mut self,
        rt: &R,
        alloc: Global,
        gate: &G,
        progress: &Progress,
        epoch: u32,
    ) -> Result<(), Memory>
        requires spread { IsSpread progress.now self.old }
        requires room { length self.old.stream.log < SLOTS }
        requires epoch { (1 ≤ epoch) × (epoch < 2 ^ 20) }
        requires rises { self.old.seat.view.last < END_SEQ }
        ensures spread { OnOk result (IsSpread progress.now self.new) }
        ensures same { OnOk result (IsSameLine self.old self.new) }
        ensures log { OnOk result (self.new.stream.log ≡ self.old.stream.log ++ batch_bytes (end_mark epoch) ∷ []) }
        ensures read { OnOk result (read_batch (batch_bytes (end_mark epoch)) ≡ Ok (end_mark epoch)) }
    {
        let mark = Batch::Idle(Stamp {
            epoch,
            seq: END_SEQ,
        });
        self.send(rt, alloc, gate, progress, &mark, END_SEQ)?;
        self.release(rt, gate, progress);
        Ok(())
    }

    /// Encodes a batch and sends it to every node, until each has acked it. Its last seq is published once a quorum has.
    pub(crate) fn send<R: Wait, G: Gate>(
        &mut self,
        rt: &R,
        alloc: Global,
        gate: &G,
        progress: &Progress,
        batch: &Batch,
        seq: u64,
    ) -> Result<(), Memory>
        requires spread { IsSpread progress.now self.old }
        requires room { length self.old.stream.log < SLOTS }
        requires range { BatchInRange batch.now }
        requires rises { self.old.seat.view.last < seq }
        requires small { seq < 2 ^ 40 }
        ensures spread { OnOk result (IsSpread progress.now self.new) }
        ensures same { OnOk result (IsSameLine self.old self.new) }
        ensures log { OnOk result (self.new.stream.log ≡ self.old.stream.log ++ batch_bytes batch.now ∷ []) }
        ensures read { OnOk result (read_batch (batch_bytes batch.now) ≡ Ok batch.now) }
        ensures last { OnOk result (self.new.seat.view.last ≤ seq) }
    {
        let bytes = encode_batch(alloc, batch)?;
        let copy = Bytes::from_slice(alloc, bytes.as_slice())?;
        let Ok(slot) = self.stream.propose(copy) else {
            return Err(Memory);
        };
        self.spread(rt, alloc, progress, slot, &bytes, seq)?;
        gate.at(rt, self.number, Point::Durable);
        Ok(())
    }

    /// Sends the last batch of the leader's log to every node in turn.
    fn spread<R: Wait>(
        &mut self,
        rt: &R,
        alloc: Global,
        progress: &Progress,
        slot: u32,
        batch: &Bytes,
        seq: u64,
    ) -> Result<(), Memory>
        requires last { IsLastToSend progress.now slot batch.now self.old }
        requires room { slot < SLOTS }
        requires rises { self.old.seat.view.last < seq }
        requires small { seq < 2 ^ 40 }
        ensures spread { OnOk result (IsSpread progress.now self.new) }
        ensures same { OnOk result (IsSameLine self.old self.new) }
        ensures log { OnOk result (self.new.stream.log ≡ self.old.stream.log) }
        ensures last { OnOk result (self.new.seat.view.last ≤ seq) }
    {
        let epoch = self.stream.epoch();
        let mut published = false;
        for i in 0..self.acceptors.len() {
            let acceptor = &mut self.acceptors[i];
            let len = send_one(rt, alloc, &mut self.link, acceptor, epoch, slot, batch)?;
            let chosen = self.stream.ack(i as u32 + 1, len);
            if chosen > slot && !published {
                self.publish(progress, slot, seq);
                published = true;
            }
        }
        Ok(())
    }

    /// Publishes the last seq of a batch that a quorum has acked.
    fn publish(&mut self, progress: &Progress, slot: u32, seq: u64)
        requires chosen { slot < acknowledged_len self.old.stream.quorum self.old.stream.acked }
        requires seated { self.old.seat.table ≡ progress.now }
        requires publishes { IsPublisher self.old.seat.view }
        requires rises { self.old.seat.view.last < seq }
        requires small { seq < 2 ^ 40 }
        ensures same { self.new ≡ record self.old { seat = self.new.seat } }
        ensures seated { self.new.seat.table ≡ self.old.seat.table }
        ensures published { self.new.seat.view ≡ published self.old.seat.view seq }
    {
        progress.publish(&mut self.seat, seq);
    }

    /// Sends some items as one batch. Their replies then wait for the watermark.
    pub(crate) fn send_items<R: Wait, G: Gate>(
        &mut self,
        rt: &R,
        alloc: Global,
        gate: &G,
        progress: &Progress,
        items: Items,
    ) -> Result<(), Memory>
        requires spread { IsSpread progress.now self.old }
        requires room { length self.old.stream.log < SLOTS }
        requires range { BatchInRange (Batch.Items items) }
        requires rises { (x : Item) → Contains items x → self.old.seat.view.last < x.stamp.seq }
        ensures spread { OnOk result (IsSpread progress.now self.new) }
        ensures same { OnOk result (IsSameLine self.old self.new) }
        ensures log { OnOk result (self.new.stream.log ≡ self.old.stream.log ++ batch_bytes (Batch.Items items) ∷ []) }
        ensures read { OnOk result (read_batch (batch_bytes (Batch.Items items)) ≡ Ok (Batch.Items items)) }
        ensures last { OnOk result ((x : Item) × Contains items x × (self.new.seat.view.last ≤ x.stamp.seq)) }
    {
        let seq = last_seq(&items);
        let batch = Batch::Items(items);
        self.send(rt, alloc, gate, progress, &batch, seq)?;
        if let Batch::Items(items) = batch {
            self.await_release(items)?;
        }
        self.release(rt, gate, progress);
        Ok(())
    }

    /// Puts items into the queue of those that wait for the watermark.
    fn await_release(&mut self, items: Items) -> Result<(), Memory>
        ensures { OnOk result (self.new ≡ record self.old { queue = self.new.queue }) }
    {
        for item in items.into_vec() {
            let Ok(()) = self.queue.push(item) else {
                return Err(Memory);
            };
        }
        Ok(())
    }

    /// Lets the replies go whose stamps the watermark has reached.
    pub(crate) fn release<R: Wait, G: Gate>(&mut self, rt: &R, gate: &G, progress: &Progress)
        requires { IsSpread progress.now self.old }
        ensures spread { IsSpread progress.now self.new }
        ensures same { IsSameLine self.old self.new }
        ensures log { self.new.stream.log ≡ self.old.stream.log }
        ensures last { self.new.seat.view.last ≡ self.old.seat.view.last }
    {
        let watermark = progress.watermark(&mut self.seat);
        let upto = (u64::from(self.stream.epoch()) << 40) | watermark;
        for _ in rt.forever() {
            let Some(_reply) = self.queue.release(upto) else {
                break;
            };
            gate.at(rt, self.number, Point::Released);
        }
    }
}

/// The seq of the last of some items.
fn last_seq(items: &Items) -> u64
    requires { ItemsInRange items.now }
    ensures of_one { (x : Item) × Contains items.now x × (result ≡ x.stamp.seq) }
    ensures small { result < 2 ^ 40 }
{
    items.get(items.len() - 1).stamp.seq
}
