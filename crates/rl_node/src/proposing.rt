//! What a leader proposes.

ghost use Rattle.std.specs.Prelude.{◌≡◌, ◌⊎◌, true, false, is_some, ℕ, ◌-◌, ◌≤◌, ◌<◌, ◌++◌, [], length, map, slice_set, slice_index_or, Ok, IfOk, OnOk, OnErr, IfErr};
ghost use Rattle.rl_base.specs.declared.limit.TheConstants.{SLOTS, NODES};
ghost use Rattle.rl_batch.specs.Encoding.{batch_bytes};
ghost use Rattle.rl_batch.specs.Ranges.{BatchInRange};
ghost use Rattle.rl_batch.specs.Reading.{read_batch};
ghost use Rattle.rl_batch.specs.declared.item.TheConstants.{BATCH_ITEMS};
ghost use Rattle.rl_election.specs.World.{no_stream};
ghost use Rattle.rl_msg.specs.Ranges.{HeadInRange, StreamInRange, EmbeddedBatchInRange};
ghost use Rattle.rl_nodes.specs.Calls.{encoded};
ghost use Rattle.rl_nodes.specs.Setups.{SetupFits};
ghost use Rattle.rl_paxos.specs.Leaders.{proposed};
ghost use Rattle.rl_node.specs.Fits.{IsStream, LeadFits};
ghost use Rattle.rl_node.specs.Leading.{stream_of, HasStreams, accept_of};
ghost use Rattle.rl_node.specs.Proposing.{RefusesBatch, HasProposed};
ghost use Rattle.rl_node.specs.Standing.{StandsLead, AreWorksOf, pending_in};
ghost use Rattle.rl_node.specs.Outs.{Adds, IsSending};
ghost use Rattle.rl_node.specs.Leads.{LeadTriesDue};
ghost use Rattle.rl_node.specs.declared.part.Works as code;
ghost use Rattle.rl_nodes.specs.Nodes.{Part};
ghost use Rattle.rl_nodes.specs.Works.{flushes};
ghost use Rattle.rl_worker.specs.Acts.{Core};
ghost use Rattle.rl_txn.specs.declared.batch.Batch.TheVariants as batches;
ghost use Rattle.rl_node.specs.SetupOf.{setup_of};

use crate::answer::{Out, Sends, send_each, sending};
use crate::part::Lead;
use crate::sending::From;
use crate::setup::Setup;
use rl_base::list::Bytes;
use rl_batch::encode::encode_batch;
use rl_msg::msg::Msg;
use rl_nodes::node_error::NodeError;
use rl_stream::leader_stream::{LeaderStream, SLOTS};
use rl_stream::propose_error::ProposeError;
use rl_txn::batch::Batch;
use rl_txn::item::Items;
use std::alloc::Global;
use std::mem;

impl Lead {
    /// Proposes a batch on a stream: it takes the next slot, and goes to each node. `StreamFull` only where no slot is
    /// left; the leader is unchanged then, and after `Memory`.
    pub(crate) fn propose(
        &mut self,
        alloc: Global,
        id: u32,
        setup: &Setup,
        stream: u32,
        batch: &Batch,
    ) -> Result<Sends, NodeError>
        requires setup { SetupFits (setup_of setup.now) }
        requires first { 1 ≤ id }
        requires last { id ≤ (setup_of setup.now).nodes }
        requires fits { LeadFits (setup_of setup.now) self.old }
        requires stream { IsStream (setup_of setup.now) stream }
        requires batch { BatchInRange batch.now }
        ensures proposed { OnOk result (HasStreams self.old self.new (slice_set self.old.streams.items (stream - 1)
            (proposed (stream_of self.old stream) (batch_bytes batch.now)))) }
        ensures free { OnOk result (length (stream_of self.old stream).log < SLOTS) }
        ensures sends { IfOk result (λ sends. Adds [] sends
            (accept_of id self.old.epoch stream (stream_of self.old stream) (batch_bytes batch.now) (setup_of setup.now).nodes)) }
        ensures short { OnOk result (EmbeddedBatchInRange (batch_bytes batch.now)) }
        ensures read { OnOk result (read_batch (batch_bytes batch.now) ≡ Ok batch.now) }
        ensures refused { IfErr result (RefusesBatch (stream_of self.old stream)) }
        ensures unchanged { OnErr result (HasStreams self.old self.new self.old.streams.items) }
    {
        let bytes = encode_batch(alloc, batch)?;
        let from = From {
            node: id,
            epoch: self.epoch,
            stream,
        };
        propose_at(alloc, &mut self.streams, from, bytes, setup.nodes)
    }

    /// Proposes the pending items of a worker, where there are any and the leader has opened.
    pub(crate) fn flush(
        &mut self,
        alloc: Global,
        id: u32,
        setup: &Setup,
        worker: u32,
    ) -> Result<Out, NodeError>
        requires setup { SetupFits (setup_of setup.now) }
        requires first { 1 ≤ id }
        requires last { id ≤ (setup_of setup.now).nodes }
        requires stands { (x : Part) × StandsLead (setup_of setup.now) self.old x }
        requires worker { IsStream (setup_of setup.now) worker }
        ensures { let setup = setup_of setup.now in
            LeadTriesDue setup (λ x. flushes setup id x worker) self.old self.new result }
    {
        if !self.has_pending(worker) {
            return Ok(sending(alloc, Sends::new(alloc)));
        }
        self.propose_pending(alloc, id, setup, worker)
    }

    /// Whether it has opened and items of a worker are pending.
    fn has_pending(&self, worker: u32) -> bool
        requires first { 1 ≤ worker }
        requires last { worker ≤ length self.now.pending.items }
        ensures some { result ≡ true → (is_some self.now.works ≡ true) × (1 ≤ length (pending_in self.now worker)) }
        ensures none { result ≡ false → (is_some self.now.works ≡ false) ⊎ (pending_in self.now worker ≡ []) }
    {
        self.works.is_some() && self.pending[worker as usize - 1].len() > 0
    }

    /// Proposes the pending items of a worker as one batch.
    pub(crate) fn propose_pending(
        &mut self,
        alloc: Global,
        id: u32,
        setup: &Setup,
        worker: u32,
    ) -> Result<Out, NodeError>
        requires setup { SetupFits (setup_of setup.now) }
        requires first { 1 ≤ id }
        requires last { id ≤ (setup_of setup.now).nodes }
        requires fits { LeadFits (setup_of setup.now) self.old }
        requires worker { IsStream (setup_of setup.now) worker }
        requires open { (works : code.Works) × (core : Core) × AreWorksOf (setup_of setup.now) self.old works core }
        requires some { 1 ≤ length (pending_in self.old worker) }
        requires few { length (pending_in self.old worker) ≤ BATCH_ITEMS }
        ensures proposed { OnOk result (HasProposed self.old self.new worker
            (batch_bytes (batches.Items (pending_in self.old worker)))) }
        ensures free { OnOk result (length (stream_of self.old worker).log < SLOTS) }
        ensures fits { OnOk result (LeadFits (setup_of setup.now) self.new) }
        ensures stands { OnOk result ((works : code.Works) (core : Core)
            → AreWorksOf (setup_of setup.now) self.old works core → AreWorksOf (setup_of setup.now) self.new works core) }
        ensures sends { IfOk result (IsSending (accept_of id self.old.epoch worker (stream_of self.old worker)
            (batch_bytes (batches.Items (pending_in self.old worker))) (setup_of setup.now).nodes)) }
        ensures refused { IfErr result (RefusesBatch (stream_of self.old worker)) }
    {
        let batch = Batch::Items(take_pending(alloc, &mut self.pending, worker));
        let sends = self.propose(alloc, id, setup, worker, &batch)?;
        Ok(sending(alloc, sends))
    }
}

/// Takes the pending items of a worker.
fn take_pending(alloc: Global, pending: &mut Vec<Items>, worker: u32) -> Items
    requires first { 1 ≤ worker }
    requires last { worker ≤ length pending.old.items }
    ensures items { result ≡ slice_index_or pending.old.items (worker - 1) [] }
    ensures none { pending.new.items ≡ slice_set pending.old.items (worker - 1) [] }
{
    mem::replace(&mut pending[worker as usize - 1], Items::new(alloc))
}

/// Proposes the bytes of a batch on one of some streams.
fn propose_at(
    alloc: Global,
    streams: &mut Vec<LeaderStream>,
    from: From,
    batch: Bytes,
    nodes: u32,
) -> Result<Sends, NodeError>
    requires head { HeadInRange from.node 1 from.epoch }
    requires nodes { nodes ≤ NODES }
    requires stream { StreamInRange from.stream }
    requires there { from.stream ≤ length streams.old.items }
    requires batch { EmbeddedBatchInRange batch }
    ensures proposed { OnOk result (streams.new.items ≡ slice_set streams.old.items (from.stream - 1)
        (proposed (slice_index_or streams.old.items (from.stream - 1) no_stream) batch)) }
    ensures free { OnOk result (length (slice_index_or streams.old.items (from.stream - 1) no_stream).log < SLOTS) }
    ensures sends { IfOk result (λ sends. Adds [] sends (accept_of from.node from.epoch from.stream
        (slice_index_or streams.old.items (from.stream - 1) no_stream) batch nodes)) }
    ensures refused { IfErr result (RefusesBatch (slice_index_or streams.old.items (from.stream - 1) no_stream)) }
    ensures unchanged { OnErr result (streams.new.items ≡ streams.old.items) }
{
    let stream = &mut streams[from.stream as usize - 1];
    let sends = accept(alloc, stream, from, &batch, nodes)?;
    match stream.propose(batch) {
        Ok(_slot) => Ok(sends),
        Err(ProposeError::StreamFull { slots }) => Err(NodeError::StreamFull { slots }),
        Err(ProposeError::Memory) => Err(NodeError::Memory),
    }
}

/// The bytes of a batch for the next slot of a stream, for each node.
fn accept(
    alloc: Global,
    stream: &LeaderStream,
    from: From,
    batch: &Bytes,
    nodes: u32,
) -> Result<Sends, NodeError>
    requires head { HeadInRange from.node 1 from.epoch }
    requires nodes { nodes ≤ NODES }
    requires stream { StreamInRange from.stream }
    requires batch { EmbeddedBatchInRange batch.now }
    ensures free { OnOk result (length stream.now.log < SLOTS) }
    ensures sends { IfOk result (λ sends. Adds [] sends (accept_of from.node from.epoch from.stream stream.now batch.now nodes)) }
    ensures refused { IfErr result (RefusesBatch stream.now) }
{
    let slot = stream.log().len() as u32;
    if slot == SLOTS {
        return Err(NodeError::StreamFull { slots: SLOTS });
    }
    let accept = Msg::Accept {
        from: from.node,
        to: 1,
        epoch: from.epoch,
        stream: from.stream,
        slot,
        batch: Bytes::from_slice(alloc, batch.as_slice())?,
    };
    let mut sends = Sends::new(alloc);
    send_each(alloc, &mut sends, accept, nodes)?;
    Ok(sends)
}
