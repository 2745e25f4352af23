//! What a leader does with an Ack.

ghost use Rattle.std.specs.Prelude.{◌≡◌, ◌-◌, ◌≤◌, [], length, nat_le, slice_set, slice_index_or, Option, IfOk, OnOk, Ok};
ghost use Rattle.std.specs.List.{list_all};
ghost use Rattle.rl_election.specs.World.{no_stream};
ghost use Rattle.rl_nodes.specs.Nodes.{Part, len_acknowledged};
ghost use Rattle.rl_nodes.specs.Setups.{SetupFits};
ghost use Rattle.rl_paxos.specs.Leaders.{with_ack};
ghost use Rattle.rl_worker.specs.Acts.{Core};
ghost use Rattle.rl_node.specs.Behind.{IsBehind};
ghost use Rattle.rl_node.specs.Counting.{HasCounted, HasAdvanced, count_due};
ghost use Rattle.rl_node.specs.Fits.{IsStream, LeadFits};
ghost use Rattle.rl_node.specs.Leading.{stream_of};
ghost use Rattle.rl_node.specs.Leads.{LeadTriesDue};
ghost use Rattle.rl_node.specs.Outs.{Adds};
ghost use Rattle.rl_node.specs.Sending.{known_of};
ghost use Rattle.rl_node.specs.SetupOf.{setup_of};
ghost use Rattle.rl_node.specs.Standing.{StandsLead, HasWorksOf};

use crate::answer::{Out, Sends, releasing, sending};
use crate::opening::copy_from;
use crate::part::Lead;
use crate::reading::append_slots;
use crate::sending::{From, send_known};
use crate::setup::Setup;
use rl_base::memory::Memory;
use rl_nodes::node_error::NodeError;
use rl_stream::leader_stream::LeaderStream;
use std::alloc::Global;

/// An Ack: its stream, the node that sent it, and how many batches that keeps.
#[derive(Clone, Copy)]
pub struct Ack {
    pub stream: u32,
    pub from: u32,
    pub len: u32,
}

/// How many batches of a stream a second quorum has acked, before an Ack and after it.
#[derive(Clone, Copy)]
pub struct Counted {
    pub before: u32,
    pub after: u32,
}

impl Lead {
    /// Counts an Ack in its stream.
    fn count(&mut self, ack: Ack) -> Counted
        requires first { 1 ≤ ack.stream }
        requires last { ack.stream ≤ length self.old.streams.items }
        requires within { ack.len ≤ length (stream_of self.old ack.stream).log }
        ensures counted { HasCounted self.old self.new ack.stream ack.from ack.len }
        ensures before { result.before ≡ len_acknowledged (stream_of self.old ack.stream) }
        ensures after { result.after ≡ len_acknowledged (stream_of self.new ack.stream) }
        ensures grows { result.before ≤ result.after }
        ensures within { result.after ≤ length (stream_of self.new ack.stream).log }
    {
        count(&mut self.streams, ack)
    }

    /// Counts an Ack. Where a second quorum has acked more of the stream, each node is told; then an open leader releases
    /// what its history gained, and one that has not opened opens if each open mark is acknowledged. `Memory`.
    pub(crate) fn take_ack(
        &mut self,
        alloc: Global,
        id: u32,
        setup: &Setup,
        ack: Ack,
    ) -> Result<Out, NodeError>
        requires setup { SetupFits (setup_of setup.now) }
        requires first { 1 ≤ id }
        requires last { id ≤ (setup_of setup.now).nodes }
        requires stands { (x : Part) × StandsLead (setup_of setup.now) self.old x }
        requires stream { IsStream (setup_of setup.now) ack.stream }
        requires within { ack.len ≤ length (stream_of self.old ack.stream).log }
        ensures { let setup = setup_of setup.now in
            LeadTriesDue setup (λ x. Ok (count_due setup id x ack.stream ack.from ack.len)) self.old self.new result }
    {
        let counted = self.count(ack);
        if counted.before == counted.after {
            return Ok(sending(alloc, Sends::new(alloc)));
        }
        let told = self.acknowledged.kept_history().len();
        let sends = self.acknowledge(alloc, id, setup, ack.stream, counted)?;
        Ok(self.advance(alloc, setup, sends, told)?)
    }

    /// Goes on where more is acknowledged than the history of so many items told: an open leader releases, and one that has
    /// not opened opens if it can.
    fn advance(
        &mut self,
        alloc: Global,
        setup: &Setup,
        sends: Sends,
        told: usize,
    ) -> Result<Out, Memory>
        requires setup { SetupFits (setup_of setup.now) }
        requires fits { LeadFits (setup_of setup.now) self.old }
        requires works { (core : Option Core) × HasWorksOf (setup_of setup.now) self.old self.old.works core }
        ensures { let setup = setup_of setup.now in IfOk result (HasAdvanced setup self.old self.new sends told) }
    {
        if self.works.is_some() {
            let released = copy_from(alloc, self.acknowledged.kept_history().as_slice(), told)?;
            return Ok(releasing(sends, released));
        }
        if !marks_are_acknowledged(&self.streams) {
            return Ok(sending(alloc, sends));
        }
        self.open_epoch(alloc, setup, sends)
    }

    /// Appends what became acknowledged of a stream, and tells each node how much that is.
    fn acknowledge(
        &mut self,
        alloc: Global,
        id: u32,
        setup: &Setup,
        stream: u32,
        counted: Counted,
    ) -> Result<Sends, Memory>
        requires setup { SetupFits (setup_of setup.now) }
        requires first { 1 ≤ id }
        requires last { id ≤ (setup_of setup.now).nodes }
        requires behind { IsBehind (setup_of setup.now) self.old stream counted.before counted.after }
        ensures fits { OnOk result (LeadFits (setup_of setup.now) self.new) }
        ensures same { OnOk result (self.new ≡ record self.old { acknowledged = self.new.acknowledged }) }
        ensures sends { IfOk result (λ sends. Adds [] sends
            (known_of id self.old.epoch stream (stream_of self.old stream) (setup_of setup.now).nodes)) }
    {
        let leading = stream_at(&self.streams, stream);
        append_slots(
            alloc,
            &mut self.acknowledged,
            stream,
            leading.log(),
            counted.before,
            counted.after,
        )?;
        let from = From {
            node: id,
            epoch: self.epoch,
            stream,
        };
        let mut sends = Sends::new(alloc);
        send_known(alloc, &mut sends, from, leading, setup.nodes)?;
        Ok(sends)
    }
}

/// One of some streams.
pub fn stream_at(streams: &Vec<LeaderStream>, stream: u32) -> &LeaderStream
    requires first { 1 ≤ stream }
    requires last { stream ≤ length streams.now.items }
    ensures { result.now ≡ slice_index_or streams.now.items (stream - 1) no_stream }
{
    &streams[stream as usize - 1]
}

/// Counts an Ack in one of some streams.
fn count(streams: &mut Vec<LeaderStream>, ack: Ack) -> Counted
    requires first { 1 ≤ ack.stream }
    requires last { ack.stream ≤ length streams.old.items }
    requires within { ack.len ≤ length (slice_index_or streams.old.items (ack.stream - 1) no_stream).log }
    ensures counted { streams.new.items ≡ slice_set streams.old.items (ack.stream - 1)
        (with_ack (slice_index_or streams.old.items (ack.stream - 1) no_stream) ack.from ack.len) }
    ensures before { result.before ≡ len_acknowledged (slice_index_or streams.old.items (ack.stream - 1) no_stream) }
    ensures after { result.after ≡ len_acknowledged (slice_index_or streams.new.items (ack.stream - 1) no_stream) }
    ensures grows { result.before ≤ result.after }
    ensures within { result.after ≤ length (slice_index_or streams.new.items (ack.stream - 1) no_stream).log }
{
    let stream = &mut streams[ack.stream as usize - 1];
    let before = stream.chosen_len();
    let after = stream.ack(ack.from, ack.len);
    Counted { before, after }
}

/// Whether a second quorum has acked the open mark of each stream.
fn marks_are_acknowledged(streams: &Vec<LeaderStream>) -> bool
    ensures { result ≡ list_all (λ stream. nat_le stream.initial_len (len_acknowledged stream)) streams.now.items }
{
    for stream in streams {
        if stream.chosen_len() < stream.initial_len() {
            return false;
        }
    }
    true
}
