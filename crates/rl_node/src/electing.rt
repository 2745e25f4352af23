//! How a node stands for an epoch, and sends again.

ghost use Rattle.std.specs.Prelude.{◌≡◌, ℕ, ◌-◌, ◌≤◌, [], ◌∷◌, true, None, Option, not, map, filter, slice_index_or, OnOk, IfOk};
ghost use Rattle.std.specs.List.{range_with_len, flat_map};
ghost use Rattle.rl_base.specs.declared.limit.TheConstants.{NODES};
ghost use Rattle.rl_election.specs.World.{no_stream};
ghost use Rattle.rl_msg.specs.Ranges.{HeadInRange, StreamInRange, LogInRange};
ghost use Rattle.rl_paxos.specs.Acceptors.{refuses, prepared};
ghost use Rattle.rl_paxos.specs.Recovery.{has_promised};
ghost use Rattle.rl_worker.specs.Acts.{Core};
ghost use Rattle.rl_nodes.specs.Elections.{elects, ticks, sends_again, resends};
ghost use Rattle.rl_nodes.specs.Setups.{SetupFits, node_numbers, stream_numbers};
ghost use Rattle.rl_node.specs.Changing.{with_part};
ghost use Rattle.rl_node.specs.Doing.{DoesDue, RefusesDue};
ghost use Rattle.rl_node.specs.Fits.{LeadFits};
ghost use Rattle.rl_node.specs.Inner.{TriesDue};
ghost use Rattle.rl_node.specs.Outs.{Adds};
ghost use Rattle.rl_node.specs.Sending.{resends_of, knowns_of};
ghost use Rattle.rl_node.specs.SetupOf.{setup_of};
ghost use Rattle.rl_node.specs.Standing.{IsNode, is_running, IsPart, ForPart, lead_with};

use crate::answer::{Out, Sends, send, send_each, sending};
use crate::node::{Node, Phase};
use crate::part::{Lead, Part};
use crate::sending::{From, send_again, send_known_again};
use crate::setup::Setup;
use rl_base::epoch::next_epoch;
use rl_base::memory::Memory;
use rl_election::candidate::Candidate;
use rl_msg::msg::Msg;
use rl_nodes::node_error::NodeError;
use rl_stream::leader_stream::LeaderStream;
use std::alloc::Global;

impl Node {
    /// It stands for its least epoch above the promised one: it promises that to itself, gives up any earlier part, and
    /// asks each node for its promise. `NoEpoch` exactly where there is no such epoch; unchanged then. `Memory`.
    pub fn elect(&mut self, alloc: Global, setup: &Setup) -> Result<Out, NodeError>
        requires setup { SetupFits (setup_of setup.now) }
        requires node { IsNode (setup_of setup.now) self.old }
        requires up { is_running self.old ≡ true }
        ensures done { let setup = setup_of setup.now in DoesDue setup (elects setup) self.old self.new result }
        ensures refused { let setup = setup_of setup.now in RefusesDue setup (elects setup) self.old self.new result }
        ensures up { is_running self.new ≡ true }
    {
        self.check()?;
        let answer = self.stand(alloc, setup);
        self.note(&answer);
        answer
    }

    fn stand(&mut self, alloc: Global, setup: &Setup) -> Result<Out, NodeError>
        requires setup { SetupFits (setup_of setup.now) }
        requires node { IsNode (setup_of setup.now) self.old }
        requires up { is_running self.old ≡ true }
        ensures tries { let setup = setup_of setup.now in TriesDue setup (elects setup) self.old self.new result }
        ensures up { is_running self.new ≡ true }
    {
        let promised = self.acceptor.promised();
        let Some(epoch) = next_epoch(promised, self.id, setup.nodes) else {
            return Err(NodeError::NoEpoch { promised });
        };
        let candidate = Candidate::start(
            alloc,
            epoch,
            setup.nodes,
            setup.workers,
            setup.first_quorum,
        )?;
        let mut sends = Sends::new(alloc);
        send_each(alloc, &mut sends, self.prepare(1, epoch), setup.nodes)?;
        self.promise_itself(epoch);
        self.set_part(Part::Stands(candidate));
        Ok(sending(alloc, sends))
    }

    /// A Prepare to a node.
    fn prepare(&self, to: u32, epoch: u32) -> Msg
        ensures { result ≡ Msg.Prepare self.now.id to epoch }
    {
        Msg::Prepare {
            from: self.id,
            to,
            epoch,
        }
    }

    /// Promises an epoch to itself.
    fn promise_itself(&mut self, epoch: u32)
        requires { refuses self.old.acceptor epoch ≡ None }
        ensures { self.new ≡ record self.old { acceptor = prepared self.old.acceptor epoch } }
    {
        let Ok(()) = self.acceptor.prepare(epoch) else {
            unreachable!()
        };
    }

    /// Takes another part, where it is up.
    pub(crate) fn set_part(&mut self, part: Part)
        ensures { self.new ≡ with_part self.old part }
    {
        if let Phase::Up(running) = &mut self.phase {
            running.part = part;
        }
    }

    /// It sends again what may have been lost, and changes nothing. `Memory`.
    pub fn tick(&mut self, alloc: Global, setup: &Setup) -> Result<Out, NodeError>
        requires setup { SetupFits (setup_of setup.now) }
        requires node { IsNode (setup_of setup.now) self.old }
        requires up { is_running self.old ≡ true }
        ensures done { let setup = setup_of setup.now in DoesDue setup (ticks setup) self.old self.new result }
        ensures refused { let setup = setup_of setup.now in RefusesDue setup (ticks setup) self.old self.new result }
        ensures up { is_running self.new ≡ true }
    {
        self.check()?;
        let answer = self.resend(alloc, setup);
        self.note(&answer);
        answer
    }

    fn resend(&self, alloc: Global, setup: &Setup) -> Result<Out, NodeError>
        requires setup { SetupFits (setup_of setup.now) }
        requires node { IsNode (setup_of setup.now) self.now }
        requires up { is_running self.now ≡ true }
        ensures { let setup = setup_of setup.now in TriesDue setup (ticks setup) self.now self.now result }
    {
        let Phase::Up(running) = &self.phase else {
            unreachable!()
        };
        let sends = running.part.resend(alloc, self.id, setup)?;
        Ok(sending(alloc, sends))
    }
}

impl Part {
    /// What node `id` sends again.
    fn resend(&self, alloc: Global, id: u32, setup: &Setup) -> Result<Sends, Memory>
        requires setup { SetupFits (setup_of setup.now) }
        requires first { 1 ≤ id }
        requires last { id ≤ (setup_of setup.now).nodes }
        requires part { IsPart (setup_of setup.now) self.now }
        ensures { let setup = setup_of setup.now in ForPart setup self.now (λ x.
            IfOk result (λ sends. Adds [] sends (sends_again setup id x))) }
    {
        let mut sends = Sends::new(alloc);
        match self {
            Part::Follows => {}
            Part::Stands(candidate) => ask_again(alloc, &mut sends, id, candidate, setup.nodes)?,
            Part::Leads(lead) => lead.resend(alloc, &mut sends, id, setup)?,
        }
        Ok(sends)
    }
}

/// Asks each node again that has not promised.
fn ask_again(
    alloc: Global,
    sends: &mut Sends,
    id: u32,
    candidate: &Candidate,
    nodes: u32,
) -> Result<(), Memory>
    requires head { HeadInRange id 1 candidate.now.epoch }
    requires nodes { nodes ≤ NODES }
    ensures { OnOk result (Adds sends.old sends.new (map (λ to. Msg.Prepare id to candidate.now.epoch)
        (filter (λ to. not (has_promised candidate.now.promises to)) (range_with_len 1 nodes)))) }
{
    for before in 0..nodes {
        let to = before + 1;
        if !candidate.has_promised(to) {
            send_prepare(alloc, sends, id, to, candidate.epoch())?;
        }
    }
    Ok(())
}

/// Asks a node for its promise.
fn send_prepare(
    alloc: Global,
    sends: &mut Sends,
    from: u32,
    to: u32,
    epoch: u32,
) -> Result<(), Memory>
    requires { HeadInRange from to epoch }
    ensures { OnOk result (Adds sends.old sends.new (Msg.Prepare from to epoch ∷ [])) }
{
    send(alloc, sends, &Msg::Prepare { from, to, epoch })
}

impl Lead {
    /// What the leader sends again: of each stream, to each node, what that has not acked; and then how much of each
    /// stream a second quorum has acked.
    fn resend(&self, alloc: Global, sends: &mut Sends, id: u32, setup: &Setup) -> Result<(), Memory>
        requires setup { SetupFits (setup_of setup.now) }
        requires first { 1 ≤ id }
        requires last { id ≤ (setup_of setup.now).nodes }
        requires fits { LeadFits (setup_of setup.now) self.now }
        ensures { let setup = setup_of setup.now in (core : Option Core) → OnOk result
            (Adds sends.old sends.new (resends setup id (lead_with self.now core))) }
    {
        self.resend_logs(alloc, sends, id, setup)?;
        self.resend_known(alloc, sends, id, setup)
    }

    /// Of each stream, to each node, what that has not acked.
    fn resend_logs(
        &self,
        alloc: Global,
        sends: &mut Sends,
        id: u32,
        setup: &Setup,
    ) -> Result<(), Memory>
        requires setup { SetupFits (setup_of setup.now) }
        requires first { 1 ≤ id }
        requires last { id ≤ (setup_of setup.now).nodes }
        requires fits { LeadFits (setup_of setup.now) self.now }
        ensures { let setup = setup_of setup.now in OnOk result (Adds sends.old sends.new
            (flat_map (λ s. flat_map (resends_of id self.now.epoch s
            (slice_index_or self.now.streams.items (s - 1) no_stream)) (node_numbers setup)) (stream_numbers setup))) }
    {
        for (i, stream) in self.streams.iter().enumerate() {
            let from = From {
                node: id,
                epoch: self.epoch,
                stream: i as u32 + 1,
            };
            send_stream_again(alloc, sends, from, stream, setup.nodes)?;
        }
        Ok(())
    }

    /// How much of each stream a second quorum has acked, where it has acked some.
    fn resend_known(
        &self,
        alloc: Global,
        sends: &mut Sends,
        id: u32,
        setup: &Setup,
    ) -> Result<(), Memory>
        requires setup { SetupFits (setup_of setup.now) }
        requires first { 1 ≤ id }
        requires last { id ≤ (setup_of setup.now).nodes }
        requires fits { LeadFits (setup_of setup.now) self.now }
        ensures { let setup = setup_of setup.now in OnOk result (Adds sends.old sends.new
            (flat_map (λ s. knowns_of id self.now.epoch s
            (slice_index_or self.now.streams.items (s - 1) no_stream) setup.nodes) (stream_numbers setup))) }
    {
        for (i, stream) in self.streams.iter().enumerate() {
            let from = From {
                node: id,
                epoch: self.epoch,
                stream: i as u32 + 1,
            };
            send_known_again(alloc, sends, from, stream, setup.nodes)?;
        }
        Ok(())
    }
}

/// Sends to each node what it has not acked of a stream.
fn send_stream_again(
    alloc: Global,
    sends: &mut Sends,
    from: From,
    stream: &LeaderStream,
    nodes: u32,
) -> Result<(), Memory>
    requires head { HeadInRange from.node 1 from.epoch }
    requires nodes { nodes ≤ NODES }
    requires stream { StreamInRange from.stream }
    requires log { LogInRange stream.now.log }
    ensures { OnOk result (Adds sends.old sends.new
        (flat_map (resends_of from.node from.epoch from.stream stream.now) (range_with_len 1 nodes))) }
{
    for before in 0..nodes {
        send_again(alloc, sends, from, stream, before + 1)?;
    }
    Ok(())
}
