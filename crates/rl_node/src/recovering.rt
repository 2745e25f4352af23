//! How a candidate counts a promise, and leads.

ghost use Rattle.std.specs.Prelude.{◌≡◌, ℕ, ◌-◌, ◌≤◌, ◌++◌, [], ◌∷◌, true, false, length, map, All, MatchOption, MatchResult, IfOk, IfErr, OnOk, slice_index_or, Some, None};
ghost use Rattle.std.specs.List.{flat_map};
ghost use Rattle.rl_base.specs.declared.limit.TheConstants.{SLOTS, NODES};
ghost use Rattle.rl_batch.specs.Encoding.{batch_bytes};
ghost use Rattle.rl_election.specs.World.{no_stream};
ghost use Rattle.rl_families.specs.Leaders.{open_mark};
ghost use Rattle.rl_msg.specs.Ranges.{HeadInRange, StreamInRange, LogInRange};
ghost use Rattle.rl_paxos.specs.Logs as bytes;
ghost use Rattle.rl_paxos.specs.Recovery.{with_promise, recovered_logs};
ghost use Rattle.rl_nodes.specs.Nodes.{initial_log_of};
ghost use Rattle.rl_nodes.specs.Setups.{SetupFits, node_numbers, stream_numbers};
ghost use Rattle.rl_node.specs.Changing.{with_part};
ghost use Rattle.rl_node.specs.Fits.{IsEpoch, PromiseFits, CandidateFits, LeadFits};
ghost use Rattle.rl_node.specs.Good.{CanTakeIn, TriesToTakeIn};
ghost use Rattle.rl_node.specs.Outs.{Adds};
ghost use Rattle.rl_node.specs.Recovering.{IsNewLead, syncs_of, is_full, some_full, RefusesLog, RefusesLogs, HasBecome, FailsToLead};
ghost use Rattle.rl_node.specs.SetupOf.{setup_of};
ghost use Rattle.rl_node.specs.Standing.{is_running};
ghost use Rattle.rl_node.specs.Taken.{is_candidate, candidate_of, without_candidate, candidate_in, without_candidate_in};

use crate::answer::{Out, Sends, send_each, sending};
use crate::node::{Node, Phase};
use crate::part::{Lead, Part};
use crate::running::Running;
use crate::sending::{From, front};
use crate::setup::Setup;
use rl_base::list::{Ballots, Bytes, Log, Logs};
use rl_base::memory::Memory;
use rl_base::stamp::Stamp;
use rl_batch::encode::encode_batch;
use rl_batch::laws::{reads_back, short};
use rl_cut::family::Family;
use rl_election::candidate::Candidate;
use rl_election::recover_error::RecoverError;
use rl_msg::msg::Msg;
use rl_nodes::node_error::NodeError;
use rl_stream::leader_stream::{LeaderStream, SLOTS};
use rl_txn::batch::Batch;
use rl_txn::item::Items;
use std::alloc::Global;
use std::mem;

/// What a promise makes of a candidate, and what that sends.
#[derive(Drop)]
pub struct Elected {
    pub part: Part,
    pub sends: Sends,
}

impl Node {
    /// Takes a Promise: it counts for the candidate of its epoch, which leads with those that it needs. Any other node
    /// skips it.
    pub(crate) fn take_promise(
        &mut self,
        alloc: Global,
        setup: &Setup,
        from: u32,
        epoch: u32,
        ballots: Ballots,
        logs: Logs,
    ) -> Result<Out, NodeError>
        requires setup { SetupFits (setup_of setup.now) }
        requires up { is_running self.old ≡ true }
        requires can { CanTakeIn (setup_of setup.now) self.old (Msg.Promise from self.old.id epoch ballots logs) }
        ensures tries { TriesToTakeIn (setup_of setup.now) self.old self.new (Msg.Promise from self.old.id epoch ballots logs) result }
        ensures up { is_running self.new ≡ true }
    {
        let Some(candidate) = self.take_candidate(epoch) else {
            return Ok(sending(alloc, Sends::new(alloc)));
        };
        let elected = count_promise(alloc, self.id, setup, candidate, from, ballots, logs)?;
        self.set_part(elected.part);
        Ok(sending(alloc, elected.sends))
    }

    /// Takes the candidate of an epoch out, where there is one. The node follows then.
    fn take_candidate(&mut self, epoch: u32) -> Option<Candidate>
        ensures candidate { result ≡ candidate_in epoch self.old.phase }
        ensures without { self.new ≡ record self.old { phase = without_candidate_in epoch self.old.phase } }
    {
        let Phase::Up(running) = &mut self.phase else {
            return None;
        };
        running.take_candidate(epoch)
    }
}

impl Running {
    /// Takes the candidate of an epoch that its part is, if it is one.
    fn take_candidate(&mut self, epoch: u32) -> Option<Candidate>
        ensures candidate { result ≡ candidate_of epoch self.old.part }
        ensures without { self.new ≡ record self.old { part = without_candidate epoch self.old.part } }
    {
        if !self.part.is_candidate(epoch) {
            return None;
        }
        match mem::replace(&mut self.part, Part::Follows) {
            Part::Stands(candidate) => Some(candidate),
            Part::Follows | Part::Leads(_) => unreachable!(),
        }
    }
}

impl Part {
    /// Whether it is the candidate of an epoch.
    fn is_candidate(&self, epoch: u32) -> bool
        ensures { result ≡ is_candidate epoch self.now }
    {
        match self {
            Part::Stands(candidate) => candidate.epoch() == epoch,
            Part::Follows | Part::Leads(_) => false,
        }
    }
}

/// Counts a promise for a candidate, which leads with those that it needs.
fn count_promise(
    alloc: Global,
    id: u32,
    setup: &Setup,
    candidate: Candidate,
    from: u32,
    ballots: Ballots,
    logs: Logs,
) -> Result<Elected, NodeError>
    requires setup { SetupFits (setup_of setup.now) }
    requires first { 1 ≤ id }
    requires last { id ≤ (setup_of setup.now).nodes }
    requires candidate { CandidateFits (setup_of setup.now) candidate }
    requires ballots { length ballots ≡ candidate.streams }
    requires logs { length logs ≡ candidate.streams }
    requires promise { PromiseFits (setup_of setup.now) candidate.epoch (record { node = from; ballots = ballots; logs = logs }) }
    ensures { let setup = setup_of setup.now in
        let counted = with_promise candidate (record { node = from; ballots = ballots; logs = logs }) in
        MatchResult result (HasBecome setup id counted) (FailsToLead setup id counted) }
{
    reads_back();
    short();
    let mut candidate = candidate;
    if candidate.promise(from, ballots, logs) < setup.first_quorum {
        return Ok(Elected {
            part: Part::Stands(candidate),
            sends: Sends::new(alloc),
        });
    }
    let logs = initial_logs(alloc, &candidate)?;
    let lead = Lead::begin(alloc, setup, candidate.epoch(), logs)?;
    let sends = lead.send_logs(alloc, id, setup)?;
    Ok(Elected {
        part: Part::Leads(lead),
        sends,
    })
}

/// The logs with which the streams of a leader begin: the recovered ones, each with the open mark behind it.
fn initial_logs(alloc: Global, candidate: &Candidate) -> Result<Logs, NodeError>
    requires enough { candidate.now.need ≤ length candidate.now.promises }
    requires epoch { IsEpoch candidate.now.epoch }
    ensures logs { IfOk result (λ logs. logs ≡ map (λ log. log ++ batch_bytes (open_mark candidate.now.epoch) ∷ [])
        (recovered_logs candidate.now.promises candidate.now.streams)) }
    ensures room { OnOk result (some_full (recovered_logs candidate.now.promises candidate.now.streams) ≡ false) }
    ensures refused { IfErr result (RefusesLogs (recovered_logs candidate.now.promises candidate.now.streams)) }
{
    let mark = encode_batch(
        alloc,
        &Batch::Opened(Stamp {
            epoch: candidate.epoch(),
            seq: 1,
        }),
    )?;
    append_each(alloc, recover(alloc, candidate)?, &mark)
}

/// The recovered logs.
fn recover(alloc: Global, candidate: &Candidate) -> Result<Logs, Memory>
    requires { candidate.now.need ≤ length candidate.now.promises }
    ensures { IfOk result (λ logs. logs ≡ recovered_logs candidate.now.promises candidate.now.streams) }
{
    match candidate.recover(alloc) {
        Ok(logs) => Ok(logs),
        Err(RecoverError::Memory) => Err(Memory),
        Err(RecoverError::NotYet { .. }) => unreachable!(),
    }
}

/// Appends a batch to each log. `StreamFull` only where one has no slot left.
fn append_each(alloc: Global, logs: Logs, batch: &Bytes) -> Result<Logs, NodeError>
    ensures logs { IfOk result (λ all. all ≡ map (λ log. log ++ batch.now ∷ []) logs) }
    ensures room { OnOk result (some_full logs ≡ false) }
    ensures refused { IfErr result (RefusesLogs logs) }
{
    let mut all = Logs::new(alloc);
    for log in logs.into_vec() {
        all.push(append(alloc, log, batch)?)?;
    }
    Ok(all)
}

/// Appends a batch to a log. `StreamFull` only where that has no slot left.
fn append(alloc: Global, log: Log, batch: &Bytes) -> Result<Log, NodeError>
    ensures more { IfOk result (λ more. more ≡ log ++ batch.now ∷ []) }
    ensures room { OnOk result (is_full log ≡ false) }
    ensures refused { IfErr result (RefusesLog log) }
{
    let mut log = log;
    if log.len() == SLOTS as usize {
        return Err(NodeError::StreamFull { slots: SLOTS });
    }
    log.push(Bytes::from_slice(alloc, batch.as_slice())?)?;
    Ok(log)
}

impl Lead {
    /// A leader that begins with some logs: nothing is acknowledged, and it has not opened.
    fn begin(alloc: Global, setup: &Setup, epoch: u32, logs: Logs) -> Result<Lead, Memory>
        requires setup { SetupFits (setup_of setup.now) }
        requires streams { length logs ≡ (setup_of setup.now).workers }
        requires short { All (λ (log : bytes.Log). length log ≤ SLOTS) logs }
        ensures { IfOk result (IsNewLead (setup_of setup.now) epoch logs) }
    {
        let mut streams = Vec::with_capacity(alloc, setup.workers as usize)?;
        let mut pending = Vec::with_capacity(alloc, setup.workers as usize)?;
        for log in logs.into_vec() {
            streams.push(LeaderStream::new(alloc, epoch, setup.nodes, setup.second_quorum, log)?)?;
            pending.push(Items::new(alloc))?;
        }
        Ok(Lead {
            epoch,
            streams,
            acknowledged: Family::new(alloc, setup.workers)?,
            works: None,
            pending,
        })
    }

    /// Sends the initial log of each stream to each node.
    fn send_logs(&self, alloc: Global, id: u32, setup: &Setup) -> Result<Sends, Memory>
        requires setup { SetupFits (setup_of setup.now) }
        requires first { 1 ≤ id }
        requires last { id ≤ (setup_of setup.now).nodes }
        requires fits { LeadFits (setup_of setup.now) self.now }
        ensures { let setup = setup_of setup.now in IfOk result (λ sends. Adds [] sends
            (flat_map (λ s. syncs_of id self.now.epoch s (slice_index_or self.now.streams.items (s - 1) no_stream) setup.nodes)
            (stream_numbers setup))) }
    {
        let mut sends = Sends::new(alloc);
        for (i, stream) in self.streams.iter().enumerate() {
            let from = From {
                node: id,
                epoch: self.epoch,
                stream: i as u32 + 1,
            };
            send_initial_each(alloc, &mut sends, from, stream, setup.nodes)?;
        }
        Ok(sends)
    }
}

/// Sends the initial log of a stream to each node.
fn send_initial_each(
    alloc: Global,
    sends: &mut Sends,
    from: From,
    stream: &LeaderStream,
    nodes: u32,
) -> Result<(), Memory>
    requires head { HeadInRange from.node 1 from.epoch }
    requires nodes { nodes ≤ NODES }
    requires stream { StreamInRange from.stream }
    requires log { LogInRange stream.now.log }
    ensures { OnOk result (Adds sends.old sends.new (syncs_of from.node from.epoch from.stream stream.now nodes)) }
{
    let sync = Msg::Sync {
        from: from.node,
        to: 1,
        epoch: from.epoch,
        stream: from.stream,
        log: front(alloc, stream.log(), stream.initial_len() as usize)?,
    };
    send_each(alloc, sends, sync, nodes)
}
