//! A candidate of an epoch.

ghost use Rattle.std.specs.Prelude.{◌≡◌, ℕ, ◌-◌, ◌<◌, ◌≤◌, ◌↔◌, ◌&&◌, [], length, not, slice_index_or, IfOk, IsErrOf};
ghost use Rattle.rl_paxos.specs.Quorums.{is_node};
ghost use Rattle.rl_paxos.specs.Recovery.{new_candidate, with_promise, has_promised, recovered, recovered_logs, IsRecovered};

use crate::promise::Promise;
use crate::recover_error::RecoverError;
use rl_base::list::{Ballots, Log, Logs};
use rl_base::memory::Memory;
use std::alloc::Global;
use std::marker::Model;

/// The promises that a candidate has collected, one for a node.
#[derive(Debug, Drop)]
pub struct Candidate {
    epoch: u32,
    nodes: u32,
    streams: u32,
    need: u32,
    promises: Vec<Promise>,
}

impl Model for Candidate {
    ghost use Rattle.std.specs.Prelude.{vec_capacity};
    ghost use Rattle.rl_paxos.specs.Recovery.{Candidate};
    ghost use Rattle.rl_election.specs.CandidateFits.{CandidateFits};

    ghost Value = { Candidate };

    ghost view = { λ c. record {
      epoch = c.epoch;
      nodes = c.nodes;
      streams = c.streams;
      need = c.need;
      promises = c.promises.items;
    } };

    ghost invariant = { λ c. CandidateFits c.nodes c.streams c.need (vec_capacity c.promises) c.promises.items };
}

impl Candidate {
    /// A candidate to whom no node has promised, with room for every node's promise.
    pub fn start(
        alloc: Global,
        epoch: u32,
        nodes: u32,
        streams: u32,
        need: u32,
    ) -> Result<Candidate, Memory>
        requires some { 1 ≤ need }
        requires within { need ≤ nodes }
        ensures { IfOk result (λ candidate. candidate ≡ new_candidate epoch nodes streams need) }
    {
        Ok(Candidate {
            epoch,
            nodes,
            streams,
            need,
            promises: Vec::with_capacity(alloc, nodes as usize)?,
        })
    }

    /// Counts a node's promise. A node's second is skipped, and so is that of a number that is no node's.
    /// The answer is how many nodes have promised.
    pub fn promise(&mut self, node: u32, ballots: Ballots, logs: Logs) -> u32
        requires ballots { length ballots ≡ self.old.streams }
        requires logs { length logs ≡ self.old.streams }
        ensures counted { self.new ≡ with_promise self.old
            (record { node = node; ballots = ballots; logs = logs }) }
        ensures have { result ≡ length self.new.promises }
    {
        if self.is_new(node) {
            self.promises
                .push(Promise::new(node, ballots, logs))
                .unwrap();
        }
        self.have()
    }

    /// The recovered log of each stream, copied. `NotYet` exactly while fewer nodes have promised than are needed.
    pub fn recover(&self, alloc: Global) -> Result<Logs, RecoverError>
        ensures ok { IfOk result (λ logs. logs ≡ recovered_logs self.now.promises self.now.streams) }
        ensures rule { IfOk result (λ logs. (s : ℕ) → 1 ≤ s → s ≤ self.now.streams
            → IsRecovered self.now.promises s (slice_index_or logs (s - 1) [])) }
        ensures early { IsErrOf result (RecoverError.NotYet (length self.now.promises) self.now.need)
            ↔ (length self.now.promises < self.now.need) }
        ensures exact { (have need : ℕ) → IsErrOf result (RecoverError.NotYet have need)
            → (have ≡ length self.now.promises) × (need ≡ self.now.need) }
    {
        let have = self.have();
        if have < self.need {
            return Err(RecoverError::NotYet {
                have,
                need: self.need,
            });
        }
        Ok(self.copies(alloc)?)
    }

    /// The epoch at which it stands.
    pub fn epoch(&self) -> u32
        ensures { result ≡ self.now.epoch }
    {
        self.epoch
    }

    /// How many nodes have promised.
    pub fn have(&self) -> u32
        ensures { result ≡ length self.now.promises }
    {
        self.promises.len() as u32
    }

    /// Whether a node has promised.
    pub fn has_promised(&self, node: u32) -> bool
        ensures { result ≡ has_promised self.now.promises node }
    {
        self.promises.iter().any(|p| p.node() == node)
    }

    /// Whether a number is that of a node which has not promised.
    fn is_new(&self, node: u32) -> bool
        ensures { result ≡ (is_node self.now.nodes node && not (has_promised self.now.promises node)) }
    {
        1 <= node && node <= self.nodes && !self.has_promised(node)
    }

    /// The recovered logs.
    fn copies(&self, alloc: Global) -> Result<Logs, Memory>
        requires { 1 ≤ length self.now.promises }
        ensures { IfOk result (λ logs. logs ≡ recovered_logs self.now.promises self.now.streams) }
    {
        let mut logs = Logs::new(alloc);
        for s in 0..self.streams {
            logs.push(self.recovered(s + 1).copy(alloc)?)?;
        }
        Ok(logs)
    }

    /// The recovered log of a stream.
    fn recovered(&self, s: u32) -> &Log
        requires some { 1 ≤ length self.now.promises }
        requires first { 1 ≤ s }
        requires last { s ≤ self.now.streams }
        ensures { result.now ≡ recovered self.now.promises s }
    {
        let mut best = &self.promises[0];
        for promise in &self.promises {
            if promise.is_better(best, s) {
                best = promise;
            }
        }
        best.log(s)
    }
}
