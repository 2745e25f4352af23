//! What a node promised with.

ghost use Rattle.std.specs.Prelude.{◌≡◌, ◌≤◌, ◌<◌, length};
ghost use Rattle.rl_paxos.specs.Recovery.{promised_ballot, promised_log, is_better};

use rl_base::list::{Ballots, Log, Logs};
use std::marker::Model;

/// The ballot and the log of each of a node's streams.
#[derive(Debug, Drop)]
pub struct Promise {
    node: u32,
    ballots: Ballots,
    logs: Logs,
}

impl Model for Promise {
    ghost use Rattle.rl_paxos.specs.Recovery.{Promise};

    ghost Value = { Promise };

    ghost view = { λ p. record { node = p.node; ballots = p.ballots; logs = p.logs } };
}

impl Promise {
    /// A node's promise.
    pub fn new(node: u32, ballots: Ballots, logs: Logs) -> Promise
        ensures { result ≡ record { node = node; ballots = ballots; logs = logs } }
    {
        Promise {
            node,
            ballots,
            logs,
        }
    }

    /// The node.
    pub fn node(&self) -> u32
        ensures { result ≡ self.now.node }
    {
        self.node
    }

    /// The ballot of a stream.
    pub fn ballot(&self, s: u32) -> u32
        requires first { 1 ≤ s }
        requires last { s ≤ length self.now.ballots }
        ensures { result ≡ promised_ballot s self.now }
    {
        *self.ballots.get(s as usize - 1)
    }

    /// The log of a stream.
    pub fn log(&self, s: u32) -> &Log
        requires first { 1 ≤ s }
        requires last { s ≤ length self.now.logs }
        ensures { result.now ≡ promised_log s self.now }
    {
        self.logs.get(s as usize - 1)
    }

    /// Whether it is better on a stream than another: by ballot, by length, then by node.
    pub fn is_better(&self, other: &Promise, s: u32) -> bool
        requires first { 1 ≤ s }
        requires ballots { s ≤ length self.now.ballots }
        requires logs { s ≤ length self.now.logs }
        requires other_ballots { s ≤ length other.now.ballots }
        requires other_logs { s ≤ length other.now.logs }
        ensures { result ≡ is_better s self.now other.now }
    {
        let (ballot, other_ballot) = (self.ballot(s), other.ballot(s));
        let (len, other_len) = (self.log(s).len(), other.log(s).len());
        other_ballot < ballot
            || other_ballot == ballot
                && (other_len < len || other_len == len && self.node < other.node)
    }
}
