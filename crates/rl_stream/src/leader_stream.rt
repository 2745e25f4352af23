//! A stream at its leader.

ghost use Rattle.std.specs.Prelude.{◌≡◌, ℕ, ◌<◌, ◌≤◌, ◌↔◌, length, OnOk, OnErr, IfOk, IsErrOf};
ghost use Rattle.rl_paxos.specs.Leaders.{new_leading, proposed, with_ack, acked_len, acknowledged_len, IsAcknowledged};
ghost use Rattle.rl_stream.specs.Resends.{resend_of};

use crate::acknowledged::acknowledged_len;
use crate::propose_error::ProposeError;
pub use rl_base::limit::SLOTS;
use rl_base::list::{Bytes, Log};
use rl_base::memory::Memory;
use std::alloc::Global;
use std::marker::Model;

/// The log of a stream at the leader of an epoch, and how much of it each node has acked.
#[derive(Debug, Drop)]
pub struct LeaderStream {
    epoch: u32,
    quorum: u32,
    initial_len: u32,
    log: Log,
    acked: Vec<u32>,
    acknowledged: u32,
}

impl Model for LeaderStream {
    ghost use Rattle.rl_paxos.specs.Leaders.{Leading};
    ghost use Rattle.rl_stream.specs.StreamFits.{StreamFits};

    ghost Value = { Leading };

    ghost view = { λ a. record {
      epoch = a.epoch;
      quorum = a.quorum;
      initial_len = a.initial_len;
      log = a.log;
      acked = a.acked.items;
    } };

    ghost invariant = { λ a. StreamFits a.quorum a.initial_len a.acknowledged a.log a.acked.items };
}

/// What is to be sent again to a node.
#[derive(Clone, Copy, Debug, PartialEq, Eq)]
pub enum Resend {
    /// The initial log.
    Sync,
    /// Each batch from a slot on.
    From { slot: u32 },
    /// Nothing: it has acked all.
    Nothing,
}

impl LeaderStream {
    /// The stream of a leader whose initial log is given. No node has acked anything.
    pub fn new(
        alloc: Global,
        epoch: u32,
        nodes: u32,
        quorum: u32,
        log: Log,
    ) -> Result<LeaderStream, Memory>
        requires some { 1 ≤ quorum }
        requires within { quorum ≤ nodes }
        requires short { length log ≤ SLOTS }
        ensures { IfOk result (λ stream. stream ≡ new_leading epoch nodes quorum log) }
    {
        let acked = vec![in alloc; 0; nodes as usize]?;
        let acknowledged = acknowledged_len(acked.as_slice(), quorum);
        Ok(LeaderStream {
            epoch,
            quorum,
            initial_len: log.len() as u32,
            log,
            acked,
            acknowledged,
        })
    }

    /// Appends a batch. The answer is its slot. `StreamFull` exactly where the stream has `SLOTS` batches; unchanged
    /// then, and after `Memory`.
    pub fn propose(&mut self, batch: Bytes) -> Result<u32, ProposeError>
        ensures ok { OnOk result (self.new ≡ proposed self.old batch) }
        ensures slot { IfOk result (λ slot. slot ≡ length self.old.log) }
        ensures below { IfOk result (λ slot. slot < SLOTS) }
        ensures full { IsErrOf result (ProposeError.StreamFull SLOTS) ↔ (length self.old.log ≡ SLOTS) }
        ensures limit { (slots : ℕ) → IsErrOf result (ProposeError.StreamFull slots) → slots ≡ SLOTS }
        ensures err { OnErr result (self.new ≡ self.old) }
    {
        let slot = self.log.len() as u32;
        if slot == SLOTS {
            return Err(ProposeError::StreamFull { slots: SLOTS });
        }
        self.log.push(batch)?;
        Ok(slot)
    }

    /// Counts an Ack: the greatest length of each node counts. The answer is the chosen length after it.
    /// A number that is no node's changes nothing.
    pub fn ack(&mut self, node: u32, len: u32) -> u32
        requires { len ≤ length self.old.log }
        ensures counted { self.new ≡ with_ack self.old node len }
        ensures acknowledged { IsAcknowledged self.new.quorum self.new.acked result }
        ensures value { result ≡ acknowledged_len self.new.quorum self.new.acked }
        ensures within { result ≤ length self.new.log }
        ensures short { result ≤ SLOTS }
    {
        if node < 1 || node as usize > self.acked.len() {
            return self.chosen_len();
        }
        let acked = &mut self.acked[node as usize - 1];
        *acked = len.max(*acked);
        self.acknowledged = acknowledged_len(self.acked.as_slice(), self.quorum);
        self.chosen_len()
    }

    /// The greatest length that a quorum has acked.
    pub fn chosen_len(&self) -> u32
        ensures acknowledged { IsAcknowledged self.now.quorum self.now.acked result }
        ensures value { result ≡ acknowledged_len self.now.quorum self.now.acked }
        ensures within { result ≤ length self.now.log }
        ensures short { result ≤ SLOTS }
    {
        self.acknowledged
    }

    /// The greatest length that a node has acked; 0 of a number that is no node's.
    pub fn acked(&self, node: u32) -> u32
        ensures acked { result ≡ acked_len self.now node }
        ensures within { result ≤ length self.now.log }
    {
        if node < 1 || node as usize > self.acked.len() {
            0
        } else {
            self.acked[node as usize - 1]
        }
    }

    /// The epoch at which it leads.
    pub fn epoch(&self) -> u32
        ensures { result ≡ self.now.epoch }
    {
        self.epoch
    }

    /// How many batches the initial log has.
    pub fn initial_len(&self) -> u32
        ensures initial_len { result ≡ self.now.initial_len }
        ensures within { result ≤ length self.now.log }
        ensures short { result ≤ SLOTS }
    {
        self.initial_len
    }

    /// The log.
    pub fn log(&self) -> &Log
        ensures kept { result.now ≡ self.now.log }
        ensures short { length result.now ≤ SLOTS }
    {
        &self.log
    }

    /// What to send again to a node: the initial log where it has acked less than that, nothing where it has acked all,
    /// and else the batches from its acked length on.
    pub fn resend(&self, node: u32) -> Resend
        ensures rule { result ≡ resend_of self.now node }
        ensures there { (slot : ℕ) → result ≡ Resend.From slot → slot < length self.now.log }
        ensures acked_first { (slot : ℕ) → result ≡ Resend.From slot → self.now.initial_len ≤ slot }
    {
        let acked = self.acked(node);
        if acked < self.initial_len {
            Resend::Sync
        } else if acked as usize == self.log.len() {
            Resend::Nothing
        } else {
            Resend::From { slot: acked }
        }
    }
}
