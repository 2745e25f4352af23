//! What an acceptor keeps of one stream.

ghost use Rattle.std.specs.Prelude.{◌≡◌, ◌<◌, ◌≤◌, [], ◌∷◌, ◌++◌, length, OnOk, OnErr, IfOk, if◌then◌else◌, ◌==◌};
ghost use Rattle.rl_paxos.specs.Acceptors.{nothing_kept};

use rl_base::limit::SLOTS;
use rl_base::list::{Bytes, Log};
use rl_base::memory::Memory;
use std::alloc::Global;
use std::marker::Model;

/// A log of at most `SLOTS` batches, and the ballot at which it was adopted.
#[derive(Debug, Drop)]
pub struct Kept {
    ballot: u32,
    log: Log,
}

impl Model for Kept {
    ghost use Rattle.std.specs.Prelude.{◌≤◌, length};
    ghost use Rattle.rl_base.specs.declared.limit.TheConstants.{SLOTS};
    ghost use Rattle.rl_paxos.specs.Acceptors.{Kept};

    ghost Value = { Kept };

    ghost view = { λ k. record { ballot = k.ballot; log = k.log } };

    ghost invariant = { λ k. length k.log ≤ SLOTS };
}

impl Kept {
    /// Of a stream that nothing was sent for.
    pub fn nothing(alloc: Global) -> Kept
        ensures { result ≡ nothing_kept }
    {
        Kept {
            ballot: 0,
            log: Log::new(alloc),
        }
    }

    /// A log that is adopted at a ballot.
    pub fn adopted(ballot: u32, log: Log) -> Kept
        requires { length log ≤ SLOTS }
        ensures { result ≡ record { ballot = ballot; log = log } }
    {
        Kept { ballot, log }
    }

    /// The ballot.
    pub fn ballot(&self) -> u32
        ensures { result ≡ self.now.ballot }
    {
        self.ballot
    }

    /// The log.
    pub fn log(&self) -> &Log
        ensures kept { result.now ≡ self.now.log }
        ensures short { length result.now ≤ SLOTS }
    {
        &self.log
    }

    /// How many batches the log has.
    pub fn len(&self) -> u32
        ensures counted { result ≡ length self.now.log }
        ensures short { result ≤ SLOTS }
    {
        self.log.len() as u32
    }

    /// Appends a batch for the next slot; one for an earlier slot changes nothing. After `Memory` it is unchanged.
    pub fn take(&mut self, slot: u32, batch: Bytes) -> Result<u32, Memory>
        requires room { slot < SLOTS }
        requires next { slot ≤ length self.old.log }
        ensures ok { OnOk result (self.new ≡ (if slot == length self.old.log
            then record self.old { log = self.old.log ++ batch ∷ [] } else self.old)) }
        ensures len { IfOk result (λ len. len ≡ length self.new.log) }
        ensures short { IfOk result (λ len. len ≤ SLOTS) }
        ensures err { OnErr result (self.new ≡ self.old) }
    {
        if slot == self.len() {
            self.log.push(batch)?;
        }
        Ok(self.len())
    }
}
