//! An acceptor.

ghost use Rattle.std.specs.Prelude.{◌≡◌, ◌⊎◌, ◌<◌, ◌≤◌, length, Some, None, OnOk, OnErr, IfOk, IfErr};
ghost use Rattle.rl_paxos.specs.Acceptors.{new_acceptor, kept_ballot, kept_log, HasStream, refuses, refuses_accept, prepared, synced, accepted};

use crate::kept::Kept;
use rl_base::limit::SLOTS;
use rl_base::list::{Bytes, Log};
use rl_base::memory::Memory;
use rl_paxos::refused::Refused;
use std::alloc::Global;
use std::marker::Model;

/// One promise for all streams, and of each stream a log and the ballot at which it was adopted.
#[derive(Debug, Drop)]
pub struct Acceptor {
    promised: u32,
    streams: Vec<Kept>,
}

impl Model for Acceptor {
    ghost use Rattle.rl_paxos.specs.Acceptors.{Acceptor};

    ghost Value = { Acceptor };

    ghost view = { λ a. record { promised = a.promised; streams = a.streams.items } };
}

impl Acceptor {
    /// It has promised nothing and keeps an empty log of each stream.
    pub fn new(alloc: Global, streams: u32) -> Result<Acceptor, Memory>
        ensures { IfOk result (λ acceptor. acceptor ≡ new_acceptor streams) }
    {
        let mut kept = Vec::with_capacity(alloc, streams as usize)?;
        for _stream in 0..streams {
            kept.push(Kept::nothing(alloc))?;
        }
        Ok(Acceptor {
            promised: 0,
            streams: kept,
        })
    }

    /// Promises an epoch. `Promised` exactly where it has promised a later one; unchanged then.
    pub fn prepare(&mut self, epoch: u32) -> Result<(), Refused>
        ensures ok { OnOk result (self.new ≡ prepared self.old epoch) }
        ensures allowed { OnOk result (refuses self.old epoch ≡ None) }
        ensures refused { IfErr result (λ refusal. refuses self.old epoch ≡ Some refusal) }
        ensures err { OnErr result (self.new ≡ self.old) }
    {
        if self.promised > epoch {
            return Err(Refused::Promised {
                promised: self.promised,
            });
        }
        self.promised = epoch;
        Ok(())
    }

    /// Promises an epoch, and adopts the log where the stream's ballot is lower. The answer is the stream's length.
    /// `Promised` exactly where it has promised a later epoch; unchanged then.
    pub fn sync(&mut self, epoch: u32, stream: u32, log: Log) -> Result<u32, Refused>
        requires stream { HasStream self.old stream }
        requires short { length log ≤ SLOTS }
        ensures ok { OnOk result (self.new ≡ synced self.old epoch stream log) }
        ensures len { IfOk result (λ len. len ≡ length (kept_log self.new stream)) }
        ensures short { IfOk result (λ len. len ≤ SLOTS) }
        ensures allowed { OnOk result (refuses self.old epoch ≡ None) }
        ensures refused { IfErr result (λ refusal. refuses self.old epoch ≡ Some refusal) }
        ensures err { OnErr result (self.new ≡ self.old) }
    {
        self.prepare(epoch)?;
        let at = stream as usize - 1;
        if self.streams[at].ballot() < epoch {
            self.streams[at] = Kept::adopted(epoch, log);
        }
        Ok(self.streams[at].len())
    }

    /// Appends a batch for the next slot; one for an earlier slot changes nothing. The answer is the stream's length.
    /// Refused in this order: `Promised` exactly where it has promised a later epoch, `OtherBallot` exactly where the
    /// stream's ballot is another, `OutOfOrder` exactly where the slot lies past the end; unchanged after each, and
    /// after `Memory`.
    pub fn accept(
        &mut self,
        epoch: u32,
        stream: u32,
        slot: u32,
        batch: Bytes,
    ) -> Result<u32, Refused>
        requires stream { HasStream self.old stream }
        requires slot { slot < SLOTS }
        ensures ok { OnOk result (self.new ≡ accepted self.old stream slot batch) }
        ensures len { IfOk result (λ len. len ≡ length (kept_log self.new stream)) }
        ensures short { IfOk result (λ len. len ≤ SLOTS) }
        ensures allowed { OnOk result (refuses_accept self.old epoch stream slot ≡ None) }
        ensures refused { IfErr result (λ refusal. (refuses_accept self.old epoch stream slot ≡ Some refusal)
            ⊎ ((refusal ≡ Refused.Memory) × (refuses_accept self.old epoch stream slot ≡ None))) }
        ensures err { OnErr result (self.new ≡ self.old) }
    {
        let promised = self.promised;
        if epoch < promised {
            return Err(Refused::Promised { promised });
        }
        let kept = &mut self.streams[stream as usize - 1];
        if kept.ballot() != epoch {
            return Err(Refused::OtherBallot {
                ballot: kept.ballot(),
            });
        }
        if slot > kept.len() {
            return Err(Refused::OutOfOrder { len: kept.len() });
        }
        Ok(kept.take(slot, batch)?)
    }

    /// The greatest epoch that it promised.
    pub fn promised(&self) -> u32
        ensures { result ≡ self.now.promised }
    {
        self.promised
    }

    /// The ballot of a stream.
    pub fn ballot(&self, s: u32) -> u32
        requires { HasStream self.now s }
        ensures { result ≡ kept_ballot self.now s }
    {
        self.streams[s as usize - 1].ballot()
    }

    /// The log of a stream.
    pub fn log(&self, s: u32) -> &Log
        requires { HasStream self.now s }
        ensures kept { result.now ≡ kept_log self.now s }
        ensures short { length result.now ≤ SLOTS }
    {
        self.streams[s as usize - 1].log()
    }
}
