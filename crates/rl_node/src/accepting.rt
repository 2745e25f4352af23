//! What a node does with messages to its acceptor.

ghost use Rattle.std.specs.Prelude.{◌≡◌, ◌≤◌, [], ◌∷◌, true, length, map, IfOk};
ghost use Rattle.rl_base.specs.declared.limit.TheConstants.{SLOTS};
ghost use Rattle.rl_msg.specs.Ranges.{HeadInRange, StreamInRange, MsgInRange};
ghost use Rattle.rl_paxos.specs.Acceptors.{Kept};
ghost use Rattle.rl_node.specs.Good.{CanTake, TriesToTake};
ghost use Rattle.rl_node.specs.Outs.{IsSending};
ghost use Rattle.rl_node.specs.Refusing.{refused_with};
ghost use Rattle.rl_node.specs.Standing.{is_running};

use crate::answer::{Out, answering, denying};
use crate::node::Node;
use rl_base::list::{Ballots, Bytes, Log, Logs};
use rl_base::memory::Memory;
use rl_msg::msg::Msg;
use rl_nodes::node_error::NodeError;
use rl_paxos::refused::Refused;
use std::alloc::Global;

impl Node {
    /// Takes a Prepare: it promises, or refuses.
    pub(crate) fn take_prepare(
        &mut self,
        alloc: Global,
        workers: u32,
        from: u32,
        epoch: u32,
    ) -> Result<Out, NodeError>
        requires up { is_running self.old ≡ true }
        requires can { CanTake self.old (Msg.Prepare from self.old.id epoch) }
        requires workers { workers ≡ length self.old.acceptor.streams }
        ensures tries { TriesToTake self.old self.new (Msg.Prepare from self.old.id epoch) result }
        ensures up { is_running self.new ≡ true }
    {
        match self.acceptor.prepare(epoch) {
            Ok(()) => Ok(self.send_promise(alloc, workers, from, epoch)?),
            Err(refused) => Ok(denying(alloc, refused)),
        }
    }

    /// Takes a Sync: it adopts the log at a higher ballot, and acks the length; or it refuses.
    pub(crate) fn take_sync(
        &mut self,
        alloc: Global,
        from: u32,
        epoch: u32,
        stream: u32,
        log: Log,
    ) -> Result<Out, NodeError>
        requires up { is_running self.old ≡ true }
        requires can { CanTake self.old (Msg.Sync from self.old.id epoch stream log) }
        ensures tries { TriesToTake self.old self.new (Msg.Sync from self.old.id epoch stream log) result }
        ensures up { is_running self.new ≡ true }
    {
        match self.acceptor.sync(epoch, stream, log) {
            Ok(len) => Ok(self.send_ack(alloc, from, epoch, stream, len)?),
            Err(refused) => Ok(denying(alloc, refused)),
        }
    }

    /// Takes an Accept: it appends the batch in the next slot, and acks the length; or it refuses.
    pub(crate) fn take_accept(
        &mut self,
        alloc: Global,
        from: u32,
        epoch: u32,
        stream: u32,
        slot: u32,
        batch: Bytes,
    ) -> Result<Out, NodeError>
        requires up { is_running self.old ≡ true }
        requires can { CanTake self.old (Msg.Accept from self.old.id epoch stream slot batch) }
        ensures tries { TriesToTake self.old self.new (Msg.Accept from self.old.id epoch stream slot batch) result }
        ensures up { is_running self.new ≡ true }
    {
        match self.acceptor.accept(epoch, stream, slot, batch) {
            Ok(len) => Ok(self.send_ack(alloc, from, epoch, stream, len)?),
            Err(refused) => refused_with(alloc, refused),
        }
    }

    /// Sends an Ack.
    fn send_ack(
        &self,
        alloc: Global,
        to: u32,
        epoch: u32,
        stream: u32,
        len: u32,
    ) -> Result<Out, Memory>
        requires head { HeadInRange self.now.id to epoch }
        requires stream { StreamInRange stream }
        requires len { len ≤ SLOTS }
        ensures { IfOk result (IsSending (Msg.Ack self.now.id to epoch stream len ∷ [])) }
    {
        let ack = Msg::Ack {
            from: self.id,
            to,
            epoch,
            stream,
            len,
        };
        answering(alloc, &ack)
    }

    /// Sends a Promise with its ballots and logs.
    fn send_promise(&self, alloc: Global, workers: u32, to: u32, epoch: u32) -> Result<Out, Memory>
        requires range { MsgInRange (Msg.Promise self.now.id to epoch
            (map (λ (k : Kept). k.ballot) self.now.acceptor.streams)
            (map (λ (k : Kept). k.log) self.now.acceptor.streams)) }
        requires workers { workers ≡ length self.now.acceptor.streams }
        ensures { IfOk result (IsSending (Msg.Promise self.now.id to epoch
            (map (λ (k : Kept). k.ballot) self.now.acceptor.streams)
            (map (λ (k : Kept). k.log) self.now.acceptor.streams) ∷ [])) }
    {
        let promise = Msg::Promise {
            from: self.id,
            to,
            epoch,
            ballots: self.ballots(alloc, workers)?,
            logs: self.logs(alloc, workers)?,
        };
        answering(alloc, &promise)
    }

    /// The ballot of each stream.
    fn ballots(&self, alloc: Global, workers: u32) -> Result<Ballots, Memory>
        requires { workers ≡ length self.now.acceptor.streams }
        ensures { IfOk result (λ ballots. ballots ≡ map (λ (k : Kept). k.ballot) self.now.acceptor.streams) }
    {
        let mut ballots = Ballots::new(alloc);
        for before in 0..workers {
            ballots.push(self.acceptor.ballot(before + 1))?;
        }
        Ok(ballots)
    }

    /// The log of each stream.
    fn logs(&self, alloc: Global, workers: u32) -> Result<Logs, Memory>
        requires { workers ≡ length self.now.acceptor.streams }
        ensures { IfOk result (λ logs. logs ≡ map (λ (k : Kept). k.log) self.now.acceptor.streams) }
    {
        let mut logs = Logs::new(alloc);
        for before in 0..workers {
            logs.push(self.acceptor.log(before + 1).copy(alloc)?)?;
        }
        Ok(logs)
    }
}

/// What is handed out where the acceptor refuses a message. Want of memory is no such refusal.
fn refused_with(alloc: Global, refused: Refused) -> Result<Out, NodeError>
    ensures { result ≡ refused_with refused }
{
    match refused {
        Refused::Memory => Err(NodeError::Memory),
        _ => Ok(denying(alloc, refused)),
    }
}
