//! What a node does with the bytes of a message.

ghost use Rattle.std.specs.Prelude.{◌≡◌, ℕ, true, Ok, IfOk, IfErr};
ghost use Rattle.rl_msg.specs.Ranges.{MsgInRange};
ghost use Rattle.rl_msg.specs.Reading.{read_msg};
ghost use Rattle.rl_nodes.specs.Handles.{handles};
ghost use Rattle.rl_nodes.specs.Setups.{SetupFits};
ghost use Rattle.rl_node.specs.Doing.{DoesDue, RefusesDue};
ghost use Rattle.rl_node.specs.Good.{IsWell, CanTakeIn, TriesToTakeIn};
ghost use Rattle.rl_node.specs.Inner.{TriesDue};
ghost use Rattle.rl_node.specs.Receiving.{RefusesBytes};
ghost use Rattle.rl_node.specs.SetupOf.{setup_of};
ghost use Rattle.rl_node.specs.Standing.{IsNode, is_running};

use crate::acking::Ack;
use crate::answer::Out;
use crate::node::Node;
use crate::setup::Setup;
use rl_fields::decode_error::DecodeError;
use rl_msg::decode::decode_msg;
use rl_msg::msg::Msg;
use rl_nodes::node_error::NodeError;
use std::alloc::Global;

impl Node {
    /// It takes the message that some bytes are. `BadMessage` exactly where they are none, or have something that none has
    /// that a node of the run sends to it; unchanged then. `StreamFull` exactly where a log that it would recover as a
    /// candidate has no slot left for the open mark; `Memory`.
    pub fn handle(&mut self, alloc: Global, setup: &Setup, bytes: &[u8]) -> Result<Out, NodeError>
        requires setup { SetupFits (setup_of setup.now) }
        requires node { IsNode (setup_of setup.now) self.old }
        requires up { is_running self.old ≡ true }
        ensures done { let setup = setup_of setup.now in
            DoesDue setup (λ a x. handles setup a x bytes.now) self.old self.new result }
        ensures refused { let setup = setup_of setup.now in
            RefusesDue setup (λ a x. handles setup a x bytes.now) self.old self.new result }
        ensures up { is_running self.new ≡ true }
    {
        self.check()?;
        let answer = self.receive(alloc, setup, bytes);
        self.note(&answer);
        answer
    }

    /// Takes the message that some bytes are.
    fn receive(&mut self, alloc: Global, setup: &Setup, bytes: &[u8]) -> Result<Out, NodeError>
        requires setup { SetupFits (setup_of setup.now) }
        requires node { IsWell (setup_of setup.now) self.old }
        requires up { is_running self.old ≡ true }
        ensures tries { let setup = setup_of setup.now in
            TriesDue setup (λ a x. handles setup a x bytes.now) self.old self.new result }
        ensures up { is_running self.new ≡ true }
    {
        let m = read(alloc, bytes)?;
        if self.is_bad(alloc, setup, &m)? {
            return Err(NodeError::BadMessage);
        }
        self.take(alloc, setup, m)
    }

    /// Takes a message that is not bad.
    fn take(&mut self, alloc: Global, setup: &Setup, m: Msg) -> Result<Out, NodeError>
        requires setup { SetupFits (setup_of setup.now) }
        requires up { is_running self.old ≡ true }
        requires can { CanTakeIn (setup_of setup.now) self.old m }
        ensures tries { TriesToTakeIn (setup_of setup.now) self.old self.new m result }
        ensures up { is_running self.new ≡ true }
    {
        match m {
            Msg::Prepare { from, epoch, .. } => {
                self.take_prepare(alloc, setup.workers, from, epoch)
            }
            Msg::Promise {
                from,
                epoch,
                ballots,
                logs,
                ..
            } => self.take_promise(alloc, setup, from, epoch, ballots, logs),
            Msg::Sync {
                from,
                epoch,
                stream,
                log,
                ..
            } => self.take_sync(alloc, from, epoch, stream, log),
            Msg::Accept {
                from,
                epoch,
                stream,
                slot,
                batch,
                ..
            } => self.take_accept(alloc, from, epoch, stream, slot, batch),
            Msg::Ack {
                from,
                epoch,
                stream,
                len,
                ..
            } => self.take_ack(alloc, setup, epoch, Ack { stream, from, len }),
            Msg::Known {
                from,
                epoch,
                stream,
                len,
                ..
            } => self.take_known(alloc, from, epoch, stream, len),
        }
    }
}

/// The message that some bytes are. `BadMessage` exactly where they are none.
fn read(alloc: Global, bytes: &[u8]) -> Result<Msg, NodeError>
    ensures read { IfOk result (λ m. read_msg bytes.now ≡ Ok m) }
    ensures in_range { IfOk result (λ m. MsgInRange m) }
    ensures refused { IfErr result (RefusesBytes bytes.now) }
{
    match decode_msg(alloc, bytes) {
        Ok(m) => Ok(m),
        Err(DecodeError::Memory) => Err(NodeError::Memory),
        Err(DecodeError::Fault { .. }) => Err(NodeError::BadMessage),
    }
}
