//! What was sent, released and told.

ghost use Rattle.std.specs.Prelude.{◌≡◌, ℕ, ◌<◌, ◌≤◌, ◌⊎◌, [], ◌∷◌, ◌++◌, length, map, option_to_list, None, IsSome, IsTrue, OnOk, IfErr};
ghost use Rattle.std.specs.Option.{option_map, option_map_or};
ghost use Rattle.rl_base.specs.declared.limit.TheConstants.{BYTES};
ghost use Rattle.rl_net.specs.Messages.{bytes_sent, message_at, dropped_at};
ghost use Rattle.rl_world.specs.Finishing.{HasFinished, HasNotFinished};
ghost use Rattle.rl_world.specs.Refusing.{IsByBytes};
ghost use Rattle.rl_world.specs.Reported.{denied_lines};
ghost use Rattle.rl_world.specs.Stepping.{HasTakenStep};
ghost use Rattle.rl_world.specs.Telling.{message_of, opened_middle, HasTaken, IsQuiet};

use crate::lines::push_denied;
use crate::releases::release;
use crate::world_error::WorldError;
use rl_base::limit::{LimitName, SLOTS};
use rl_base::memory::Memory;
use rl_net::net::Net;
use rl_node::NodeError;
use rl_node::answer::{Opened, Out, Sends};
use rl_paxos::refused::Refused;
use rl_report::middle::{Lines, Middle};
use rl_txn::item::Items;
use std::alloc::Global;

/// The messages and how many there are, the released list, and the lines of the report so far.
#[derive(Drop)]
pub struct Told {
    pub net: Net,
    pub sent: u64,
    pub released: Items,
    pub lines: Lines,
}

impl Told {
    /// Nothing yet.
    pub fn new(alloc: Global) -> Told
        ensures { result ≡ record { net = []; sent = 0; released = []; lines = [] } }
    {
        Told {
            net: Net::new(alloc),
            sent: 0,
            released: Items::new(alloc),
            lines: Lines::new(alloc),
        }
    }

    /// Drops a message, or tells that none of its number was sent.
    pub fn discard(&mut self, number: u64) -> Result<(), Memory>
        ensures net { self.new.net ≡ dropped_at self.old.net number }
        ensures told { OnOk result ((IsSome (message_at self.old.net number) × (self.new.lines ≡ self.old.lines))
            ⊎ ((message_at self.old.net number ≡ None) × (self.new.lines ≡ self.old.lines ++ Middle.NoMessage number ∷ []))) }
        ensures sent { self.new.sent ≡ self.old.sent }
        ensures released { self.new.released ≡ self.old.released }
    {
        match self.net.discard(number) {
            Ok(()) => Ok(()),
            Err(_) => self.lines.push(Middle::NoMessage { number }),
        }
    }

    /// Takes what a node answered at the message of a number, or at 0 where it received none. `Limit`; `Memory`.
    pub fn finish(
        &mut self,
        number: u64,
        node: u32,
        answer: Result<Out, NodeError>,
    ) -> Result<(), WorldError>
        requires few { bytes_sent self.old.net ≤ BYTES }
        requires count { self.old.sent ≡ length self.old.net }
        ensures ok { OnOk result (HasFinished self.old self.new number node answer) }
        ensures err { IfErr result (HasNotFinished self.old answer) }
        ensures few { bytes_sent self.new.net ≤ BYTES }
        ensures count { self.new.sent ≡ length self.new.net }
    {
        match answer {
            Ok(out) => self.take(number, node, out),
            Err(NodeError::StreamFull { .. }) => Err(WorldError::Limit {
                name: LimitName::Slots,
                limit: SLOTS,
            }),
            Err(NodeError::BadMessage) | Err(NodeError::NoEpoch { .. }) => Ok(()),
            Err(NodeError::Memory) => Err(WorldError::Memory),
        }
    }

    /// Takes what a node hands out at the message of a number, or at 0 where it received none.
    ///
    /// `Limit` exactly where the bytes of all messages would be more than their limit; `Memory`.
    fn take(&mut self, number: u64, node: u32, out: Out) -> Result<(), WorldError>
        requires few { bytes_sent self.old.net ≤ BYTES }
        requires count { self.old.sent ≡ length self.old.net }
        ensures taken { OnOk result (HasTaken self.old self.new number node out) }
        ensures refused { IfErr result
            (IsByBytes (BYTES < bytes_sent (self.old.net ++ map message_of out.sends))) }
        ensures few { bytes_sent self.new.net ≤ BYTES }
        ensures count { self.new.sent ≡ length self.new.net }
    {
        if is_quiet(&out) {
            return Ok(());
        }
        let Out {
            sends,
            opened,
            denied,
            released,
        } = out;
        self.send(sends)?;
        release(&mut self.released, released)?;
        self.tell(number, node, denied, opened)?;
        Ok(())
    }

    /// Takes what a node hands out at a step of a worker, and the line of an attempt that was refused.
    ///
    /// `Limit` exactly where the bytes of all messages would be more than their limit; `Memory`.
    pub fn take_step(
        &mut self,
        node: u32,
        out: Out,
        refused: Option<Middle>,
    ) -> Result<(), WorldError>
        requires few { bytes_sent self.old.net ≤ BYTES }
        requires count { self.old.sent ≡ length self.old.net }
        ensures taken { OnOk result (HasTakenStep self.old self.new node out refused) }
        ensures refused { IfErr result
            (IsByBytes (BYTES < bytes_sent (self.old.net ++ map message_of out.sends))) }
        ensures few { bytes_sent self.new.net ≤ BYTES }
        ensures count { self.new.sent ≡ length self.new.net }
    {
        self.take(0, node, out)?;
        if let Some(line) = refused {
            self.lines.push(line)?;
        }
        Ok(())
    }

    /// Sends some messages.
    fn send(&mut self, sends: Sends) -> Result<(), WorldError>
        requires few { bytes_sent self.old.net ≤ BYTES }
        requires count { self.old.sent ≡ length self.old.net }
        ensures sent { OnOk result (self.new.net ≡ self.old.net ++ map message_of sends) }
        ensures few { bytes_sent self.new.net ≤ BYTES }
        ensures count { self.new.sent ≡ length self.new.net }
        ensures refused { IfErr result (IsByBytes (BYTES < bytes_sent (self.old.net ++ map message_of sends))) }
        ensures released { self.new.released ≡ self.old.released }
        ensures lines { self.new.lines ≡ self.old.lines }
    {
        if sends.is_empty() {
            return Ok(());
        }
        for message in sends.into_vec() {
            self.sent = self.net.send(message.to, message.bytes)?;
        }
        Ok(())
    }

    /// Tells why a node refused a message, and that it opened.
    fn tell(
        &mut self,
        number: u64,
        node: u32,
        denied: Option<Refused>,
        opened: Option<Opened>,
    ) -> Result<(), Memory>
        ensures lines { OnOk result (self.new.lines ≡ self.old.lines
            ++ (option_map_or (denied_lines number node) denied [] ++ option_to_list (option_map (opened_middle node) opened))) }
        ensures net { self.new.net ≡ self.old.net }
        ensures sent { self.new.sent ≡ self.old.sent }
        ensures released { self.new.released ≡ self.old.released }
    {
        if let Some(refused) = denied {
            push_denied(&mut self.lines, number, node, refused)?;
        }
        if let Some(Opened { epoch, count }) = opened {
            self.lines.push(Middle::Opened { epoch, node, count })?;
        }
        Ok(())
    }
}

/// Whether a node hands out nothing.
fn is_quiet(out: &Out) -> bool
    ensures { IsTrue result → IsQuiet out.now }
{
    out.sends.is_empty() && out.released.is_empty() && out.denied.is_none() && out.opened.is_none()
}
