//! What a node does with an Ack.

ghost use Rattle.std.specs.Prelude.{◌≡◌, ◌≤◌, true, Ok};
ghost use Rattle.rl_msg.specs.declared.msg.Msg.TheVariants as msg;
ghost use Rattle.rl_nodes.specs.Handles.{takes_ack};
ghost use Rattle.rl_nodes.specs.Setups.{SetupFits};
ghost use Rattle.rl_node.specs.Counting.{IsWithinLead};
ghost use Rattle.rl_node.specs.Fits.{IsStream};
ghost use Rattle.rl_node.specs.Good.{CanTakeIn, TriesToTakeIn};
ghost use Rattle.rl_node.specs.Parts.{PartTriesDue};
ghost use Rattle.rl_node.specs.SetupOf.{setup_of};
ghost use Rattle.rl_node.specs.Standing.{IsPart, is_running};

use crate::acking::Ack;
use crate::answer::{Out, Sends, sending};
use crate::node::{Node, Phase};
use crate::part::Part;
use crate::running::Running;
use crate::setup::Setup;
use rl_nodes::node_error::NodeError;
use std::alloc::Global;

impl Node {
    /// Takes an Ack: it counts for the leader of its epoch, and any other node skips it.
    pub(crate) fn take_ack(
        &mut self,
        alloc: Global,
        setup: &Setup,
        epoch: u32,
        ack: Ack,
    ) -> Result<Out, NodeError>
        requires setup { SetupFits (setup_of setup.now) }
        requires up { is_running self.old ≡ true }
        requires can { CanTakeIn (setup_of setup.now) self.old (msg.Ack ack.from self.old.id epoch ack.stream ack.len) }
        ensures tries { TriesToTakeIn (setup_of setup.now) self.old self.new
            (msg.Ack ack.from self.old.id epoch ack.stream ack.len) result }
        ensures up { is_running self.new ≡ true }
    {
        let Phase::Up(Running { part, .. }) = &mut self.phase else {
            unreachable!()
        };
        part.take_ack(alloc, self.id, setup, epoch, ack)
    }
}

impl Part {
    /// Takes an Ack: it counts for the leader of its epoch, and any other part skips it. After a refusal it follows.
    fn take_ack(
        &mut self,
        alloc: Global,
        id: u32,
        setup: &Setup,
        epoch: u32,
        ack: Ack,
    ) -> Result<Out, NodeError>
        requires setup { SetupFits (setup_of setup.now) }
        requires first { 1 ≤ id }
        requires last { id ≤ (setup_of setup.now).nodes }
        requires part { IsPart (setup_of setup.now) self.old }
        requires stream { IsStream (setup_of setup.now) ack.stream }
        requires within { IsWithinLead self.old epoch ack.stream ack.len }
        ensures { let setup = setup_of setup.now in PartTriesDue setup
            (λ x. Ok (takes_ack setup id x epoch ack.stream ack.from ack.len x.part)) self.old self.new result }
    {
        let Part::Leads(lead) = self else {
            return Ok(sending(alloc, Sends::new(alloc)));
        };
        if lead.epoch != epoch {
            return Ok(sending(alloc, Sends::new(alloc)));
        }
        let answer = lead.take_ack(alloc, id, setup, ack);
        if answer.is_err() {
            *self = Part::Follows;
        }
        answer
    }
}
