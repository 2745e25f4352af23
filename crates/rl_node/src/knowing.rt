//! What a node does with a Known.

ghost use Rattle.std.specs.Prelude.{◌≡◌, ℕ, ◌≤◌, true, length, min, max, MatchResult};
ghost use Rattle.rl_base.specs.declared.limit.TheConstants.{SLOTS};
ghost use Rattle.rl_families.specs.Logs.{IsRising, stamps_along};
ghost use Rattle.rl_families.specs.Streams.{log_at};
ghost use Rattle.rl_msg.specs.declared.msg.Msg.TheVariants as msg;
ghost use Rattle.rl_nodes.specs.Batches.{batches_of, are_batches};
ghost use Rattle.rl_node.specs.Fits.{IsFront};
ghost use Rattle.rl_node.specs.Good.{CanTake, TriesToTake};
ghost use Rattle.rl_node.specs.Knowing.{KnowsFront};
ghost use Rattle.rl_node.specs.Standing.{is_running};

use crate::answer::{Out, Sends, sending};
use crate::node::{Node, Phase};
use crate::reading::append_slots;
use crate::running::Running;
use rl_base::list::Log;
use rl_base::memory::Memory;
use rl_nodes::node_error::NodeError;
use rl_replay::laws::logs_grow;
use std::alloc::Global;

impl Node {
    /// Takes a Known: at the ballot of its epoch it knows so many batches of its log to be chosen, if it knew of fewer.
    pub(crate) fn take_known(
        &mut self,
        alloc: Global,
        from: u32,
        epoch: u32,
        stream: u32,
        len: u32,
    ) -> Result<Out, NodeError>
        requires up { is_running self.old ≡ true }
        requires can { CanTake self.old (msg.Known from self.old.id epoch stream len) }
        ensures tries { TriesToTake self.old self.new (msg.Known from self.old.id epoch stream len) result }
        ensures up { is_running self.new ≡ true }
    {
        logs_grow();
        let Phase::Up(running) = &mut self.phase else {
            unreachable!()
        };
        if self.acceptor.ballot(stream) == epoch {
            running.learn(alloc, stream, self.acceptor.log(stream), len)?;
        }
        Ok(sending(alloc, Sends::new(alloc)))
    }
}

impl Running {
    /// Knows so many batches of a log to be chosen, or all where it has fewer, if it knew of fewer. After `Memory` it knows
    /// some of them.
    fn learn(&mut self, alloc: Global, stream: u32, log: &Log, len: u32) -> Result<(), Memory>
        requires first { 1 ≤ stream }
        requires last { stream ≤ length self.old.known }
        requires batches { are_batches log.now ≡ true }
        requires rising { IsRising (stamps_along (batches_of log.now)) }
        requires front { IsFront log.now (log_at self.old.known stream) }
        requires short { length log.now ≤ SLOTS }
        ensures { MatchResult result
            (λ _. KnowsFront self.old self.new stream log.now
            (max (length (log_at self.old.known stream)) (min len (length log.now))))
            (λ _. (some : ℕ) × KnowsFront self.old self.new stream log.now some) }
    {
        let known = self.known.log(stream).len() as u32;
        let len = len.min(log.len() as u32);
        if known < len {
            append_slots(alloc, &mut self.known, stream, log, known, len)?;
        }
        Ok(())
    }
}
