//! How the replica of a node plays.

ghost use Rattle.std.specs.Prelude.{◌≡◌, ℕ, ◌≤◌, ◌<◌, ◌^◌, true, length, IfOk, IfErr, OnOk, Ok};
ghost use Rattle.rl_base.specs.declared.limit.TheConstants.{SLOTS};
ghost use Rattle.rl_families.specs.Streams.{log_at};
ghost use Rattle.rl_replay.specs.Entries.{entries};
ghost use Rattle.rl_replay.specs.Standing.{BeginsWithPlayed};
ghost use Rattle.rl_nodes.specs.Answers.{quiet};
ghost use Rattle.rl_nodes.specs.Calls.{Standing};
ghost use Rattle.rl_nodes.specs.Setups.{SetupFits};
ghost use Rattle.rl_nodes.specs.Views.{plays, next_bound};
ghost use Rattle.rl_node.specs.Doing.{Refuses};
ghost use Rattle.rl_node.specs.Fits.{IsStream};
ghost use Rattle.rl_node.specs.Playing.{HasPlayed};
ghost use Rattle.rl_node.specs.Replaying.{is_played, StaysOf, HasStopped, HasPlayedNext, HasPlayedSome};
ghost use Rattle.rl_node.specs.SetupOf.{setup_of};
ghost use Rattle.rl_node.specs.Standing.{IsNode, Stands, is_running};

use crate::node::{Node, Phase};
use crate::running::Running;
use crate::setup::Setup;
use rl_base::bound::Bound;
use rl_base::memory::Memory;
use rl_nodes::node_error::NodeError;
use rl_replay::played::Played;
use rl_txn::laws::rows;
use std::alloc::Global;

impl Node {
    /// Its replica plays the known batches of a stream, up to their end or to an entry that it can't play yet. The answer
    /// is how many entries it has played. `Memory`.
    pub fn play(&mut self, alloc: Global, setup: &Setup, stream: u32) -> Result<u32, NodeError>
        requires setup { SetupFits (setup_of setup.now) }
        requires node { IsNode (setup_of setup.now) self.old }
        requires up { is_running self.old ≡ true }
        requires stream { IsStream (setup_of setup.now) stream }
        ensures done { let setup = setup_of setup.now in (a : ℕ) (x : Standing) → Stands setup a self.old x
            → IfOk result (HasPlayed setup a self.new x stream) }
        ensures refused { let setup = setup_of setup.now in (a : ℕ) (x : Standing) → Stands setup a self.old x
            → IfErr result (Refuses setup a self.new x (Ok (quiet (plays setup x.node stream)))) }
        ensures up { is_running self.new ≡ true }
    {
        self.check()?;
        let Phase::Up(running) = &mut self.phase else {
            unreachable!()
        };
        match running.play(alloc, stream) {
            Ok(count) => Ok(count),
            Err(Memory) => {
                self.note_error(NodeError::Memory);
                Err(NodeError::Memory)
            }
        }
    }
}

impl Running {
    /// Plays the known batches of a stream, as far as it can.
    fn play(&mut self, alloc: Global, stream: u32) -> Result<u32, Memory>
        requires first { 1 ≤ stream }
        requires last { stream ≤ length self.old.known }
        requires streams { length self.old.replica.replaying.played ≡ length self.old.known }
        requires begins { BeginsWithPlayed self.old.replica stream (log_at self.old.known stream) }
        requires few { length (log_at self.old.known stream) ≤ SLOTS }
        requires short { length (entries (log_at self.old.known stream)) < 2 ^ 32 }
        ensures same { self.new ≡ record self.old { replica = self.new.replica } }
        ensures played { IfOk result (HasPlayedSome self.old.known stream self.old.replica self.new.replica) }
        ensures stopped { OnOk result (HasStopped self.old.known stream self.new.replica self.new.replica) }
        ensures stays { StaysOf self.old.known stream self.old.replica self.new.replica }
    {
        let mut count = 0;
        while self.play_next(alloc, stream)? {
            count += 1;
        }
        Ok(count)
    }

    /// Plays the next known entry of a stream. Whether it could.
    fn play_next(&mut self, alloc: Global, stream: u32) -> Result<bool, Memory>
        requires first { 1 ≤ stream }
        requires last { stream ≤ length self.old.known }
        requires streams { length self.old.replica.replaying.played ≡ length self.old.known }
        requires begins { BeginsWithPlayed self.old.replica stream (log_at self.old.known stream) }
        requires few { length (log_at self.old.known stream) ≤ SLOTS }
        ensures same { self.new ≡ record self.old { replica = self.new.replica } }
        ensures next { IfOk result (HasPlayedNext self.old.known stream self.old.replica self.new.replica) }
        ensures stays { StaysOf self.old.known stream self.old.replica self.new.replica }
    {
        rows();
        let bound = self.next_bound(stream);
        let watermark = self.known.watermark().1;
        let log = self.known.log(stream);
        let played = self
            .replica
            .play(alloc, stream, log, log.len() as u32, bound, watermark)?;
        Ok(is_played(played))
    }

    /// How far the items of the epoch of the next known entry of a stream count.
    fn next_bound(&self, stream: u32) -> Bound
        requires first { 1 ≤ stream }
        requires last { stream ≤ length self.now.known }
        requires streams { length self.now.replica.replaying.played ≡ length self.now.known }
        requires begins { BeginsWithPlayed self.now.replica stream (log_at self.now.known stream) }
        requires few { length (log_at self.now.known stream) ≤ SLOTS }
        ensures { result ≡ next_bound self.now.known self.now.replica.replaying stream }
    {
        let log = self.known.log(stream);
        match self.replica.next_epoch_of(stream, log, log.len() as u32) {
            Some(epoch) => self.known.bound(epoch),
            None => Bound::Beyond,
        }
    }
}

/// Whether an answer plays the entry.
fn is_played(answer: Played) -> bool
    ensures { result ≡ is_played answer }
{
    match answer {
        Played::Applied { .. } | Played::Passed { .. } => true,
        Played::Above { .. } | Played::Empty => false,
    }
}
