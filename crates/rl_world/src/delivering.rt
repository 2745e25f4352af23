//! Messages that reach nodes of a run, what their replicas play, and what their workers propose.

ghost use Rattle.std.specs.Prelude.{◌≡◌};
ghost use Rattle.rl_nodes.specs.Events.{for_each, does_up, changes_up, delivers};
ghost use Rattle.rl_nodes.specs.Setups.{stream_numbers};
ghost use Rattle.rl_nodes.specs.Views.{plays};
ghost use Rattle.rl_nodes.specs.Works.{flushes};
ghost use Rattle.rl_nodes.specs.World.{pending_from};
ghost use Rattle.rl_node.specs.Fits.{IsStream};
ghost use Rattle.rl_node.specs.SetupOf.{setup_of};
ghost use Rattle.rl_world.specs.Moments.{IsAmid, TriesAmid};
ghost use Rattle.rl_world.specs.Standing.{IsNumberOf, IsSafe, TriesRun};

use crate::run::Run;
use crate::world_error::WorldError;
use rl_report::middle::Middle;
use rl_safe::laws::{gains_suffice, messages_are_in_range};
use std::alloc::Global;

impl Run {
    /// A message is delivered, and handled where its receiver is up; where none of its number was sent, that is told. `Limit`;
    /// `Memory`.
    pub fn deliver(&mut self, alloc: Global, number: u64) -> Result<(), WorldError>
        requires safe { IsSafe self.old }
        requires amid { IsAmid self.old }
        ensures runs { TriesAmid self.old self.new (delivers (setup_of self.old.setup) number) result }
        ensures safe { IsSafe self.new }
        ensures setup { self.new.setup ≡ self.old.setup }
    {
        messages_are_in_range();
        gains_suffice();
        let Ok((a, bytes)) = self.told.net.deliver(number) else {
            self.told.lines.push(Middle::NoMessage { number })?;
            return Ok(());
        };
        let node = &mut self.nodes[a as usize - 1];
        if node.is_up() {
            let answer = node.handle(alloc, &self.setup, bytes.as_slice());
            self.told.finish(number, a, answer)
        } else {
            Ok(())
        }
    }

    /// Each message that is pending is delivered, in the order of their numbers; those that are sent meanwhile are not.
    /// `Limit`; `Memory`.
    pub fn deliver_all(&mut self, alloc: Global) -> Result<(), WorldError>
        requires safe { IsSafe self.old }
        requires amid { IsAmid self.old }
        ensures runs { let setup = setup_of self.old.setup in TriesAmid self.old self.new
            (λ w. for_each (pending_from 1 w.sent) (delivers setup) w) result }
        ensures safe { IsSafe self.new }
        ensures setup { self.new.setup ≡ self.old.setup }
    {
        let upto = self.told.sent;
        let mut after = 0;
        while let Some(number) = self.told.net.next_pending(after, upto) {
            self.deliver(alloc, number)?;
            after = number;
        }
        Ok(())
    }

    /// The replica of a node plays a stream as far as it can, where the node is up. `Memory`.
    pub fn play(&mut self, alloc: Global, a: u32, stream: u32) -> Result<(), WorldError>
        requires safe { IsSafe self.old }
        requires node { IsNumberOf (setup_of self.old.setup) a }
        requires stream { IsStream (setup_of self.old.setup) stream }
        ensures runs { let setup = setup_of self.old.setup in TriesRun self.old self.new
            (changes_up setup a (λ x. plays setup x stream)) result }
        ensures safe { IsSafe self.new }
        ensures setup { self.new.setup ≡ self.old.setup }
    {
        let node = &mut self.nodes[a as usize - 1];
        if node.is_up() {
            match node.play(alloc, &self.setup, stream) {
                Ok(_) => Ok(()),
                // It refuses only where memory ran out.
                Err(_) => Err(WorldError::Memory),
            }
        } else {
            Ok(())
        }
    }

    /// The replica of a node plays each stream as far as it can, one after another, where the node is up. `Memory`.
    pub fn play_all(&mut self, alloc: Global, a: u32) -> Result<(), WorldError>
        requires safe { IsSafe self.old }
        requires node { IsNumberOf (setup_of self.old.setup) a }
        ensures runs { let setup = setup_of self.old.setup in TriesRun self.old self.new
            (λ w. for_each (stream_numbers setup) (λ s. changes_up setup a (λ x. plays setup x s)) w) result }
        ensures safe { IsSafe self.new }
        ensures setup { self.new.setup ≡ self.old.setup }
    {
        let workers = self.setup.workers();
        for before in 0..workers {
            self.play(alloc, a, before + 1)?;
        }
        Ok(())
    }

    /// A node proposes what a worker has pending, where it is up and an open leader. `Limit`; `Memory`.
    pub fn flush(&mut self, alloc: Global, a: u32, worker: u32) -> Result<(), WorldError>
        requires safe { IsSafe self.old }
        requires node { IsNumberOf (setup_of self.old.setup) a }
        requires worker { IsStream (setup_of self.old.setup) worker }
        ensures runs { let setup = setup_of self.old.setup in TriesRun self.old self.new
            (does_up setup a (λ x. flushes setup a x worker)) result }
        ensures safe { IsSafe self.new }
        ensures setup { self.new.setup ≡ self.old.setup }
    {
        let node = &mut self.nodes[a as usize - 1];
        if node.is_up() {
            let answer = node.flush(alloc, &self.setup, worker);
            self.told.finish(0, a, answer)
        } else {
            Ok(())
        }
    }
}
