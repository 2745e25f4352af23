//! What events do to a run.

ghost use Rattle.std.specs.Prelude.{◌≡◌};
ghost use Rattle.rl_events.specs.Expanded.{IsNotRandom};
ghost use Rattle.rl_events.specs.Fits.{EventFits, count_of};
ghost use Rattle.rl_nodes.specs.Events.{after_event};
ghost use Rattle.rl_node.specs.SetupOf.{setup_of};
ghost use Rattle.rl_world.specs.Moments.{HasRoom, TriesAmid};
ghost use Rattle.rl_world.specs.Standing.{IsSafe};

use crate::run::Run;
use crate::world_error::WorldError;
use rl_events::event::Event;
use std::alloc::Global;

impl Run {
    /// An event happens, which is none of random. `Limit`; `Memory`.
    pub fn happen(&mut self, alloc: Global, e: &Event) -> Result<(), WorldError>
        requires safe { IsSafe self.old }
        requires room { HasRoom self.old (count_of e.now) }
        requires fits { let setup = setup_of self.old.setup in EventFits setup.nodes setup.workers e.now }
        requires plain { IsNotRandom e.now }
        ensures runs { let setup = setup_of self.old.setup in TriesAmid self.old self.new (after_event setup e.now) result }
        ensures safe { IsSafe self.new }
        ensures setup { self.new.setup ≡ self.old.setup }
    {
        match *e {
            Event::Step {
                node,
                worker,
                count,
            } => self.step(alloc, node, worker, count),
            Event::Flush { node, worker } => self.flush(alloc, node, worker),
            Event::Idle { node, worker } => self.idle(alloc, node, worker),
            Event::Dlv { number } => self.deliver(alloc, number),
            Event::Discard { number } => self.discard(number),
            Event::All => self.deliver_all(alloc),
            Event::Elect { node } => self.elect(alloc, node),
            Event::Tick { node } => self.tick(alloc, node),
            Event::Crash { node } => {
                self.crash(node);
                Ok(())
            }
            Event::Back { node } => self.back(alloc, node),
            Event::Lose { node } => {
                self.lose(node);
                Ok(())
            }
            Event::Play { node, stream } => self.play(alloc, node, stream),
            Event::PlayAll { node } => self.play_all(alloc, node),
            Event::Show { node } => self.show(alloc, node),
            Event::Random { .. } => unreachable!(),
        }
    }
}
