//! What the workers of a node do in a run.

ghost use Rattle.std.specs.Prelude.{◌≡◌, replicate};
ghost use Rattle.rl_nodes.specs.Events.{for_each, does_up};
ghost use Rattle.rl_nodes.specs.Works.{steps, idles};
ghost use Rattle.rl_node.specs.Fits.{IsStream};
ghost use Rattle.rl_node.specs.SetupOf.{setup_of};
ghost use Rattle.rl_world.specs.Moments.{HasRoom};
ghost use Rattle.rl_world.specs.Standing.{IsNumberOf, IsSafe, TriesRun};

use crate::lines::step_line;
use crate::run::Run;
use crate::world_error::WorldError;
use rl_safe::laws::seqs_are_few;
use std::alloc::Global;

impl Run {
    /// A node makes some steps of a worker, one after another, where it is up and an open leader. `Limit`; `Memory`.
    pub fn step(&mut self, alloc: Global, a: u32, worker: u32, count: u32) -> Result<(), WorldError>
        requires safe { IsSafe self.old }
        requires room { HasRoom self.old count }
        requires node { IsNumberOf (setup_of self.old.setup) a }
        requires worker { IsStream (setup_of self.old.setup) worker }
        ensures runs { let setup = setup_of self.old.setup in TriesRun self.old self.new
            (λ w. for_each (replicate count worker) (λ s. does_up setup a (λ x. steps setup a x s)) w) result }
        ensures safe { IsSafe self.new }
        ensures setup { self.new.setup ≡ self.old.setup }
    {
        for _step in 0..count {
            self.step_once(alloc, a, worker)?;
        }
        Ok(())
    }

    /// A node makes a step of a worker where it is up and an open leader. `Limit`; `Memory`.
    fn step_once(&mut self, alloc: Global, a: u32, worker: u32) -> Result<(), WorldError>
        requires safe { IsSafe self.old }
        requires room { HasRoom self.old 1 }
        requires node { IsNumberOf (setup_of self.old.setup) a }
        requires worker { IsStream (setup_of self.old.setup) worker }
        ensures runs { let setup = setup_of self.old.setup in TriesRun self.old self.new
            (does_up setup a (λ x. steps setup a x worker)) result }
        ensures safe { IsSafe self.new }
        ensures setup { self.new.setup ≡ self.old.setup }
    {
        seqs_are_few();
        let node = &mut self.nodes[a as usize - 1];
        if !node.is_up() {
            return Ok(());
        }
        match node.step(alloc, &self.setup, worker) {
            Ok(stepped) => {
                let line = step_line(alloc, self.setup.schema(), &self.layout, worker, &stepped)?;
                self.told.take_step(a, stepped.out, line)
            }
            Err(e) => self.told.finish(0, a, Err(e)),
        }
    }

    /// A node proposes an idle mark of a worker, or the end mark where that has no request left, where it is up, an open
    /// leader and may. `Limit`; `Memory`.
    pub fn idle(&mut self, alloc: Global, a: u32, worker: u32) -> Result<(), WorldError>
        requires safe { IsSafe self.old }
        requires room { HasRoom self.old 1 }
        requires node { IsNumberOf (setup_of self.old.setup) a }
        requires worker { IsStream (setup_of self.old.setup) worker }
        ensures runs { let setup = setup_of self.old.setup in TriesRun self.old self.new
            (does_up setup a (λ x. idles setup a x worker)) result }
        ensures safe { IsSafe self.new }
        ensures setup { self.new.setup ≡ self.old.setup }
    {
        seqs_are_few();
        let node = &mut self.nodes[a as usize - 1];
        if node.is_up() {
            let answer = node.idle(alloc, &self.setup, worker);
            self.told.finish(0, a, answer)
        } else {
            Ok(())
        }
    }
}
