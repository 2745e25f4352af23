//! The nodes of a run, and what events do to them.

ghost use Rattle.std.specs.Prelude.{◌≡◌, not, Ok, IfOk};
ghost use Rattle.rl_nodes.specs.Answers.{quiet};
ghost use Rattle.rl_nodes.specs.Elections.{elects, ticks, crashed, returned, lost};
ghost use Rattle.rl_nodes.specs.Events.{is_down, is_lost, does_where, does_up, changes_up, drops};
ghost use Rattle.rl_nodes.specs.Setups.{SetupFits};
ghost use Rattle.rl_nodes.specs.World.{new_world};
ghost use Rattle.rl_node.specs.SetupOf.{setup_of};
ghost use Rattle.rl_world.specs.Standing.{IsNumberOf, IsSafe, StandsRun, Runs, TriesRun};

use crate::told::Told;
use crate::world_error::WorldError;
use rl_base::memory::Memory;
use rl_node::node::Node;
use rl_node::setup::Setup;
use rl_tables::layout::Layout;
use std::alloc::Global;

/// What stays the same in a run, with the numbers of its records, its nodes, and what was sent, released and told.
#[derive(Drop)]
pub struct Run {
    pub setup: Setup,
    pub layout: Layout,
    pub nodes: Vec<Node>,
    pub told: Told,
}

impl Run {
    /// Each node is up and follows, and nothing was sent.
    pub fn new(alloc: Global, setup: Setup, nodes: u32) -> Result<Run, Memory>
        requires fits { SetupFits (setup_of setup) }
        requires nodes { nodes ≡ (setup_of setup).nodes }
        ensures safe { IfOk result IsSafe }
        ensures stands { IfOk result (λ run. StandsRun run (new_world (setup_of setup))) }
        ensures setup { IfOk result (λ run. run.setup ≡ setup) }
    {
        let mut list = Vec::with_capacity(alloc, nodes as usize)?;
        for before in 0..nodes {
            list.push(Node::new(alloc, before + 1, &setup)?)?;
        }
        let layout = Layout::new(alloc, setup.schema())?;
        Ok(Run {
            setup,
            layout,
            nodes: list,
            told: Told::new(alloc),
        })
    }

    /// A node crashes where it is up.
    pub fn crash(&mut self, a: u32)
        requires safe { IsSafe self.old }
        requires node { IsNumberOf (setup_of self.old.setup) a }
        ensures runs { let setup = setup_of self.old.setup in Runs self.old self.new (changes_up setup a (crashed setup)) }
        ensures safe { IsSafe self.new }
        ensures setup { self.new.setup ≡ self.old.setup }
    {
        let node = &mut self.nodes[a as usize - 1];
        if node.is_up() {
            node.crash();
        }
    }

    /// A node that is down is up again.
    pub fn back(&mut self, alloc: Global, a: u32) -> Result<(), WorldError>
        requires safe { IsSafe self.old }
        requires node { IsNumberOf (setup_of self.old.setup) a }
        ensures runs { let setup = setup_of self.old.setup in TriesRun self.old self.new
            (does_where is_down setup a (λ x. Ok (quiet (returned x)))) result }
        ensures safe { IsSafe self.new }
        ensures setup { self.new.setup ≡ self.old.setup }
    {
        let node = &mut self.nodes[a as usize - 1];
        if node.is_down() {
            node.back(alloc, &self.setup)?;
        }
        Ok(())
    }

    /// A node is lost for good where it is not lost yet.
    pub fn lose(&mut self, a: u32)
        requires safe { IsSafe self.old }
        requires node { IsNumberOf (setup_of self.old.setup) a }
        ensures runs { let setup = setup_of self.old.setup in Runs self.old self.new
            (does_where (λ state. not (is_lost state)) setup a (λ x. Ok (quiet (lost setup x)))) }
        ensures safe { IsSafe self.new }
        ensures setup { self.new.setup ≡ self.old.setup }
    {
        let node = &mut self.nodes[a as usize - 1];
        if node.is_lost() {
            return;
        }
        node.lose();
    }

    /// A node stands for its next epoch where it is up.
    pub fn elect(&mut self, alloc: Global, a: u32) -> Result<(), WorldError>
        requires safe { IsSafe self.old }
        requires node { IsNumberOf (setup_of self.old.setup) a }
        ensures runs { let setup = setup_of self.old.setup in TriesRun self.old self.new (does_up setup a (elects setup a)) result }
        ensures safe { IsSafe self.new }
        ensures setup { self.new.setup ≡ self.old.setup }
    {
        let node = &mut self.nodes[a as usize - 1];
        if node.is_up() {
            let answer = node.elect(alloc, &self.setup);
            self.told.finish(0, a, answer)
        } else {
            Ok(())
        }
    }

    /// A node sends again where it is up.
    pub fn tick(&mut self, alloc: Global, a: u32) -> Result<(), WorldError>
        requires safe { IsSafe self.old }
        requires node { IsNumberOf (setup_of self.old.setup) a }
        ensures runs { let setup = setup_of self.old.setup in TriesRun self.old self.new (does_up setup a (ticks setup a)) result }
        ensures safe { IsSafe self.new }
        ensures setup { self.new.setup ≡ self.old.setup }
    {
        let node = &mut self.nodes[a as usize - 1];
        if node.is_up() {
            let answer = node.tick(alloc, &self.setup);
            self.told.finish(0, a, answer)
        } else {
            Ok(())
        }
    }

    /// A message is dropped; where none of its number was sent, that is told.
    pub fn discard(&mut self, number: u64) -> Result<(), WorldError>
        requires safe { IsSafe self.old }
        ensures runs { TriesRun self.old self.new (drops number) result }
        ensures safe { IsSafe self.new }
        ensures setup { self.new.setup ≡ self.old.setup }
    {
        self.told.discard(number)?;
        Ok(())
    }
}
