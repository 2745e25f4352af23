//! What a node has while it is up, and loses when it crashes.

ghost use Rattle.std.specs.Prelude.{◌≡◌, IfOk, None};
ghost use Rattle.rl_nodes.specs.Nodes.{opening_replica};
ghost use Rattle.rl_node.specs.Beginning.{IsNew};
ghost use Rattle.rl_node.specs.SetupOf.{setup_of};

use crate::part::Part;
use crate::setup::Setup;
use rl_base::memory::Memory;
use rl_cut::family::Family;
use rl_nodes::node_error::NodeError;
use rl_replay::replica::Replica;
use std::alloc::Global;

/// The answer that it repeats until it crashes, the prefixes that it knows to be chosen, its replica, and its part.
#[derive(Drop)]
pub struct Running {
    pub failed: Option<NodeError>,
    pub known: Family,
    pub replica: Replica,
    pub part: Part,
}

impl Running {
    /// A follower that knows of nothing.
    pub fn new(alloc: Global, setup: &Setup) -> Result<Running, Memory>
        ensures { IfOk result (IsNew (setup_of setup.now)) }
    {
        Ok(Running {
            failed: None,
            known: Family::new(alloc, setup.workers)?,
            replica: Replica::new(alloc, &setup.schema, &setup.opening, setup.workers)?,
            part: Part::Follows,
        })
    }
}
