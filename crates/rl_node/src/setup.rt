//! What stays the same in a run.

ghost use Rattle.std.specs.Prelude.{◌≡◌};
ghost use Rattle.rl_nodes.specs.Setups.{new_setup};
ghost use Rattle.rl_node.specs.SetupOf.{setup_of};

use rl_txn::op::Lists;
use rl_value::map::Map;
use rl_value::schema::Schema;

/// The nodes, the workers with their requests, how many items make a batch, the tables with their opening rows, and the
/// sizes of a first and a second quorum.
#[derive(Drop)]
pub struct Setup {
    pub(crate) nodes: u32,
    pub(crate) workers: u32,
    pub(crate) batch: u32,
    pub(crate) first_quorum: u32,
    pub(crate) second_quorum: u32,
    pub(crate) schema: Schema,
    pub(crate) opening: Map,
    pub(crate) lists: Lists,
}

impl Setup {
    /// The parts that are handed in, kept. Majorities are quorums of both kinds.
    pub fn new(
        nodes: u32,
        workers: u32,
        batch: u32,
        schema: Schema,
        opening: Map,
        lists: Lists,
    ) -> Setup
        ensures { setup_of result
            ≡ new_setup nodes workers batch (record { tables = schema; rows = opening; lists = lists }) }
    {
        let majority = nodes / 2 + 1;
        Setup {
            nodes,
            workers,
            batch,
            first_quorum: majority,
            second_quorum: majority,
            schema,
            opening,
            lists,
        }
    }

    /// The tables.
    pub fn schema(&self) -> &Schema
        ensures { result.now ≡ (setup_of self.now).program.tables }
    {
        &self.schema
    }

    /// How many nodes there are.
    pub fn nodes(&self) -> u32
        ensures { result ≡ (setup_of self.now).nodes }
    {
        self.nodes
    }

    /// How many workers there are, and so many streams.
    pub fn workers(&self) -> u32
        ensures { result ≡ (setup_of self.now).workers }
    {
        self.workers
    }
}
