//! What a session gives back.

use rl_acceptor::acceptor::Acceptor;
use rl_base::list::Seq;
use rl_store::close::Closed;
use rl_txn::item::Items;
use rl_value::map::Map;

/// Acceptors of one stream each: of a node one for each worker's stream, in the order of the workers;
/// of a stream one for each node, in the order of the nodes.
pub type Acceptors = Seq<Acceptor>;

/// A node at the end of a run: the acceptor of each worker's stream, and its tables.
#[derive(Drop)]
pub struct NodeRun {
    pub acceptors: Acceptors,
    pub map: Map,
}

/// All nodes at the end of a run.
pub type NodeRuns = Seq<NodeRun>;

/// A run of all requests: the history of all logs, the nodes, and the last epoch's store as it was closed.
#[derive(Drop)]
pub struct LiveRun {
    pub items: Items,
    pub nodes: NodeRuns,
    pub closed: Closed,
}
