//! The nodes of a run, each of which is called by its number.

ghost use Rattle.std.specs.Prelude.{◌≡◌, ◌<◌, ◌-◌, ◌^◌, ◌≤◌, length, true};
ghost use Rattle.rl_nodes.specs.Setups.{SetupFits};
ghost use Rattle.rl_node.specs.Fits.{IsStream};
ghost use Rattle.rl_node.specs.Seqs.{seq_of};
ghost use Rattle.rl_node.specs.SetupOf.{setup_of};
ghost use Rattle.rl_node.specs.Standing.{IsNode, is_running};
ghost use Rattle.rl_script.specs.Fits.{ScriptFits};

use rl_base::memory::Memory;
use rl_events::event::Events;
use rl_node::answer::{Out, Sends};
use rl_node::node::Node;
use rl_node::setup::Setup;
use rl_node::{NodeError, NodeView};
use rl_script::script::Script;
use rl_txn::item::Items;
use rl_value::map::Map;
use rl_world::laws::scripts_make_setups;
use std::alloc::Global;
use std::marker::Model;

/// What a node is called with: the bytes of a message, an election, to send again, and a step, a flush or an idle mark of a
/// worker.
#[derive(Clone, Copy)]
pub enum Call<'a> {
    Handle(&'a [u8]),
    Elect,
    Tick,
    Step(u32),
    Flush(u32),
    Idle(u32),
}

/// The nodes of a run, numbered from 1. A number past the last means the last, and 0 the first; so do those of workers.
#[derive(Drop)]
pub struct Group {
    setup: Setup,
    nodes: Vec<Node>,
}

impl Model for Group {
    ghost use Rattle.std.specs.Prelude.{ℕ, length};
    ghost use Rattle.rl_node_tests.specs.Groups.{IsGroup};

    ghost Value = { ℕ };

    ghost view = { λ g. length g.nodes.items };

    ghost invariant = { IsGroup };
}

impl Group {
    /// The nodes of a script, each of which is up and follows, and its events.
    pub fn new(alloc: Global, script: Script) -> Result<(Group, Events), Memory>
        requires { ScriptFits script }
    {
        scripts_make_setups();
        let Script {
            schema,
            rows,
            nodes,
            workers,
            batch,
            lists,
            events,
            ..
        } = script;
        let setup = Setup::new(nodes, workers, batch, schema, rows, lists);
        let mut list = Vec::new(alloc);
        list.push(Node::new(alloc, 1, &setup)?)?;
        for before in 1..nodes {
            list.push(Node::new(alloc, before + 1, &setup)?)?;
        }
        Ok((Group { setup, nodes: list }, events))
    }

    /// How many nodes there are.
    pub fn len(&self) -> usize
        ensures { result ≡ self.now }
    {
        self.nodes.len()
    }

    /// How many workers there are.
    pub fn workers(&self) -> u32 {
        self.setup.workers()
    }

    /// The place of a node in the list.
    fn place(&self, a: u32) -> usize
        ensures { result < self.now }
    {
        (a as usize).clamp(1, self.nodes.len()) - 1
    }

    /// Calls a node. One that is not up does nothing.
    pub fn call(&mut self, alloc: Global, a: u32, call: Call) -> Result<Out, NodeError> {
        let at = self.place(a);
        call_node(alloc, &self.setup, &mut self.nodes[at], call)
    }

    /// The replica of a node plays a stream, and answers how many entries. One of a node that is not up plays nothing.
    pub fn play(&mut self, alloc: Global, a: u32, stream: u32) -> Result<u32, NodeError> {
        let at = self.place(a);
        play_node(alloc, &self.setup, &mut self.nodes[at], stream)
    }

    /// A node crashes where it is up.
    pub fn crash(&mut self, a: u32) {
        let at = self.place(a);
        crash_node(&self.setup, &mut self.nodes[at]);
    }

    /// A node that is down is up again.
    pub fn back(&mut self, alloc: Global, a: u32) -> Result<(), Memory> {
        let at = self.place(a);
        return_node(alloc, &self.setup, &mut self.nodes[at])
    }

    /// A node is lost for good.
    pub fn lose(&mut self, a: u32) {
        let at = self.place(a);
        self.nodes[at].lose();
    }

    /// A node as it is shown.
    pub fn view(&self, alloc: Global, a: u32) -> Result<NodeView, Memory> {
        self.nodes[self.place(a)].view(alloc, &self.setup)
    }

    /// The rows of the replica of a node that is up.
    pub fn rows(&self, a: u32) -> Option<&Map> {
        let node = &self.nodes[self.place(a)];
        if node.is_up() { Some(node.map()) } else { None }
    }

    /// Whether a node is up, whether it is down, and whether it is lost.
    pub fn is_up_down_lost(&self, a: u32) -> (bool, bool, bool) {
        let node = &self.nodes[self.place(a)];
        (node.is_up(), node.is_down(), node.is_lost())
    }

    /// The greatest epoch that a node has promised, and the next seq of its workers.
    pub fn promised_and_next(&self, a: u32) -> (u32, u64) {
        let node = &self.nodes[self.place(a)];
        (node.promised(), node.next_seq())
    }
}

/// Nothing is handed out.
fn nothing(alloc: Global) -> Out {
    Out {
        sends: Sends::new(alloc),
        opened: None,
        denied: None,
        released: Items::new(alloc),
    }
}

/// Calls a node where it is up.
fn call_node(alloc: Global, setup: &Setup, node: &mut Node, call: Call) -> Result<Out, NodeError>
    requires setup { SetupFits (setup_of setup.now) }
    requires node { IsNode (setup_of setup.now) node.old }
    ensures { IsNode (setup_of setup.now) node.new }
{
    if !node.is_up() {
        return Ok(nothing(alloc));
    }
    match call {
        Call::Handle(bytes) => node.handle(alloc, setup, bytes),
        Call::Elect => node.elect(alloc, setup),
        Call::Tick => node.tick(alloc, setup),
        Call::Step(worker) => step_node(alloc, setup, node, worker_of(setup, worker)),
        Call::Flush(worker) => node.flush(alloc, setup, worker_of(setup, worker)),
        Call::Idle(worker) => idle_node(alloc, setup, node, worker_of(setup, worker)),
    }
}

/// The worker that a number means.
fn worker_of(setup: &Setup, number: u32) -> u32
    requires { SetupFits (setup_of setup.now) }
    ensures { IsStream (setup_of setup.now) result }
{
    number.clamp(1, setup.workers())
}

/// A node that is up makes a step of a worker, where there is a seq left.
fn step_node(alloc: Global, setup: &Setup, node: &mut Node, worker: u32) -> Result<Out, NodeError>
    requires setup { SetupFits (setup_of setup.now) }
    requires node { IsNode (setup_of setup.now) node.old }
    requires up { is_running node.old ≡ true }
    requires worker { IsStream (setup_of setup.now) worker }
    ensures { IsNode (setup_of setup.now) node.new }
{
    if node.next_seq() >= (1 << 40) - 1 {
        return Ok(nothing(alloc));
    }
    match node.step(alloc, setup, worker) {
        Ok(stepped) => Ok(stepped.out),
        Err(e) => Err(e),
    }
}

/// A node that is up proposes an idle mark of a worker, where there is a seq left.
fn idle_node(alloc: Global, setup: &Setup, node: &mut Node, worker: u32) -> Result<Out, NodeError>
    requires setup { SetupFits (setup_of setup.now) }
    requires node { IsNode (setup_of setup.now) node.old }
    requires up { is_running node.old ≡ true }
    requires worker { IsStream (setup_of setup.now) worker }
    ensures { IsNode (setup_of setup.now) node.new }
{
    if node.next_seq() >= (1 << 40) - 1 {
        return Ok(nothing(alloc));
    }
    node.idle(alloc, setup, worker)
}

/// The replica of a node plays a stream where the node is up.
fn play_node(alloc: Global, setup: &Setup, node: &mut Node, stream: u32) -> Result<u32, NodeError>
    requires setup { SetupFits (setup_of setup.now) }
    requires node { IsNode (setup_of setup.now) node.old }
    ensures { IsNode (setup_of setup.now) node.new }
{
    if !node.is_up() {
        return Ok(0);
    }
    node.play(alloc, setup, worker_of(setup, stream))
}

/// A node crashes where it is up.
fn crash_node(setup: &Setup, node: &mut Node)
    requires { IsNode (setup_of setup.now) node.old }
    ensures { IsNode (setup_of setup.now) node.new }
{
    if node.is_up() {
        node.crash();
    }
}

/// A node that is down is up again.
fn return_node(alloc: Global, setup: &Setup, node: &mut Node) -> Result<(), Memory>
    requires { IsNode (setup_of setup.now) node.old }
    ensures { IsNode (setup_of setup.now) node.new }
{
    if !node.is_down() {
        return Ok(());
    }
    node.back(alloc, setup)
}
