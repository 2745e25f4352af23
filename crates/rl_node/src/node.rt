//! A node.

ghost use Rattle.std.specs.Prelude.{◌≡◌, ◌≤◌, ℕ, IfOk, OnOk, OnErr, true, false, None};
ghost use Rattle.rl_election.specs.World.{is_up};
ghost use Rattle.rl_nodes.specs.Calls.{Standing};
ghost use Rattle.rl_nodes.specs.Elections.{crashed, returned, lost};
ghost use Rattle.rl_nodes.specs.Events as events;
ghost use Rattle.rl_nodes.specs.Nodes.{new_node};
ghost use Rattle.rl_nodes.specs.Setups.{SetupFits};
ghost use Rattle.rl_value.specs.Fits.{RowsFit};
ghost use Rattle.std.specs.Result.{result_err};
ghost use Rattle.rl_node.specs.Inner.{failed_in, repeated, with_failed, noted};
ghost use Rattle.rl_node.specs.SetupOf.{setup_of};
ghost use Rattle.rl_node.specs.Standing.{Stands, ForStanding, is_running, is_down};

use crate::answer::Out;
use crate::running::Running;
use crate::setup::Setup;
use rl_acceptor::acceptor::Acceptor;
use rl_base::memory::Memory;
use rl_nodes::node_error::NodeError;
use rl_value::map::Map;
use std::alloc::Global;

/// Whether a node is up, with what it loses when it crashes, down, or lost for good.
#[derive(Drop)]
pub enum Phase {
    Up(Running),
    Down,
    Lost,
}

/// A node of a run.
#[derive(Drop)]
pub struct Node {
    pub(crate) id: u32,
    pub(crate) acceptor: Acceptor,
    pub(crate) phase: Phase,
}

impl Node {
    /// A node that is up and follows, to which nothing was sent.
    pub fn new(alloc: Global, id: u32, setup: &Setup) -> Result<Node, Memory>
        requires setup { SetupFits (setup_of setup.now) }
        requires first { 1 ≤ id }
        requires last { id ≤ (setup_of setup.now).nodes }
        ensures { let setup = setup_of setup.now in
            IfOk result (λ node. Stands setup id node (record { node = new_node setup; failed = None })) }
    {
        Ok(Node {
            id,
            acceptor: Acceptor::new(alloc, setup.workers)?,
            phase: Phase::Up(Running::new(alloc, setup)?),
        })
    }

    /// Whether it is up.
    pub fn is_up(&self) -> bool
        ensures up { result ≡ is_running self.now }
        ensures stands { ForStanding self.now (λ setup a x. result ≡ is_up x.node.state) }
    {
        matches!(self.phase, Phase::Up(_))
    }

    /// Whether it is down.
    pub fn is_down(&self) -> bool
        ensures down { result ≡ is_down self.now }
        ensures stands { ForStanding self.now (λ setup a x. result ≡ events.is_down x.node.state) }
    {
        matches!(self.phase, Phase::Down)
    }

    /// Whether it is lost for good.
    pub fn is_lost(&self) -> bool
        ensures { ForStanding self.now (λ setup a x. result ≡ events.is_lost x.node.state) }
    {
        matches!(self.phase, Phase::Lost)
    }

    /// The rows of its replica, which fit the tables.
    pub fn map(&self) -> &Map
        requires { is_running self.now ≡ true }
        ensures rows { ForStanding self.now (λ setup a x. result.now ≡ x.node.replica.rows) }
        ensures fit { ForStanding self.now (λ setup a x. SetupFits setup → RowsFit setup.program.tables result.now) }
    {
        let Phase::Up(running) = &self.phase else {
            unreachable!()
        };
        running.replica.map()
    }

    /// The greatest epoch that it promised.
    pub fn promised(&self) -> u32
        ensures { ForStanding self.now (λ setup a x. result ≡ x.node.acceptor.promised) }
    {
        self.acceptor.promised()
    }

    /// It crashes: it loses its part, what it knows to be chosen, and its replica. One that is not up stays as it is.
    pub fn crash(&mut self)
        ensures up { is_running self.old ≡ true → ForStanding self.old (λ setup a x.
            Stands setup a self.new (record { node = crashed setup x.node; failed = None })) }
        ensures down { is_running self.old ≡ false → self.new ≡ self.old }
    {
        if let Phase::Up(_) = self.phase {
            self.phase = Phase::Down;
        }
    }

    /// It is lost for good.
    pub fn lose(&mut self)
        ensures { ForStanding self.old (λ setup a x.
            Stands setup a self.new (record { node = lost setup x.node; failed = None })) }
    {
        self.phase = Phase::Lost;
    }

    /// It is up again, and follows. After `Memory` it is still down.
    pub fn back(&mut self, alloc: Global, setup: &Setup) -> Result<(), Memory>
        requires down { is_down self.old ≡ true }
        ensures ok { let setup = setup_of setup.now in OnOk result ((a : ℕ) (x : Standing)
            → Stands setup a self.old x
            → Stands setup a self.new (record { node = returned x.node; failed = None })) }
        ensures err { OnErr result (self.new ≡ self.old) }
    {
        self.phase = Phase::Up(Running::new(alloc, setup)?);
        Ok(())
    }

    /// Refuses where it repeats an answer until it crashes.
    pub(crate) fn check(&self) -> Result<(), NodeError>
        ensures { result_err result ≡ failed_in self.now.phase }
    {
        let Phase::Up(running) = &self.phase else {
            return Ok(());
        };
        match running.failed {
            Some(e) => Err(e),
            None => Ok(()),
        }
    }

    /// Notes an answer that it repeats until it crashes.
    pub(crate) fn note(&mut self, answer: &Result<Out, NodeError>)
        ensures { self.new ≡ noted self.old answer.now }
    {
        if let Err(e) = answer {
            self.note_error(*e);
        }
    }

    /// Notes a refusal that it repeats until it crashes.
    pub(crate) fn note_error(&mut self, error: NodeError)
        ensures { self.new ≡ with_failed self.old (repeated error) }
    {
        let Some(failed) = repeated(error) else {
            return;
        };
        if let Phase::Up(running) = &mut self.phase {
            running.failed = Some(failed);
        }
    }
}

/// The answer that a refusal makes a node repeat, if it does.
fn repeated(error: NodeError) -> Option<NodeError>
    ensures { result ≡ repeated error }
{
    match error {
        NodeError::StreamFull { .. } | NodeError::Memory => Some(error),
        NodeError::BadMessage | NodeError::NoEpoch { .. } => None,
    }
}
