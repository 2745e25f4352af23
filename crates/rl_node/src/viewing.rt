//! How a node is shown.

ghost use Rattle.std.specs.Prelude.{◌≡◌, ℕ, ◌≤◌, IfOk, length, map};
ghost use Rattle.rl_base.specs.declared.limit.TheConstants.{SLOTS, WORKERS};
ghost use Rattle.rl_families.specs.Streams.{log_at};
ghost use Rattle.rl_election.specs.World.{Down};
ghost use Rattle.rl_nodes.specs.Calls.{Standing};
ghost use Rattle.rl_nodes.specs.Views.{view_of, role_of};
ghost use Rattle.rl_nodes.specs.Setups.{SetupFits};
ghost use Rattle.rl_node.specs.Fits.{AcceptorFits, RunningFits};
ghost use Rattle.rl_node.specs.SetupOf.{setup_of};
ghost use Rattle.rl_node.specs.Showing.{shown_streams};
ghost use Rattle.rl_node.specs.Standing.{Stands, IsNode, IsPart, ForPart, up_with, away_with};

use crate::node::{Node, Phase};
use crate::part::Part;
use crate::running::Running;
use crate::setup::Setup;
use rl_acceptor::acceptor::Acceptor;
use rl_base::memory::Memory;
use rl_cut::family::Family;
use rl_nodes::view::{NodeView, Role, State, StreamView, StreamViews};
use std::alloc::Global;

impl Node {
    /// The node as it is shown, in every state.
    pub fn view(&self, alloc: Global, setup: &Setup) -> Result<NodeView, Memory>
        requires setup { SetupFits (setup_of setup.now) }
        requires node { IsNode (setup_of setup.now) self.now }
        ensures { (a : ℕ) (x : Standing) → Stands (setup_of setup.now) a self.now x
            → IfOk result (λ view. view ≡ view_of (setup_of setup.now) x.node) }
    {
        match &self.phase {
            Phase::Up(running) => running.view(alloc, &self.acceptor, setup),
            Phase::Down => self.view_down(alloc, setup),
            Phase::Lost => Ok(NodeView {
                state: State::Lost,
                promised: 0,
                role: Role::Follower,
                watermark: (0, 0),
                at: false,
                streams: StreamViews::new(alloc),
            }),
        }
    }

    /// A node that is down: what its acceptor keeps.
    fn view_down(&self, alloc: Global, setup: &Setup) -> Result<NodeView, Memory>
        requires setup { SetupFits (setup_of setup.now) }
        requires acceptor { AcceptorFits (setup_of setup.now) self.now.acceptor }
        ensures { let setup = setup_of setup.now in
            IfOk result (λ view. view ≡ view_of setup (away_with setup self.now.acceptor Down).node) }
    {
        let known = vec![in alloc; 0u32; setup.workers as usize]?;
        Ok(NodeView {
            state: State::Down,
            promised: self.acceptor.promised(),
            role: Role::Follower,
            watermark: (0, 0),
            at: false,
            streams: view_streams(alloc, &self.acceptor, known.as_slice())?,
        })
    }
}

impl Running {
    /// A node that is up, with its acceptor.
    fn view(&self, alloc: Global, acceptor: &Acceptor, setup: &Setup) -> Result<NodeView, Memory>
        requires setup { SetupFits (setup_of setup.now) }
        requires acceptor { AcceptorFits (setup_of setup.now) acceptor.now }
        requires fits { RunningFits (setup_of setup.now) acceptor.now self.now }
        requires part { IsPart (setup_of setup.now) self.now.part }
        ensures { let setup = setup_of setup.now in ForPart setup self.now.part (λ x. IfOk result (λ view. view
            ≡ view_of setup (up_with acceptor.now self.now x).node)) }
    {
        let known = known_lens(alloc, &self.known, setup.workers)?;
        Ok(NodeView {
            state: State::Up,
            promised: acceptor.promised(),
            role: self.part.role(setup),
            watermark: self.known.watermark(),
            at: self.replica.at_watermark(self.known.kept_history()),
            streams: view_streams(alloc, acceptor, known.as_slice())?,
        })
    }
}

impl Part {
    /// The role that it is shown as.
    fn role(&self, setup: &Setup) -> Role
        ensures { ForPart (setup_of setup.now) self.now (λ x. result ≡ role_of x) }
    {
        match self {
            Part::Follows => Role::Follower,
            Part::Stands(candidate) => Role::Candidate {
                epoch: candidate.epoch(),
                have: candidate.have(),
                need: setup.first_quorum,
            },
            Part::Leads(lead) if lead.works.is_some() => Role::Leading { epoch: lead.epoch },
            Part::Leads(lead) => Role::Opening { epoch: lead.epoch },
        }
    }
}

/// How many batches of each stream are known to be chosen.
fn known_lens(alloc: Global, known: &Family, workers: u32) -> Result<Vec<u32>, Memory>
    requires streams { length known.now ≡ workers }
    requires short { (s : ℕ) → 1 ≤ s → s ≤ workers → length (log_at known.now s) ≤ SLOTS }
    ensures { IfOk result (λ lens. lens.items ≡ map length known.now) }
{
    let mut lens = Vec::with_capacity(alloc, workers as usize)?;
    for before in 0..workers {
        lens.push(known.log(before + 1).len() as u32)?;
    }
    Ok(lens)
}

/// The ballot and the length of each stream, and how much of it is known.
fn view_streams(alloc: Global, acceptor: &Acceptor, known: &[u32]) -> Result<StreamViews, Memory>
    requires streams { length acceptor.now.streams ≡ length known.now }
    requires few { length known.now ≤ WORKERS }
    ensures { IfOk result (λ views. views ≡ shown_streams acceptor.now known.now (length known.now)) }
{
    let mut views = StreamViews::new(alloc);
    for i in 0..known.len() {
        let s = i as u32 + 1;
        views.push(StreamView {
            ballot: acceptor.ballot(s),
            len: acceptor.log(s).len() as u32,
            known: known[i],
        })?;
    }
    Ok(views)
}
