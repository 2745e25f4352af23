//! What a node does in the turns of its workers, as an open leader.

ghost use Rattle.std.specs.Prelude.{◌≡◌, ℕ, ◌≤◌, ◌<◌, ◌-◌, ◌^◌, true, Ok, IfOk};
ghost use Rattle.rl_nodes.specs.Calls.{Standing};
ghost use Rattle.rl_nodes.specs.Nodes.{NodeState};
ghost use Rattle.rl_nodes.specs.Setups as setups;
ghost use Rattle.rl_nodes.specs.Setups.{SetupFits};
ghost use Rattle.rl_nodes.specs.Works.{steps, flushes, idles, next_seq};
ghost use Rattle.rl_node.specs.Doing.{DoesDue, RefusesDue};
ghost use Rattle.rl_node.specs.Fits.{IsStream};
ghost use Rattle.rl_node.specs.Inner.{well, TriesDue, noted};
ghost use Rattle.rl_node.specs.Moves.{out_of, Tells};
ghost use Rattle.rl_node.specs.Parts.{PartTriesDue};
ghost use Rattle.rl_node.specs.Seqs.{seq_of, seq_of_part};
ghost use Rattle.rl_node.specs.SetupOf.{setup_of};
ghost use Rattle.rl_node.specs.Standing.{Stands, StandsPart, IsNode, IsPart, is_running};

use crate::answer::{Out, Sends, Stepped, sending};
use crate::node::{Node, Phase};
use crate::part::Part;
use crate::running::Running;
use crate::setup::Setup;
use crate::stepping::no_step;
use rl_nodes::node_error::NodeError;
use std::alloc::Global;

impl Node {
    /// The next seq of its workers; 2 where it is no open leader.
    pub fn next_seq(&self) -> u64
        ensures seq { result ≡ seq_of self.now }
        ensures stands { (setup : setups.Setup) (a : ℕ) (x : Standing) → SetupFits setup → Stands setup a self.now x
            → result ≡ next_seq x.node.part }
    {
        let Phase::Up(running) = &self.phase else {
            return 2;
        };
        let Part::Leads(lead) = &running.part else {
            return 2;
        };
        match &lead.works {
            Some(works) => works.words.next,
            None => 2,
        }
    }

    /// An open leader makes a step of a worker; any other node does nothing. What the step ended is pending, and a whole
    /// batch is proposed at once. `StreamFull` where the stream has no slot left for a batch that is due; `Memory`.
    pub fn step(&mut self, alloc: Global, setup: &Setup, worker: u32) -> Result<Stepped, NodeError>
        requires setup { SetupFits (setup_of setup.now) }
        requires node { IsNode (setup_of setup.now) self.old }
        requires up { is_running self.old ≡ true }
        requires worker { IsStream (setup_of setup.now) worker }
        requires next { seq_of self.old < 2 ^ 40 - 1 }
        ensures done { let setup = setup_of setup.now in
            DoesDue setup (λ a x. steps setup a x worker) self.old self.new (out_of result) }
        ensures refused { let setup = setup_of setup.now in
            RefusesDue setup (λ a x. steps setup a x worker) self.old self.new (out_of result) }
        ensures told { let setup = setup_of setup.now in (a : ℕ) (x : Standing) → Stands setup a self.old x
            → IfOk result (Tells setup a x.node worker) }
        ensures up { is_running self.new ≡ true }
    {
        self.check()?;
        let answer = self.make_step(alloc, setup, worker);
        self.note_step(&answer);
        answer
    }

    fn make_step(&mut self, alloc: Global, setup: &Setup, worker: u32) -> Result<Stepped, NodeError>
        requires setup { SetupFits (setup_of setup.now) }
        requires node { IsNode (setup_of setup.now) self.old }
        requires up { is_running self.old ≡ true }
        requires worker { IsStream (setup_of setup.now) worker }
        requires next { seq_of self.old < 2 ^ 40 - 1 }
        ensures tries { let setup = setup_of setup.now in
            TriesDue setup (λ a x. steps setup a x worker) self.old self.new (out_of result) }
        ensures told { let setup = setup_of setup.now in (a : ℕ) (x : NodeState) → Stands setup a self.old (well x)
            → IfOk result (Tells setup a x worker) }
        ensures up { is_running self.new ≡ true }
    {
        let Phase::Up(Running { part, .. }) = &mut self.phase else {
            unreachable!()
        };
        part.step(alloc, self.id, setup, worker)
    }

    /// Notes the refusal of a step that it repeats until it crashes.
    fn note_step(&mut self, answer: &Result<Stepped, NodeError>)
        ensures { self.new ≡ noted self.old (out_of answer.now) }
    {
        if let Err(e) = answer {
            self.note_error(*e);
        }
    }

    /// An open leader proposes the pending items of a worker, where there are any; any other node does nothing.
    /// `StreamFull` where the stream has no slot left for them; `Memory`.
    pub fn flush(&mut self, alloc: Global, setup: &Setup, worker: u32) -> Result<Out, NodeError>
        requires setup { SetupFits (setup_of setup.now) }
        requires node { IsNode (setup_of setup.now) self.old }
        requires up { is_running self.old ≡ true }
        requires worker { IsStream (setup_of setup.now) worker }
        ensures done { let setup = setup_of setup.now in
            DoesDue setup (λ a x. flushes setup a x worker) self.old self.new result }
        ensures refused { let setup = setup_of setup.now in
            RefusesDue setup (λ a x. flushes setup a x worker) self.old self.new result }
        ensures up { is_running self.new ≡ true }
    {
        self.check()?;
        let answer = self.flush_worker(alloc, setup, worker);
        self.note(&answer);
        answer
    }

    fn flush_worker(&mut self, alloc: Global, setup: &Setup, worker: u32) -> Result<Out, NodeError>
        requires setup { SetupFits (setup_of setup.now) }
        requires node { IsNode (setup_of setup.now) self.old }
        requires up { is_running self.old ≡ true }
        requires worker { IsStream (setup_of setup.now) worker }
        ensures tries { let setup = setup_of setup.now in
            TriesDue setup (λ a x. flushes setup a x worker) self.old self.new result }
        ensures up { is_running self.new ≡ true }
    {
        let Phase::Up(Running { part, .. }) = &mut self.phase else {
            unreachable!()
        };
        part.flush(alloc, self.id, setup, worker)
    }

    /// An open leader proposes an idle mark of a worker, or the end mark where that has no request left. It does nothing
    /// where the worker is in an attempt, items of it are pending or its stream has the end mark, nor does any other node.
    /// `StreamFull` where the stream has no slot left for the mark; `Memory`.
    pub fn idle(&mut self, alloc: Global, setup: &Setup, worker: u32) -> Result<Out, NodeError>
        requires setup { SetupFits (setup_of setup.now) }
        requires node { IsNode (setup_of setup.now) self.old }
        requires up { is_running self.old ≡ true }
        requires worker { IsStream (setup_of setup.now) worker }
        requires next { seq_of self.old < 2 ^ 40 - 1 }
        ensures done { let setup = setup_of setup.now in
            DoesDue setup (λ a x. idles setup a x worker) self.old self.new result }
        ensures refused { let setup = setup_of setup.now in
            RefusesDue setup (λ a x. idles setup a x worker) self.old self.new result }
        ensures up { is_running self.new ≡ true }
    {
        self.check()?;
        let answer = self.idle_worker(alloc, setup, worker);
        self.note(&answer);
        answer
    }

    fn idle_worker(&mut self, alloc: Global, setup: &Setup, worker: u32) -> Result<Out, NodeError>
        requires setup { SetupFits (setup_of setup.now) }
        requires node { IsNode (setup_of setup.now) self.old }
        requires up { is_running self.old ≡ true }
        requires worker { IsStream (setup_of setup.now) worker }
        requires next { seq_of self.old < 2 ^ 40 - 1 }
        ensures tries { let setup = setup_of setup.now in
            TriesDue setup (λ a x. idles setup a x worker) self.old self.new result }
        ensures up { is_running self.new ≡ true }
    {
        let Phase::Up(Running { part, .. }) = &mut self.phase else {
            unreachable!()
        };
        part.idle(alloc, self.id, setup, worker)
    }
}

impl Part {
    /// An open leader makes a step of a worker; any other part does nothing. After a refusal it follows.
    fn step(
        &mut self,
        alloc: Global,
        id: u32,
        setup: &Setup,
        worker: u32,
    ) -> Result<Stepped, NodeError>
        requires setup { SetupFits (setup_of setup.now) }
        requires first { 1 ≤ id }
        requires last { id ≤ (setup_of setup.now).nodes }
        requires part { IsPart (setup_of setup.now) self.old }
        requires worker { IsStream (setup_of setup.now) worker }
        requires next { seq_of_part self.old < 2 ^ 40 - 1 }
        ensures tries { let setup = setup_of setup.now in
            PartTriesDue setup (λ x. steps setup id x worker) self.old self.new (out_of result) }
        ensures told { let setup = setup_of setup.now in (x : NodeState) → StandsPart setup self.old x.part
            → IfOk result (Tells setup id x worker) }
    {
        let Part::Leads(lead) = self else {
            return Ok(no_step(alloc));
        };
        let answer = lead.step(alloc, id, setup, worker);
        if answer.is_err() {
            *self = Part::Follows;
        }
        answer
    }

    /// An open leader proposes the pending items of a worker; any other part does nothing. After a refusal it follows.
    fn flush(
        &mut self,
        alloc: Global,
        id: u32,
        setup: &Setup,
        worker: u32,
    ) -> Result<Out, NodeError>
        requires setup { SetupFits (setup_of setup.now) }
        requires first { 1 ≤ id }
        requires last { id ≤ (setup_of setup.now).nodes }
        requires part { IsPart (setup_of setup.now) self.old }
        requires worker { IsStream (setup_of setup.now) worker }
        ensures { let setup = setup_of setup.now in
            PartTriesDue setup (λ x. flushes setup id x worker) self.old self.new result }
    {
        let Part::Leads(lead) = self else {
            return Ok(sending(alloc, Sends::new(alloc)));
        };
        let answer = lead.flush(alloc, id, setup, worker);
        if answer.is_err() {
            *self = Part::Follows;
        }
        answer
    }

    /// An open leader proposes an idle mark or the end mark of a worker where it may; any other part does nothing. After a
    /// refusal it follows.
    fn idle(&mut self, alloc: Global, id: u32, setup: &Setup, worker: u32) -> Result<Out, NodeError>
        requires setup { SetupFits (setup_of setup.now) }
        requires first { 1 ≤ id }
        requires last { id ≤ (setup_of setup.now).nodes }
        requires part { IsPart (setup_of setup.now) self.old }
        requires worker { IsStream (setup_of setup.now) worker }
        requires next { seq_of_part self.old < 2 ^ 40 - 1 }
        ensures { let setup = setup_of setup.now in
            PartTriesDue setup (λ x. idles setup id x worker) self.old self.new result }
    {
        let Part::Leads(lead) = self else {
            return Ok(sending(alloc, Sends::new(alloc)));
        };
        let answer = lead.idle(alloc, id, setup, worker);
        if answer.is_err() {
            *self = Part::Follows;
        }
        answer
    }
}
