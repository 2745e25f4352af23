//! What an open leader does in the turns of its workers.

ghost use Rattle.std.specs.Prelude.{◌≡◌, ℕ, ◌-◌, ◌≤◌, ◌<◌, ◌^◌, [], length, None, Some, IfOk, OnOk};
ghost use Rattle.rl_worker.specs.Acts.{Core, phase_of};
ghost use Rattle.rl_worker.specs.Told.{NamesRecord};
ghost use Rattle.rl_nodes.specs.Nodes.{NodeState, Part};
ghost use Rattle.rl_nodes.specs.Setups as setups;
ghost use Rattle.rl_nodes.specs.Setups.{SetupFits};
ghost use Rattle.rl_nodes.specs.Works.{request_in, steps, proposes_full};
ghost use Rattle.rl_node.specs.Fits.{IsStream, LeadFits};
ghost use Rattle.rl_node.specs.Leads.{LeadTries, LeadTriesDue};
ghost use Rattle.rl_node.specs.Moves.{out_of, Tells};
ghost use Rattle.rl_node.specs.Outs.{IsSending};
ghost use Rattle.rl_node.specs.Seqs.{seq_in};
ghost use Rattle.rl_node.specs.SetupOf.{setup_of};
ghost use Rattle.rl_node.specs.Standing.{AreWorksOf, StandsLead, lead_with};
ghost use Rattle.rl_node.specs.Stepping.{HasStepped, HasEnded, HasOpenWorks, HasMoved, IsFilling};
ghost use Rattle.rl_node.specs.declared.part.Lead as leads;

use crate::answer::{Out, Sends, Stepped, sending};
use crate::laws::turns;
use crate::part::{Lead, Works};
use crate::setup::Setup;
use rl_base::memory::Memory;
use rl_nodes::node_error::NodeError;
use rl_worker::act::Moved;
use std::alloc::Global;

impl Works {
    /// Makes a step of a worker.
    pub(crate) fn step(
        &mut self,
        alloc: Global,
        setup: &Setup,
        worker: u32,
    ) -> Result<Moved, Memory>
        requires setup { SetupFits (setup_of setup.now) }
        requires worker { IsStream (setup_of setup.now) worker }
        requires next { self.old.words.next < 2 ^ 40 - 1 }
        requires works { (l : leads.Lead) × (core : Core) × AreWorksOf (setup_of setup.now) l self.old core }
        ensures step { let setup = setup_of setup.now in (l : leads.Lead) (core : Core) → AreWorksOf setup l self.old core
            → IfOk result (HasStepped setup l self.old self.new core worker) }
        ensures there { IfOk result (λ moved. NamesRecord (setup_of setup.now).program.tables moved.refused) }
    {
        turns();
        let at = worker as usize - 1;
        self.workers[at].step(
            alloc,
            &mut self.words,
            &self.layout,
            &setup.schema,
            &setup.lists,
        )
    }

    /// The request that a worker is at.
    fn request(&self, worker: u32) -> u32
        requires first { 1 ≤ worker }
        requires last { worker ≤ length self.now.workers.items }
        ensures { (setup : setups.Setup) (l : leads.Lead) (core : Core) → AreWorksOf setup l self.now core
            → result ≡ request_in (phase_of core worker) }
    {
        self.workers[worker as usize - 1].next()
    }
}

impl Lead {
    /// Makes a step of a worker, where the leader has opened. What it ended is pending, and a whole batch is proposed at
    /// once.
    pub(crate) fn step(
        &mut self,
        alloc: Global,
        id: u32,
        setup: &Setup,
        worker: u32,
    ) -> Result<Stepped, NodeError>
        requires setup { SetupFits (setup_of setup.now) }
        requires first { 1 ≤ id }
        requires last { id ≤ (setup_of setup.now).nodes }
        requires stands { (x : Part) × StandsLead (setup_of setup.now) self.old x }
        requires worker { IsStream (setup_of setup.now) worker }
        requires next { seq_in self.old.works < 2 ^ 40 - 1 }
        ensures tries { let setup = setup_of setup.now in
            LeadTriesDue setup (λ x. steps setup id x worker) self.old self.new (out_of result) }
        ensures told { let setup = setup_of setup.now in (x : NodeState) → StandsLead setup self.old x.part
            → IfOk result (Tells setup id x worker) }
    {
        let Some(works) = &self.works else {
            return Ok(no_step(alloc));
        };
        let index = works.request(worker);
        let epoch = self.epoch;
        let moved = self.make_step(alloc, setup, worker)?;
        let out = self.propose_full(alloc, id, setup, worker)?;
        Ok(Stepped {
            moved: Some(moved),
            epoch,
            index,
            out,
        })
    }

    /// Makes a step of a worker of an open leader. What it ended is pending then.
    fn make_step(&mut self, alloc: Global, setup: &Setup, worker: u32) -> Result<Moved, Memory>
        requires setup { SetupFits (setup_of setup.now) }
        requires worker { IsStream (setup_of setup.now) worker }
        requires fits { LeadFits (setup_of setup.now) self.old }
        requires next { seq_in self.old.works < 2 ^ 40 - 1 }
        requires open { (core : Core) × HasOpenWorks (setup_of setup.now) self.old self.old.works core }
        ensures moved { let setup = setup_of setup.now in (core : Core) → HasOpenWorks setup self.old self.old.works core
            → IfOk result (HasMoved setup self.old self.new core worker) }
        ensures there { IfOk result (λ moved. NamesRecord (setup_of setup.now).program.tables moved.refused) }
    {
        let Some(works) = &mut self.works else {
            unreachable!()
        };
        let moved = works.step(alloc, setup, worker)?;
        self.keep_ended(alloc, worker, &moved)?;
        Ok(moved)
    }

    /// Keeps what a step ended.
    fn keep_ended(&mut self, alloc: Global, worker: u32, moved: &Moved) -> Result<(), Memory>
        requires first { 1 ≤ worker }
        requires last { worker ≤ length self.old.pending.items }
        ensures ended { OnOk result (HasEnded self.old self.new worker moved.now) }
        ensures same { OnOk result (self.new ≡ record self.old { pending = self.new.pending }) }
    {
        if let Some(item) = &moved.ended {
            let copy = item.copy(alloc)?;
            self.pending[worker as usize - 1].push(copy)?;
        }
        Ok(())
    }

    /// Proposes what is pending of a worker where that makes a batch.
    fn propose_full(
        &mut self,
        alloc: Global,
        id: u32,
        setup: &Setup,
        worker: u32,
    ) -> Result<Out, NodeError>
        requires setup { SetupFits (setup_of setup.now) }
        requires first { 1 ≤ id }
        requires last { id ≤ (setup_of setup.now).nodes }
        requires fits { LeadFits (setup_of setup.now) self.old }
        requires worker { IsStream (setup_of setup.now) worker }
        requires open { (core : Core) × HasOpenWorks (setup_of setup.now) self.old self.old.works core }
        requires filling { IsFilling (setup_of setup.now) self.old worker }
        ensures { let setup = setup_of setup.now in (x : NodeState) (core : Core)
            → HasOpenWorks setup self.old self.old.works core
            → LeadTries setup self.new x (proposes_full setup id x (lead_with self.old (Some core)) worker) result }
    {
        if self.pending[worker as usize - 1].len() < setup.batch as usize {
            return Ok(sending(alloc, Sends::new(alloc)));
        }
        self.propose_pending(alloc, id, setup, worker)
    }
}

/// A node that is no open leader makes no step.
pub(crate) fn no_step(alloc: Global) -> Stepped
    ensures moved { result.moved ≡ None }
    ensures epoch { result.epoch ≡ 0 }
    ensures index { result.index ≡ 0 }
    ensures out { IsSending [] result.out }
{
    Stepped {
        moved: None,
        epoch: 0,
        index: 0,
        out: sending(alloc, Sends::new(alloc)),
    }
}
