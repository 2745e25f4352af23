//! What an open leader proposes of a worker that has nothing to do.

ghost use Rattle.std.specs.Prelude.{◌≡◌, ℕ, ◌-◌, ◌*◌, ◌≤◌, ◌<◌, ◌^◌, [], true, false, length, is_some, Some, slice_set, IfOk, OnOk, IfErr, Ok, Option};
ghost use Rattle.rl_base.specs.declared.limit.TheConstants.{SLOTS};
ghost use Rattle.rl_batch.specs.Encoding.{batch_bytes};
ghost use Rattle.rl_batch.specs.Ranges.{BatchInRange};
ghost use Rattle.rl_batch.specs.Reading.{read_batch};
ghost use Rattle.rl_msg.specs.Ranges.{EmbeddedBatchInRange};
ghost use Rattle.rl_paxos.specs.Leaders.{proposed};
ghost use Rattle.rl_txn.specs.declared.batch.Batch as batches;
ghost use Rattle.rl_worker.specs.Acts.{Core, Idle, phase_of, resting, is_done, turn};
ghost use Rattle.rl_worker.specs.Opening.{setting_of};
ghost use Rattle.rl_nodes.specs.Batches.{batch_of, idle_mark, END_SEQ};
ghost use Rattle.rl_nodes.specs.Nodes.{NodeState, Part, has_end_mark};
ghost use Rattle.rl_nodes.specs.Setups as setups;
ghost use Rattle.rl_nodes.specs.Setups.{SetupFits};
ghost use Rattle.rl_nodes.specs.Works.{idles, proposes, may_idle};
ghost use Rattle.rl_node.specs.Fits.{IsStream, LeadFits};
ghost use Rattle.rl_node.specs.Idling.{is_end_mark, Rests, RestsIn, IsDrawn, IsDrawnIn, MayMark};
ghost use Rattle.rl_node.specs.Leading.{stream_of, HasStreams, accept_of};
ghost use Rattle.rl_node.specs.Leads.{LeadTries, LeadTriesDue};
ghost use Rattle.rl_node.specs.Outs.{IsSending};
ghost use Rattle.rl_node.specs.Proposing.{RefusesBatch};
ghost use Rattle.rl_node.specs.Seqs.{seq_in};
ghost use Rattle.rl_node.specs.SetupOf.{setup_of};
ghost use Rattle.rl_node.specs.Standing.{AreWorksOf, StandsLead, lead_with};
ghost use Rattle.rl_node.specs.Stepping.{HasOpenWorks};
ghost use Rattle.rl_node.specs.declared.part.Lead as leads;

use crate::acking::stream_at;
use crate::answer::{Out, Sends, sending};
use crate::laws::turns;
use crate::part::{Lead, Works};
use crate::reading::read;
use crate::setup::Setup;
use rl_base::list::Bytes;
use rl_base::memory::Memory;
use rl_base::stamp::Stamp;
use rl_nodes::node_error::NodeError;
use rl_txn::batch::Batch;
use std::alloc::Global;

/// The seq of an end mark, which is above each that is drawn.
const END_SEQ: u64 = (1 << 40) - 1;

impl Works {
    /// Whether a worker is between two attempts.
    fn rests(&self, worker: u32) -> bool
        requires first { 1 ≤ worker }
        requires last { worker ≤ length self.now.workers.items }
        ensures rests { result ≡ true → Rests self.now worker }
        ensures core { (setup : setups.Setup) (l : leads.Lead) (core : Core) → AreWorksOf setup l self.now core
            → result ≡ resting (phase_of core worker) }
    {
        self.workers[worker as usize - 1].at_rest()
    }

    /// Whether a worker that rests has no request left.
    fn is_done(&self, setup: &Setup, worker: u32) -> bool
        requires first { 1 ≤ worker }
        requires last { worker ≤ length self.now.workers.items }
        requires list { worker ≤ length (setup_of setup.now).program.lists }
        requires rests { Rests self.now worker }
        ensures { let setup = setup_of setup.now in (l : leads.Lead) (core : Core) → AreWorksOf setup l self.now core
            → result ≡ is_done (setting_of setup.program.tables setup.program.lists l.epoch) worker (phase_of core worker) }
    {
        let at = worker as usize - 1;
        let next = self.workers[at].next();
        next == 0 || next as usize > setup.lists.get(at).len()
    }

    /// Draws the seq of the mark of a worker that rests.
    fn draw(&mut self, worker: u32) -> u64
        requires first { 1 ≤ worker }
        requires last { worker ≤ length self.old.workers.items }
        requires rests { Rests self.old worker }
        requires next { self.old.words.next < 2 ^ 40 - 1 }
        ensures seq { result ≡ self.old.words.next }
        ensures drawn { IsDrawn self.old self.new }
    {
        self.workers[worker as usize - 1].idle(&mut self.words)
    }
}

impl Lead {
    /// Proposes an idle mark of a worker, or the end mark where it has no request left. It does nothing where the worker
    /// is in an attempt, items of it are pending, its stream has the end mark, or the leader has not opened.
    pub(crate) fn idle(
        &mut self,
        alloc: Global,
        id: u32,
        setup: &Setup,
        worker: u32,
    ) -> Result<Out, NodeError>
        requires setup { SetupFits (setup_of setup.now) }
        requires first { 1 ≤ id }
        requires last { id ≤ (setup_of setup.now).nodes }
        requires stands { (x : Part) × StandsLead (setup_of setup.now) self.old x }
        requires worker { IsStream (setup_of setup.now) worker }
        requires next { seq_in self.old.works < 2 ^ 40 - 1 }
        ensures { let setup = setup_of setup.now in
            LeadTriesDue setup (λ x. idles setup id x worker) self.old self.new result }
    {
        let Some(works) = &self.works else {
            return Ok(sending(alloc, Sends::new(alloc)));
        };
        if !self.may_mark(alloc, setup, worker)? {
            return Ok(sending(alloc, Sends::new(alloc)));
        }
        if works.is_done(setup, worker) {
            self.propose_end_mark(alloc, id, setup, worker)
        } else {
            self.propose_idle_mark(alloc, id, setup, worker)
        }
    }

    /// Whether a mark of a worker of an open leader may be proposed.
    fn may_mark(&self, alloc: Global, setup: &Setup, worker: u32) -> Result<bool, Memory>
        requires setup { SetupFits (setup_of setup.now) }
        requires fits { LeadFits (setup_of setup.now) self.now }
        requires worker { IsStream (setup_of setup.now) worker }
        requires open { (core : Core) × HasOpenWorks (setup_of setup.now) self.now self.now.works core }
        ensures may { (core : Core) → HasOpenWorks (setup_of setup.now) self.now self.now.works core
            → IfOk result (λ may. may ≡ may_idle (lead_with self.now (Some core)) worker core) }
        ensures rests { IfOk result (λ may. may ≡ true → RestsIn self.now.works worker) }
    {
        let Some(works) = &self.works else {
            unreachable!()
        };
        if !works.rests(worker) {
            return Ok(false);
        }
        if self.pending[worker as usize - 1].len() > 0 {
            return Ok(false);
        }
        let has = self.has_end_mark(alloc, setup, worker)?;
        Ok(!has)
    }

    /// Whether a stream of an open leader has the end mark. That stands last, since its stamp is above all others.
    fn has_end_mark(&self, alloc: Global, setup: &Setup, stream: u32) -> Result<bool, Memory>
        requires setup { SetupFits (setup_of setup.now) }
        requires fits { LeadFits (setup_of setup.now) self.now }
        requires stream { IsStream (setup_of setup.now) stream }
        requires open { (core : Core) × HasOpenWorks (setup_of setup.now) self.now self.now.works core }
        ensures { (core : Option Core) → IfOk result (λ has. has ≡ has_end_mark (lead_with self.now core) stream) }
    {
        turns();
        let log = stream_at(&self.streams, stream).log();
        is_end_mark(alloc, log.get(log.len() - 1), self.epoch)
    }

    /// Proposes the end mark of a worker.
    fn propose_end_mark(
        &mut self,
        alloc: Global,
        id: u32,
        setup: &Setup,
        worker: u32,
    ) -> Result<Out, NodeError>
        requires setup { SetupFits (setup_of setup.now) }
        requires first { 1 ≤ id }
        requires last { id ≤ (setup_of setup.now).nodes }
        requires fits { LeadFits (setup_of setup.now) self.old }
        requires worker { IsStream (setup_of setup.now) worker }
        ensures { let setup = setup_of setup.now in (x : NodeState) (core : Core) → MayMark setup self.old worker core
            → is_done (setting_of setup.program.tables setup.program.lists self.old.epoch) worker (phase_of core worker) ≡ true
            → LeadTries setup self.new x (proposes setup id x (lead_with self.old (Some core)) worker
            (idle_mark self.old.epoch END_SEQ)) result }
    {
        turns();
        self.propose_mark(alloc, id, setup, worker, END_SEQ)
    }

    /// Proposes an idle mark of a worker, under the next stamp.
    fn propose_idle_mark(
        &mut self,
        alloc: Global,
        id: u32,
        setup: &Setup,
        worker: u32,
    ) -> Result<Out, NodeError>
        requires setup { SetupFits (setup_of setup.now) }
        requires first { 1 ≤ id }
        requires last { id ≤ (setup_of setup.now).nodes }
        requires fits { LeadFits (setup_of setup.now) self.old }
        requires worker { IsStream (setup_of setup.now) worker }
        requires next { seq_in self.old.works < 2 ^ 40 - 1 }
        requires open { (core : Core) × HasOpenWorks (setup_of setup.now) self.old self.old.works core }
        requires rests { RestsIn self.old.works worker }
        ensures { let setup = setup_of setup.now in (x : NodeState) (core : Core) → MayMark setup self.old worker core
            → LeadTries setup self.new x (proposes setup id x
            (lead_with self.old (Some (turn (setting_of setup.program.tables setup.program.lists self.old.epoch) core (Idle worker))))
            worker (idle_mark self.old.epoch (core.next - self.old.epoch * 2 ^ 40))) result }
    {
        turns();
        let seq = self.draw(worker);
        self.propose_mark(alloc, id, setup, worker, seq)
    }

    /// Draws the seq of the mark of a worker of an open leader.
    fn draw(&mut self, worker: u32) -> u64
        requires first { 1 ≤ worker }
        requires count { (setup : setups.Setup) × (core : Core) × HasOpenWorks setup self.old self.old.works core × (worker ≤ setup.workers) }
        requires rests { RestsIn self.old.works worker }
        requires next { seq_in self.old.works < 2 ^ 40 - 1 }
        ensures seq { result ≡ seq_in self.old.works }
        ensures drawn { IsDrawnIn self.old.works self.new.works }
        ensures same { self.new ≡ record self.old { works = self.new.works } }
    {
        let Some(works) = &mut self.works else {
            unreachable!()
        };
        works.draw(worker)
    }

    /// Proposes a mark of a worker.
    fn propose_mark(
        &mut self,
        alloc: Global,
        id: u32,
        setup: &Setup,
        worker: u32,
        seq: u64,
    ) -> Result<Out, NodeError>
        requires setup { SetupFits (setup_of setup.now) }
        requires first { 1 ≤ id }
        requires last { id ≤ (setup_of setup.now).nodes }
        requires fits { LeadFits (setup_of setup.now) self.old }
        requires worker { IsStream (setup_of setup.now) worker }
        requires low { 2 ≤ seq }
        requires high { seq ≤ 2 ^ 40 - 1 }
        ensures proposed { OnOk result (HasStreams self.old self.new (slice_set self.old.streams.items (worker - 1)
            (proposed (stream_of self.old worker) (batch_bytes (idle_mark self.old.epoch seq))))) }
        ensures free { OnOk result (length (stream_of self.old worker).log < SLOTS) }
        ensures sends { IfOk result (IsSending (accept_of id self.old.epoch worker (stream_of self.old worker)
            (batch_bytes (idle_mark self.old.epoch seq)) (setup_of setup.now).nodes)) }
        ensures short { OnOk result (EmbeddedBatchInRange (batch_bytes (idle_mark self.old.epoch seq))) }
        ensures read { OnOk result (read_batch (batch_bytes (idle_mark self.old.epoch seq)) ≡ Ok (idle_mark self.old.epoch seq)) }
        ensures refused { IfErr result (RefusesBatch (stream_of self.old worker)) }
    {
        let mark = Batch::Idle(Stamp {
            epoch: self.epoch,
            seq,
        });
        let sends = self.propose(alloc, id, setup, worker, &mark)?;
        Ok(sending(alloc, sends))
    }
}

/// Whether some bytes encode the end mark of an epoch.
fn is_end_mark(alloc: Global, bytes: &Bytes, epoch: u32) -> Result<bool, Memory>
    requires { is_some (batch_of bytes.now) ≡ true }
    ensures { (batch : batches.Batch) → batch_of bytes.now ≡ Some batch
        → IfOk result (λ is. (is ≡ is_end_mark epoch batch) × BatchInRange batch) }
{
    match read(alloc, bytes)? {
        Batch::Idle(stamp) => Ok(stamp.epoch == epoch && stamp.seq == END_SEQ),
        Batch::Items(_) | Batch::Opened(_) => Ok(false),
    }
}
