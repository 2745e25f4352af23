//! The world of a script: all its nodes, which take one event after another.

ghost use Rattle.std.specs.Prelude.{◌≡◌, ◌+◌, ◌≤◌, [], ◌∷◌, ◌++◌, sum_by, None, IfOk, IfErr, OnOk, OnErr, MatchResult};
ghost use Rattle.rl_base.specs.declared.limit.TheConstants.{EVENTS};
ghost use Rattle.rl_events.specs.Expanded.{IsNotRandom};
ghost use Rattle.rl_events.specs.Fits.{EventFits, count_of};
ghost use Rattle.rl_script.specs.Fits.{ScriptFits};
ghost use Rattle.rl_nodes.specs.Events.{world_after};
ghost use Rattle.rl_nodes.specs.Reports.{report_of};
ghost use Rattle.rl_nodes.specs.Safe.{Safe};
ghost use Rattle.rl_node.specs.SetupOf.{setup_of};
ghost use Rattle.rl_report.specs.Forms.{IsReport};
ghost use Rattle.rl_world.specs.Kept.{EventsFitRun, IsAfter};
ghost use Rattle.rl_world.specs.Reported.{reported};
ghost use Rattle.rl_world.specs.Standing.{IsSafe};
ghost use Rattle.rl_world.specs.Worlds.{IsCause, IsNew, StandsFor, TakesEvent, RefusesEvent};

use crate::run::Run;
use crate::world_error::WorldError;
use rl_base::memory::Memory;
use rl_events::event::{Event, Events};
use rl_node::setup::Setup;
use rl_report::report::Report;
use rl_safe::laws::every_run_is_safe;
use rl_script::script::Script;
use rl_txn::item::Items;
use std::alloc::Global;
use std::marker::Model;

/// All nodes of a script's run. Contracts see the setup, the events that it took, how many it was given as they count, and
/// the refusal that it repeats.
#[derive(Drop)]
pub struct World {
    run: Run,
    events: Events,
    counted: u32,
    failed: Option<WorldError>,
}

impl Model for World {
    ghost use Rattle.rl_world.specs.Worlds.{Taken};
    ghost use Rattle.rl_node.specs.contracts.setup.Setup as setups;
    ghost use Rattle.std.specs.Coded.{codes};

    ghost Value = { Taken };

    ghost coded = { Prim.hlevel (codes, setups.the_row.coded) };

    ghost use Rattle.rl_world.specs.Kept.{IsKept};

    ghost view = { λ w. record { setup = w.run.setup; events = w.events; counted = w.counted; failed = w.failed } };

    ghost invariant = { IsKept };
}

impl World {
    /// The world of a script before any event: each node is up and follows, and nothing was sent. It takes the script's
    /// tables, opening rows, lists, nodes, workers and items a batch; what else a script has, its events among that, it
    /// drops.
    pub fn new(alloc: Global, script: Script) -> Result<World, Memory>
        requires fits { ScriptFits script }
        ensures new { IfOk result (IsNew script) }
    {
        let Script {
            schema,
            rows,
            nodes,
            workers,
            batch,
            lists,
            ..
        } = script;
        let setup = Setup::new(nodes, workers, batch, schema, rows, lists);
        Ok(World {
            run: Run::new(alloc, setup, nodes)?,
            events: Events::new(alloc),
            counted: 0,
            failed: None,
        })
    }

    /// How many events it was given, as they count.
    pub fn counted(&self) -> u32
        ensures { result ≡ self.now.counted }
    {
        self.counted
    }

    /// An event happens, which is none of random: those are written out before.
    ///
    /// `Limit` exactly where the event passes a limit: the slots of a stream, or the bytes of all messages. `Memory`. After
    /// either it answers the same to each later event.
    pub fn event(&mut self, alloc: Global, e: &Event) -> Result<(), WorldError>
        requires fits { let setup = setup_of self.old.setup in EventFits setup.nodes setup.workers e.now }
        requires plain { IsNotRandom e.now }
        requires room { self.old.counted + count_of e.now ≤ EVENTS }
        ensures event { MatchResult result (λ done. TakesEvent self.old self.new e.now) (RefusesEvent self.old self.new e.now) }
    {
        self.counted += e.count();
        if let Some(error) = self.failed {
            return Err(error);
        }
        match take(&mut self.run, &mut self.events, alloc, e) {
            Ok(()) => Ok(()),
            Err(error) => {
                self.failed = Some(error);
                Err(error)
            }
        }
    }

    /// The released items, lent.
    pub fn released(&self) -> &Items
        ensures { StandsFor self.now (λ w. result.now ≡ w.released) }
    {
        &self.run.told.released
    }

    /// The report of the world as it is now. The world is safe: what it released begins one serial history, and so on, with
    /// no condition on its events.
    pub fn report(&self, alloc: Global) -> Result<Report, Memory>
        ensures report { let setup = setup_of self.now.setup in
            StandsFor self.now (λ w. IfOk result (λ report. report ≡ reported setup.program.tables (report_of setup w))) }
        ensures form { self.now.failed ≡ None → IfOk result IsReport }
        ensures safe { StandsFor self.now (Safe (setup_of self.now.setup)) }
    {
        every_run_is_safe();
        self.run.report(alloc)
    }
}

/// An event happens and joins those that happened before. Room for it is made first. `Limit`; `Memory`.
fn take(run: &mut Run, events: &mut Events, alloc: Global, e: &Event) -> Result<(), WorldError>
    requires safe { IsSafe run.old }
    requires after { IsAfter run.old events.old }
    requires fit { EventsFitRun run.old events.old }
    requires fits { let setup = setup_of run.old.setup in EventFits setup.nodes setup.workers e.now }
    requires plain { IsNotRandom e.now }
    requires room { sum_by count_of events.old + count_of e.now ≤ EVENTS }
    ensures safe { IsSafe run.new }
    ensures setup { run.new.setup ≡ run.old.setup }
    ensures taken { OnOk result (events.new ≡ events.old ++ e.now ∷ []) }
    ensures after { OnOk result (IsAfter run.new events.new) }
    ensures refused { IfErr result (IsCause (world_after (setup_of run.old.setup) (events.old ++ e.now ∷ []))) }
    ensures kept { OnErr result (events.new ≡ events.old) }
{
    events.push(*e)?;
    match run.happen(alloc, e) {
        Ok(()) => Ok(()),
        Err(error) => {
            events.pop();
            Err(error)
        }
    }
}
