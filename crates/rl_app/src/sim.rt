//! The command `sim`: the events of a script, on all nodes.

ghost use Rattle.std.specs.Prelude.{◌≡◌, ◌<◌, ◌-◌, ◌^◌, ◌⊎◌, ℕ, List, [], None, IfOk, IfErr, MatchResult, length};
ghost use Rattle.rl_nodes.specs.Events.{expanded_events, world_after};
ghost use Rattle.rl_node.specs.SetupOf.{setup_of};
ghost use Rattle.rl_script.specs.Fits.{ScriptFits};
ghost use Rattle.rl_world.specs.Scripts as scripts;
ghost use Rattle.rl_world.specs.Worlds.{IsCause, StandsFor};
ghost use Rattle.rl_app.specs.Answers.{AnswersScript};
ghost use Rattle.rl_app.specs.Serve.{IsAnswered, Serves, side};
ghost use Rattle.rl_app.specs.Sim.{GivesWorld, IsSimReport};
ghost use Rattle.rl_app.specs.Simulating.{CanBeGiven, HasTaken, StandsForRun};

use crate::answer::{Answer, Status, passed_answer};
use crate::input::read_script;
use crate::serve::{Command, serve};
use rl_base::limit::SCRIPT;
use rl_base::memory::Memory;
use rl_events::event::Events;
use rl_events::expand::{ExpandError, expand};
use rl_io::sink::Sink;
use rl_io::source::Source;
use rl_nodes::laws::runs_go_on;
use rl_report::printed::print_report;
use rl_script::script::Script;
use rl_world::laws::expanded_runs_are_runs;
use rl_world::world::World;
use rl_world::world_error::WorldError;
use std::alloc::Global;

/// Reads a script and writes the report of the world after its events, in which all nodes stand as those
/// events left them, up to the last: each event happens where it may, and does nothing elsewhere.
///
/// For every script, whatever its steps, deliveries, losses, repeats, reorderings, elections and crashes,
/// the released transactions in the order of their stamps are a prefix of one serial history; each replica
/// at its watermark holds exactly a prefix of it; each leader opens with everything that leaders of earlier
/// epochs release; and a commit is refused only where a record that it had observed changed or one that it
/// needed was locked by another worker.
///
/// The statuses are those of `serial`; at 4 the limit can also be that of the batches of a stream or of
/// the bytes of all messages.
pub fn sim<S: Source, K: Sink>(alloc: Global, source: &mut S, sink: &mut K) -> Status
    ensures { Serves (AnswersScript GivesWorld) SCRIPT
        (side S.left S.faults source.old source.new)
        (side K.held K.faults sink.old sink.new)
        result.code }
{
    serve(alloc, &mut SimCommand, SCRIPT, source, sink)
}

/// The command.
#[derive(Drop)]
struct SimCommand;

impl Command for SimCommand {
    ghost answers = { λ _ _. AnswersScript GivesWorld };

    fn answer(&mut self, alloc: Global, input: &[u8]) -> Result<Answer, Memory> {
        match read_script(alloc, input)? {
            Ok(script) => world_answer(alloc, script),
            Err(refused) => Ok(refused),
        }
    }
}

/// The answer to a script: the report of the world after its events, or the limit that they pass.
fn world_answer(alloc: Global, script: Script) -> Result<Answer, Memory>
    requires { ScriptFits script }
    ensures gives { IfOk result (λ answer. GivesWorld script answer.status.code answer.text) }
    ensures answered { IfOk result (λ answer. IsAnswered answer.status.code) }
{
    match world_of(alloc, script) {
        Ok(world) => report_answer(alloc, &world),
        Err(WorldError::Limit { name, limit }) => passed_answer(alloc, name, limit),
        Err(WorldError::Memory) => Err(Memory),
    }
}

/// The world after the events of a script. `Limit` where they pass a limit; `Memory`.
pub fn world_of(alloc: Global, script: Script) -> Result<World, WorldError>
    requires { ScriptFits script }
    ensures ok { IfOk result (StandsForRun script) }
    ensures err { IfErr result (IsCause (world_after (scripts.setup_of script) script.events)) }
{
    // For the proof alone: random events may be written out.
    expanded_runs_are_runs();
    let events = events_of(alloc, &script)?;
    let mut world = World::new(alloc, script)?;
    take_all(alloc, &mut world, &events)?;
    Ok(world)
}

/// The events of a script, with those that its seed draws in the place of each random one.
fn events_of(alloc: Global, script: &Script) -> Result<Events, Memory>
    requires { ScriptFits script.now }
    ensures events { IfOk result (λ events. events ≡ expanded_events (scripts.setup_of script.now) script.now.events) }
    ensures can { IfOk result (CanBeGiven (scripts.setup_of script.now)) }
{
    match expand(alloc, &script.events, script.nodes, script.workers) {
        Ok(events) => Ok(events),
        Err(ExpandError::Memory) => Err(Memory),
        Err(ExpandError::TooManyEvents { .. }) => unreachable!(),
    }
}

/// A new world is given some events, up to the first that it refuses.
fn take_all(alloc: Global, world: &mut World, events: &Events) -> Result<(), WorldError>
    requires new { HasTaken (setup_of world.old.setup) [] world.old }
    requires can { CanBeGiven (setup_of world.old.setup) events.now }
    ensures { let setup = setup_of world.old.setup in MatchResult result
        (λ _. HasTaken setup events.now world.new)
        (IsCause (world_after setup events.now)) }
{
    // For the proof alone: a limit that the first events pass is that of all.
    runs_go_on();
    for event in events.as_slice() {
        world.event(alloc, event)?;
    }
    Ok(())
}

/// The answer with the report of a world that refused no event.
fn report_answer(alloc: Global, world: &World) -> Result<Answer, Memory>
    requires { world.now.failed ≡ None }
    ensures status { IfOk result (λ answer. answer.status.code ≡ 0) }
    ensures report { let setup = setup_of world.now.setup in
        StandsFor world.now (λ w. IfOk result (λ answer. IsSimReport setup w answer.text)) }
{
    let report = world.report(alloc)?;
    Ok(Answer::printed(print_report(alloc, &report)?))
}
