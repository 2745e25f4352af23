//! The command `gen`: a generated script, printed or run.

ghost use Rattle.std.specs.Prelude.{◌≡◌, ◌≤◌, ◌-◌, ◌^◌, None, IfOk, IfSome, MatchOption, codes, min};
ghost use Rattle.rl_node.specs.SetupOf.{setup_of};
ghost use Rattle.rl_script.specs.Fits.{ScriptFits};
ghost use Rattle.rl_world.specs.Worlds.{StandsFor};
ghost use Rattle.rl_app.specs.Command.{usage_line};
ghost use Rattle.rl_app.specs.Gen.{GivesRun, GivesScript, IsPrinted, SomeEach, gen_sizes, number_from, sizes_of};
ghost use Rattle.rl_app.specs.Generating.{IsAnsweredBy, IsGenerated};
ghost use Rattle.rl_app.specs.Serve.{Delivers, Writes, side};
ghost use Rattle.rl_app.specs.Sim.{AnswersWorld};
ghost use Rattle.rl_app.specs.Summary.{IsSummary};

use crate::answer::{Answer, Status, deliver, passed_answer, write_answer};
use crate::command::USAGE;
use crate::sim::world_of;
use crate::summary::summary;
use rl_base::memory::Memory;
use rl_gen::generate::{GenError, generate};
use rl_io::sink::Sink;
use rl_script::printed::print;
use rl_script::script::Script;
use rl_text::number::number_of;
use rl_world::world::World;
use rl_world::world_error::WorldError;
use std::alloc::Global;

/// The seed of a generated script, and how many nodes, workers and requests it has.
#[derive(Clone, Copy, Debug, PartialEq, Eq)]
pub struct Sizes {
    pub seed: u32,
    pub nodes: u64,
    pub workers: u64,
    pub requests: u64,
}

/// Writes the printed form of a generated script, or the summary of its run: the words are `gen script`
/// or `gen run`, and then `SEED NODES WORKERS REQUESTS`.
///
/// Status 0 with the script or the summary; 2 where the words are others, or a number is out of its
/// range: a seed above 4294967295, or a 0 behind it; 4 for more than 7 nodes, 16 workers or 2,000
/// requests, or where the run passes a limit; 6 where a write failed, with a prefix of the text written;
/// 7 where there was no memory. At 2, 4 and 7 the one line of the status is written.
pub fn gen_command<K: Sink>(alloc: Global, words: &[String], sink: &mut K) -> Status
    ensures { let sides = side K.held K.faults sink.old sink.new in MatchOption (gen_sizes (codes "script") words.now)
        (MatchOption (gen_sizes (codes "run") words.now)
        (Delivers sides 2 usage_line result.code)
        (λ sizes. Writes (GivesRun sizes) sides result.code))
        (λ sizes. Writes (GivesScript sizes) sides result.code) }
{
    if let Some(sizes) = gen_sizes("script", words) {
        return gen_script(alloc, sizes, sink);
    }
    match gen_sizes("run", words) {
        Some(sizes) => gen_run(alloc, sizes, sink),
        None => deliver(sink, Status { code: 2 }, USAGE.as_bytes()),
    }
}

/// Writes the printed form of the script of some sizes, or the limit that they pass.
pub fn gen_script<K: Sink>(alloc: Global, sizes: Sizes, sink: &mut K) -> Status
    requires { SomeEach sizes }
    ensures { Writes (GivesScript sizes) (side K.held K.faults sink.old sink.new) result.code }
{
    let answer = script_answer(alloc, sizes);
    write_answer(sink, answer)
}

/// Writes the summary of the run of the script of some sizes, or the limit that they or its events pass.
pub fn gen_run<K: Sink>(alloc: Global, sizes: Sizes, sink: &mut K) -> Status
    requires { SomeEach sizes }
    ensures { Writes (GivesRun sizes) (side K.held K.faults sink.old sink.new) result.code }
{
    let answer = run_answer(alloc, sizes);
    write_answer(sink, answer)
}

/// The answer where a script of some sizes is to be generated and printed.
fn script_answer(alloc: Global, sizes: Sizes) -> Result<Answer, Memory>
    requires { SomeEach sizes }
    ensures { IfOk result (λ answer. GivesScript sizes answer.status.code answer.text) }
{
    match script_of(alloc, sizes) {
        Ok(script) => printed_script(alloc, &script),
        Err(refused) => refused_answer(alloc, refused),
    }
}

/// The answer where a script of some sizes is to be generated and run.
fn run_answer(alloc: Global, sizes: Sizes) -> Result<Answer, Memory>
    requires { SomeEach sizes }
    ensures { IfOk result (λ answer. GivesRun sizes answer.status.code answer.text) }
{
    match script_of(alloc, sizes) {
        Ok(script) => run_summary(alloc, at_most(sizes.requests), script),
        Err(refused) => refused_answer(alloc, refused),
    }
}

/// The script of some sizes.
fn script_of(alloc: Global, sizes: Sizes) -> Result<Script, GenError>
    requires { SomeEach sizes }
    ensures generated { IsGenerated sizes result }
    ensures fits { IfOk result ScriptFits }
{
    let nodes = at_most(sizes.nodes);
    let workers = at_most(sizes.workers);
    let requests = at_most(sizes.requests);
    generate(alloc, sizes.seed, nodes, workers, requests)
}

/// The answer where no script was generated.
fn refused_answer(alloc: Global, refused: GenError) -> Result<Answer, Memory>
    ensures { IsAnsweredBy refused result }
{
    match refused {
        GenError::GenLimit { name, limit } => passed_answer(alloc, name, limit),
        GenError::Memory => Err(Memory),
    }
}

/// The answer with the printed form of a script.
fn printed_script(alloc: Global, script: &Script) -> Result<Answer, Memory>
    requires { ScriptFits script.now }
    ensures { IfOk result (λ answer. IsPrinted script.now answer.status.code answer.text) }
{
    Ok(Answer::printed(print(alloc, script)?))
}

/// The answer with the summary of the run of a script with so many requests.
fn run_summary(alloc: Global, requests: u32, script: Script) -> Result<Answer, Memory>
    requires { ScriptFits script }
    ensures { IfOk result (λ answer. AnswersWorld (IsSummary requests) script answer.status.code answer.text) }
{
    match world_of(alloc, script) {
        Ok(world) => world_summary(alloc, requests, &world),
        Err(WorldError::Limit { name, limit }) => passed_answer(alloc, name, limit),
        Err(WorldError::Memory) => Err(Memory),
    }
}

/// The answer with the summary of a world that refused no event.
fn world_summary(alloc: Global, requests: u32, world: &World) -> Result<Answer, Memory>
    requires { world.now.failed ≡ None }
    ensures status { IfOk result (λ answer. answer.status.code ≡ 0) }
    ensures summary { let setup = setup_of world.now.setup in
        StandsFor world.now (λ w. IfOk result (λ answer. IsSummary requests setup w answer.text)) }
{
    let report = world.report(alloc)?;
    Ok(Answer::printed(summary(alloc, requests, &report)?))
}

/// A number, or the greatest one of 32 bits.
fn at_most(n: u64) -> u32
    ensures { result ≡ min n (2 ^ 32 - 1) }
{
    if n > u64::from(u32::MAX) {
        u32::MAX
    } else {
        n as u32
    }
}

/// The sizes behind two words: `gen`, and what is generated.
pub fn gen_sizes(what: &str, words: &[String]) -> Option<Sizes>
    ensures sizes { result ≡ gen_sizes what.now words.now }
    ensures some { IfSome result SomeEach }
{
    match words {
        [first, second, seed, nodes, workers, requests] => {
            if first.as_str() == "gen" && second.as_str() == what {
                sizes_of(seed, nodes, workers, requests)
            } else {
                None
            }
        }
        _ => None,
    }
}

/// The sizes that four words are.
fn sizes_of(seed: &str, nodes: &str, workers: &str, requests: &str) -> Option<Sizes>
    ensures sizes { result ≡ sizes_of seed.now nodes.now workers.now requests.now }
    ensures some { IfSome result SomeEach }
{
    let seed = number_from(0, u64::from(u32::MAX), seed)?;
    let nodes = number_from(1, u64::MAX, nodes)?;
    let workers = number_from(1, u64::MAX, workers)?;
    let requests = number_from(1, u64::MAX, requests)?;
    Some(Sizes {
        seed: seed as u32,
        nodes,
        workers,
        requests,
    })
}

/// The number from low to high that a word is, if it is one.
fn number_from(low: u64, high: u64, word: &str) -> Option<u64>
    ensures number { result ≡ number_from low high word.now }
    ensures low { IfSome result (λ n. low ≤ n) }
    ensures high { IfSome result (λ n. n ≤ high) }
{
    let n = number_of(word.as_bytes())?;
    if n < low || n > high {
        return None;
    }
    Some(n)
}
