//! The top call: which command some words are.

ghost use Rattle.std.specs.Prelude.{◌≡◌, ◌⊎◌, ℕ, List, Option, Some, None, IfSome};
ghost use Rattle.rl_live.specs.declared.run.LiveRun.{LiveRun};
ghost use Rattle.rl_app.specs.declared.command.Form.{Form};
ghost use Rattle.rl_app.specs.Answers.{AnswersScript, Reports};
ghost use Rattle.rl_app.specs.declared.generator.Sizes.{Sizes};
ghost use Rattle.rl_app.specs.Check.{Checks};
ghost use Rattle.rl_app.specs.Command.{form_of, gen_form, plain_form, usage_line};
ghost use Rattle.rl_app.specs.Gen.{GivesRun, GivesScript, SomeEach};
ghost use Rattle.rl_app.specs.Live.{ServesLive};
ghost use Rattle.rl_app.specs.Serial.{IsReport};
ghost use Rattle.rl_app.specs.Serve.{Delivers, Serves, Writes, side};
ghost use Rattle.rl_app.specs.Sim.{GivesWorld};
ghost use Rattle.rl_app.specs.Steps.{IsStepsReport};

use crate::answer::{Status, deliver};
use crate::checker::check;
use crate::generator::{Sizes, gen_run, gen_script, gen_sizes};
use crate::live::live;
use crate::serial::serial;
use crate::sim::sim;
use crate::steps::steps;
use rl_base::limit::{CHECKED, SCRIPT};
use rl_io::sink::Sink;
use rl_io::source::Source;
use rl_live::gate::Gate;
use std::alloc::Global;
use std::sync::Wait;
use std::thread::Threads;

/// What is written where the words have no form.
pub const USAGE: &str =
    "usage: rolis serial, steps, sim, live, check, gen script S N W R, gen run S N W R\n";

/// A form that the words of the program can have.
#[derive(Clone, Copy, Debug, PartialEq, Eq)]
pub enum Form {
    Serial,
    Steps,
    Sim,
    Live,
    Check,
    /// `gen script`, with what is generated.
    GenScript(Sizes),
    /// `gen run`, with what is generated.
    GenRun(Sizes),
}

/// Does all that the program does. The one word `serial`, `steps`, `sim`, `live` or `check` is the command of this
/// name, and `gen script` or `gen run` with `SEED NODES WORKERS REQUESTS` behind it is another; all other
/// words are status 2.
///
/// Status 0 with the report, the verdict that a report is right, the generated script or the summary of
/// its run; 1 with the first line of a report that is wrong, and why; 2 where the words are no command; 3
/// where the input breaks a rule of the language; 4 where it has more than 4,194,304 bytes, of `check`
/// 67,108,864, or where a limit of the language or of a run is passed; 5 where a read failed; 6 where a
/// write failed, with a prefix of the text written; 7 where there was no memory. At 1, 2, 3, 4, 5 and 7 the
/// one line of the status is written. Where the words are no command, and by `gen`, nothing is read.
///
/// What `sim` reports is safe. For every script, whatever its steps, deliveries, losses, repeats,
/// reorderings, elections and crashes, the released transactions in the order of their stamps are a prefix
/// of one serial history; each replica at its watermark holds exactly a prefix of it; each leader opens
/// with everything that leaders of earlier epochs release; and a commit is refused only where a record
/// that it had observed changed or one that it needed was locked by another worker.
///
/// What `live` reports is a run of all requests of the script without its lines `stop`: its items are one
/// serial history with each list in its order, and each node has the rows after them. `live` alone starts
/// threads and tells the gate of its workers' points; it may never return, where the gate holds a worker or
/// messages never arrive.
pub fn rolis<R: Threads + Wait + Sync, S: Source, K: Sink, G: Gate>(
    rt: &R,
    alloc: Global,
    words: &[String],
    source: &mut S,
    sink: &mut K,
    gate: &G,
) -> Status
    ensures serial { form_of words.now ≡ Some Form.Serial → Serves (Reports IsReport) SCRIPT
        (side S.left S.faults source.old source.new)
        (side K.held K.faults sink.old sink.new)
        result.code }
    ensures steps { form_of words.now ≡ Some Form.Steps → Serves (Reports IsStepsReport) SCRIPT
        (side S.left S.faults source.old source.new)
        (side K.held K.faults sink.old sink.new)
        result.code }
    ensures sim { form_of words.now ≡ Some Form.Sim → Serves (AnswersScript GivesWorld) SCRIPT
        (side S.left S.faults source.old source.new)
        (side K.held K.faults sink.old sink.new)
        result.code }
    ensures live { form_of words.now ≡ Some Form.Live → (run : Option LiveRun) × ServesLive
        (side S.left S.faults source.old source.new)
        (side K.held K.faults sink.old sink.new)
        result.code run }
    ensures check { form_of words.now ≡ Some Form.Check → Serves Checks CHECKED
        (side S.left S.faults source.old source.new)
        (side K.held K.faults sink.old sink.new)
        result.code }
    ensures gen_script { (sizes : Sizes) → form_of words.now ≡ Some (Form.GenScript sizes) → (source.new ≡ source.old)
        × Writes (GivesScript sizes) (side K.held K.faults sink.old sink.new) result.code }
    ensures gen_run { (sizes : Sizes) → form_of words.now ≡ Some (Form.GenRun sizes) → (source.new ≡ source.old)
        × Writes (GivesRun sizes) (side K.held K.faults sink.old sink.new) result.code }
    ensures usage { form_of words.now ≡ None → (source.new ≡ source.old)
        × Delivers (side K.held K.faults sink.old sink.new) 2 usage_line result.code }
{
    match form_of(words) {
        Some(Form::Serial) => serial(alloc, source, sink),
        Some(Form::Steps) => steps(alloc, source, sink),
        Some(Form::Sim) => sim(alloc, source, sink),
        Some(Form::Live) => live(rt, alloc, source, sink, gate).0,
        Some(Form::Check) => check(alloc, source, sink),
        Some(Form::GenScript(sizes)) => gen_script(alloc, sizes, sink),
        Some(Form::GenRun(sizes)) => gen_run(alloc, sizes, sink),
        None => deliver(sink, Status { code: 2 }, USAGE.as_bytes()),
    }
}

/// The form that some words have, if they have one.
fn form_of(words: &[String]) -> Option<Form>
    ensures form { result ≡ form_of words.now }
    ensures script { (sizes : Sizes) → result ≡ Some (Form.GenScript sizes) → SomeEach sizes }
    ensures run { (sizes : Sizes) → result ≡ Some (Form.GenRun sizes) → SomeEach sizes }
{
    match words {
        [word] => plain_form(word),
        _ => gen_form(words),
    }
}

/// The form of the words of `gen`.
fn gen_form(words: &[String]) -> Option<Form>
    ensures form { result ≡ gen_form words.now }
    ensures script { (sizes : Sizes) → result ≡ Some (Form.GenScript sizes) → SomeEach sizes }
    ensures run { (sizes : Sizes) → result ≡ Some (Form.GenRun sizes) → SomeEach sizes }
{
    match gen_sizes("script", words) {
        Some(sizes) => Some(Form::GenScript(sizes)),
        None => gen_sizes("run", words).map(Form::GenRun),
    }
}

/// The form of one word.
fn plain_form(word: &str) -> Option<Form>
    ensures { result ≡ plain_form word.now }
{
    match word {
        "serial" => Some(Form::Serial),
        "steps" => Some(Form::Steps),
        "sim" => Some(Form::Sim),
        "live" => Some(Form::Live),
        "check" => Some(Form::Check),
        _ => None,
    }
}
