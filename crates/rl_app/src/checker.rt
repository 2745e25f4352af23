//! The command `check`: whether the report of a run of threads is right.

ghost use Rattle.std.specs.Prelude.{◌≡◌, ◌<◌, ◌≤◌, ◌-◌, ◌^◌, ◌⊎◌, ℕ, List, IfOk, IfSome, IfNone, length};
ghost use Rattle.std.specs.Option.{option_map};
ghost use Rattle.rl_text.specs.Text.{lines_of};
ghost use Rattle.rl_script.specs.Fits.{ScriptFits};
ghost use Rattle.rl_check.specs.Inputs.{report_part};
ghost use Rattle.rl_app.specs.Check.{Checks, ChecksReport, SaysVerdict, why_text};
ghost use Rattle.rl_app.specs.Serve.{IsAnswered, Serves, side};

use crate::answer::{Answer, Status, fault_answer, limit_answer};
use crate::input::read_script;
use crate::serve::{Command, serve};
use rl_base::limit::{CHECKED, SCRIPT};
use rl_base::memory::Memory;
use rl_check::check::check_script;
use rl_check::input::parts_of;
use rl_check::verdict::{Verdict, Why};
use rl_events::kind::Kind;
use rl_io::sink::Sink;
use rl_io::source::Source;
use rl_script::script::Script;
use std::alloc::Global;

/// Reads a script, a line `report` and a report, and writes whether that is the right report of a run of
/// threads of the script: `yes` and the number of items, or the first line that is wrong, and why.
///
/// Status 0 where it is right; 1 where it is not; 3 where the script breaks a rule of the language, or no
/// line `report` follows; 4 where the input has more than 67,108,864 bytes or its script more than
/// 4,194,304, or the script passes a limit of the language; 5 where a read failed; 6 where a write
/// failed, with a prefix of the text written; 7 where there was no memory. The one line of the status is
/// written.
pub fn check<S: Source, K: Sink>(alloc: Global, source: &mut S, sink: &mut K) -> Status
    ensures { Serves Checks CHECKED
        (side S.left S.faults source.old source.new)
        (side K.held K.faults sink.old sink.new)
        result.code }
{
    serve(alloc, &mut CheckCommand, CHECKED, source, sink)
}

/// The command.
#[derive(Drop)]
struct CheckCommand;

impl Command for CheckCommand {
    ghost answers = { λ _ _. Checks };

    fn answer(&mut self, alloc: Global, input: &[u8]) -> Result<Answer, Memory> {
        let parts = parts_of(input);
        if parts.script.len() > SCRIPT as usize {
            return limit_answer(alloc, "script", SCRIPT);
        }
        match read_script(alloc, parts.script)? {
            Ok(script) => report_answer(alloc, script, parts.report, parts.lines),
            Err(refused) => Ok(refused),
        }
    }
}

/// The answer to the report behind a script, or to so many lines with none.
fn report_answer(
    alloc: Global,
    script: Script,
    report: Option<&[u8]>,
    lines: u32,
) -> Result<Answer, Memory>
    requires script { ScriptFits script }
    requires lines { lines < 2 ^ 32 - 1 }
    requires report { IfSome report (λ report. length report.now < 2 ^ 32 - 1) }
    ensures answers { (input : List ℕ) → option_map (λ report. report.now) report.entry ≡ report_part input
        → IfNone report.entry (lines ≡ length (lines_of input))
        → IfOk result (λ answer. ChecksReport input script answer.status.code answer.text) }
    ensures answered { IfOk result (λ answer. IsAnswered answer.status.code) }
{
    match report {
        Some(report) => verdict_answer(alloc, check_script(alloc, script, report)?),
        None => fault_answer(alloc, lines + 1, Kind::Unended),
    }
}

/// The answer that a verdict is.
fn verdict_answer(alloc: Global, verdict: Verdict) -> Result<Answer, Memory>
    ensures says { IfOk result (λ answer. SaysVerdict verdict answer.status.code answer.text) }
    ensures answered { IfOk result (λ answer. IsAnswered answer.status.code) }
{
    match verdict {
        Verdict::Yes { items } => yes_answer(alloc, items),
        Verdict::No { line, why } => no_answer(alloc, line, why),
    }
}

/// The answer where a report is right.
fn yes_answer(alloc: Global, items: u32) -> Result<Answer, Memory>
    ensures says { IfOk result (λ answer. SaysVerdict (Verdict.Yes items) answer.status.code answer.text) }
    ensures answered { IfOk result (λ answer. IsAnswered answer.status.code) }
{
    let text = format!(in alloc; "yes {items}\n")?;
    Ok(Answer::line(0, text))
}

/// The answer where a report is wrong.
fn no_answer(alloc: Global, line: u32, why: Why) -> Result<Answer, Memory>
    ensures says { IfOk result (λ answer. SaysVerdict (Verdict.No line why) answer.status.code answer.text) }
    ensures answered { IfOk result (λ answer. IsAnswered answer.status.code) }
{
    let mut text = format!(in alloc; "no line {line} ")?;
    text.push_str(why_word(why))?;
    text.push_str("\n")?;
    Ok(Answer::line(1, text))
}

/// The word of a reason.
fn why_word(why: Why) -> &'static str
    ensures { result.now ≡ why_text why }
{
    match why {
        Why::Form => "form",
        Why::Title => "title",
        Why::Stamp => "stamp",
        Why::Request => "request",
        Why::Reply => "reply",
        Why::Missing => "missing",
        Why::Table => "table",
        Why::Nodes => "nodes",
    }
}
