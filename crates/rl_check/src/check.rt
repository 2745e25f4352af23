//! Whether a report is right.

ghost use Rattle.std.specs.Prelude.{◌≡◌, ◌+◌, ◌<◌, ◌-◌, ◌^◌, ℕ, List, IfOk, Ok, MatchResult, length};
ghost use Rattle.rl_script.specs.Fits.{ScriptFits};
ghost use Rattle.rl_report.specs.Forms.{IsReport};
ghost use Rattle.rl_report.specs.Lent.{threads_report};
ghost use Rattle.rl_report.specs.Printed.{printed};
ghost use Rattle.rl_report.specs.Read.{read_report};
ghost use Rattle.rl_check.specs.Reruns.{HasRunAll, IsItemVerdict, with_rows};
ghost use Rattle.rl_check.specs.Verdicts.{IsVerdict, node_line};

use crate::nodes::judge_nodes;
use crate::rerun::{Rerun, are_whole};
use crate::verdict::{Verdict, Why};
use rl_base::memory::Memory;
use rl_report::fault::ReportError;
use rl_report::lent::{LentNodes, LentReport, lend_report};
use rl_report::line::ItemLines;
use rl_script::script::Script;
use rl_value::map::Map;
use std::alloc::Global;
use std::mem;

/// Whether a text is the right report of a run of threads of a script.
///
/// `Yes` with the number of items where it is: all requests in an order in which one thread could have
/// run them, with what they then answer and stamps that the script's stops allow, and one node for each
/// of the script's with the rows after them. Else `No` with the first line that is wrong, counted from
/// 1, and why, in this order: `Form`, at the line where it is no report; `Title`, at line 1; of each item
/// `Stamp`, `Request` and `Reply`, at its line; `Missing`, at line 2; of each node `Nodes`, at the line
/// of one too many, and `Table`, at its first line that is other than the rows due, or the line behind
/// them; and `Nodes`, at the line behind the last, where there are too few. Without memory it is
/// `Memory`. A text has fewer than 2^32 - 1 bytes.
pub fn check_report(alloc: Global, script: &Script, text: &[u8]) -> Result<Verdict, Memory>
    requires script { ScriptFits script.now }
    requires text { length text.now < 2 ^ 32 - 1 }
    ensures { IfOk result (λ verdict. IsVerdict script.now text.now verdict) }
{
    judge(alloc, script, script.rows.copy()?, text)
}

/// Whether a text is the right report of a run of threads of a script, as `check_report` answers; but the
/// script is used up, and no second copy of its rows is made.
pub fn check_script(alloc: Global, script: Script, text: &[u8]) -> Result<Verdict, Memory>
    requires script { ScriptFits script }
    requires text { length text.now < 2 ^ 32 - 1 }
    ensures { IfOk result (λ verdict. IsVerdict script text.now verdict) }
{
    let mut script = script;
    let rows = mem::replace(&mut script.rows, Map::new(alloc));
    judge(alloc, &script, rows, text)
}

/// The verdict on a text, where these are the script's opening rows.
fn judge(alloc: Global, script: &Script, rows: Map, text: &[u8]) -> Result<Verdict, Memory>
    requires script { ScriptFits (with_rows script.now rows) }
    requires text { length text.now < 2 ^ 32 - 1 }
    ensures { IfOk result (λ verdict. IsVerdict (with_rows script.now rows) text.now verdict) }
{
    match lend_report(alloc, text) {
        Ok(LentReport::Threads { items, nodes }) => {
            judge_threads(alloc, script, rows, &items, &nodes)
        }
        Ok(LentReport::Other(_)) => Ok(Verdict::No {
            line: 1,
            why: Why::Title,
        }),
        Err(ReportError::Fault { line, .. }) => Ok(Verdict::No {
            line,
            why: Why::Form,
        }),
        Err(ReportError::Memory) => Err(Memory),
    }
}

/// The verdict on the report of a run of threads.
fn judge_threads(
    alloc: Global,
    script: &Script,
    rows: Map,
    items: &ItemLines,
    nodes: &LentNodes,
) -> Result<Verdict, Memory>
    requires script { ScriptFits (with_rows script.now rows) }
    requires form { IsReport (threads_report items.now nodes.now) }
    requires lines { node_line (threads_report items.now nodes.now) (length nodes.now) < 2 ^ 32 }
    ensures { (text : List ℕ) → read_report text ≡ Ok (threads_report items.now nodes.now)
        → text ≡ printed (threads_report items.now nodes.now)
        → IfOk result (λ verdict. IsVerdict (with_rows script.now rows) text verdict) }
{
    let rerun = match rerun_items(alloc, script, rows, items)? {
        Ok(rerun) => rerun,
        Err(wrong) => return Ok(wrong),
    };
    if !are_whole(&script.lists, rerun.counts.as_slice()) {
        return Ok(Verdict::No {
            line: 2,
            why: Why::Missing,
        });
    }
    judge_nodes(alloc, script, items, nodes, &rerun.rows)
}

/// The requests of all items, run again, or the verdict on the first line that is wrong.
fn rerun_items(
    alloc: Global,
    script: &Script,
    rows: Map,
    lines: &ItemLines,
) -> Result<Result<Rerun, Verdict>, Memory>
    requires script { ScriptFits (with_rows script.now rows) }
    requires few { length lines.now + 3 < 2 ^ 32 }
    ensures { IfOk result (λ said. MatchResult said
        (λ rerun. HasRunAll (with_rows script.now rows) lines.now rerun)
        (λ verdict. IsItemVerdict (with_rows script.now rows) lines.now verdict)) }
{
    let mut rerun = Rerun::begin(alloc, script, rows)?;
    let mut line = 3;
    for item in lines.as_slice() {
        let wrong = rerun.take(alloc, script, item)?;
        if let Some(why) = wrong {
            return Ok(Err(Verdict::No { line, why }));
        }
        line += 1;
    }
    Ok(Ok(rerun))
}
