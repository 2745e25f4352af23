//! The command `live`: all requests of a script, each worker in a thread of its own.

ghost use Rattle.std.specs.Prelude.{◌≡◌, ◌==◌, ◌+◌, ◌*◌, ◌<◌, ◌≤◌, ◌-◌, ◌^◌, ◌⊎◌, ℕ, List, [], IfOk, IsTrue, IsFalse, Option, None, Some, length, map, take, All, if◌then◌else◌};
ghost use Rattle.std.specs.List.{range_with_len};
ghost use Rattle.rl_base.specs.declared.limit.TheConstants.{SLOTS};
ghost use Rattle.rl_value.specs.Rows.{Rows};
ghost use Rattle.rl_txn.specs.Serial.{rows_after};
ghost use Rattle.rl_report.specs.Printed.{printed};
ghost use Rattle.rl_report.specs.Lines.{row_lines};
ghost use Rattle.rl_check.specs.Right.{live_report, node_after};
ghost use Rattle.rl_live.specs.Run.{RunOk, without_stops};
ghost use Rattle.rl_script.specs.Fits.{ScriptFits};
ghost use Rattle.rl_app.specs.Answers.{AnswersScript};
ghost use Rattle.rl_app.specs.Live.{AnswersLive, HasRoom, ServesLive};
ghost use Rattle.rl_app.specs.Printing.{HasNodes, node_with};
ghost use Rattle.rl_app.specs.Serve.{IsAnswered, Reads, side};

use crate::answer::{Answer, Status, limit_answer, write_answer};
use crate::input::{read_input, read_script};
use rl_base::limit::{SCRIPT, SLOTS};
use rl_base::list::Bytes;
use rl_base::memory::Memory;
use rl_io::sink::Sink;
use rl_io::source::Source;
use rl_live::gate::Gate;
use rl_live::run::{LiveRun, NodeRuns};
use rl_live::session::session;
use rl_report::block::{Block, Blocks, Head};
use rl_report::line::{RowLines, StreamLines, item_lines};
use rl_report::middle::Lines;
use rl_report::printed::print_report;
use rl_report::report::{Report, Title};
use rl_report::rows::row_lines;
use rl_script::script::Script;
use rl_txn::item::Items;
use rl_value::map::Map;
use rl_value::schema::Schema;
use std::alloc::Global;
use std::sync::Wait;
use std::thread::Threads;

/// Reads a script, runs all its requests by one thread for each worker, and writes the report: the
/// items of all workers in the order of their stamps, and the rows of each node. Events and lines
/// `stop` are passed over: the run is that of the script without them. The gate is told of each point that a worker comes to, and may hold it.
///
/// What was decided is serial: one thread could have run all requests in the order of the items, each
/// list in its order; each node's rows are those after the items. The run itself is given back
/// exactly at status 0.
///
/// The statuses are those of `serial`; at 4 the limit can also be `live`, where two more than the
/// length of the longest list, times the stops and one, pass 4,096. It may never return: where a
/// gate holds a worker, or where messages never arrive.
pub fn live<R: Threads + Wait + Sync, S: Source, K: Sink, G: Gate>(
    rt: &R,
    alloc: Global,
    source: &mut S,
    sink: &mut K,
    gate: &G,
) -> (Status, Option<LiveRun>)
    ensures { ServesLive
        (side S.left S.faults source.old source.new)
        (side K.held K.faults sink.old sink.new)
        result.0.code result.1 }
{
    let mut made = None;
    let answer = compose(rt, alloc, source, gate, &mut made);
    let status = write_answer(sink, answer);
    (status, given_at(status, made))
}

/// The run that a call gives back with its status.
fn given_at(status: Status, made: Option<LiveRun>) -> Option<LiveRun>
    ensures { result ≡ (if status.code == 0 then made else None) }
{
    if status.code == 0 { made } else { None }
}

/// What the command answers, with the run that it made, or the answer where its input can't be read.
fn compose<R: Threads + Wait + Sync, S: Source, G: Gate>(
    rt: &R,
    alloc: Global,
    source: &mut S,
    gate: &G,
    made: &mut Option<LiveRun>,
) -> Result<Answer, Memory>
    ensures { IfOk result (λ answer. Reads (AnswersScript (AnswersLive made.new)) SCRIPT
        (side S.left S.faults source.old source.new)
        answer.status.code answer.text) }
{
    match read_input(alloc, source, SCRIPT)? {
        Ok(input) => input_answer(rt, alloc, input.as_slice(), gate, made),
        Err(stopped) => Ok(stopped),
    }
}

/// The answer to an input, with the run that was made of its script.
fn input_answer<R: Threads + Wait + Sync, G: Gate>(
    rt: &R,
    alloc: Global,
    input: &[u8],
    gate: &G,
    made: &mut Option<LiveRun>,
) -> Result<Answer, Memory>
    requires { length input.now < 2 ^ 32 - 1 }
    ensures answers { IfOk result (λ answer. AnswersScript (AnswersLive made.new) input.now answer.status.code answer.text) }
    ensures answered { IfOk result (λ answer. IsAnswered answer.status.code) }
{
    match read_script(alloc, input)? {
        Ok(script) => script_answer(rt, alloc, &script, gate, made),
        Err(refused) => Ok(refused),
    }
}

/// The answer to a script: the report of a run of it, which is given too, or the limit that its longest
/// list passes.
fn script_answer<R: Threads + Wait + Sync, G: Gate>(
    rt: &R,
    alloc: Global,
    script: &Script,
    gate: &G,
    made: &mut Option<LiveRun>,
) -> Result<Answer, Memory>
    requires { ScriptFits script.now }
    ensures gives { IfOk result (λ answer. AnswersLive made.new script.now answer.status.code answer.text) }
    ensures answered { IfOk result (λ answer. IsAnswered answer.status.code) }
{
    if !has_room(script) {
        return limit_answer(alloc, "live", SLOTS);
    }
    let run = session(rt, alloc, script, gate)?;
    let text = print_live(alloc, script, &run.items, &run.nodes)?;
    *made = Some(run);
    Ok(Answer::printed(text))
}

/// Whether each stream has room for what a run of a script may put there.
fn has_room(script: &Script) -> bool
    requires { ScriptFits script.now }
    ensures yes { IsTrue result → HasRoom script.now }
    ensures no { IsFalse result → HasRoom script.now → ⊥ }
{
    let epochs = script.stops.len() + 1;
    for list in script.lists.as_slice() {
        if (list.len() + 2) * epochs > SLOTS as usize {
            return false;
        }
    }
    true
}

/// The text of a run: its items, and each node with the rows after them.
fn print_live(
    alloc: Global,
    script: &Script,
    items: &Items,
    nodes: &NodeRuns,
) -> Result<Bytes, Memory>
    requires fits { ScriptFits script.now }
    requires nodes { HasNodes script.now.nodes (rows_after script.now.rows items.now) nodes.now }
    ensures { IfOk result (λ text. text ≡ printed (live_report script.now items.now)) }
{
    let items = item_lines(alloc, items)?;
    let blocks = node_blocks(alloc, &script.schema, nodes)?;
    let report = Report {
        title: Title::Live,
        middle: Lines::new(alloc),
        items,
        tables: RowLines::new(alloc),
        blocks,
    };
    print_report(alloc, &report)
}

/// Each node with its number and its rows.
fn node_blocks(alloc: Global, schema: &Schema, nodes: &NodeRuns) -> Result<Blocks, Memory>
    requires { length nodes.now < 2 ^ 32 - 1 }
    ensures { (rows : Rows) → HasNodes (length nodes.now) rows nodes.now
        → IfOk result (λ blocks. blocks ≡ map (node_with schema.now rows) (range_with_len 1 (length nodes.now))) }
{
    let mut blocks = Blocks::new(alloc);
    let mut number = 0;
    for node in nodes.as_slice() {
        number += 1;
        blocks.push(node_block(alloc, schema, number, &node.map)?)?;
    }
    Ok(blocks)
}

/// A node with its number and its rows.
fn node_block(alloc: Global, schema: &Schema, node: u32, rows: &Map) -> Result<Block, Memory>
    ensures { IfOk result (λ block. block ≡ node_with schema.now rows.now node) }
{
    Ok(Block {
        node,
        head: Head::Plain,
        streams: StreamLines::new(alloc),
        rows: row_lines(alloc, schema, rows)?,
    })
}
