//! A report, read from its text.

ghost use Rattle.std.specs.Prelude.{◌≡◌, ◌<◌, ◌≤◌, ◌-◌, ◌^◌, ◌==◌, ◌||◌, not, map, length, Ok, IfOk, MatchResult, codes};
ghost use Rattle.rl_report.specs.declared.block.Head.TheVariants.{Plain};
ghost use Rattle.rl_report.specs.Answers.{AreLinesRead, FailsAt};
ghost use Rattle.rl_report.specs.Forms.{IsReport};
ghost use Rattle.rl_report.specs.LineForms.{title_of, row, stream, simulated, node, refused, effect};
ghost use Rattle.rl_report.specs.Printed.{printed};
ghost use Rattle.rl_report.specs.Readers.{always, several};
ghost use Rattle.rl_report.specs.Words.{lines_in, short, exactly};
ghost use Rattle.rl_report.specs.Read.{next_line, one, one_line, next_begins, due_item, count, items, rows, tables, streams, has_streams, has_rows, where_reported, parts, block, nodes, refusals, any_effect, effects, body, read_lines, read_report, numbered_fault};

use crate::block::{Block, Blocks, Head};
use crate::fault::{Fault, LinesError, ReportError, ReportFault};
use crate::line::{ItemLine, ItemLines, RowLine, RowLines, StreamLine, StreamLines};
use crate::line_forms::{
    count_of, due_item, effect_of, plain_node, refused_of, row_of, shown_node, simulated_node,
    stream_of, tables_of, title_of,
};
use crate::line_words::{begins, count_lines, is_ended, words_in};
use crate::middle::{Lines, Middle};
use crate::report::{Report, Title};
use rl_text::text::first_line;
use std::alloc::{AllocError, Global};

/// The words of the next line, and the text behind it.
#[tactic(auto, using(crate::proofs::Places::next_lines))]
pub(crate) fn line_at(alloc: Global, text: &[u8]) -> Result<(Vec<&str>, &[u8]), LinesError>
    ensures line { AreLinesRead (λ x. (map (λ w. w.now) x.0.items, lines_in x.1.now)) result (next_line (lines_in text.now)) }
    ensures shorter { IfOk result (λ x. length x.1.now < length text.now) }
{
    if text.is_empty() {
        return Err(LinesError::fault(text, ReportFault::End));
    }
    let (line, rest) = first_line(text);
    Ok((words_in(alloc, line)?, rest))
}

/// Whether the first word of the next line is this one.
#[tactic(auto, using(crate::proofs::Places::next_words))]
pub(crate) fn next_begins(alloc: Global, due: &str, text: &[u8]) -> Result<bool, AllocError>
    ensures { IfOk result (λ b. b ≡ next_begins due.now (lines_in text.now)) }
{
    if text.is_empty() {
        return Ok(false);
    }
    let (line, _) = first_line(text);
    let words = words_in(alloc, line)?;
    Ok(begins(due, words.as_slice()))
}

/// How many items come, and the text behind that.
#[tactic(auto, unfolding(crate::specs::Read::one_line))]
fn count_at(alloc: Global, text: &[u8]) -> Result<(u64, &[u8]), LinesError>
    ensures count { AreLinesRead (λ x. (x.0, lines_in x.1.now)) result (count (lines_in text.now)) }
    ensures shorter { IfOk result (λ x. length x.1.now ≤ length text.now) }
{
    let (words, rest) = line_at(alloc, text)?;
    match count_of(words.as_slice()) {
        Ok(count) => Ok((count, rest)),
        Err(kind) => Err(LinesError::fault(text, kind)),
    }
}

/// An item, where one is due, and the text behind it.
#[tactic(auto, unfolding(crate::specs::Read::one_line))]
fn item_at(alloc: Global, text: &[u8]) -> Result<(ItemLine, &[u8]), LinesError>
    ensures item { AreLinesRead (λ x. (x.0, lines_in x.1.now)) result (one_line due_item (lines_in text.now)) }
    ensures shorter { IfOk result (λ x. length x.1.now < length text.now) }
{
    let (words, rest) = line_at(alloc, text)?;
    match due_item(alloc, words.as_slice()) {
        Ok(item) => Ok((item, rest)),
        Err(e) => Err(e.at(text)),
    }
}

/// So many items, and the text behind them.
fn several_items(alloc: Global, count: u64, text: &[u8]) -> Result<(ItemLines, &[u8]), LinesError>
    ensures items { AreLinesRead (λ x. (x.0, lines_in x.1.now)) result (several count (one_line due_item) (lines_in text.now)) }
    ensures shorter { IfOk result (λ x. length x.1.now ≤ length text.now) }
{
    let mut items = ItemLines::new(alloc);
    let mut rest = text;
    let mut left = count;
    'items: while left > 0 {
        let (item, after) = item_at(alloc, rest)?;
        items.push(item)?;
        rest = after;
        left -= 1;
    }
    Ok((items, rest))
}

/// The items behind their count, and the text behind them.
#[tactic(auto, unfolding(crate::specs::Read::items))]
pub(crate) fn items_at(alloc: Global, text: &[u8]) -> Result<(ItemLines, &[u8]), LinesError>
    ensures items { AreLinesRead (λ x. (x.0, lines_in x.1.now)) result (items (lines_in text.now)) }
    ensures shorter { IfOk result (λ x. length x.1.now ≤ length text.now) }
{
    let (count, rest) = count_at(alloc, text)?;
    let (items, rest) = several_items(alloc, count, rest)?;
    let more = next_begins(alloc, "item", rest)?;
    if more {
        return Err(LinesError::fault(rest, ReportFault::Count));
    }
    Ok((items, rest))
}

/// A row, and the text behind it.
#[tactic(auto, unfolding(crate::specs::Read::one_line))]
pub(crate) fn row_at(alloc: Global, text: &[u8]) -> Result<(RowLine, &[u8]), LinesError>
    ensures row { AreLinesRead (λ x. (x.0, lines_in x.1.now)) result (one row (lines_in text.now)) }
    ensures shorter { IfOk result (λ x. length x.1.now < length text.now) }
{
    let (words, rest) = line_at(alloc, text)?;
    match row_of(alloc, words.as_slice()) {
        Ok(row) => Ok((row, rest)),
        Err(e) => Err(e.at(text)),
    }
}

/// Rows, and the text behind them.
fn rows_at(alloc: Global, text: &[u8]) -> Result<(RowLines, &[u8]), LinesError>
    ensures rows { AreLinesRead (λ x. (x.0, lines_in x.1.now)) result (rows (lines_in text.now)) }
    ensures shorter { IfOk result (λ x. length x.1.now ≤ length text.now) }
{
    let mut rows = RowLines::new(alloc);
    let mut rest = text;
    'rows: loop {
        let comes = next_begins(alloc, "row", rest)?;
        if !comes {
            return Ok((rows, rest));
        }
        let (row, after) = row_at(alloc, rest)?;
        rows.push(row)?;
        rest = after;
    }
}

/// `tables` and rows, and the text behind them.
#[tactic(auto, unfolding(crate::specs::Read::one_line, crate::specs::Read::tables))]
fn tables_at(alloc: Global, text: &[u8]) -> Result<(RowLines, &[u8]), LinesError>
    ensures { AreLinesRead (λ x. (x.0, lines_in x.1.now)) result (tables (lines_in text.now)) }
{
    let (words, rest) = line_at(alloc, text)?;
    match tables_of(words.as_slice()) {
        Ok(_) => rows_at(alloc, rest),
        Err(kind) => Err(LinesError::fault(text, kind)),
    }
}

/// The stream of a number, and the text behind it.
#[tactic(auto, unfolding(crate::specs::Read::one_line))]
fn stream_at(alloc: Global, number: u32, text: &[u8]) -> Result<(StreamLine, &[u8]), LinesError>
    ensures stream { AreLinesRead (λ x. (x.0, lines_in x.1.now)) result (one (stream number) (lines_in text.now)) }
    ensures shorter { IfOk result (λ x. length x.1.now < length text.now) }
{
    let (words, rest) = line_at(alloc, text)?;
    match stream_of(number, words.as_slice()) {
        Ok(stream) => Ok((stream, rest)),
        Err(kind) => Err(LinesError::fault(text, kind)),
    }
}

/// Whether a stream comes: the first one is due.
fn stream_comes(alloc: Global, number: u32, text: &[u8]) -> Result<bool, AllocError>
    ensures { IfOk result (λ b. b ≡ ((number == 1) || next_begins (codes "stream") (lines_in text.now))) }
{
    if number == 1 {
        return Ok(true);
    }
    next_begins(alloc, "stream", text)
}

/// One stream or more, and the text behind them.
fn streams_at(alloc: Global, text: &[u8]) -> Result<(StreamLines, &[u8]), LinesError>
    requires { length text.now < 2 ^ 32 - 1 }
    ensures streams { AreLinesRead (λ x. (x.0, lines_in x.1.now)) result (streams (lines_in text.now)) }
    ensures shorter { IfOk result (λ x. length x.1.now ≤ length text.now) }
{
    let mut streams = StreamLines::new(alloc);
    let mut rest = text;
    'streams: loop {
        let number = streams.len() as u32 + 1;
        let comes = stream_comes(alloc, number, rest)?;
        if !comes {
            return Ok((streams, rest));
        }
        let (stream, after) = stream_at(alloc, number, rest)?;
        streams.push(stream)?;
        rest = after;
    }
}

/// Whether the streams of a node in this state are reported.
fn has_streams(head: Head) -> bool
    ensures { result ≡ has_streams head }
{
    match head {
        Head::Up { .. } | Head::Down { .. } => true,
        Head::Lost | Head::Plain => false,
    }
}

/// Whether its rows are.
fn has_rows(head: Head) -> bool
    ensures { result ≡ has_rows head }
{
    match head {
        Head::Up { .. } | Head::Plain => true,
        Head::Down { .. } | Head::Lost => false,
    }
}

/// Streams, where they are reported, and the text behind them.
fn reported_streams(
    alloc: Global,
    reported: bool,
    text: &[u8],
) -> Result<(StreamLines, &[u8]), LinesError>
    requires { length text.now < 2 ^ 32 - 1 }
    ensures streams { AreLinesRead (λ x. (x.0, lines_in x.1.now)) result (where_reported reported streams (lines_in text.now)) }
    ensures shorter { IfOk result (λ x. length x.1.now ≤ length text.now) }
{
    if reported {
        streams_at(alloc, text)
    } else {
        Ok((StreamLines::new(alloc), text))
    }
}

/// Rows, where they are reported, and the text behind them.
fn reported_rows(
    alloc: Global,
    reported: bool,
    text: &[u8],
) -> Result<(RowLines, &[u8]), LinesError>
    ensures rows { AreLinesRead (λ x. (x.0, lines_in x.1.now)) result (where_reported reported rows (lines_in text.now)) }
    ensures shorter { IfOk result (λ x. length x.1.now ≤ length text.now) }
{
    if reported {
        rows_at(alloc, text)
    } else {
        Ok((RowLines::new(alloc), text))
    }
}

/// The streams and the rows of a node, behind its line, and the text behind them.
#[tactic(auto, unfolding(crate::specs::Read::parts))]
fn parts_at(alloc: Global, node: u32, head: Head, text: &[u8]) -> Result<(Block, &[u8]), LinesError>
    requires { length text.now < 2 ^ 32 - 1 }
    ensures block { AreLinesRead (λ x. (x.0, lines_in x.1.now)) result (parts node head (lines_in text.now)) }
    ensures shorter { IfOk result (λ x. length x.1.now ≤ length text.now) }
{
    let (streams, rest) = reported_streams(alloc, has_streams(head), text)?;
    let (rows, rest) = reported_rows(alloc, has_rows(head), rest)?;
    let block = Block {
        node,
        head,
        streams,
        rows,
    };
    Ok((block, rest))
}

/// A shown node, and the text behind it.
#[tactic(auto, unfolding(crate::specs::Read::one_line, crate::specs::Read::block))]
fn shown_at(alloc: Global, text: &[u8]) -> Result<(Block, &[u8]), LinesError>
    requires { length text.now < 2 ^ 32 - 1 }
    ensures block { AreLinesRead (λ x. (x.0, lines_in x.1.now)) result (block (node short simulated) (lines_in text.now)) }
    ensures shorter { IfOk result (λ x. length x.1.now < length text.now) }
{
    let (words, rest) = line_at(alloc, text)?;
    match shown_node(words.as_slice()) {
        Ok((node, head)) => parts_at(alloc, node, head, rest),
        Err(kind) => Err(LinesError::fault(text, kind)),
    }
}

/// The node of a number in a simulated run, and the text behind it.
#[tactic(auto, unfolding(crate::specs::Read::one_line, crate::specs::Read::block))]
fn simulated_at(alloc: Global, number: u32, text: &[u8]) -> Result<(Block, &[u8]), LinesError>
    requires { length text.now < 2 ^ 32 - 1 }
    ensures block { AreLinesRead (λ x. (x.0, lines_in x.1.now)) result (block (node (exactly number) simulated) (lines_in text.now)) }
    ensures shorter { IfOk result (λ x. length x.1.now < length text.now) }
{
    let (words, rest) = line_at(alloc, text)?;
    match simulated_node(number, words.as_slice()) {
        Ok((node, head)) => parts_at(alloc, node, head, rest),
        Err(kind) => Err(LinesError::fault(text, kind)),
    }
}

/// The node of a number in a run of threads, and the text behind it.
#[tactic(auto, unfolding(crate::specs::Read::one_line, crate::specs::Read::block))]
fn plain_at(alloc: Global, number: u32, text: &[u8]) -> Result<(Block, &[u8]), LinesError>
    requires { length text.now < 2 ^ 32 - 1 }
    ensures block { AreLinesRead (λ x. (x.0, lines_in x.1.now)) result (block (node (exactly number) (always Plain)) (lines_in text.now)) }
    ensures shorter { IfOk result (λ x. length x.1.now < length text.now) }
{
    let (words, rest) = line_at(alloc, text)?;
    match plain_node(number, words.as_slice()) {
        Ok((node, head)) => parts_at(alloc, node, head, rest),
        Err(kind) => Err(LinesError::fault(text, kind)),
    }
}

/// Whether a node comes: the first one is due.
#[tactic(auto, using(crate::proofs::Places::node_lines))]
pub(crate) fn node_comes(number: u32, text: &[u8]) -> bool
    ensures { result ≡ ((number == 1) || not (length (lines_in text.now) == 0)) }
{
    number == 1 || !text.is_empty()
}

/// The nodes of a simulated run, up to the end of the text.
fn simulated_nodes(alloc: Global, text: &[u8]) -> Result<(Blocks, &[u8]), LinesError>
    requires { length text.now < 2 ^ 32 - 1 }
    ensures { AreLinesRead (λ x. (x.0, lines_in x.1.now)) result (nodes simulated (lines_in text.now)) }
{
    let mut blocks = Blocks::new(alloc);
    let mut rest = text;
    'nodes: loop {
        let number = blocks.len() as u32 + 1;
        let comes = node_comes(number, rest);
        if !comes {
            return Ok((blocks, rest));
        }
        let (block, after) = simulated_at(alloc, number, rest)?;
        blocks.push(block)?;
        rest = after;
    }
}

/// The nodes of a run of threads, up to the end of the text.
fn plain_nodes(alloc: Global, text: &[u8]) -> Result<(Blocks, &[u8]), LinesError>
    requires { length text.now < 2 ^ 32 - 1 }
    ensures { AreLinesRead (λ x. (x.0, lines_in x.1.now)) result (nodes (always Plain) (lines_in text.now)) }
{
    let mut blocks = Blocks::new(alloc);
    let mut rest = text;
    'nodes: loop {
        let number = blocks.len() as u32 + 1;
        let comes = node_comes(number, rest);
        if !comes {
            return Ok((blocks, rest));
        }
        let (block, after) = plain_at(alloc, number, rest)?;
        blocks.push(block)?;
        rest = after;
    }
}

/// An attempt that was refused, and the text behind it.
#[tactic(auto, unfolding(crate::specs::Read::one_line))]
fn refusal_at(alloc: Global, text: &[u8]) -> Result<(Middle, &[u8]), LinesError>
    ensures refused { AreLinesRead (λ x. (x.0, lines_in x.1.now)) result (one refused (lines_in text.now)) }
    ensures shorter { IfOk result (λ x. length x.1.now < length text.now) }
{
    let (words, rest) = line_at(alloc, text)?;
    match refused_of(alloc, words.as_slice()) {
        Ok(refused) => Ok((refused, rest)),
        Err(e) => Err(e.at(text)),
    }
}

/// Attempts that were refused, up to the count of items, and the text behind them.
fn refusals_at(alloc: Global, text: &[u8]) -> Result<(Lines, &[u8]), LinesError>
    ensures refusals { AreLinesRead (λ x. (x.0, lines_in x.1.now)) result (refusals (lines_in text.now)) }
    ensures shorter { IfOk result (λ x. length x.1.now ≤ length text.now) }
{
    let mut lines = Lines::new(alloc);
    let mut rest = text;
    'refusals: loop {
        let counted = next_begins(alloc, "items", rest)?;
        if counted {
            return Ok((lines, rest));
        }
        let (refused, after) = refusal_at(alloc, rest)?;
        lines.push(refused)?;
        rest = after;
    }
}

/// What became of an event, but for a shown node, and the text behind it.
#[tactic(auto, unfolding(crate::specs::Read::one_line))]
fn effect_at(alloc: Global, text: &[u8]) -> Result<(Middle, &[u8]), LinesError>
    ensures effect { AreLinesRead (λ x. (x.0, lines_in x.1.now)) result (one effect (lines_in text.now)) }
    ensures shorter { IfOk result (λ x. length x.1.now < length text.now) }
{
    let (words, rest) = line_at(alloc, text)?;
    match effect_of(alloc, words.as_slice()) {
        Ok(effect) => Ok((effect, rest)),
        Err(e) => Err(e.at(text)),
    }
}

/// What became of an event, and the text behind it.
#[tactic(auto, unfolding(crate::specs::Read::any_effect))]
fn any_effect_at(alloc: Global, text: &[u8]) -> Result<(Middle, &[u8]), LinesError>
    requires { length text.now < 2 ^ 32 - 1 }
    ensures effect { AreLinesRead (λ x. (x.0, lines_in x.1.now)) result (any_effect (lines_in text.now)) }
    ensures shorter { IfOk result (λ x. length x.1.now < length text.now) }
{
    let shown = next_begins(alloc, "node", text)?;
    if shown {
        let (block, rest) = shown_at(alloc, text)?;
        return Ok((Middle::Shown(block), rest));
    }
    effect_at(alloc, text)
}

/// What became of events, up to the count of items, and the text behind that.
fn effects_at(alloc: Global, text: &[u8]) -> Result<(Lines, &[u8]), LinesError>
    requires { length text.now < 2 ^ 32 - 1 }
    ensures effects { AreLinesRead (λ x. (x.0, lines_in x.1.now)) result (effects (lines_in text.now)) }
    ensures shorter { IfOk result (λ x. length x.1.now ≤ length text.now) }
{
    let mut lines = Lines::new(alloc);
    let mut rest = text;
    'effects: loop {
        let counted = next_begins(alloc, "items", rest)?;
        if counted {
            return Ok((lines, rest));
        }
        let (effect, after) = any_effect_at(alloc, rest)?;
        lines.push(effect)?;
        rest = after;
    }
}

/// What a report of `serial` has, and the text behind it.
#[tactic(auto, unfolding(crate::specs::Read::body))]
fn serial_body(alloc: Global, text: &[u8]) -> Result<(Report, &[u8]), LinesError>
    ensures { AreLinesRead (λ x. (x.0, lines_in x.1.now)) result (body Title.Serial (lines_in text.now)) }
{
    let (items, rest) = items_at(alloc, text)?;
    let (tables, rest) = tables_at(alloc, rest)?;
    let report = Report {
        title: Title::Serial,
        middle: Lines::new(alloc),
        items,
        tables,
        blocks: Blocks::new(alloc),
    };
    Ok((report, rest))
}

/// What a report of `steps` has, and the text behind it.
#[tactic(auto, unfolding(crate::specs::Read::body))]
fn steps_body(alloc: Global, text: &[u8]) -> Result<(Report, &[u8]), LinesError>
    ensures { AreLinesRead (λ x. (x.0, lines_in x.1.now)) result (body Title.Steps (lines_in text.now)) }
{
    let (middle, rest) = refusals_at(alloc, text)?;
    let (items, rest) = items_at(alloc, rest)?;
    let (tables, rest) = tables_at(alloc, rest)?;
    let report = Report {
        title: Title::Steps,
        middle,
        items,
        tables,
        blocks: Blocks::new(alloc),
    };
    Ok((report, rest))
}

/// What a report of `sim` has, and the text behind it.
#[tactic(auto, unfolding(crate::specs::Read::body))]
fn sim_body(alloc: Global, text: &[u8]) -> Result<(Report, &[u8]), LinesError>
    requires { length text.now < 2 ^ 32 - 1 }
    ensures { AreLinesRead (λ x. (x.0, lines_in x.1.now)) result (body Title.Sim (lines_in text.now)) }
{
    let (middle, rest) = effects_at(alloc, text)?;
    let (items, rest) = items_at(alloc, rest)?;
    let (blocks, rest) = simulated_nodes(alloc, rest)?;
    let report = Report {
        title: Title::Sim,
        middle,
        items,
        tables: RowLines::new(alloc),
        blocks,
    };
    Ok((report, rest))
}

/// What a report of `live` has, and the text behind it.
#[tactic(auto, unfolding(crate::specs::Read::body))]
fn live_body(alloc: Global, text: &[u8]) -> Result<(Report, &[u8]), LinesError>
    requires { length text.now < 2 ^ 32 - 1 }
    ensures { AreLinesRead (λ x. (x.0, lines_in x.1.now)) result (body Title.Live (lines_in text.now)) }
{
    let (items, rest) = items_at(alloc, text)?;
    let (blocks, rest) = plain_nodes(alloc, rest)?;
    let report = Report {
        title: Title::Live,
        middle: Lines::new(alloc),
        items,
        tables: RowLines::new(alloc),
        blocks,
    };
    Ok((report, rest))
}

/// What a report of a title has, and the text behind it.
pub(crate) fn body_at(
    alloc: Global,
    title: Title,
    text: &[u8],
) -> Result<(Report, &[u8]), LinesError>
    requires { length text.now < 2 ^ 32 - 1 }
    ensures { AreLinesRead (λ x. (x.0, lines_in x.1.now)) result (body title (lines_in text.now)) }
{
    match title {
        Title::Serial => serial_body(alloc, text),
        Title::Steps => steps_body(alloc, text),
        Title::Sim => sim_body(alloc, text),
        Title::Live => live_body(alloc, text),
    }
}

/// The title, and the text behind it.
#[tactic(auto, unfolding(crate::specs::Read::one_line))]
pub(crate) fn title_at(alloc: Global, text: &[u8]) -> Result<(Title, &[u8]), LinesError>
    ensures title { AreLinesRead (λ x. (x.0, lines_in x.1.now)) result (one_line title_of (lines_in text.now)) }
    ensures shorter { IfOk result (λ x. length x.1.now ≤ length text.now) }
{
    let (words, rest) = line_at(alloc, text)?;
    match title_of(words.as_slice()) {
        Ok(title) => Ok((title, rest)),
        Err(kind) => Err(LinesError::fault(text, kind)),
    }
}

/// The report that all lines are.
#[tactic(auto, using(crate::proofs::Places::last_lines), unfolding(crate::specs::Read::read_lines))]
fn read_lines(alloc: Global, text: &[u8]) -> Result<Report, LinesError>
    requires { length text.now < 2 ^ 32 - 1 }
    ensures { AreLinesRead (λ x. x) result (read_lines (lines_in text.now)) }
{
    let (title, rest) = title_at(alloc, text)?;
    let (report, rest) = body_at(alloc, title, rest)?;
    if rest.is_empty() {
        Ok(report)
    } else {
        Err(LinesError::fault(rest, ReportFault::Form))
    }
}

/// A fault by its line.
pub(crate) fn numbered_fault(count: usize, ended: bool, fault: Fault) -> ReportError
    requires { count < 2 ^ 32 - 1 }
    ensures { let wrong = numbered_fault count ended fault in result ≡ ReportError.Fault wrong.0 wrong.1 }
{
    if !ended && fault.left == 0 {
        return ReportError::Fault {
            line: count as u32,
            kind: ReportFault::End,
        };
    }
    ReportError::Fault {
        line: (count + 1).saturating_sub(fault.left) as u32,
        kind: fault.kind,
    }
}

/// The report that a text is, in one of the four forms.
///
/// `Fault` names the first line with which something is wrong, counted from 1, and what: `Title` where
/// the first line is none; `Form` for a line that can't stand there, a number that is none or too large
/// for its field, and nodes that are not numbered from 1; `Count` for another line where the line of an
/// item is due by `items`, and for one more item behind them; `End` where the text ends before a line
/// that is due (the line behind the last), and at a last line that is not ended. Without memory it is
/// `Memory`. A text has fewer than 2^32 - 1 bytes.
///
/// What is read is printed so by `print_report`, and what that prints is read as the report again.
pub fn parse_report(alloc: Global, text: &[u8]) -> Result<Report, ReportError>
    requires { length text.now < 2 ^ 32 - 1 }
    ensures report { MatchResult result (λ report. read_report text.now ≡ Ok report) (λ e. FailsAt e (read_report text.now)) }
    ensures form { IfOk result (λ report. IsReport report) }
    ensures printed { IfOk result (λ report. text.now ≡ printed report) }
{
    let ended = is_ended(text);
    match read_lines(alloc, text) {
        Ok(report) if ended => Ok(report),
        Ok(_) => {
            Err(ReportError::Fault {
                line: count_lines(text) as u32,
                kind: ReportFault::End,
            })
        }
        Err(LinesError::Fault(fault)) => Err(numbered_fault(count_lines(text), ended, fault)),
        Err(LinesError::Memory) => Err(ReportError::Memory),
    }
}
