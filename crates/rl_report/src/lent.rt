//! A report of a run of threads whose rows stay in its text.

ghost use Rattle.std.specs.Prelude.{◌≡◌, ◌<◌, ◌≤◌, ◌-◌, ◌^◌, [], ◌∷◌, map, length, Ok, IfOk, MatchOption, MatchResult};
ghost use Rattle.rl_report.specs.declared.block.Head.TheVariants.{Plain};
ghost use Rattle.rl_report.specs.Answers.{IsRead, AreLinesRead, FailsAt};
ghost use Rattle.rl_report.specs.Forms.{IsReport};
ghost use Rattle.rl_report.specs.LineForms.{node};
ghost use Rattle.rl_report.specs.Printed.{printed};
ghost use Rattle.rl_report.specs.Readers.{always};
ghost use Rattle.rl_report.specs.Words.{lines_in, exactly, whole};
ghost use Rattle.rl_report.specs.Read.{one, rows, block, nodes, body, read_lines, read_report};
ghost use Rattle.rl_report.specs.Lent.{lent_report, IsOfOther};

use crate::fault::{LinesError, ReportError, ReportFault};
use crate::line::{ItemLines, RowLine};
use crate::line_forms::plain_node;
use crate::line_words::{count_lines, is_ended};
use crate::parse::{
    body_at, items_at, line_at, next_begins, node_comes, numbered_fault, row_at, title_at,
};
use crate::report::{Report, Title};
use rl_base::list::Seq;
use rl_base::memory::Memory;
use std::alloc::Global;
use std::marker::Model;

/// The rows of a node, each of which is read from the text when it is wanted.
#[derive(Drop)]
pub struct LentRows<'a> {
    text: &'a [u8],
    count: usize,
}

impl<'a> Model for LentRows<'a> {
    ghost use Rattle.std.specs.Prelude.{List};
    ghost use Rattle.rl_report.specs.declared.line.RowLine.{RowLine};
    ghost use Rattle.rl_report.specs.Rows.{rows_there, AreRows};
    ghost use Rattle.rl_report.specs.Words.{lines_in};

    ghost Value = { List RowLine };

    ghost view = { λ r. rows_there (lines_in r.text.now) };

    ghost invariant = { λ r. AreRows (lines_in r.text.now) r.count };
}

/// A node of a run of threads.
#[derive(Drop)]
pub struct LentNode<'a> {
    node: u32,
    rows: LentRows<'a>,
}

impl<'a> Model for LentNode<'a> {
    ghost use Rattle.std.specs.Prelude.{[]};
    ghost use Rattle.rl_report.specs.declared.block.Block.{Block};
    ghost use Rattle.rl_report.specs.declared.block.Head.TheVariants.{Plain};

    ghost Value = { Block };

    ghost view = { λ n. record { node = n.node; head = Plain; streams = []; rows = n.rows } };
}

/// Nodes.
pub type LentNodes<'a> = Seq<LentNode<'a>>;

/// A report.
#[derive(Drop)]
pub enum LentReport<'a> {
    /// It is of a run of threads, and its rows stay in the text.
    Threads {
        items: ItemLines,
        nodes: LentNodes<'a>,
    },
    /// It is of another command.
    Other(Report),
}

impl<'a> LentRows<'a> {
    /// How many rows there are.
    pub fn len(&self) -> usize
        ensures { result ≡ length self.now }
    {
        self.count
    }

    /// The same rows.
    pub fn again(&self) -> LentRows<'a>
        ensures { result ≡ self.now }
    {
        LentRows {
            text: self.text,
            count: self.count,
        }
    }

    /// The first row and those behind it, or `None` where there is no row.
    pub fn first(&self, alloc: Global) -> Result<Option<(RowLine, LentRows<'a>)>, Memory>
        ensures { IfOk result (λ first. MatchOption first (self.now ≡ []) (λ x. self.now ≡ x.0 ∷ x.1)) }
    {
        if self.count == 0 {
            return Ok(None);
        }
        match row_at(alloc, self.text) {
            Ok((row, after)) => {
                let behind = LentRows {
                    text: after,
                    count: self.count - 1,
                };
                Ok(Some((row, behind)))
            }
            Err(LinesError::Fault(_)) => Ok(None),
            Err(LinesError::Memory) => Err(Memory),
        }
    }
}

impl<'a> LentNode<'a> {
    /// Its rows.
    pub fn rows(&self) -> &LentRows<'a>
        ensures { result.now ≡ self.now.rows }
    {
        &self.rows
    }
}

/// Rows, and the text behind them.
fn rows_behind(alloc: Global, text: &[u8]) -> Result<(LentRows, &[u8]), LinesError>
    ensures rows { AreLinesRead (λ x. (x.0, lines_in x.1.now)) result (rows (lines_in text.now)) }
    ensures shorter { IfOk result (λ x. length x.1.now ≤ length text.now) }
{
    let mut count = 0;
    let mut rest = text;
    'rows: loop {
        let comes = next_begins(alloc, "row", rest)?;
        if !comes {
            return Ok((LentRows { text, count }, rest));
        }
        let (_row, after) = row_at(alloc, rest)?;
        rest = after;
        count += 1;
    }
}

/// The number of a node, where it is this one.
fn plain_number(number: u32, words: &[&str]) -> Result<u32, ReportFault>
    ensures { IsRead (λ n. (n, Plain)) result (whole (node (exactly number) (always Plain)) (map (λ w. w.now) words.now)) }
{
    match plain_node(number, words) {
        Ok((node, _)) => Ok(node),
        Err(kind) => Err(kind),
    }
}

/// The line of the node of a number, and the text behind it.
#[tactic(auto, unfolding(crate::specs::Read::one_line))]
fn number_at(alloc: Global, number: u32, text: &[u8]) -> Result<(u32, &[u8]), LinesError>
    ensures number { AreLinesRead (λ x. ((x.0, Plain), lines_in x.1.now)) result (one (node (exactly number) (always Plain)) (lines_in text.now)) }
    ensures shorter { IfOk result (λ x. length x.1.now < length text.now) }
{
    let (words, rest) = line_at(alloc, text)?;
    match plain_number(number, words.as_slice()) {
        Ok(node) => Ok((node, rest)),
        Err(kind) => Err(LinesError::fault(text, kind)),
    }
}

/// The node of a number, and the text behind it.
#[tactic(auto, unfolding(crate::specs::Read::block))]
fn lent_at(alloc: Global, number: u32, text: &[u8]) -> Result<(LentNode, &[u8]), LinesError>
    ensures block { AreLinesRead (λ x. (x.0, lines_in x.1.now)) result (block (node (exactly number) (always Plain)) (lines_in text.now)) }
    ensures shorter { IfOk result (λ x. length x.1.now < length text.now) }
{
    let (node, behind) = number_at(alloc, number, text)?;
    match rows_behind(alloc, behind) {
        Ok((rows, rest)) => Ok((LentNode { node, rows }, rest)),
        Err(e) => Err(e),
    }
}

/// The nodes, up to the end of the text.
fn lent_nodes(alloc: Global, text: &[u8]) -> Result<(LentNodes, &[u8]), LinesError>
    requires { length text.now < 2 ^ 32 - 1 }
    ensures { AreLinesRead (λ x. (x.0, lines_in x.1.now)) result (nodes (always Plain) (lines_in text.now)) }
{
    let mut blocks = LentNodes::new(alloc);
    let mut rest = text;
    'nodes: loop {
        let number = blocks.len() as u32 + 1;
        let comes = node_comes(number, rest);
        if !comes {
            return Ok((blocks, rest));
        }
        let (block, after) = lent_at(alloc, number, rest)?;
        blocks.push(block)?;
        rest = after;
    }
}

/// What the report of a run of threads has, and the text behind it.
#[tactic(auto, unfolding(crate::specs::Read::body))]
fn lent_body(alloc: Global, text: &[u8]) -> Result<(LentReport, &[u8]), LinesError>
    requires { length text.now < 2 ^ 32 - 1 }
    ensures body { AreLinesRead (λ x. (lent_report x.0, lines_in x.1.now)) result (body Title.Live (lines_in text.now)) }
    ensures title { IfOk result (λ x. IsOfOther x.0) }
{
    let (items, rest) = items_at(alloc, text)?;
    let (nodes, rest) = lent_nodes(alloc, rest)?;
    Ok((LentReport::Threads { items, nodes }, rest))
}

/// What the report of another command has, and the text behind it.
fn other_body(alloc: Global, title: Title, text: &[u8]) -> Result<(LentReport, &[u8]), LinesError>
    requires title { title ≡ Title.Live → ⊥ }
    requires text { length text.now < 2 ^ 32 - 1 }
    ensures body { AreLinesRead (λ x. (lent_report x.0, lines_in x.1.now)) result (body title (lines_in text.now)) }
    ensures title { IfOk result (λ x. IsOfOther x.0) }
{
    match body_at(alloc, title, text) {
        Ok((report, rest)) => Ok((LentReport::Other(report), rest)),
        Err(e) => Err(e),
    }
}

/// What a report of a title has, and the text behind it.
fn any_body(alloc: Global, title: Title, text: &[u8]) -> Result<(LentReport, &[u8]), LinesError>
    requires { length text.now < 2 ^ 32 - 1 }
    ensures body { AreLinesRead (λ x. (lent_report x.0, lines_in x.1.now)) result (body title (lines_in text.now)) }
    ensures title { IfOk result (λ x. IsOfOther x.0) }
{
    match title {
        Title::Live => lent_body(alloc, text),
        _ => other_body(alloc, title, text),
    }
}

/// The report that all lines are.
#[tactic(auto, using(crate::proofs::Places::last_lines), unfolding(crate::specs::Read::read_lines))]
fn lend_lines(alloc: Global, text: &[u8]) -> Result<LentReport, LinesError>
    requires { length text.now < 2 ^ 32 - 1 }
    ensures lines { AreLinesRead lent_report result (read_lines (lines_in text.now)) }
    ensures title { IfOk result IsOfOther }
{
    let (title, rest) = title_at(alloc, text)?;
    let (report, rest) = any_body(alloc, title, rest)?;
    if rest.is_empty() {
        Ok(report)
    } else {
        Err(LinesError::fault(rest, ReportFault::Form))
    }
}

/// The report that a text is, as `parse_report` reads it, with the same faults; but of a run of threads
/// the rows stay in the text. A text has fewer than 2^32 - 1 bytes.
pub fn lend_report(alloc: Global, text: &[u8]) -> Result<LentReport, ReportError>
    requires { length text.now < 2 ^ 32 - 1 }
    ensures report { MatchResult result (λ report. read_report text.now ≡ Ok (lent_report report)) (λ e. FailsAt e (read_report text.now)) }
    ensures form { IfOk result (λ report. IsReport (lent_report report)) }
    ensures printed { IfOk result (λ report. text.now ≡ printed (lent_report report)) }
    ensures title { IfOk result IsOfOther }
{
    let ended = is_ended(text);
    match lend_lines(alloc, text) {
        Ok(report) if ended => Ok(report),
        Ok(_) => {
            Err(ReportError::Fault {
                line: count_lines(text) as u32,
                kind: ReportFault::End,
            })
        }
        Err(LinesError::Fault(fault)) => Err(numbered_fault(count_lines(text), ended, fault)),
        Err(LinesError::Memory) => Err(ReportError::Memory),
    }
}
