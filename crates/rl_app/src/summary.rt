//! The summary of the run of a generated script.

ghost use Rattle.std.specs.Prelude.{◌≡◌, ◌++◌, ◌%◌, ◌^◌, ◌∷◌, Ok, IfOk, OnOk, filter, length, map, sum};
ghost use Rattle.std.specs.List.{flat_map};
ghost use Rattle.std.specs.String.{string_bytes};
ghost use Rattle.rl_text.specs.Printed.{line_of, text_of};
ghost use Rattle.rl_app.specs.Summary.{is_refused, sum_of, standing_words, node_words, summary_lines};

use rl_base::list::Bytes;
use rl_base::memory::Memory;
use rl_report::block::{Block, Head};
use rl_report::line::RowLine;
use rl_report::middle::Middle;
use rl_report::report::Report;
use std::alloc::{AllocError, Global};

/// The summary of a report of so many requests.
pub fn summary(alloc: Global, requests: u32, report: &Report) -> Result<Bytes, Memory>
    ensures { IfOk result (λ text. text ≡ text_of (summary_lines requests report.now)) }
{
    let mut out = String::new(alloc);
    push_summary(&mut out, requests, report)?;
    Ok(Bytes::from_vec(out.into_bytes()))
}

/// All lines of a summary.
fn push_summary(out: &mut String, requests: u32, report: &Report) -> Result<(), AllocError>
    ensures { OnOk result (string_bytes out.new ≡ string_bytes out.old ++ text_of (summary_lines requests report.now)) }
{
    out.push_str("rolis gen\n")?;
    write!(out, "requests {requests}\n")?;
    write!(out, "items {}\n", report.items.len())?;
    write!(out, "refused {}\n", refusals(report.middle.as_slice()))?;
    push_nodes(out, report.blocks.as_slice())
}

/// How many lines tell of an attempt that was refused.
fn refusals(lines: &[Middle]) -> usize
    ensures { result ≡ length (filter is_refused lines.now) }
{
    lines.iter().filter(|line| is_refused(*line)).count()
}

/// Whether a line tells of an attempt that was refused.
fn is_refused(line: &Middle) -> bool
    ensures { result ≡ is_refused line.now }
{
    match line {
        Middle::Locked { .. } | Middle::Changed { .. } => true,
        _ => false,
    }
}

/// The lines of nodes.
fn push_nodes(out: &mut String, blocks: &[Block]) -> Result<(), AllocError>
    ensures { OnOk result (string_bytes out.new ≡ string_bytes out.old ++ text_of (map node_words blocks.now)) }
{
    for block in blocks {
        push_node(out, block)?;
        out.push_str("\n")?;
    }
    Ok(())
}

/// The line of a node, without a line end.
fn push_node(out: &mut String, block: &Block) -> Result<(), AllocError>
    ensures { OnOk result (string_bytes out.new ≡ string_bytes out.old ++ line_of (node_words block.now)) }
{
    write!(out, "node {}", block.node)?;
    push_standing(out, block.head, block.rows.as_slice())
}

/// How far a node's replica has come, and the sum of its rows, or else the node's state, each word after
/// a space.
fn push_standing(out: &mut String, head: Head, rows: &[RowLine]) -> Result<(), AllocError>
    ensures { OnOk result (string_bytes out.new ≡ string_bytes out.old ++ flat_map (λ w. 32 ∷ w) (standing_words head rows.now)) }
{
    match head {
        Head::Up { watermark, at, .. } => {
            write!(out, " watermark {} {}", watermark.0, watermark.1)?;
            out.push_str(if at { " at" } else { " behind" })?;
            write!(out, " sum {}", sum_of(rows))
        }
        Head::Down { promised } => write!(out, " down promised {promised}"),
        Head::Lost => out.push_str(" lost"),
        Head::Plain => Ok(()),
    }
}

/// The sum of all columns of some rows, which wraps.
fn sum_of(rows: &[RowLine]) -> u64
    ensures { result ≡ sum_of rows.now }
{
    let mut total: u64 = 0;
    for row in rows {
        total = total.wrapping_add(columns_sum(row.row.as_slice()));
    }
    total
}

/// The sum of some columns, which wraps.
fn columns_sum(columns: &[u64]) -> u64
    ensures { result ≡ sum columns.now % 2 ^ 64 }
{
    let mut total: u64 = 0;
    for column in columns {
        total = total.wrapping_add(*column);
    }
    total
}
