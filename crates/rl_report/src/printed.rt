//! The printed form of a report.

ghost use Rattle.std.specs.Prelude.{◌≡◌, ◌∷◌, [], ◌++◌, All, Ok, IfOk, OnOk, codes, length, map};
ghost use Rattle.std.specs.List.{flat_map};
ghost use Rattle.std.specs.String.{string_bytes};
ghost use Rattle.std.specs.Fmt.{decimal};
ghost use Rattle.rl_text.specs.Printed.{line_of, text_of};
ghost use Rattle.rl_report.specs.Forms.{IsWord, AreNamed, IsEffect, IsReport};
ghost use Rattle.rl_report.specs.Numbers.{HasNumbers};
ghost use Rattle.rl_report.specs.Parts.{CanPrint};
ghost use Rattle.rl_report.specs.Read.{read_report};
ghost use Rattle.rl_report.specs.Printed.{end_words, item_words, row_words, stream_words, role_words, at_word, head_words, block_lines, denied_words, middle_lines, title_word, table_lines, report_lines, printed};

use crate::block::{Block, Head, RoleLine};
use crate::line::{ItemLine, RowLine, StreamLine};
use crate::middle::Middle;
use crate::report::{Report, Title};
use rl_base::list::Bytes;
use rl_base::memory::Memory;
use rl_text::printed::push_numbers;
use rl_text::text::printable;
use rl_txn::write::End;
use std::alloc::{AllocError, Global};

/// How a transaction ended, each word after a space.
fn push_end(out: &mut String, end: End) -> Result<(), AllocError>
    ensures { OnOk result (string_bytes out.new ≡ string_bytes out.old ++ flat_map (λ w. 32 ∷ w) (end_words end)) }
{
    match end {
        End::Done => out.push_str(" done"),
        End::Declined { op } => write!(out, " declined {op}"),
    }
}

/// The line of an item, without a line end.
fn push_item(out: &mut String, item: &ItemLine) -> Result<(), AllocError>
    ensures { OnOk result (string_bytes out.new ≡ string_bytes out.old ++ line_of (item_words item.now)) }
{
    let stamp = item.stamp;
    write!(
        out,
        "item {} {} {} {}",
        stamp.epoch, stamp.seq, item.worker, item.index
    )?;
    push_end(out, item.reply.end)?;
    push_numbers(out, item.reply.outs.as_slice())
}

/// The lines of items.
fn push_items(out: &mut String, items: &[ItemLine]) -> Result<(), AllocError>
    ensures { OnOk result (string_bytes out.new ≡ string_bytes out.old ++ text_of (map item_words items.now)) }
{
    for item in items {
        push_item(out, item)?;
        out.push_str("\n")?;
    }
    Ok(())
}

/// A name, after a space.
#[tactic(auto, using(crate::proofs::Words::word_printable))]
fn push_name(out: &mut String, name: &Bytes) -> Result<(), AllocError>
    requires { IsWord name.now }
    ensures { OnOk result (string_bytes out.new ≡ string_bytes out.old ++ 32 ∷ name.now) }
{
    let Some(name) = printable(name.as_slice()) else {
        unreachable!();
    };
    write!(out, " {name}")
}

/// The line of a row, without a line end.
fn push_row(out: &mut String, row: &RowLine) -> Result<(), AllocError>
    requires { IsWord row.now.table }
    ensures { OnOk result (string_bytes out.new ≡ string_bytes out.old ++ line_of (row_words row.now)) }
{
    out.push_str("row")?;
    push_name(out, &row.table)?;
    write!(out, " {}", row.key)?;
    push_numbers(out, row.row.as_slice())
}

/// The lines of rows.
fn push_rows(out: &mut String, rows: &[RowLine]) -> Result<(), AllocError>
    requires { AreNamed rows.now }
    ensures { OnOk result (string_bytes out.new ≡ string_bytes out.old ++ text_of (map row_words rows.now)) }
{
    for row in rows {
        push_row(out, row)?;
        out.push_str("\n")?;
    }
    Ok(())
}

/// The line of a stream, without a line end.
fn push_stream(out: &mut String, stream: StreamLine) -> Result<(), AllocError>
    ensures { OnOk result (string_bytes out.new ≡ string_bytes out.old ++ line_of (stream_words stream)) }
{
    let StreamLine {
        stream,
        ballot,
        len,
        known,
    } = stream;
    write!(
        out,
        "stream {stream} ballot {ballot} len {len} known {known}"
    )
}

/// The lines of streams.
fn push_streams(out: &mut String, streams: &[StreamLine]) -> Result<(), AllocError>
    ensures { OnOk result (string_bytes out.new ≡ string_bytes out.old ++ text_of (map stream_words streams.now)) }
{
    for stream in streams {
        push_stream(out, *stream)?;
        out.push_str("\n")?;
    }
    Ok(())
}

/// The role of a node, each word after a space.
fn push_role(out: &mut String, role: RoleLine) -> Result<(), AllocError>
    ensures { OnOk result (string_bytes out.new ≡ string_bytes out.old ++ flat_map (λ w. 32 ∷ w) (role_words role)) }
{
    match role {
        RoleLine::Follower => out.push_str(" follower"),
        RoleLine::Candidate { epoch, have, need } => {
            write!(out, " candidate {epoch} {have} {need}")
        }
        RoleLine::Opening { epoch } => write!(out, " leader {epoch} opening"),
        RoleLine::Leading { epoch } => write!(out, " leader {epoch} open"),
    }
}

/// The watermark of a node's known prefixes, and whether its replica has come to it, each word
/// after a space.
fn push_watermark(out: &mut String, watermark: (u32, u64), at: bool) -> Result<(), AllocError>
    ensures { OnOk result (string_bytes out.new ≡ string_bytes out.old
        ++ flat_map (λ w. 32 ∷ w) (codes "watermark" ∷ decimal watermark.0 ∷ decimal watermark.1 ∷ at_word at ∷ [])) }
{
    write!(out, " watermark {} {}", watermark.0, watermark.1)?;
    out.push_str(if at { " at" } else { " behind" })
}

/// The state of a node, each word after a space.
fn push_head(out: &mut String, head: Head) -> Result<(), AllocError>
    ensures { OnOk result (string_bytes out.new ≡ string_bytes out.old ++ flat_map (λ w. 32 ∷ w) (head_words head)) }
{
    match head {
        Head::Up {
            promised,
            role,
            watermark,
            at,
        } => {
            write!(out, " up promised {promised}")?;
            push_role(out, role)?;
            push_watermark(out, watermark, at)
        }
        Head::Down { promised } => write!(out, " down promised {promised}"),
        Head::Lost => out.push_str(" lost"),
        Head::Plain => Ok(()),
    }
}

/// The lines of a node.
fn push_block(out: &mut String, block: &Block) -> Result<(), AllocError>
    requires { AreNamed block.now.rows }
    ensures { OnOk result (string_bytes out.new ≡ string_bytes out.old ++ text_of (block_lines block.now)) }
{
    write!(out, "node {}", block.node)?;
    push_head(out, block.head)?;
    out.push_str("\n")?;
    push_streams(out, block.streams.as_slice())?;
    push_rows(out, block.rows.as_slice())
}

/// The lines of nodes.
fn push_blocks(out: &mut String, blocks: &[Block]) -> Result<(), AllocError>
    requires { All (λ b. AreNamed b.rows) blocks.now }
    ensures { OnOk result (string_bytes out.new ≡ string_bytes out.old ++ text_of (flat_map block_lines blocks.now)) }
{
    for block in blocks {
        push_block(out, block)?;
    }
    Ok(())
}

/// Which attempt was refused: its epoch, its worker and the index of its request.
fn push_attempt(out: &mut String, epoch: u32, worker: u32, index: u32) -> Result<(), AllocError>
    ensures { OnOk result (string_bytes out.new ≡ string_bytes out.old
        ++ line_of (codes "refused" ∷ decimal epoch ∷ decimal worker ∷ decimal index ∷ [])) }
{
    write!(out, "refused {epoch} {worker} {index}")
}

/// Why an attempt was refused: a word for the cause, the record, and the words of the record that
/// were seen and found. The line ends there.
fn push_cause(
    out: &mut String,
    why: &str,
    table: &Bytes,
    key: u32,
    words: &[u64],
) -> Result<(), AllocError>
    requires { IsWord table.now }
    ensures { OnOk result (string_bytes out.new ≡ string_bytes out.old
        ++ flat_map (λ w. 32 ∷ w) (why.now ∷ table.now ∷ decimal key ∷ map decimal words.now) ++ 10 ∷ []) }
{
    write!(out, " {why}")?;
    push_name(out, table)?;
    write!(out, " {key}")?;
    push_numbers(out, words)?;
    write!(out, "\n")
}

/// The line of a message that was refused at a node.
fn push_denied(
    out: &mut String,
    number: u64,
    node: u32,
    why: &str,
    kept: u32,
) -> Result<(), AllocError>
    ensures { OnOk result (string_bytes out.new ≡ string_bytes out.old
        ++ text_of (denied_words number node (why.now ∷ decimal kept ∷ []) ∷ [])) }
{
    write!(out, "denied {number} {node} {why} {kept}\n")
}

/// What became of an event.
fn push_middle(out: &mut String, middle: &Middle) -> Result<(), AllocError>
    requires { IsEffect middle.now }
    ensures { OnOk result (string_bytes out.new ≡ string_bytes out.old ++ text_of (middle_lines middle.now)) }
{
    match middle {
        Middle::Locked {
            epoch,
            worker,
            index,
            table,
            key,
            word,
        } => {
            push_attempt(out, *epoch, *worker, *index)?;
            push_cause(out, "locked", table, *key, &[*word])
        }
        Middle::Changed {
            epoch,
            worker,
            index,
            table,
            key,
            seen,
            found,
        } => {
            push_attempt(out, *epoch, *worker, *index)?;
            push_cause(out, "changed", table, *key, &[*seen, *found])
        }
        Middle::DeniedPromised {
            number,
            node,
            promised,
        } => push_denied(out, *number, *node, "promised", *promised),
        Middle::DeniedBallot {
            number,
            node,
            ballot,
        } => push_denied(out, *number, *node, "ballot", *ballot),
        Middle::DeniedOrder { number, node, len } => {
            push_denied(out, *number, *node, "order", *len)
        }
        Middle::NoMessage { number } => write!(out, "nomessage {number}\n"),
        Middle::Opened { epoch, node, count } => write!(out, "opened {epoch} {node} {count}\n"),
        Middle::Shown(block) => push_block(out, block),
    }
}

/// What became of all events.
fn push_middles(out: &mut String, middle: &[Middle]) -> Result<(), AllocError>
    requires { All IsEffect middle.now }
    ensures { OnOk result (string_bytes out.new ≡ string_bytes out.old ++ text_of (flat_map middle_lines middle.now)) }
{
    for effect in middle {
        push_middle(out, effect)?;
    }
    Ok(())
}

/// The title.
fn push_title(out: &mut String, title: Title) -> Result<(), AllocError>
    ensures { OnOk result (string_bytes out.new ≡ string_bytes out.old ++ text_of ((codes "rolis" ∷ title_word title ∷ []) ∷ [])) }
{
    out.push_str(match title {
        Title::Serial => "rolis serial\n",
        Title::Steps => "rolis steps\n",
        Title::Sim => "rolis sim\n",
        Title::Live => "rolis live\n",
    })
}

/// The tables, in the two forms that have them.
fn push_tables(out: &mut String, title: Title, rows: &[RowLine]) -> Result<(), AllocError>
    requires { AreNamed rows.now }
    ensures { OnOk result (string_bytes out.new ≡ string_bytes out.old ++ text_of (table_lines title rows.now)) }
{
    match title {
        Title::Serial | Title::Steps => {
            out.push_str("tables\n")?;
            push_rows(out, rows)
        }
        Title::Sim | Title::Live => Ok(()),
    }
}

/// All lines of a report.
fn push_report(out: &mut String, report: &Report) -> Result<(), AllocError>
    requires { CanPrint report.now }
    ensures { OnOk result (string_bytes out.new ≡ string_bytes out.old ++ printed report.now) }
{
    push_title(out, report.title)?;
    push_middles(out, report.middle.as_slice())?;
    write!(out, "items {}\n", report.items.len())?;
    push_items(out, report.items.as_slice())?;
    push_tables(out, report.title, report.tables.as_slice())?;
    push_blocks(out, report.blocks.as_slice())
}

/// The text of a report of one of the four forms. Each line is ended, and one space is between two
/// words. `parse_report` takes it, and answers the report again.
#[tactic(auto, using(crate::proofs::Both::printed_is_read))]
pub fn print_report(alloc: Global, report: &Report) -> Result<Bytes, Memory>
    requires { IsReport report.now }
    ensures text { IfOk result (λ text. text ≡ printed report.now) }
    ensures read { IfOk result (λ text. HasNumbers report.now → read_report text ≡ Ok report.now) }
{
    let mut out = String::new(alloc);
    push_report(&mut out, report)?;
    Ok(Bytes::from_vec(out.into_bytes()))
}
