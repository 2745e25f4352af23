//! Lines of a report, read from their words.

ghost use Rattle.std.specs.Prelude.{◌≡◌, map, ok_or, ◌∷◌, [], codes, if◌then◌else◌};
ghost use Rattle.rl_report.specs.declared.block.Head.TheVariants.{Plain};
ghost use Rattle.rl_report.specs.Answers.{IsRead, IsLineRead};
ghost use Rattle.rl_report.specs.LineForms.{title_of, end, item, row, stream, is_opening, role, arrived, up, simulated, node, refused, locked, changed, denied, denied_words, not_sent, opened, effect};
ghost use Rattle.rl_report.specs.Readers.{always};
ghost use Rattle.rl_report.specs.Words.{behind, long, short, exactly, whole};
ghost use Rattle.rl_report.specs.Read.{due_item, tables_line};

use crate::block::{Head, RoleLine};
use crate::fault::{LineError, ReportFault};
use crate::line::{ItemLine, RowLine, StreamLine};
use crate::line_words::{
    alone, begins, begins_at, behind, columns, exactly, long, longs, name, short,
};
use crate::middle::Middle;
use crate::report::Title;
use rl_base::list::{Bytes, Seq};
use rl_base::stamp::Stamp;
use rl_txn::write::{End, Reply};
use std::alloc::Global;

/// The title.
pub fn title_of(words: &[&str]) -> Result<Title, ReportFault>
    ensures { result ≡ title_of (map (λ w. w.now) words.now) }
{
    match words {
        [rolis, command] if *rolis == "rolis" => command_of(command).ok_or(ReportFault::Title),
        _ => Err(ReportFault::Title),
    }
}

/// The command of a title, if it is one that reports.
fn command_of(word: &str) -> Option<Title>
    ensures { ok_or result ReportFault.Title ≡ title_of (codes "rolis" ∷ word.now ∷ []) }
{
    match word {
        "serial" => Some(Title::Serial),
        "steps" => Some(Title::Steps),
        "sim" => Some(Title::Sim),
        "live" => Some(Title::Live),
        _ => None,
    }
}

/// How a transaction ended, and the words behind that.
fn end_of<'a>(words: &'a [&'a str]) -> Result<(End, &'a [&'a str]), ReportFault>
    ensures { IsRead (λ x. (x.0, map (λ w. w.now) x.1.now)) result (end (map (λ w. w.now) words.now)) }
{
    if begins("done", words) {
        return Ok((End::Done, behind("done", words)?));
    }
    let (op, rest) = short(behind("declined", words)?)?;
    Ok((End::Declined { op }, rest))
}

/// An item.
#[tactic(auto, unfolding(crate::specs::LineForms::item))]
pub fn item_of(alloc: Global, words: &[&str]) -> Result<ItemLine, LineError>
    ensures { IsLineRead (λ x. x) result (whole item (map (λ w. w.now) words.now)) }
{
    let (epoch, rest) = short(behind("item", words)?)?;
    let (seq, rest) = long(rest)?;
    let (worker, rest) = short(rest)?;
    let (index, rest) = short(rest)?;
    let (end, rest) = end_of(rest)?;
    let outs = longs(alloc, rest)?;
    Ok(ItemLine {
        stamp: Stamp { epoch, seq },
        worker,
        index,
        reply: Reply {
            outs: Seq::from_vec(outs),
            end,
        },
    })
}

/// A row.
#[tactic(auto, unfolding(crate::specs::LineForms::row))]
pub fn row_of(alloc: Global, words: &[&str]) -> Result<RowLine, LineError>
    ensures { IsLineRead (λ x. x) result (whole row (map (λ w. w.now) words.now)) }
{
    let (table, rest) = name(behind("row", words)?)?;
    let (key, rest) = short(rest)?;
    let row = columns(alloc, rest)?;
    Ok(RowLine {
        table: Bytes::from_slice(alloc, table.as_bytes())?,
        key,
        row,
    })
}

/// The stream of a number.
#[tactic(auto, unfolding(crate::specs::LineForms::stream))]
pub fn stream_of(number: u32, words: &[&str]) -> Result<StreamLine, ReportFault>
    ensures { IsRead (λ x. x) result (whole (stream number) (map (λ w. w.now) words.now)) }
{
    let rest = exactly(number, behind("stream", words)?)?;
    let (ballot, rest) = short(behind("ballot", rest)?)?;
    let (len, rest) = short(behind("len", rest)?)?;
    let (known, rest) = short(behind("known", rest)?)?;
    let line = StreamLine {
        stream: number,
        ballot,
        len,
        known,
    };
    alone(line, rest)
}

/// Whether a leader is still opening, and the words behind that.
fn is_opening<'a>(words: &'a [&'a str]) -> Result<(bool, &'a [&'a str]), ReportFault>
    ensures { IsRead (λ x. (x.0, map (λ w. w.now) x.1.now)) result (is_opening (map (λ w. w.now) words.now)) }
{
    if begins("opening", words) {
        return Ok((true, behind("opening", words)?));
    }
    Ok((false, behind("open", words)?))
}

/// The role of a node, and the words behind it.
#[tactic(auto, unfolding(crate::specs::LineForms::role))]
fn role_of<'a>(words: &'a [&'a str]) -> Result<(RoleLine, &'a [&'a str]), ReportFault>
    ensures { IsRead (λ x. (x.0, map (λ w. w.now) x.1.now)) result (role (map (λ w. w.now) words.now)) }
{
    if begins("follower", words) {
        return Ok((RoleLine::Follower, behind("follower", words)?));
    }
    if begins("candidate", words) {
        let (epoch, rest) = short(behind("candidate", words)?)?;
        let (have, rest) = short(rest)?;
        let (need, rest) = short(rest)?;
        return Ok((RoleLine::Candidate { epoch, have, need }, rest));
    }
    let (epoch, rest) = short(behind("leader", words)?)?;
    let (opening, rest) = is_opening(rest)?;
    Ok((leader(epoch, opening), rest))
}

/// A leader of an epoch, which is still opening or has opened.
fn leader(epoch: u32, opening: bool) -> RoleLine
    ensures { result ≡ (if opening then RoleLine.Opening epoch else RoleLine.Leading epoch) }
{
    if opening {
        RoleLine::Opening { epoch }
    } else {
        RoleLine::Leading { epoch }
    }
}

/// Whether a replica has come to the watermark, and the words behind that.
fn arrived<'a>(words: &'a [&'a str]) -> Result<(bool, &'a [&'a str]), ReportFault>
    ensures { IsRead (λ x. (x.0, map (λ w. w.now) x.1.now)) result (arrived (map (λ w. w.now) words.now)) }
{
    if begins("at", words) {
        return Ok((true, behind("at", words)?));
    }
    Ok((false, behind("behind", words)?))
}

/// The state of a node that is up, and the words behind it.
#[tactic(auto, unfolding(crate::specs::LineForms::up))]
fn up_of<'a>(words: &'a [&'a str]) -> Result<(Head, &'a [&'a str]), ReportFault>
    ensures { IsRead (λ x. (x.0, map (λ w. w.now) x.1.now)) result (up (map (λ w. w.now) words.now)) }
{
    let rest = behind("up", words)?;
    let (promised, rest) = short(behind("promised", rest)?)?;
    let (role, rest) = role_of(rest)?;
    let (epoch, rest) = short(behind("watermark", rest)?)?;
    let (seq, rest) = long(rest)?;
    let (at, rest) = arrived(rest)?;
    let head = Head::Up {
        promised,
        role,
        watermark: (epoch, seq),
        at,
    };
    Ok((head, rest))
}

/// The state of a node in a simulated run, and the words behind it.
#[tactic(auto, unfolding(crate::specs::LineForms::simulated))]
fn simulated_of<'a>(words: &'a [&'a str]) -> Result<(Head, &'a [&'a str]), ReportFault>
    ensures { IsRead (λ x. (x.0, map (λ w. w.now) x.1.now)) result (simulated (map (λ w. w.now) words.now)) }
{
    if begins("up", words) {
        return up_of(words);
    }
    if begins("down", words) {
        let rest = behind("down", words)?;
        let (promised, rest) = short(behind("promised", rest)?)?;
        return Ok((Head::Down { promised }, rest));
    }
    Ok((Head::Lost, behind("lost", words)?))
}

/// The number and the state of a shown node.
pub fn shown_node(words: &[&str]) -> Result<(u32, Head), ReportFault>
    ensures { IsRead (λ x. x) result (whole (node short simulated) (map (λ w. w.now) words.now)) }
{
    let (node, rest) = short(behind("node", words)?)?;
    let (head, rest) = simulated_of(rest)?;
    alone((node, head), rest)
}

/// The state of the node of a number in a simulated run.
pub fn simulated_node(number: u32, words: &[&str]) -> Result<(u32, Head), ReportFault>
    ensures { IsRead (λ x. x) result (whole (node (exactly number) simulated) (map (λ w. w.now) words.now)) }
{
    let rest = exactly(number, behind("node", words)?)?;
    let (head, rest) = simulated_of(rest)?;
    alone((number, head), rest)
}

/// The node of a number in a run of threads.
pub fn plain_node(number: u32, words: &[&str]) -> Result<(u32, Head), ReportFault>
    ensures { IsRead (λ x. x) result (whole (node (exactly number) (always Plain)) (map (λ w. w.now) words.now)) }
{
    let rest = exactly(number, behind("node", words)?)?;
    alone((number, Head::Plain), rest)
}

/// An attempt that was refused at a locked record.
#[tactic(auto, unfolding(crate::specs::LineForms::locked))]
fn locked_of(alloc: Global, words: &[&str]) -> Result<Middle, LineError>
    ensures { IsLineRead (λ x. x) result (whole locked (map (λ w. w.now) words.now)) }
{
    let (epoch, rest) = short(behind("refused", words)?)?;
    let (worker, rest) = short(rest)?;
    let (index, rest) = short(rest)?;
    let (table, rest) = name(behind("locked", rest)?)?;
    let (key, rest) = short(rest)?;
    let (word, rest) = long(rest)?;
    let refused = Middle::Locked {
        epoch,
        worker,
        index,
        table: Bytes::from_slice(alloc, table.as_bytes())?,
        key,
        word,
    };
    Ok(alone(refused, rest)?)
}

/// An attempt that was refused at a record that had changed.
#[tactic(auto, unfolding(crate::specs::LineForms::changed))]
fn changed_of(alloc: Global, words: &[&str]) -> Result<Middle, LineError>
    ensures { IsLineRead (λ x. x) result (whole changed (map (λ w. w.now) words.now)) }
{
    let (epoch, rest) = short(behind("refused", words)?)?;
    let (worker, rest) = short(rest)?;
    let (index, rest) = short(rest)?;
    let (table, rest) = name(behind("changed", rest)?)?;
    let (key, rest) = short(rest)?;
    let (seen, rest) = long(rest)?;
    let (found, rest) = long(rest)?;
    let refused = Middle::Changed {
        epoch,
        worker,
        index,
        table: Bytes::from_slice(alloc, table.as_bytes())?,
        key,
        seen,
        found,
    };
    Ok(alone(refused, rest)?)
}

/// An attempt that was refused, by its fifth word.
pub fn refused_of(alloc: Global, words: &[&str]) -> Result<Middle, LineError>
    ensures { IsLineRead (λ x. x) result (whole refused (map (λ w. w.now) words.now)) }
{
    if begins_at("locked", 4, words) {
        locked_of(alloc, words)
    } else {
        changed_of(alloc, words)
    }
}

/// The message and the node of a message that was refused for a reason, and the number behind that.
#[tactic(auto, unfolding(crate::specs::LineForms::denied_words))]
fn denied_for<'a>(
    why: &str,
    words: &'a [&'a str],
) -> Result<((u64, u32, u32), &'a [&'a str]), ReportFault>
    ensures { IsRead (λ x. ((x.0.0, (x.0.1, x.0.2)), map (λ w. w.now) x.1.now)) result
        (denied_words why.now (map (λ w. w.now) words.now)) }
{
    let (number, rest) = long(behind("denied", words)?)?;
    let (node, rest) = short(rest)?;
    let (kept, rest) = short(behind(why, rest)?)?;
    Ok(((number, node, kept), rest))
}

/// A message that was refused, by its fourth word.
fn denied_of(words: &[&str]) -> Result<Middle, ReportFault>
    ensures { IsRead (λ x. x) result (whole denied (map (λ w. w.now) words.now)) }
{
    if begins_at("promised", 3, words) {
        let ((number, node, promised), rest) = denied_for("promised", words)?;
        let denied = Middle::DeniedPromised {
            number,
            node,
            promised,
        };
        return alone(denied, rest);
    }
    if begins_at("ballot", 3, words) {
        let ((number, node, ballot), rest) = denied_for("ballot", words)?;
        let denied = Middle::DeniedBallot {
            number,
            node,
            ballot,
        };
        return alone(denied, rest);
    }
    let ((number, node, len), rest) = denied_for("order", words)?;
    alone(Middle::DeniedOrder { number, node, len }, rest)
}

/// A message that was not sent.
#[tactic(auto, unfolding(crate::specs::LineForms::not_sent))]
fn not_sent_of(words: &[&str]) -> Result<Middle, ReportFault>
    ensures { IsRead (λ x. x) result (whole not_sent (map (λ w. w.now) words.now)) }
{
    let (number, rest) = long(behind("nomessage", words)?)?;
    alone(Middle::NoMessage { number }, rest)
}

/// A leader that opened.
#[tactic(auto, unfolding(crate::specs::LineForms::opened))]
fn opened_of(words: &[&str]) -> Result<Middle, ReportFault>
    ensures { IsRead (λ x. x) result (whole opened (map (λ w. w.now) words.now)) }
{
    let (epoch, rest) = short(behind("opened", words)?)?;
    let (node, rest) = short(rest)?;
    let (count, rest) = short(rest)?;
    alone(Middle::Opened { epoch, node, count }, rest)
}

/// What became of an event, but for a shown node.
pub fn effect_of(alloc: Global, words: &[&str]) -> Result<Middle, LineError>
    ensures { IsLineRead (λ x. x) result (whole effect (map (λ w. w.now) words.now)) }
{
    if begins("refused", words) {
        return refused_of(alloc, words);
    }
    if begins("denied", words) {
        return Ok(denied_of(words)?);
    }
    if begins("nomessage", words) {
        return Ok(not_sent_of(words)?);
    }
    Ok(opened_of(words)?)
}

/// The count of items.
pub fn count_of(words: &[&str]) -> Result<u64, ReportFault>
    ensures { IsRead (λ x. x) result (whole (behind (codes "items") long) (map (λ w. w.now) words.now)) }
{
    let (count, rest) = long(behind("items", words)?)?;
    alone(count, rest)
}

/// An item, where one is due.
pub fn due_item(alloc: Global, words: &[&str]) -> Result<ItemLine, LineError>
    ensures { IsLineRead (λ x. x) result (due_item (map (λ w. w.now) words.now)) }
{
    if begins("item", words) {
        item_of(alloc, words)
    } else {
        Err(ReportFault::Count.into())
    }
}

/// The line before the rows of tables.
pub fn tables_of(words: &[&str]) -> Result<(), ReportFault>
    ensures { IsRead (λ x. x) result (whole tables_line (map (λ w. w.now) words.now)) }
{
    alone((), behind("tables", words)?)
}
