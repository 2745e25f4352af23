//! Messages from bytes.

ghost use Rattle.std.specs.Prelude.{◌≡◌, IfOk, Ok};
ghost use Rattle.rl_fields.specs.Answers.{IsRead, IsReadUnlessMemory, IsDecoded};
ghost use Rattle.rl_fields.specs.Fields.{whole};
ghost use Rattle.rl_msg.specs.declared.msg.Msg.{Msg};
ghost use Rattle.rl_msg.specs.Ranges.{MsgInRange};
ghost use Rattle.rl_msg.specs.Encoding.{msg_bytes};
ghost use Rattle.rl_msg.specs.Reading.{promise, sync, accept, ack, known, fields, msg, read_msg};

use crate::head::{Head, head_at};
use crate::log::{LAST_STREAM, embedded_batch_at, log_at, stream_and_slot_at, streams_at};
use crate::msg::Msg;
use crate::msg_error::MsgError;
use rl_base::flaw::Flaw;
use rl_base::limit::SLOTS;
use rl_fields::fault::{Fault, ReadError};
use rl_fields::number::u8_within;
use rl_fields::string::alone;
use std::alloc::Global;

/// The message that some bytes encode. Batches in it stay bytes, and each may be any 1 to 262,144 bytes.
///
/// `Fault` exactly where they encode none: the first fault from left to right, and its offset counted from 0. `Kind` is
/// an unknown first byte; `Short` a field or a byte string that ends past the bytes, at its first byte; `Range` a field
/// out of its range; `Extra` the first byte after the end.
pub fn decode_msg(alloc: Global, x: &[u8]) -> Result<Msg, MsgError>
    // A message comes back only for its one encoding,
    ensures encoded { IfOk result (λ m. x.now ≡ msg_bytes m) }
    ensures in_range { IfOk result (λ m. MsgInRange m) }
    // and what encodes a message is read as that message.
    ensures read_back { (m : Msg) → MsgInRange m → x.now ≡ msg_bytes m → read_msg x.now ≡ Ok m }
    // What is read comes back, the message or its fault, unless memory runs out.
    ensures exact { IsDecoded (read_msg x.now) result }
{
    read(alloc, x)
}

/// The message that some bytes are, or their first fault.
fn read(alloc: Global, x: &[u8]) -> Result<Msg, MsgError>
    ensures { IsDecoded (read_msg x.now) result }
{
    match whole(alloc, x) {
        Ok(msg) => Ok(msg),
        Err(e) => Err(MsgError::new(x.len(), e)),
    }
}

/// A message that no byte follows.
#[tactic(auto, unfolding(rl_fields::specs::Fields::whole))]
fn whole(alloc: Global, bytes: &[u8]) -> Result<Msg, ReadError>
    ensures { IsReadUnlessMemory (λ m. m) result (whole msg bytes.now) }
{
    let (msg, rest) = msg_at(alloc, bytes)?;
    Ok(alone(msg, rest)?)
}

/// A message, and the bytes after it.
#[tactic(auto, unfolding(crate::specs::Reading::msg))]
fn msg_at(alloc: Global, bytes: &[u8]) -> Result<(Msg, &[u8]), ReadError>
    ensures { IsReadUnlessMemory (λ x. (x.0, x.1.now)) result (msg bytes.now) }
{
    let [kind, rest @ ..] = bytes else {
        return Err(Fault::at(bytes, Flaw::Short).into());
    };
    if *kind < 1 || *kind > 6 {
        return Err(Fault::at(bytes, Flaw::Kind).into());
    }
    let (head, rest) = head_at(rest)?;
    fields_at(alloc, *kind, head, rest)
}

/// What stands behind the head of a message of a kind, and the bytes after it.
fn fields_at(alloc: Global, kind: u8, head: Head, bytes: &[u8]) -> Result<(Msg, &[u8]), ReadError>
    ensures { IsReadUnlessMemory (λ x. (x.0, x.1.now)) result (fields kind head bytes.now) }
{
    match kind {
        1 => Ok((prepare(head), bytes)),
        2 => promise_at(alloc, head, bytes),
        3 => sync_at(alloc, head, bytes),
        4 => accept_at(alloc, head, bytes),
        5 => Ok(ack_at(head, bytes)?),
        _ => Ok(known_at(head, bytes)?),
    }
}

/// A Prepare.
fn prepare(head: Head) -> Msg
    ensures { result ≡ Msg.Prepare head.from head.to head.epoch }
{
    Msg::Prepare {
        from: head.from,
        to: head.to,
        epoch: head.epoch,
    }
}

/// What stands behind the head of a Promise, and the bytes after it.
#[tactic(auto, unfolding(crate::specs::Reading::promise))]
fn promise_at(alloc: Global, head: Head, bytes: &[u8]) -> Result<(Msg, &[u8]), ReadError>
    ensures { IsReadUnlessMemory (λ x. (x.0, x.1.now)) result (promise head bytes.now) }
{
    let (ballots, logs, rest) = streams_at(alloc, bytes)?;
    let msg = Msg::Promise {
        from: head.from,
        to: head.to,
        epoch: head.epoch,
        ballots,
        logs,
    };
    Ok((msg, rest))
}

/// What stands behind the head of a Sync, and the bytes after it.
#[tactic(auto, unfolding(crate::specs::Reading::sync))]
fn sync_at(alloc: Global, head: Head, bytes: &[u8]) -> Result<(Msg, &[u8]), ReadError>
    ensures { IsReadUnlessMemory (λ x. (x.0, x.1.now)) result (sync head bytes.now) }
{
    let (stream, rest) = u8_within(1, LAST_STREAM, bytes)?;
    let (log, rest) = log_at(alloc, rest)?;
    let msg = Msg::Sync {
        from: head.from,
        to: head.to,
        epoch: head.epoch,
        stream: u32::from(stream),
        log,
    };
    Ok((msg, rest))
}

/// What stands behind the head of an Accept, and the bytes after it.
#[tactic(auto, unfolding(crate::specs::Reading::accept))]
fn accept_at(alloc: Global, head: Head, bytes: &[u8]) -> Result<(Msg, &[u8]), ReadError>
    ensures { IsReadUnlessMemory (λ x. (x.0, x.1.now)) result (accept head bytes.now) }
{
    let (stream, slot, rest) = stream_and_slot_at(SLOTS - 1, bytes)?;
    let (batch, rest) = embedded_batch_at(alloc, rest)?;
    let msg = Msg::Accept {
        from: head.from,
        to: head.to,
        epoch: head.epoch,
        stream,
        slot,
        batch,
    };
    Ok((msg, rest))
}

/// What stands behind the head of an Ack, and the bytes after it.
#[tactic(auto, unfolding(crate::specs::Reading::ack))]
fn ack_at(head: Head, bytes: &[u8]) -> Result<(Msg, &[u8]), Fault>
    ensures { IsRead (λ x. (x.0, x.1.now)) result (ack head bytes.now) }
{
    let (stream, len, rest) = stream_and_slot_at(SLOTS, bytes)?;
    let msg = Msg::Ack {
        from: head.from,
        to: head.to,
        epoch: head.epoch,
        stream,
        len,
    };
    Ok((msg, rest))
}

/// What stands behind the head of a Known, and the bytes after it.
#[tactic(auto, unfolding(crate::specs::Reading::known))]
fn known_at(head: Head, bytes: &[u8]) -> Result<(Msg, &[u8]), Fault>
    ensures { IsRead (λ x. (x.0, x.1.now)) result (known head bytes.now) }
{
    let (stream, len, rest) = stream_and_slot_at(SLOTS, bytes)?;
    let msg = Msg::Known {
        from: head.from,
        to: head.to,
        epoch: head.epoch,
        stream,
        len,
    };
    Ok((msg, rest))
}
