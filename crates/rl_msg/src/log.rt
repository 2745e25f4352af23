//! The bytes of logs and streams.

ghost use Rattle.std.specs.Prelude.{◌≡◌, ◌++◌, length, IfOk, OnOk};
ghost use Rattle.std.specs.List.{zip};
ghost use Rattle.rl_fields.specs.Answers.{IsRead, IsReadUnlessMemory};
ghost use Rattle.rl_fields.specs.Fields.{several};
ghost use Rattle.rl_msg.specs.Ranges.{EmbeddedBatchInRange, LogInRange, StreamInRange, StreamsInRange};
ghost use Rattle.rl_msg.specs.Encoding.{embedded_batch_bytes, log_bytes, streams_bytes, stream_and_slot_bytes};
ghost use Rattle.rl_msg.specs.Reading.{embedded_batch, log, stream, streams, stream_and_slot};

use crate::head::LAST_EPOCH;
use rl_base::limit::{SLOTS, WORKERS};
use rl_base::list::{Ballots, Bytes, Log, Logs};
use rl_base::memory::Memory;
use rl_fields::fault::{Fault, ReadError};
use rl_fields::limit::BATCH_BYTES;
use rl_fields::number::{u8_within, u32_within};
use rl_fields::string::string;
use rl_fields::writing::{push_u8, push_u32};
use std::alloc::Global;

/// The greatest number of a stream.
pub const LAST_STREAM: u8 = WORKERS as u8;

/// The bytes of a batch, and those after it.
#[tactic(auto, unfolding(crate::specs::Reading::embedded_batch))]
pub fn embedded_batch_at(alloc: Global, bytes: &[u8]) -> Result<(Bytes, &[u8]), ReadError>
    ensures { IsReadUnlessMemory (λ x. (x.0, x.1.now)) result (embedded_batch bytes.now) }
{
    let (len, rest) = u32_within(1, BATCH_BYTES, bytes)?;
    let (batch, rest) = string(len as usize, rest)?;
    Ok((Bytes::from_slice(alloc, batch)?, rest))
}

/// A log, and the bytes after it.
#[tactic(auto, unfolding(crate::specs::Reading::log))]
pub fn log_at(alloc: Global, bytes: &[u8]) -> Result<(Log, &[u8]), ReadError>
    ensures { IsReadUnlessMemory (λ x. (x.0, x.1.now)) result (log bytes.now) }
{
    let (count, rest) = u32_within(0, SLOTS, bytes)?;
    batches_at(alloc, count, rest)
}

/// So many batches, and the bytes after them.
fn batches_at(alloc: Global, count: u32, bytes: &[u8]) -> Result<(Log, &[u8]), ReadError>
    ensures { IsReadUnlessMemory (λ x. (x.0, x.1.now)) result (several embedded_batch count bytes.now) }
{
    let mut log = Vec::new(alloc);
    let mut rest = bytes;
    for _batch in 0..count {
        let (batch, after) = embedded_batch_at(alloc, rest)?;
        log.push(batch)?;
        rest = after;
    }
    Ok((Log::from_vec(log), rest))
}

/// The ballots and the logs of streams, and the bytes after them.
#[tactic(auto, unfolding(crate::specs::Reading::streams))]
pub fn streams_at(alloc: Global, bytes: &[u8]) -> Result<(Ballots, Logs, &[u8]), ReadError>
    ensures streams { IsReadUnlessMemory (λ x. (zip x.0 x.1, x.2.now)) result (streams bytes.now) }
    ensures as_many { IfOk result (λ x. length x.1 ≡ length x.0) }
{
    let (count, rest) = u8_within(1, LAST_STREAM, bytes)?;
    each_stream_at(alloc, count, rest)
}

/// The ballots and the logs of so many streams, and the bytes after them.
fn each_stream_at(
    alloc: Global,
    count: u8,
    bytes: &[u8],
) -> Result<(Ballots, Logs, &[u8]), ReadError>
    ensures streams { IsReadUnlessMemory (λ x. (zip x.0 x.1, x.2.now)) result (several stream count bytes.now) }
    ensures as_many { IfOk result (λ x. length x.1 ≡ length x.0) }
{
    let mut ballots = Vec::new(alloc);
    let mut logs = Vec::new(alloc);
    let mut rest = bytes;
    for _stream in 0..count {
        let (ballot, log, after) = stream_at(alloc, rest)?;
        ballots.push(ballot)?;
        logs.push(log)?;
        rest = after;
    }
    Ok((Ballots::from_vec(ballots), Logs::from_vec(logs), rest))
}

/// The ballot and the log of a stream, and the bytes after them.
#[tactic(auto, unfolding(crate::specs::Reading::stream))]
fn stream_at(alloc: Global, bytes: &[u8]) -> Result<(u32, Log, &[u8]), ReadError>
    ensures { IsReadUnlessMemory (λ x. ((x.0, x.1), x.2.now)) result (stream bytes.now) }
{
    let (ballot, rest) = u32_within(0, LAST_EPOCH, bytes)?;
    let (log, rest) = log_at(alloc, rest)?;
    Ok((ballot, log, rest))
}

/// A stream and a slot or a length up to the greatest, and the bytes after them.
#[tactic(auto, unfolding(crate::specs::Reading::stream_and_slot))]
pub fn stream_and_slot_at(greatest: u32, bytes: &[u8]) -> Result<(u32, u32, &[u8]), Fault>
    ensures { IsRead (λ x. ((x.0, x.1), x.2.now)) result (stream_and_slot greatest bytes.now) }
{
    let (stream, rest) = u8_within(1, LAST_STREAM, bytes)?;
    let (slot, rest) = u32_within(0, greatest, rest)?;
    Ok((u32::from(stream), slot, rest))
}

/// Appends how many bytes a batch has, and these.
pub fn push_embedded_batch(out: &mut Bytes, batch: &[u8]) -> Result<(), Memory>
    requires { EmbeddedBatchInRange batch.now }
    ensures { OnOk result (out.new ≡ out.old ++ embedded_batch_bytes batch.now) }
{
    push_u32(out, batch.len() as u32)?;
    out.append(batch)
}

/// Appends how many batches a log has, and each of them.
pub fn push_log(out: &mut Bytes, log: &[Bytes]) -> Result<(), Memory>
    requires { LogInRange log.now }
    ensures { OnOk result (out.new ≡ out.old ++ log_bytes log.now) }
{
    push_u32(out, log.len() as u32)?;
    for batch in log {
        push_embedded_batch(out, batch.as_slice())?;
    }
    Ok(())
}

/// Appends how many streams there are, and the ballot and the log of each.
pub fn push_streams(out: &mut Bytes, ballots: &[u32], logs: &[Log]) -> Result<(), Memory>
    requires { StreamsInRange ballots.now logs.now }
    ensures { OnOk result (out.new ≡ out.old ++ streams_bytes (zip ballots.now logs.now)) }
{
    push_u8(out, ballots.len() as u8)?;
    for i in 0..ballots.len() {
        push_u32(out, ballots[i])?;
        push_log(out, logs[i].as_slice())?;
    }
    Ok(())
}

/// Appends a stream and a slot or a length.
pub fn push_stream_and_slot(out: &mut Bytes, stream: u32, slot: u32) -> Result<(), Memory>
    requires { StreamInRange stream }
    ensures { OnOk result (out.new ≡ out.old ++ stream_and_slot_bytes stream slot) }
{
    push_u8(out, stream as u8)?;
    push_u32(out, slot)
}
