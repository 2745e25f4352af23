//! Messages as bytes.

ghost use Rattle.std.specs.Prelude.{◌≡◌, ◌++◌, IfOk, OnOk, Ok};
ghost use Rattle.rl_msg.specs.Encoding.{msg_bytes};
ghost use Rattle.rl_msg.specs.Parts.{kind_of, head_of, fields_bytes};
ghost use Rattle.rl_msg.specs.Ranges.{MsgInRange};
ghost use Rattle.rl_msg.specs.Reading.{read_msg};

use crate::head::{Head, push_head};
use crate::log::{push_embedded_batch, push_log, push_stream_and_slot, push_streams};
use crate::msg::Msg;
use rl_base::list::Bytes;
use rl_base::memory::Memory;
use rl_fields::writing::push_u8;
use std::alloc::Global;

/// The one encoding of a message.
///
/// A message has one where its nodes are 1 to 7, its epoch 1 to 2^20 - 1, its streams 1 to 16, a slot up to 4095 and a
/// length up to 4096, where each batch has 1 to 262,144 bytes and a log up to 4,096 batches, and where a Promise has a
/// ballot up to 2^20 - 1 and a log for each of 1 to 16 streams.
pub fn encode_msg(alloc: Global, m: &Msg) -> Result<Bytes, Memory>
    requires { MsgInRange m.now }
    ensures encoded { IfOk result (λ bytes. bytes ≡ msg_bytes m.now) }
    // Reading it gives the message again.
    ensures read_back { IfOk result (λ bytes. read_msg bytes ≡ Ok m.now) }
{
    encode(alloc, m)
}

/// The bytes of a message.
fn encode(alloc: Global, m: &Msg) -> Result<Bytes, Memory>
    requires { MsgInRange m.now }
    ensures { IfOk result (λ bytes. bytes ≡ msg_bytes m.now) }
{
    let mut out = Bytes::new(alloc);
    push_u8(&mut out, kind_of(m))?;
    push_head(&mut out, head_of(m))?;
    push_fields(&mut out, m)?;
    Ok(out)
}

/// The first byte of a message.
fn kind_of(m: &Msg) -> u8
    ensures { result ≡ kind_of m.now }
{
    match m {
        Msg::Prepare { .. } => 1,
        Msg::Promise { .. } => 2,
        Msg::Sync { .. } => 3,
        Msg::Accept { .. } => 4,
        Msg::Ack { .. } => 5,
        Msg::Known { .. } => 6,
    }
}

/// The sender, the receiver and the epoch of a message.
fn head_of(m: &Msg) -> Head
    ensures { result ≡ head_of m.now }
{
    let (from, to, epoch) = match m {
        Msg::Prepare { from, to, epoch }
        | Msg::Promise {
            from,
            to,
            epoch,
            ..
        }
        | Msg::Sync {
            from,
            to,
            epoch,
            ..
        }
        | Msg::Accept {
            from,
            to,
            epoch,
            ..
        }
        | Msg::Ack {
            from,
            to,
            epoch,
            ..
        }
        | Msg::Known {
            from,
            to,
            epoch,
            ..
        } => (*from, *to, *epoch),
    };
    Head { from, to, epoch }
}

/// Appends what a message has behind its head.
fn push_fields(out: &mut Bytes, m: &Msg) -> Result<(), Memory>
    requires { MsgInRange m.now }
    ensures { OnOk result (out.new ≡ out.old ++ fields_bytes m.now) }
{
    match m {
        Msg::Prepare { .. } => Ok(()),
        Msg::Promise { ballots, logs, .. } => {
            push_streams(out, ballots.as_slice(), logs.as_slice())
        }
        Msg::Sync { stream, log, .. } => {
            push_u8(out, *stream as u8)?;
            push_log(out, log.as_slice())
        }
        Msg::Accept {
            stream,
            slot,
            batch,
            ..
        } => {
            push_stream_and_slot(out, *stream, *slot)?;
            push_embedded_batch(out, batch.as_slice())
        }
        Msg::Ack { stream, len, .. } | Msg::Known { stream, len, .. } => {
            push_stream_and_slot(out, *stream, *len)
        }
    }
}
