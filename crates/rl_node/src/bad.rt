//! Which messages no node of the run could have sent to a node.

ghost use Rattle.std.specs.Prelude.{◌≡◌, ℕ, ◌≤◌, ◌&&◌, ◌||◌, ◌∷◌, [], List, not, true, false, length, nat_le, Some, None, IfOk, IfSome};
ghost use Rattle.std.specs.List.{list_any};
ghost use Rattle.std.specs.Option.{option_map_or};
ghost use Rattle.std.specs.Str.{bytes_eq};
ghost use Rattle.rl_base.specs.Order.{is_below};
ghost use Rattle.rl_base.specs.declared.limit.TheConstants.{WORKERS};
ghost use Rattle.rl_families.specs.Logs.{stamps_in_batch, stamps_along, first_stamp, last_stamp};
ghost use Rattle.rl_families.specs.Streams.{log_at};
ghost use Rattle.rl_msg.specs.Parts.{head_of};
ghost use Rattle.rl_msg.specs.Ranges.{MsgInRange};
ghost use Rattle.rl_paxos.specs.Acceptors.{HasStream, kept_log};
ghost use Rattle.rl_paxos.specs.Quorums.{is_node};
ghost use Rattle.rl_nodes.specs.BadMessages.{is_astray, is_usurped, is_partial, is_wrong, is_untrue, is_bad, is_early, is_past_end, carried, carried_from, stream_named, proposer_in, begins, goes_on, would_append, would_adopt};
ghost use Rattle.rl_nodes.specs.Batches.{batch_of, batches_of, are_batches};
ghost use Rattle.rl_nodes.specs.Calls.{Standing};
ghost use Rattle.rl_nodes.specs.Setups.{SetupFits};
ghost use Rattle.rl_node.specs.Fits.{IsFront};
ghost use Rattle.rl_node.specs.Named.{HasNamed, HasPartStream, ForAnyPart, known_front};
ghost use Rattle.rl_node.specs.SetupOf.{setup_of};
ghost use Rattle.rl_node.specs.Standing.{IsNode, is_running, Stands, ForStanding};
ghost use Rattle.rl_node.specs.Wrong.{sent_batch};

use crate::acking::stream_at;
use crate::answer::receiver;
use crate::node::{Node, Phase};
use crate::part::Part;
use crate::reading::{batch_of, read};
use crate::setup::Setup;
use crate::wrong::{Place, is_wrong, is_wrong_alone, last_behind};
use rl_acceptor::acceptor::Acceptor;
use rl_base::epoch::owner;
use rl_base::list::{Ballots, Bytes, Log, Logs};
use rl_base::memory::Memory;
use rl_base::stamp::{Stamp, is_below};
use rl_cut::family::Family;
use rl_msg::msg::Msg;
use rl_txn::batch::{Batch, Batches};
use rl_value::schema::Schema;
use std::alloc::Global;

impl Node {
    /// Whether no node of the run could have sent a message to this one.
    pub(crate) fn is_bad(&self, alloc: Global, setup: &Setup, m: &Msg) -> Result<bool, Memory>
        requires setup { SetupFits (setup_of setup.now) }
        requires node { IsNode (setup_of setup.now) self.now }
        requires up { is_running self.now ≡ true }
        requires message { MsgInRange m.now }
        ensures { let setup = setup_of setup.now in (a : ℕ) (x : Standing) → Stands setup a self.now x
            → IfOk result (λ bad. bad ≡ is_bad setup a x.node m.now) }
    {
        if is_astray(self.id, setup, m) || is_usurped(setup, m) || is_partial(setup, m) {
            return Ok(true);
        }
        let sent = sent_batch(alloc, m)?;
        if has_wrong_log(alloc, setup, m, &sent)? {
            return Ok(true);
        }
        self.is_untrue(alloc, m, &sent)
    }

    /// Whether a message, with the batch that it sends alone, does not go with the node as it is.
    fn is_untrue(&self, alloc: Global, m: &Msg, sent: &Option<Batch>) -> Result<bool, Memory>
        requires up { is_running self.now ≡ true }
        requires node { HasNamed self.now (stream_named m.now) }
        requires sent { sent.now ≡ sent_batch m.now }
        ensures { ForStanding self.now (λ setup a x. IfOk result (λ untrue. untrue ≡ is_untrue x.node m.now)) }
    {
        let Phase::Up(running) = &self.phase else {
            unreachable!()
        };
        match m {
            Msg::Promise { epoch, ballots, .. } => Ok(running.part.is_early(*epoch, ballots)),
            Msg::Sync {
                epoch,
                stream,
                log,
                ..
            } => Ok(drops_known(&self.acceptor, &running.known, *epoch, *stream, log)),
            Msg::Accept {
                epoch,
                stream,
                slot,
                ..
            } => {
                let known = running.known.log(*stream);
                falls_back(alloc, &self.acceptor, known, *epoch, *stream, *slot, sent)
            }
            Msg::Ack {
                epoch,
                stream,
                len,
                ..
            } => Ok(running.part.is_past_end(*epoch, *stream, *len)),
            Msg::Prepare { .. } | Msg::Known { .. } => Ok(false),
        }
    }
}

// ---- what is wrong between a message and any node of the run ----

/// Whether the receiver is another node, or the sender or the stream is not there.
fn is_astray(id: u32, setup: &Setup, m: &Msg) -> bool
    ensures { result ≡ is_astray (setup_of setup.now) id m.now }
{
    receiver(m) != id || !is_number(setup.nodes, sender(m)) || names_no_stream(setup, m)
}

/// Whether a message names a stream that is not there.
fn names_no_stream(setup: &Setup, m: &Msg) -> bool
    ensures { result ≡ option_map_or (λ s. not (is_node (setup_of setup.now).workers s)) (stream_named m.now) false }
{
    match m {
        Msg::Sync { stream, .. }
        | Msg::Accept { stream, .. }
        | Msg::Ack { stream, .. }
        | Msg::Known { stream, .. } => !is_number(setup.workers, *stream),
        Msg::Prepare { .. } | Msg::Promise { .. } => false,
    }
}

/// Whether a number is one of 1 to `count`.
fn is_number(count: u32, number: u32) -> bool
    ensures { result ≡ is_node count number }
{
    1 <= number && number <= count
}

/// The sender of a message.
fn sender(m: &Msg) -> u32
    ensures { result ≡ (head_of m.now).from }
{
    match m {
        Msg::Prepare { from, .. }
        | Msg::Promise { from, .. }
        | Msg::Sync { from, .. }
        | Msg::Accept { from, .. }
        | Msg::Ack { from, .. }
        | Msg::Known { from, .. } => *from,
    }
}

/// The epoch of a message.
fn epoch_of(m: &Msg) -> u32
    ensures { result ≡ (head_of m.now).epoch }
{
    match m {
        Msg::Prepare { epoch, .. }
        | Msg::Promise { epoch, .. }
        | Msg::Sync { epoch, .. }
        | Msg::Accept { epoch, .. }
        | Msg::Ack { epoch, .. }
        | Msg::Known { epoch, .. } => *epoch,
    }
}

/// The candidate or leader that sent a message, or to which it answers.
fn proposer(m: &Msg) -> u32
    ensures { result ≡ proposer_in m.now }
{
    match m {
        Msg::Promise { to, .. } | Msg::Ack { to, .. } => *to,
        Msg::Prepare { from, .. }
        | Msg::Sync { from, .. }
        | Msg::Accept { from, .. }
        | Msg::Known { from, .. } => *from,
    }
}

/// Whether the epoch of a message belongs to another node than the one that proposes in it.
fn is_usurped(setup: &Setup, m: &Msg) -> bool
    requires nodes { 1 ≤ (setup_of setup.now).nodes }
    requires epoch { 1 ≤ (head_of m.now).epoch }
    ensures { result ≡ is_usurped (setup_of setup.now) m.now }
{
    owner(epoch_of(m), setup.nodes) != proposer(m)
}

/// Whether a Promise has not one part for each stream.
fn is_partial(setup: &Setup, m: &Msg) -> bool
    ensures { result ≡ is_partial (setup_of setup.now) m.now }
{
    match m {
        Msg::Promise { ballots, logs, .. } => {
            ballots.len() != setup.workers as usize || logs.len() != setup.workers as usize
        }
        _ => false,
    }
}

// ---- what is wrong with its logs ----

/// The batch that a message sends alone, where it sends one.
fn sent_batch(alloc: Global, m: &Msg) -> Result<Option<Batch>, Memory>
    ensures { IfOk result (λ sent. sent ≡ sent_batch m.now) }
{
    match m {
        Msg::Accept { batch, .. } => batch_of(alloc, batch),
        Msg::Prepare { .. }
        | Msg::Promise { .. }
        | Msg::Sync { .. }
        | Msg::Ack { .. }
        | Msg::Known { .. } => Ok(None),
    }
}

/// Whether something is wrong with a log in a message, with the batch that it sends alone.
fn has_wrong_log(
    alloc: Global,
    setup: &Setup,
    m: &Msg,
    sent: &Option<Batch>,
) -> Result<bool, Memory>
    requires message { MsgInRange m.now }
    requires sent { sent.now ≡ sent_batch m.now }
    ensures { let setup = setup_of setup.now in
        IfOk result (λ wrong. wrong ≡ list_any (is_wrong setup.program.tables) (carried m.now)) }
{
    match m {
        Msg::Promise { ballots, logs, .. } => are_wrong(alloc, &setup.schema, ballots, logs),
        Msg::Sync {
            epoch,
            stream,
            log,
            ..
        } => {
            let place = Place {
                stream: *stream,
                epoch: *epoch,
            };
            is_wrong(alloc, &setup.schema, place, log.as_slice())
        }
        Msg::Accept { epoch, stream, .. } => {
            let place = Place {
                stream: *stream,
                epoch: *epoch,
            };
            Ok(is_wrong_alone(&setup.schema, place, sent))
        }
        Msg::Prepare { .. } | Msg::Ack { .. } | Msg::Known { .. } => Ok(false),
    }
}

/// Whether something is wrong with one of the logs of a Promise.
fn are_wrong(alloc: Global, schema: &Schema, ballots: &Ballots, logs: &Logs) -> Result<bool, Memory>
    requires as_many { length logs.now ≡ length ballots.now }
    requires few { length ballots.now ≤ WORKERS }
    ensures { IfOk result (λ wrong. wrong ≡ list_any (is_wrong schema.now) (carried_from 1 ballots.now logs.now)) }
{
    for i in 0..logs.len() {
        let place = Place {
            stream: i as u32 + 1,
            epoch: *ballots.get(i),
        };
        if is_wrong(alloc, schema, place, logs.get(i).as_slice())? {
            return Ok(true);
        }
    }
    Ok(false)
}

// ---- what is wrong between a message and a node as it is ----

/// Whether an acceptor would adopt a log that does not begin with what is known of a stream.
fn drops_known(acceptor: &Acceptor, known: &Family, epoch: u32, stream: u32, log: &Log) -> bool
    requires kept { HasStream acceptor.now stream }
    requires known { stream ≤ length known.now }
    requires within { length (log_at known.now stream) ≤ length (kept_log acceptor.now stream) }
    ensures { result ≡ (would_adopt acceptor.now epoch stream
        && not (begins (known_front acceptor.now known.now stream) log.now)) }
{
    let known_len = known.log(stream).len();
    would_adopt(acceptor, epoch, stream)
        && !begins(
            &acceptor.log(stream).as_slice()[..known_len],
            log.as_slice(),
        )
}

/// Whether an acceptor would adopt a log.
fn would_adopt(acceptor: &Acceptor, epoch: u32, stream: u32) -> bool
    requires { HasStream acceptor.now stream }
    ensures { result ≡ would_adopt acceptor.now epoch stream }
{
    acceptor.promised() <= epoch && acceptor.ballot(stream) < epoch
}

/// Whether one log begins another.
fn begins(front: &[Bytes], log: &[Bytes]) -> bool
    ensures { result ≡ begins front.now log.now }
{
    if log.len() < front.len() {
        return false;
    }
    for i in 0..front.len() {
        if !same_bytes(&front[i], &log[i]) {
            return false;
        }
    }
    true
}

/// Whether two batches have the same bytes.
fn same_bytes(a: &Bytes, b: &Bytes) -> bool
    ensures { result ≡ bytes_eq a.now b.now }
{
    a.as_slice() == b.as_slice()
}

/// Whether an acceptor would append a batch that does not go on from its log, of which some is known.
fn falls_back(
    alloc: Global,
    acceptor: &Acceptor,
    known: &Batches,
    epoch: u32,
    stream: u32,
    slot: u32,
    batch: &Option<Batch>,
) -> Result<bool, Memory>
    requires stream { HasStream acceptor.now stream }
    requires kept { are_batches (kept_log acceptor.now stream) ≡ true }
    requires known { IsFront (kept_log acceptor.now stream) known.now }
    ensures { (bytes : List ℕ) → batch.now ≡ batch_of bytes
        → IfOk result (λ falls. falls ≡ (would_append acceptor.now epoch stream slot
        && not (goes_on (stamps_along (batches_of (kept_log acceptor.now stream)))
        (stamps_along (batches_of (bytes ∷ [])))))) }
{
    if !would_append(acceptor, epoch, stream, slot) {
        return Ok(false);
    }
    let last = last_stamp(alloc, acceptor.log(stream), known)?;
    Ok(!goes_on(last, first_stamp(batch)))
}

/// Whether an acceptor would append a batch.
fn would_append(acceptor: &Acceptor, epoch: u32, stream: u32, slot: u32) -> bool
    requires { HasStream acceptor.now stream }
    ensures { result ≡ would_append acceptor.now epoch stream slot }
{
    acceptor.promised() <= epoch
        && acceptor.ballot(stream) == epoch
        && acceptor.log(stream).len() == slot as usize
}

/// The last stamp along a log, of which some is known.
fn last_stamp(alloc: Global, log: &Log, known: &Batches) -> Result<Option<Stamp>, Memory>
    requires batches { are_batches log.now ≡ true }
    requires known { IsFront log.now known.now }
    ensures { IfOk result (λ last. last ≡ last_stamp (stamps_along (batches_of log.now))) }
{
    if known.len() == log.len() {
        if let Some(last) = last_known(known) {
            return Ok(Some(last));
        }
    }
    last_encoded(alloc, log)
}

/// The last stamp of the last of some batches.
fn last_known(known: &Batches) -> Option<Stamp>
    ensures { IfSome result (λ last. last_stamp (stamps_along known.now) ≡ Some last) }
{
    let batch = known.as_slice().last()?;
    last_behind(None, batch)
}

/// The last stamp along a log.
fn last_encoded(alloc: Global, log: &Log) -> Result<Option<Stamp>, Memory>
    requires { are_batches log.now ≡ true }
    ensures { IfOk result (λ last. last ≡ last_stamp (stamps_along (batches_of log.now))) }
{
    let Some(bytes) = log.as_slice().last() else {
        return Ok(None);
    };
    let batch = read(alloc, bytes)?;
    Ok(last_behind(None, &batch))
}

/// The first stamp of a batch that some bytes encode, where they encode one.
fn first_stamp(batch: &Option<Batch>) -> Option<Stamp>
    ensures { (bytes : List ℕ) → batch.now ≡ batch_of bytes
        → result ≡ first_stamp (stamps_along (batches_of (bytes ∷ []))) }
{
    match batch {
        Some(batch) => first_in(batch),
        None => None,
    }
}

/// The first stamp of a batch.
fn first_in(batch: &Batch) -> Option<Stamp>
    ensures { result ≡ first_stamp (stamps_in_batch batch.now) }
{
    match batch {
        Batch::Items(items) => items.as_slice().first().map(|item| item.stamp),
        Batch::Idle(stamp) | Batch::Opened(stamp) => Some(*stamp),
    }
}

/// Whether a first stamp is above a last one, where both are there.
fn goes_on(last: Option<Stamp>, first: Option<Stamp>) -> bool
    ensures { result ≡ option_map_or (λ l. option_map_or (is_below l) first true) last true }
{
    match (last, first) {
        (Some(last), Some(first)) => is_below(last, first),
        _ => true,
    }
}

/// Whether one of some ballots is not below an epoch.
fn reaches(ballots: &Ballots, epoch: u32) -> bool
    ensures { result ≡ list_any (nat_le epoch) ballots.now }
{
    ballots.as_slice().iter().any(|b| epoch <= *b)
}

impl Part {
    /// Whether it is the candidate of an epoch, and one of some ballots is not below that.
    fn is_early(&self, epoch: u32, ballots: &Ballots) -> bool
        ensures { ForAnyPart self.now (λ x. result ≡ is_early x epoch ballots.now) }
    {
        match self {
            Part::Stands(candidate) => { candidate.epoch() == epoch && reaches(ballots, epoch) }
            Part::Follows | Part::Leads(_) => false,
        }
    }

    /// Whether it leads an epoch, and its log of a stream is shorter.
    fn is_past_end(&self, epoch: u32, stream: u32, len: u32) -> bool
        requires { HasPartStream self.now stream }
        ensures { ForAnyPart self.now (λ x. result ≡ is_past_end x epoch stream len) }
    {
        match self {
            Part::Leads(lead) => {
                lead.epoch == epoch && stream_at(&lead.streams, stream).log().len() < len as usize
            }
            Part::Follows | Part::Stands(_) => false,
        }
    }
}
