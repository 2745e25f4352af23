//! A family of logs, one for each stream.

ghost use Rattle.std.specs.Prelude.{◌≡◌, ◌<◌, ◌≤◌, ◌-◌, ◌++◌, ◌∷◌, [], List, Err, IfSome, IfNone, IfOk, OnOk, OnErr, IsOkUnless, length, replicate, slice_set, slice_index_or, None};
ghost use Rattle.rl_txn.specs.declared.batch.Batch.{Batch};
ghost use Rattle.rl_families.specs.Logs.{stamps_in_batch, stamps_along, IsRising, first_stamp, last_stamp};
ghost use Rattle.rl_families.specs.Order.{IsInOrder};
ghost use Rattle.rl_families.specs.Families.{AllRise, all_reached, bound_of, history, least_top, watermark};
ghost use Rattle.rl_families.specs.Streams.{log_at};
ghost use Rattle.rl_cut.specs.Lasts.{all_noted, LeadsBack};
ghost use Rattle.rl_cut.specs.Refusals.{order_refusal, extend_refusal};

use crate::due::count;
use crate::lasts::{Lasts, Tail, last_of_lasts, last_seq, least_seq, note_batch, roll_back};
use crate::stamps::first_of;
use rl_base::bound::Bound;
use rl_base::memory::Memory;
use rl_base::stamp::{Stamp, is_below};
use rl_txn::batch::{Batch, Batches, copy_items};
use rl_txn::item::Items;
use std::alloc::Global;
use std::marker::Model;
use thiserror::Error;

/// One log for each stream. Contracts see the list of the logs.
#[derive(Debug, Drop)]
pub struct Family {
    logs: Vec<Batches>,
    /// For each stream, the last stamp of each epoch.
    reached: Vec<Lasts>,
    /// The bounds of the epochs below the least top, as stamps.
    settled: Vec<Stamp>,
    /// For each stream, how many batches are wholly up to the watermark.
    counted: Vec<usize>,
    mark: (u32, u64),
    history: Items,
}

impl Model for Family {
    ghost use Rattle.std.specs.Prelude.{List};
    ghost use Rattle.rl_txn.specs.declared.batch.Batch.{Batch};

    ghost Value = { List (List Batch) };

    ghost use Rattle.rl_cut.specs.Kept.{IsKept};

    ghost view = { λ f. f.logs.items };

    ghost invariant = { IsKept };
}

/// Why a batch was not appended. The family is unchanged then.
#[derive(Clone, Copy, Debug, PartialEq, Eq, Error)]
pub enum ExtendError {
    /// The batch's first stamp, `got`, is not above the `last` of its stream.
    #[error("order")]
    Order { last: Stamp, got: Stamp },
    /// There was no memory left.
    #[error("memory")]
    Memory,
}

impl From<Memory> for ExtendError {
    ghost use Rattle.std.specs.Prelude.{◌≡◌};
    ghost use Rattle.rl_cut.specs.declared.family.ExtendError.TheVariants.{Memory};

    ghost from_gives = { λ _ e. e ≡ Memory };

    fn from(_e: Memory) -> ExtendError {
        ExtendError::Memory
    }
}

impl Family {
    /// Empty logs, for streams 1 to `streams`.
    pub fn new(alloc: Global, streams: u32) -> Result<Family, Memory>
        ensures { IfOk result (λ family. family ≡ replicate streams []) }
    {
        let mut logs = Vec::with_capacity(alloc, streams as usize)?;
        let mut reached = Vec::with_capacity(alloc, streams as usize)?;
        let mut counted = Vec::with_capacity(alloc, streams as usize)?;
        for _stream in 0..streams {
            logs.push(Batches::new(alloc))?;
            reached.push(Lasts::new(alloc))?;
            counted.push(0)?;
        }
        Ok(Family {
            logs,
            reached,
            settled: Vec::new(alloc),
            counted,
            mark: (0, 0),
            history: Items::new(alloc),
        })
    }

    /// Appends a batch, whose stamps rise, to the log of a stream.
    ///
    /// `Order` comes exactly where the batch's first stamp is not above the last of the log. After
    /// each error the family is unchanged.
    pub fn extend(&mut self, stream: u32, batch: Batch) -> Result<(), ExtendError>
        requires first_stream { 1 ≤ stream }
        requires last_stream { stream ≤ length self.old }
        requires rising { IsRising (stamps_in_batch batch) }
        ensures extended { OnOk result (self.new ≡ slice_set self.old (stream - 1)
            (log_at self.old stream ++ batch ∷ [])) }
        ensures refused { IfSome (extend_refusal self.old stream batch) (λ e. result ≡ Err e) }
        ensures else_memory { IfNone (extend_refusal self.old stream batch) (IsOkUnless result ExtendError.Memory) }
        ensures unchanged { OnErr result (self.new ≡ self.old) }
    {
        match self.extend_refusal(stream, &batch) {
            Some(e) => Err(e),
            None => Ok(self.append(stream, batch)?),
        }
    }

    /// Appends a batch that nothing keeps out.
    fn append(&mut self, stream: u32, batch: Batch) -> Result<(), Memory>
        requires first_stream { 1 ≤ stream }
        requires last_stream { stream ≤ length self.old }
        requires rising { IsRising (stamps_in_batch batch) }
        requires free { extend_refusal self.old stream batch ≡ None }
        ensures extended { OnOk result (self.new ≡ slice_set self.old (stream - 1)
            (log_at self.old stream ++ batch ∷ [])) }
        ensures unchanged { OnErr result (self.new ≡ self.old) }
    {
        let at = stream as usize - 1;
        let alloc = *self.logs.allocator();
        let tail = push_noted(&mut self.logs, &mut self.reached, at, batch)?;
        let len = self.settled.len();
        let counted = count(
            alloc,
            &self.logs,
            &self.reached,
            &mut self.settled,
            &mut self.counted,
            &mut self.mark,
            &mut self.history,
        );
        if let Err(e) = counted {
            self.settled.truncate(len);
            roll_back(&mut self.reached[at], tail);
            pop_batch(&mut self.logs, at);
            return Err(e);
        }
        Ok(())
    }

    /// Why a batch can't be appended, if it can't.
    fn extend_refusal(&self, stream: u32, batch: &Batch) -> Option<ExtendError>
        requires first_stream { 1 ≤ stream }
        requires last_stream { stream ≤ length self.now }
        ensures { result ≡ extend_refusal self.now stream batch.now }
    {
        let last = last_of_lasts(&self.reached[stream as usize - 1]);
        order_refusal(last, first_of(batch))
    }

    /// The log of a stream, lent.
    pub fn log(&self, stream: u32) -> &Batches
        requires first_stream { 1 ≤ stream }
        requires last_stream { stream ≤ length self.now }
        ensures { result.now ≡ log_at self.now stream }
    {
        &self.logs[stream as usize - 1]
    }

    /// The items that the logs decide together: those of each epoch that every log has come to, as
    /// far as every log has come in it. They are sorted by stamp, and those of one stamp by stream.
    pub fn history(&self, alloc: Global) -> Result<Items, Memory>
        ensures history { IfOk result (λ items. items ≡ history self.now) }
        ensures rising { AllRise self.now }
    {
        copy_items(alloc, &self.history)
    }

    /// The same, lent.
    pub fn kept_history(&self) -> &Items
        ensures history { result.now ≡ history self.now }
        ensures in_order { IsInOrder result.now }
    {
        &self.history
    }

    /// How far the items of an epoch count: `Final` below the least top, `Rising` at it, and
    /// `Beyond` above it.
    pub fn bound(&self, epoch: u32) -> Bound
        ensures { result ≡ bound_of self.now epoch }
    {
        let top = self.mark.0;
        if epoch > top {
            Bound::Beyond
        } else if epoch < top {
            Bound::Final {
                seq: last_seq(&self.settled, epoch),
            }
        } else {
            Bound::Rising {
                seq: self.seq_at_top(),
            }
        }
    }

    /// How far all streams have come in the least top.
    fn seq_at_top(&self) -> u64
        ensures { result ≡ all_reached self.now (least_top self.now) }
    {
        if self.mark.0 == 0 {
            least_seq(&self.reached, 0)
        } else {
            self.mark.1
        }
    }

    /// The least top and how far every log has come in that epoch, and (0, 0) where the least top
    /// is 0.
    pub fn watermark(&self) -> (u32, u64)
        ensures { result ≡ watermark self.now }
    {
        self.mark
    }
}

fn order_refusal(last: Option<Stamp>, first: Option<Stamp>) -> Option<ExtendError>
    ensures { result ≡ order_refusal last first }
{
    match (last, first) {
        (Some(last), Some(got)) => {
            if is_below(last, got) {
                None
            } else {
                Some(ExtendError::Order { last, got })
            }
        }
        _ => None,
    }
}

/// Appends a batch to one of some logs, and takes its stamps up into the last ones of the stream;
/// answers how these ended before. After `Memory` nothing has changed.
fn push_noted(
    logs: &mut Vec<Batches>,
    reached: &mut Vec<Lasts>,
    at: usize,
    batch: Batch,
) -> Result<Option<Tail>, Memory>
    requires log { at < length logs.old.items }
    requires lasts { at < length reached.old.items }
    ensures logs { OnOk result (logs.new.items ≡ slice_set logs.old.items at (slice_index_or logs.old.items at [] ++ batch ∷ [])) }
    ensures lasts { OnOk result (reached.new.items ≡ slice_set reached.old.items at (all_noted (slice_index_or reached.old.items at []) (stamps_in_batch batch))) }
    ensures tail { let before = slice_index_or reached.old.items at [] in
        IfOk result (λ tail. LeadsBack tail (all_noted before (stamps_in_batch batch)) before) }
    ensures same_logs { OnErr result (logs.new.items ≡ logs.old.items) }
    ensures same_lasts { OnErr result (reached.new.items ≡ reached.old.items) }
{
    let tail = note_batch(&mut reached[at], &batch)?;
    if let Err(e) = push_batch(logs, at, batch) {
        roll_back(&mut reached[at], tail);
        return Err(e);
    }
    Ok(tail)
}

/// Appends a batch to one of some logs.
fn push_batch(logs: &mut Vec<Batches>, at: usize, batch: Batch) -> Result<(), Memory>
    requires { at < length logs.old.items }
    ensures ok { OnOk result (logs.new.items ≡ slice_set logs.old.items at (slice_index_or logs.old.items at [] ++ batch ∷ [])) }
    ensures err { OnErr result (logs.new.items ≡ logs.old.items) }
{
    let log = &mut logs[at];
    log.push(batch)
}

/// Takes the last batch of one of some logs away.
fn pop_batch(logs: &mut Vec<Batches>, at: usize)
    requires { at < length logs.old.items }
    ensures { (log : List Batch) (batch : Batch) → slice_index_or logs.old.items at [] ≡ log ++ batch ∷ []
        → logs.new.items ≡ slice_set logs.old.items at log }
{
    let log = &mut logs[at];
    log.pop();
}
