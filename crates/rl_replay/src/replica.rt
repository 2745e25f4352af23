//! A replica of the store.

ghost use Rattle.std.specs.Prelude.{◌≡◌, ◌≢◌, ℕ, ◌+◌, ◌-◌, ◌^◌, ◌<◌, ◌≤◌, List, [], false, true, length, take, replicate, slice_get, slice_index, slice_set, All, ◌∷◌, ◌++◌, Some, None, IsSomeAnd, IfSome, MatchOption, IfOk, OnOk, OnErr, IsErr, IsTrue, ◌↔◌};
ghost use Rattle.std.specs.Option.{option_map};
ghost use Rattle.rl_value.specs.Rows.{Rows};
ghost use Rattle.rl_txn.specs.Serial.{after_writes};
ghost use Rattle.rl_txn.specs.declared.batch.Batch.{Batch};
ghost use Rattle.rl_families.specs.Order.{IsInOrder};
ghost use Rattle.rl_replay.specs.Replay.{newest_writes, HasStamp, next_entry, item_answer, play_answer, after_answer, IsReplay, HasFailed, HaveSameStamps, IsSameSet, StampsIdentify};
ghost use Rattle.rl_replay.specs.Standing.{BeginsWithPlayed};
ghost use Rattle.rl_replay.specs.Steps.{gone_on, standing_after};
ghost use Rattle.rl_replay.specs.Entries.{entries_of, item_entry, mark_entry};
ghost use Rattle.rl_replay.specs.Cursors.{next_cursor, FitsCursor, IsEntryAt};

use crate::cursor::{Cursor, find};
use crate::newest::{Newest, apply_newest};
use crate::played::Played;
use rl_base::bound::Bound;
use rl_base::memory::Memory;
use rl_base::stamp::{Stamp, is_below};
use rl_txn::batch::{Batch, Batches};
use rl_txn::item::{Item, Items};
use rl_value::map::Map;
use rl_value::schema::Schema;
use std::alloc::Global;
use std::collections::BTreeSet;
use std::marker::Model;

/// What a replica has of the streams. Contracts see what it has applied and played, its rows, and
/// where it stands in each stream's log.
#[derive(Drop)]
pub struct Replica {
    map: Map,
    newest: Newest,
    applied: Vec<Item>,
    stamps: BTreeSet<(u32, u64)>,
    played: Vec<u128>,
    cursors: Vec<Cursor>,
    failed: bool,
}

impl Model for Replica {
    ghost use Rattle.rl_replay.specs.Standing.{StandingReplica};
    ghost use Rattle.rl_replay.specs.Kept.{IsKept};
    ghost use Rattle.std.specs.Coded.{codes};
    ghost use Rattle.rl_replay.specs.Codes.{rows_code};

    ghost Value = { StandingReplica };

    ghost coded = { Prim.hlevel (codes, rows_code) };

    ghost view = { λ r. record {
      replaying = record {
        applied = r.applied.items;
        played = r.played.items;
        rows = r.map;
        failed = r.failed;
      };
      cursors = r.cursors.items;
    } };

    ghost invariant = { IsKept };
}

impl Replica {
    /// A replica of the opening rows, which are of the schema, that has played nothing of streams 1
    /// to `streams`. Every log begins with what it has played.
    pub fn new(
        alloc: Global,
        _schema: &Schema,
        opening: &Map,
        streams: u32,
    ) -> Result<Replica, Memory>
        ensures replaying { IfOk result (λ replica. replica.replaying ≡ record {
          applied = [];
          played = replicate streams 0;
          rows = opening.now;
          failed = false;
        }) }
        ensures begins { (s : ℕ) (log : List Batch) → 1 ≤ s → s ≤ streams
            → IfOk result (λ replica. BeginsWithPlayed replica s log) }
    {
        let mut played = Vec::with_capacity(alloc, streams as usize)?;
        let mut cursors = Vec::with_capacity(alloc, streams as usize)?;
        for _stream in 0..streams {
            played.push(0)?;
            cursors.push(Cursor { batch: 0, index: 0 })?;
        }
        Ok(Replica {
            map: opening.copy()?,
            newest: Newest::new(alloc),
            applied: Vec::new(alloc),
            stamps: BTreeSet::new(alloc),
            played,
            cursors,
            failed: false,
        })
    }

    /// The rows.
    pub fn map(&self) -> &Map
        ensures { result.now ≡ self.now.replaying.rows }
    {
        &self.map
    }

    /// The epoch of the next entry of a stream, in the first `known` batches of its log, or in all
    /// where it has fewer; none where these are played out. They begin with what was played.
    pub fn next_epoch_of(&self, stream: u32, log: &Batches, known: u32) -> Option<u32>
        requires first_stream { 1 ≤ stream }
        requires last_stream { stream ≤ length self.now.replaying.played }
        requires begins { BeginsWithPlayed self.now stream (take known log.now) }
        ensures { result
            ≡ option_map (λ e. e.stamp.epoch)
            (next_entry self.now.replaying stream (take known log.now)) }
    {
        let known = first_batches(log, known);
        let (batch, at) = self.next(stream, known)?;
        Some(epoch_at(batch, at.index))
    }

    /// The batch of the next entry of a stream, and where the entry stands; none where the known
    /// batches are played out.
    fn next<'a>(&self, stream: u32, known: &'a [Batch]) -> Option<(&'a Batch, Cursor)>
        requires first_stream { 1 ≤ stream }
        requires last_stream { stream ≤ length self.now.replaying.played }
        requires begins { BeginsWithPlayed self.now stream known.now }
        ensures found { let n = slice_index self.now.replaying.played (stream - 1) in
            MatchOption result (next_entry self.now.replaying stream known.now ≡ None)
            (λ found. IsEntryAt known.now n found.0.now found.1) }
        ensures fits { let n = slice_index self.now.replaying.played (stream - 1) in
            IfSome result (λ found. FitsCursor n found.1) }
        ensures room { IfSome result (λ found. found.1.index + 1 < 2 ^ 64) }
    {
        let at = self.cursors[stream as usize - 1];
        find(known, at)
    }

    /// Plays the next entry of a stream, in the first `known` batches of its log, or in all where it
    /// has fewer, with the bound of the entry's epoch and the seq of the watermark. The batches
    /// begin with what was played, and still do after it.
    ///
    /// `Memory` leaves the applied items and the cursors as they were. A prefix of the writes of an
    /// item that was to be applied may stand in the rows then; every later `play` answers `Memory`
    /// and changes nothing.
    pub fn play(
        &mut self,
        alloc: Global,
        stream: u32,
        log: &Batches,
        known: u32,
        bound: Bound,
        watermark: u64,
    ) -> Result<Played, Memory>
        requires first_stream { 1 ≤ stream }
        requires last_stream { stream ≤ length self.old.replaying.played }
        requires begins { BeginsWithPlayed self.old stream (take known log.now) }
        ensures answer { let next = next_entry self.old.replaying stream (take known log.now) in
            IfOk result (λ p. p ≡ play_answer next bound watermark) }
        ensures state { let next = next_entry self.old.replaying stream (take known log.now) in
            IfOk result (λ p. self.new.replaying ≡ after_answer self.old.replaying stream next p) }
        ensures streams { length self.new.replaying.played ≡ length self.old.replaying.played }
        ensures begins { BeginsWithPlayed self.new stream (take known log.now) }
        ensures others { (t : ℕ) (other : List Batch) → t ≢ stream → 1 ≤ t
            → BeginsWithPlayed self.old t other → BeginsWithPlayed self.new t other }
        ensures replay { (opening : Rows) → IsReplay opening self.old.replaying
            → OnOk result (IsReplay opening self.new.replaying) }
        ensures err { let next = next_entry self.old.replaying stream (take known log.now) in
            OnErr result (HasFailed (play_answer next bound watermark) next
            self.old.replaying self.new.replaying) }
        ensures stays_failed { self.old.replaying.failed ≡ true → IsErr result }
        ensures failed_is_kept { self.old.replaying.failed ≡ true → self.new ≡ self.old }
    {
        if self.failed {
            return Err(Memory);
        }
        let known = first_batches(log, known);
        match self.next(stream, known) {
            Some((batch, at)) => self.play_at(alloc, stream, batch, at, bound, watermark),
            None => Ok(Played::Empty),
        }
    }

    /// Plays an entry of a batch.
    fn play_at(
        &mut self,
        alloc: Global,
        stream: u32,
        batch: &Batch,
        at: Cursor,
        bound: Bound,
        watermark: u64,
    ) -> Result<Played, Memory>
        requires first_stream { 1 ≤ stream }
        requires last_stream { stream ≤ length self.old.replaying.played }
        requires fits { FitsCursor (slice_index self.old.replaying.played (stream - 1)) at }
        requires room { at.index + 1 < 2 ^ 64 }
        requires working { self.old.replaying.failed ≡ false }
        requires index { at.index < length (entries_of batch.now) }
        ensures answer { IfOk result (λ p. p ≡ play_answer (slice_get (entries_of batch.now) at.index) bound watermark) }
        ensures state { let next = slice_get (entries_of batch.now) at.index in
            IfOk result (λ p. self.new ≡ standing_after self.old stream next p (next_cursor at)) }
        ensures err { let next = slice_get (entries_of batch.now) at.index in
            OnErr result (HasFailed (play_answer next bound watermark) next
            self.old.replaying self.new.replaying) }
        ensures stands { OnErr result (self.new.cursors ≡ self.old.cursors) }
    {
        match batch {
            Batch::Items(items) => {
                self.play_item(alloc, stream, items.get(at.index), at, bound, watermark)
            }
            Batch::Idle(stamp) => Ok(self.skip(stream, at, *stamp)),
            Batch::Opened(stamp) => Ok(self.skip(stream, at, *stamp)),
        }
    }

    fn play_item(
        &mut self,
        alloc: Global,
        stream: u32,
        item: &Item,
        at: Cursor,
        bound: Bound,
        watermark: u64,
    ) -> Result<Played, Memory>
        requires first_stream { 1 ≤ stream }
        requires last_stream { stream ≤ length self.old.replaying.played }
        requires fits { FitsCursor (slice_index self.old.replaying.played (stream - 1)) at }
        requires room { at.index + 1 < 2 ^ 64 }
        requires working { self.old.replaying.failed ≡ false }
        ensures answer { IfOk result (λ p. p ≡ item_answer item.now.stamp bound watermark) }
        ensures state { let next = Some (item_entry item.now) in
            IfOk result (λ p. self.new ≡ standing_after self.old stream next p (next_cursor at)) }
        ensures err { let next = Some (item_entry item.now) in
            OnErr result (HasFailed (item_answer item.now.stamp bound watermark) next
            self.old.replaying self.new.replaying) }
        ensures stands { OnErr result (self.new.cursors ≡ self.old.cursors) }
    {
        match answer_item(item.stamp, bound, watermark) {
            Played::Applied { stamp } => self.apply(alloc, stream, item, at),
            Played::Passed { stamp } => Ok(self.skip(stream, at, stamp)),
            Played::Above { next, watermark } => Ok(Played::Above { next, watermark }),
            Played::Empty => Ok(Played::Empty),
        }
    }

    /// Applies an item.
    fn apply(
        &mut self,
        alloc: Global,
        stream: u32,
        item: &Item,
        at: Cursor,
    ) -> Result<Played, Memory>
        requires first_stream { 1 ≤ stream }
        requires last_stream { stream ≤ length self.old.replaying.played }
        requires fits { FitsCursor (slice_index self.old.replaying.played (stream - 1)) at }
        requires room { at.index + 1 < 2 ^ 64 }
        requires working { self.old.replaying.failed ≡ false }
        ensures answer { IfOk result (λ p. p ≡ Played.Applied item.now.stamp) }
        ensures state { let next = Some (item_entry item.now) in
            OnOk result (self.new
            ≡ standing_after self.old stream next (Played.Applied item.now.stamp) (next_cursor at)) }
        ensures err { let next = Some (item_entry item.now) in
            OnErr result (HasFailed (Played.Applied item.now.stamp) next
            self.old.replaying self.new.replaying) }
        ensures stands { OnErr result (self.new.cursors ≡ self.old.cursors) }
    {
        self.keep(alloc, item)?;
        self.advance(stream, at);
        Ok(Played::Applied { stamp: item.stamp })
    }

    /// Keeps an item and makes its writes.
    fn keep(&mut self, alloc: Global, item: &Item) -> Result<(), Memory>
        requires { self.old.replaying.failed ≡ false }
        ensures kept { OnOk result (self.new ≡ record self.old {
          replaying = record self.old.replaying {
            applied = self.old.replaying.applied ++ item.now ∷ [];
            rows = after_writes self.old.replaying.rows
                (newest_writes self.old.replaying.applied item.now);
          };
        }) }
        ensures err { let next = Some (item_entry item.now) in
            OnErr result (HasFailed (Played.Applied item.now.stamp) next
            self.old.replaying self.new.replaying) }
        ensures stands { OnErr result (self.new.cursors ≡ self.old.cursors) }
    {
        self.failed = true;
        let kept = item.copy(alloc)?;
        self.applied.reserve(1)?;
        apply_newest(&mut self.map, &mut self.newest, item)?;
        self.stamps.insert((item.stamp.epoch, item.stamp.seq))?;
        self.applied.push_reserved(kept);
        self.failed = false;
        Ok(())
    }

    /// Skips an entry.
    fn skip(&mut self, stream: u32, at: Cursor, stamp: Stamp) -> Played
        requires first_stream { 1 ≤ stream }
        requires last_stream { stream ≤ length self.old.replaying.played }
        requires fits { FitsCursor (slice_index self.old.replaying.played (stream - 1)) at }
        requires room { at.index + 1 < 2 ^ 64 }
        ensures answer { result ≡ Played.Passed stamp }
        ensures state { self.new ≡ gone_on self.old stream (next_cursor at) }
    {
        self.advance(stream, at);
        Played::Passed { stamp }
    }

    /// Goes on behind the entry at a cursor.
    fn advance(&mut self, stream: u32, at: Cursor)
        requires first_stream { 1 ≤ stream }
        requires last_stream { stream ≤ length self.old.replaying.played }
        requires fits { FitsCursor (slice_index self.old.replaying.played (stream - 1)) at }
        requires room { at.index + 1 < 2 ^ 64 }
        ensures { self.new ≡ gone_on self.old stream (next_cursor at) }
    {
        let stream = stream as usize - 1;
        self.played[stream] += 1;
        self.cursors[stream] = Cursor {
            batch: at.batch,
            index: at.index + 1,
        };
    }

    /// Whether every item of a history was applied, and no other, told by their stamps. It is fast
    /// where the history is in the order of its stamps.
    pub fn at_watermark(&self, history: &Items) -> bool
        ensures stamps { IsTrue result ↔ HaveSameStamps self.now.replaying.applied history.now }
        ensures items { StampsIdentify self.now.replaying.applied history.now
            → (IsTrue result ↔ IsSameSet history.now self.now.replaying.applied) }
    {
        self.has_same_stamps(history.as_slice())
    }

    /// Whether each of some items was applied, and no other, told by their stamps.
    fn has_same_stamps(&self, items: &[Item]) -> bool
        ensures { IsTrue result ↔ HaveSameStamps self.now.replaying.applied items.now }
    {
        self.has_applied(items) && are_among(&self.applied, items)
    }

    /// Whether each of some items has the stamp of one that was applied.
    fn has_applied(&self, items: &[Item]) -> bool
        ensures { IsTrue result ↔ All (λ x. HasStamp self.now.replaying.applied x.stamp) items.now }
    {
        for item in items {
            if !self.stamps.contains(&(item.stamp.epoch, item.stamp.seq)) {
                return false;
            }
        }
        true
    }
}

/// What becomes of an item.
fn answer_item(stamp: Stamp, bound: Bound, watermark: u64) -> Played
    ensures { result ≡ item_answer stamp bound watermark }
{
    match bound {
        Bound::Final { seq } if stamp.seq <= seq => Played::Applied { stamp },
        Bound::Final { seq: _ } => Played::Passed { stamp },
        Bound::Rising { seq: _ } if stamp.seq <= watermark => Played::Applied { stamp },
        _ => Played::Above {
            next: stamp,
            watermark,
        },
    }
}

/// Whether each of some items has the stamp of one of the others.
fn are_among(items: &[Item], others: &[Item]) -> bool
    ensures { IsTrue result ↔ All (λ x. HasStamp others.now x.stamp) items.now }
{
    let sorted = are_in_order(others);
    for item in items {
        if !stands_among(others, sorted, item.stamp) {
            return false;
        }
    }
    true
}

/// Whether no item has a stamp below that of one before it.
fn are_in_order(items: &[Item]) -> bool
    ensures { IsTrue result → IsInOrder items.now }
{
    for i in 1..items.len() {
        if is_below(items[i].stamp, items[i - 1].stamp) {
            return false;
        }
    }
    true
}

/// Whether one of some items, which may be sorted, has a stamp.
fn stands_among(items: &[Item], sorted: bool, stamp: Stamp) -> bool
    requires { IsTrue sorted → IsInOrder items.now }
    ensures { IsTrue result ↔ HasStamp items.now stamp }
{
    if sorted {
        has_stamp(items, stamp)
    } else {
        some_has_stamp(items, stamp)
    }
}

/// Whether one of some items has a stamp.
fn some_has_stamp(items: &[Item], stamp: Stamp) -> bool
    ensures { IsTrue result ↔ HasStamp items.now stamp }
{
    items.iter().any(|item| item.stamp.epoch == stamp.epoch && item.stamp.seq == stamp.seq)
}

/// Whether one of some items in order has a stamp.
fn has_stamp(items: &[Item], stamp: Stamp) -> bool
    requires { IsInOrder items.now }
    ensures { IsTrue result ↔ HasStamp items.now stamp }
{
    let at = items.partition_point(|item| is_below(item.stamp, stamp));
    match items.get(at) {
        Some(item) => item.stamp.epoch == stamp.epoch && item.stamp.seq == stamp.seq,
        None => false,
    }
}

/// The first batches of a log: all, where it has no more.
fn first_batches(log: &Batches, count: u32) -> &[Batch]
    ensures { result.now ≡ take count log.now }
{
    let count = log.len().min(count as usize);
    &log.as_slice()[..count]
}

/// The epoch of an entry of a batch.
fn epoch_at(batch: &Batch, index: usize) -> u32
    requires { index < length (entries_of batch.now) }
    ensures { IsSomeAnd (slice_get (entries_of batch.now) index) (λ e. result ≡ e.stamp.epoch) }
{
    match batch {
        Batch::Items(items) => items.get(index).stamp.epoch,
        Batch::Idle(stamp) => stamp.epoch,
        Batch::Opened(stamp) => stamp.epoch,
    }
}
