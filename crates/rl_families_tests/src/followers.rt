//! A replica that follows a family: it plays each stream up to the watermark.

ghost use Rattle.std.specs.Prelude.{◌≡◌, ◌<◌, ◌≤◌, length, slice_set, take, IfOk, OnOk};
ghost use Rattle.rl_families.specs.Logs.{stamps_in_batch, IsRising};
ghost use Rattle.rl_replay.specs.Standing.{BeginsWithPlayed};
ghost use Rattle.rl_families_tests.specs.Follows.{Follows};

use crate::arrivals::Arrivals;
use rl_base::memory::Memory;
use rl_cut::family::{ExtendError, Family};
use rl_replay::laws::logs_grow;
use rl_replay::played::Played;
use rl_replay::replica::Replica;
use rl_txn::batch::Batch;
use rl_value::map::Map;
use rl_value::schema::Schema;
use std::alloc::Global;

/// A family without batches, and a replica that has played nothing. As many batches of each stream
/// are to be known.
pub fn new_pair(alloc: Global, streams: u32, known: u32) -> Result<(Family, Replica), Memory>
    ensures family { IfOk result (λ pair. length pair.0 ≡ streams) }
    ensures follows { IfOk result (λ pair. Follows known pair.1 pair.0) }
{
    let family = Family::new(alloc, streams)?;
    let schema = Schema::new(alloc);
    let replica = Replica::new(alloc, &schema, &Map::new(alloc), streams)?;
    Ok((family, replica))
}

/// Makes the next batches that arrive, and drops them. Answers how many they were.
pub fn made(alloc: Global, streams: u32, batches: u32) -> Result<usize, ExtendError>
    requires some { 0 < streams }
    requires few { streams ≤ 16 }
{
    let mut arrivals = Arrivals::new(alloc, streams, 1)?;
    for _batch in 0..batches {
        arrivals.next(alloc, 8, 500)?;
    }
    Ok(batches as usize)
}

/// Takes the next batches that arrive up into a family. Answers how many items its history has then.
pub fn grow(alloc: Global, streams: u32, batches: u32) -> Result<usize, ExtendError>
    requires some { 0 < streams }
    requires few { streams ≤ 16 }
{
    let mut family = Family::new(alloc, streams)?;
    let mut arrivals = Arrivals::new(alloc, streams, 1)?;
    for _batch in 0..batches {
        let (stream, batch) = arrivals.next(alloc, 8, 500)?;
        family.extend(stream, batch)?;
    }
    Ok(family.kept_history().len())
}

/// The same, and a replica plays up to the watermark after each batch. Answers how many rows it has
/// then.
pub fn grow_and_play(alloc: Global, streams: u32, batches: u32) -> Result<usize, ExtendError>
    requires some { 0 < streams }
    requires few { streams ≤ 16 }
{
    let (mut family, mut replica) = new_pair(alloc, streams, batches)?;
    let mut arrivals = Arrivals::new(alloc, streams, 1)?;
    for _batch in 0..batches {
        let (stream, batch) = arrivals.next(alloc, 8, 500)?;
        extend(&mut family, &replica, batches, stream, batch)?;
        play_all(alloc, &mut replica, &family, batches, streams)?;
    }
    Ok(replica.map().copy()?.into_list(alloc)?.len())
}

/// Takes a batch up into a family that a replica follows.
pub fn extend(
    family: &mut Family,
    replica: &Replica,
    known: u32,
    stream: u32,
    batch: Batch,
) -> Result<(), ExtendError>
    requires first_stream { 1 ≤ stream }
    requires last_stream { stream ≤ length family.old }
    requires rising { IsRising (stamps_in_batch batch) }
    requires follows { Follows known replica.now family.old }
    ensures streams { length family.new ≡ length family.old }
    ensures follows { OnOk result (Follows known replica.now family.new) }
{
    family.extend(stream, batch)?;
    logs_grow();
    Ok(())
}

/// Plays each stream up to the watermark.
pub fn play_all(
    alloc: Global,
    replica: &mut Replica,
    family: &Family,
    known: u32,
    streams: u32,
) -> Result<(), Memory>
    requires streams { streams ≡ length family.now }
    requires follows { Follows known replica.old family.now }
    ensures { Follows known replica.new family.now }
{
    for before in 0..streams {
        play_stream(alloc, replica, family, known, before + 1)?;
    }
    Ok(())
}

/// Plays a stream up to the watermark.
pub fn play_stream(
    alloc: Global,
    replica: &mut Replica,
    family: &Family,
    known: u32,
    stream: u32,
) -> Result<(), Memory>
    requires first_stream { 1 ≤ stream }
    requires last_stream { stream ≤ length family.now }
    requires follows { Follows known replica.old family.now }
    ensures { Follows known replica.new family.now }
{
    for _entry in 0..u64::MAX {
        if !goes_on(play_next(alloc, replica, family, known, stream)?) {
            return Ok(());
        }
    }
    Ok(())
}

/// Plays the next entry of a stream, with the family's watermark and the bound of the entry's epoch: any where there is none.
pub fn play_next(
    alloc: Global,
    replica: &mut Replica,
    family: &Family,
    known: u32,
    stream: u32,
) -> Result<Played, Memory>
    requires first_stream { 1 ≤ stream }
    requires last_stream { stream ≤ length family.now }
    requires follows { Follows known replica.old family.now }
    ensures { Follows known replica.new family.now }
{
    let log = family.log(stream);
    let epoch = replica.next_epoch_of(stream, log, known).unwrap_or(0);
    let (_, seq) = family.watermark();
    replica.play(alloc, stream, log, known, family.bound(epoch), seq)
}

/// Whether an entry was played that another may follow.
fn goes_on(played: Played) -> bool {
    matches!(
        played,
        Played::Applied { stamp: _ } | Played::Passed { stamp: _ }
    )
}
