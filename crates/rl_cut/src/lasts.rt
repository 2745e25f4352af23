//! How far streams have come: the last stamp of each epoch of each.

ghost use Rattle.std.specs.Prelude.{◌≡◌, List, Option, All, take, map, IfOk, OnOk, OnErr};
ghost use Rattle.rl_base.specs.declared.stamp.Stamp.{Stamp};
ghost use Rattle.rl_families.specs.Logs.{stamps_in_batch, last_stamp, last_seq_among};
ghost use Rattle.rl_cut.specs.Kept.{AreByEpoch, last_epoch, least_epoch, least_seq, mark_of};
ghost use Rattle.rl_cut.specs.declared.lasts.Tail.{Tail};
ghost use Rattle.rl_cut.specs.Lasts.{noted, all_noted, tail_of, rolled_back, IsWithin, LeadsBack};

use rl_base::list::Seq;
use rl_base::memory::Memory;
use rl_base::stamp::Stamp;
use rl_txn::batch::Batch;
use rl_txn::item::Item;

/// The last stamp of each epoch of a stream, by rising epoch.
pub type Lasts = Seq<Stamp>;

/// How many stamps there are, and the last of them.
#[derive(Clone, Copy)]
pub struct Tail {
    pub count: usize,
    pub last: Stamp,
}

/// Takes the stamps of a batch up into the last stamps of its stream, and answers how these ended
/// before. After `Memory` they are unchanged.
pub fn note_batch(lasts: &mut Lasts, batch: &Batch) -> Result<Option<Tail>, Memory>
    ensures ok { OnOk result (lasts.new ≡ all_noted lasts.old (stamps_in_batch batch.now)) }
    ensures tail { IfOk result (λ tail. LeadsBack tail lasts.new lasts.old) }
    ensures err { OnErr result (lasts.new ≡ lasts.old) }
{
    let tail = tail_of(lasts);
    if let Err(e) = note_all(lasts, batch) {
        roll_back(lasts, tail);
        return Err(e);
    }
    Ok(tail)
}

/// Puts last stamps back that ended so.
pub fn roll_back(lasts: &mut Lasts, tail: Option<Tail>)
    requires { IsWithin tail lasts.old }
    ensures { lasts.new ≡ rolled_back tail lasts.old }
{
    match tail {
        Some(tail) => {
            lasts.replace(tail.count - 1, tail.last);
            cut_to(lasts, tail.count);
        }
        None => cut_to(lasts, 0),
    }
}

/// Keeps the first of some stamps alone.
fn cut_to(stamps: &mut Seq<Stamp>, len: usize)
    ensures { stamps.new ≡ take len stamps.old }
{
    while len < stamps.len() {
        stamps.pop();
    }
}

/// How last stamps end, where there are any.
fn tail_of(lasts: &Lasts) -> Option<Tail>
    ensures { result ≡ tail_of lasts.now }
{
    let last = last_of_lasts(lasts)?;
    Some(Tail {
        count: lasts.len(),
        last,
    })
}

fn note_all(lasts: &mut Lasts, batch: &Batch) -> Result<(), Memory>
    ensures ok { OnOk result (lasts.new ≡ all_noted lasts.old (stamps_in_batch batch.now)) }
    ensures back { (tail : Option Tail) (before : List Stamp)
        → LeadsBack tail lasts.old before → LeadsBack tail lasts.new before }
{
    match batch {
        Batch::Items(items) => note_items(lasts, items.as_slice()),
        Batch::Idle(stamp) => note(lasts, *stamp),
        Batch::Opened(stamp) => note(lasts, *stamp),
    }
}

fn note_items(lasts: &mut Lasts, items: &[Item]) -> Result<(), Memory>
    ensures ok { OnOk result (lasts.new ≡ all_noted lasts.old (map (λ x. x.stamp) items.now)) }
    ensures back { (tail : Option Tail) (before : List Stamp)
        → LeadsBack tail lasts.old before → LeadsBack tail lasts.new before }
{
    for item in items {
        note(lasts, item.stamp)?;
    }
    Ok(())
}

/// Makes a stamp the last one, in place of one of the same epoch.
fn note(lasts: &mut Lasts, stamp: Stamp) -> Result<(), Memory>
    ensures ok { OnOk result (lasts.new ≡ noted lasts.old stamp) }
    ensures back { (tail : Option Tail) (before : List Stamp)
        → LeadsBack tail lasts.old before → LeadsBack tail lasts.new before }
{
    match tail_of(lasts) {
        Some(tail) if tail.last.epoch == stamp.epoch => {
            lasts.replace(tail.count - 1, stamp);
            Ok(())
        }
        _ => lasts.push(stamp),
    }
}

/// The last stamp of a stream.
pub fn last_of_lasts(lasts: &Lasts) -> Option<Stamp>
    ensures { result ≡ last_stamp lasts.now }
{
    lasts.as_slice().last().copied()
}

fn last_epoch(lasts: &Lasts) -> u32
    ensures { result ≡ last_epoch lasts.now }
{
    last_of_lasts(lasts).map_or(0, |stamp| stamp.epoch)
}

/// The greatest seq of an epoch, or 0.
pub fn last_seq(stamps: &[Stamp], epoch: u32) -> u64
    requires { AreByEpoch stamps.now }
    ensures { result ≡ last_seq_among stamps.now epoch }
{
    let at = stamps.partition_point(|stamp| stamp.epoch < epoch);
    match stamps.get(at) {
        Some(stamp) if stamp.epoch == epoch => stamp.seq,
        _ => 0,
    }
}

/// The epoch that all streams have come to.
pub fn least_epoch(reached: &[Lasts]) -> u32
    ensures { result ≡ least_epoch reached.now }
{
    let mut least = None;
    for lasts in reached {
        let top = last_epoch(lasts);
        least = Some(least.map_or(top, |found: u32| found.min(top)));
    }
    least.unwrap_or(0)
}

/// How far all streams have come in an epoch.
pub fn least_seq(reached: &[Lasts], epoch: u32) -> u64
    requires { All AreByEpoch reached.now }
    ensures { result ≡ least_seq reached.now epoch }
{
    let mut least = None;
    for lasts in reached {
        let last = last_seq(lasts.as_slice(), epoch);
        least = Some(least.map_or(last, |found: u64| found.min(last)));
    }
    least.unwrap_or(0)
}

/// The watermark of streams that have come so far.
pub fn mark_of(reached: &[Lasts]) -> (u32, u64)
    requires { All AreByEpoch reached.now }
    ensures { result ≡ mark_of reached.now }
{
    let top = least_epoch(reached);
    if top == 0 {
        (0, 0)
    } else {
        (top, least_seq(reached, top))
    }
}
