//! Two streams, published and read in one thread, and in one thread for each.

ghost use Rattle.std.specs.Prelude.{◌≡◌, ◌+◌, IfOk};
ghost use Rattle.rl_progress.specs.Rule.{IsPublisher};

use crate::progress::Progress;
use crate::seat::Seat;
use rl_base::memory::Memory;
use std::alloc::Global;
use std::test::Fail;
use std::thread::{Threads, join};

/// The progress of two streams, and their seats.
fn two_streams(alloc: Global) -> Result<(Progress, Seat, Seat), Memory>
    ensures tables { IfOk result (λ made. (made.1.table ≡ made.0) × (made.2.table ≡ made.0)) }
    ensures publish { IfOk result (λ made. IsPublisher made.1.view × IsPublisher made.2.view) }
    ensures nothing { IfOk result (λ made. (made.1.view.last ≡ 0) × (made.2.view.last ≡ 0)) }
{
    let (progress, seats) = Progress::make(alloc, 2)?;
    let mut seats = seats.into_vec();
    match (seats.pop(), seats.pop()) {
        (Some(second), Some(first)) => Ok((progress, first, second)),
        _ => Err(Memory),
    }
}

#[test]
fn watermark_is_the_least(rt: HostRuntime) -> Result<(), Fail> {
    let (progress, mut first, mut second) = two_streams(rt.alloc())?;
    let mut reader = first.split(&progress);
    progress.publish(&mut first, 5);
    assert_eq!(rt; progress.watermark(&mut first), 0);
    progress.publish(&mut second, 3);
    assert_eq!(rt; progress.watermark(&mut reader), 3);
    second.join(&progress, reader);
    assert_eq!(rt; progress.watermark(&mut second), 3);
    Ok(())
}

/// Publishes the seqs up to 1000, each after a look at the watermark. True where the watermark never fell.
fn publish_all(progress: &Progress, mut seat: Seat) -> (Seat, bool)
    requires table { seat.table ≡ progress.now }
    requires publishes { IsPublisher seat.view }
    requires nothing { seat.view.last ≡ 0 }
    ensures { result.0.table ≡ progress.now }
{
    let mut least = 0;
    let mut rose = true;
    for seq in 0..1000 {
        let found = progress.watermark(&mut seat);
        rose = rose && least <= found && found <= 1000;
        least = found;
        progress.publish(&mut seat, seq + 1);
    }
    (seat, rose)
}

/// Both streams in threads of their own. True where neither saw the watermark fall, and it is 1000 at the end.
fn published_by_two<R: Threads + Sync>(rt: &R, alloc: Global) -> Result<bool, Memory> {
    let (progress, first, second) = two_streams(alloc)?;
    let shared = &progress;
    let ((mut first, one), (_second, two)) = join(
        rt,
        move || -> (Seat, bool)
            requires { (first.table ≡ shared.now) × IsPublisher first.view × (first.view.last ≡ 0) }
            ensures { result.0.table ≡ shared.entry.now }
        { publish_all(shared, first) },
        move || -> (Seat, bool)
            requires { (second.table ≡ shared.now) × IsPublisher second.view × (second.view.last ≡ 0) }
            ensures { result.0.table ≡ shared.entry.now }
        { publish_all(shared, second) },
    );
    Ok(one && two && progress.watermark(&mut first) == 1000)
}

#[test]
fn two_threads_publish(rt: HostRuntime) -> Result<(), Fail> {
    assert!(rt; published_by_two(&rt, rt.alloc())?);
    Ok(())
}
