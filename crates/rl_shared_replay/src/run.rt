//! All threads of a replay.

ghost use Rattle.std.specs.Prelude.{◌≡◌, All, None, IfOk};
ghost use Rattle.rl_shared_replay.specs.Calls.{ItemPlanned};
ghost use Rattle.rl_shared_replay.specs.Jobs.{AllDone, AllReady, IsDone, IsReady, SeesAll};

use crate::parts::Parts;
use crate::records::Records;
use crate::seat::Seat;
use crate::work::{Job, work};
use rl_base::memory::Memory;
use std::alloc::Global;
use std::sync::Wait;
use std::thread;
use std::thread::Threads;

/// A job for each part, with a seat of its own.
pub(crate) fn hand_out(
    alloc: Global,
    records: &Records,
    seat: &mut Seat,
    parts: Parts,
) -> Result<Vec<Job>, Memory>
    requires table { seat.old.table ≡ records.now.table }
    requires planned { All (All (ItemPlanned records.now.made)) parts }
    ensures unchanged { seat.new ≡ seat.old }
    ensures ready { IfOk result (λ jobs. AllReady records.now parts jobs.items) }
{
    let mut jobs = Vec::with_capacity(alloc, parts.len())?;
    for items in parts.into_vec() {
        jobs.push(Job {
            seat: seat.split(records),
            items,
        })?;
    }
    Ok(jobs)
}

/// Runs each job in a thread of its own. Where a thread can't be started, the caller does its job.
pub(crate) fn run_all<R: Threads + Wait + Sync>(
    rt: &R,
    records: &Records,
    jobs: Vec<Job>,
) -> Result<Vec<Seat>, Memory>
    requires { All (IsReady records.now) jobs.items }
    ensures { IfOk result (λ seats. AllDone records.now jobs.items seats.items) }
{
    let seats = thread::map_vec(
        rt,
        jobs,
        &|job: Job| -> Seat
            requires { IsReady records.now job }
            ensures { IsDone records.entry.now job result }
        { work(rt, records, job) },
    )?;
    Ok(seats)
}

/// The first seat takes in all others.
pub(crate) fn join_all(records: &Records, mut seat: Seat, seats: Vec<Seat>) -> Seat
    requires table { seat.table ≡ records.now.table }
    requires tables { All (λ s. s.table ≡ records.now.table) seats.items }
    requires free { All (λ s. s.view.held ≡ None) seats.items }
    ensures table { result.table ≡ records.now.table }
    ensures seen { SeesAll result.view seats.items }
{
    for other in seats {
        seat.join(records, other);
    }
    seat
}
