//! What a thread does: it makes the writes of one part.

ghost use Rattle.std.specs.Prelude.{◌≡◌, ℕ, ◌<◌, None, length};
ghost use Rattle.rl_shared_replay.specs.Calls.{AllSettled, IsPlanned, ItemPlanned, KeepsSettled, version_in};
ghost use Rattle.rl_shared_replay.specs.Jobs.{IsDone, IsReady};
ghost use Rattle.rl_shared_replay.specs.Start.{item_versions};
ghost use Rattle.rl_shared_replay.specs.Views.{Settled};

use crate::records::Records;
use crate::seat::Seat;
use crate::update::Update;
use rl_base::stamp::pack;
use rl_txn::item::{Item, Items};
use rl_txn::write::copy_row;
use std::sync::Wait;
use std::thread;

/// A thread's work: the items of one stream, and a seat.
#[derive(Drop)]
pub(crate) struct Job {
    pub(crate) seat: Seat,
    pub(crate) items: Items,
}

/// Makes the writes of all items of a job, or finds newer ones. It gives the seat back.
pub(crate) fn work<R: Wait>(rt: &R, records: &Records, job: Job) -> Seat
    requires { IsReady records.now job }
    ensures { IsDone records.now job result }
{
    let Job { mut seat, items } = job;
    for item in items.as_slice() {
        settle_item(rt, records, &mut seat, item);
    }
    seat
}

/// Makes the writes of an item, or finds newer ones.
fn settle_item<R: Wait>(rt: &R, records: &Records, seat: &mut Seat, item: &Item)
    requires table { seat.old.table ≡ records.now.table }
    requires planned { ItemPlanned records.now.made item.now }
    requires free { seat.old.view.held ≡ None }
    ensures table { seat.new.table ≡ seat.old.table }
    ensures free { seat.new.view.held ≡ None }
    ensures kept { KeepsSettled seat.old.view seat.new.view }
    ensures settled { AllSettled seat.new.view (item_versions records.now.made.sizes item.now) }
{
    let stamp = pack(item.stamp);
    for write in item.writes.as_slice() {
        let update = Update {
            rec: records.layout.record(write.table, write.key),
            stamp,
            row: copy_row(&write.row),
        };
        settle(rt, records, seat, &update);
    }
}

/// Makes one write, or finds a newer one. While the record is busy it is tried again.
fn settle<R: Wait>(rt: &R, records: &Records, seat: &mut Seat, update: &Update)
    requires table { seat.old.table ≡ records.now.table }
    requires record { update.now.rec < length records.now.made.columns }
    requires planned { IsPlanned records.now.made update.now }
    requires free { seat.old.view.held ≡ None }
    ensures table { seat.new.table ≡ seat.old.table }
    ensures free { seat.new.view.held ≡ None }
    ensures kept { KeepsSettled seat.old.view seat.new.view }
    ensures settled { Settled seat.new.view (version_in update.now) }
{
    for _ in rt.forever() {
        if records.try_update(seat, update) {
            return;
        }
        thread::yield_now();
    }
    unreachable!()
}
