//! How a leader opens, and what it releases then.

ghost use Rattle.std.specs.Prelude.{◌≡◌, ◌+◌, ◌-◌, ◌<◌, ◌^◌, length, drop, IfOk, OnOk};
ghost use Rattle.rl_txn.specs.Serial.{rows_after, indexes_of};
ghost use Rattle.rl_nodes.specs.Openings.{next_request};
ghost use Rattle.rl_nodes.specs.Setups.{SetupFits};
ghost use Rattle.rl_node.specs.Fits.{IsEpoch, LeadFits};
ghost use Rattle.rl_node.specs.Opening.{MayOpen, AreAtRest, AreOpening, HasOpened, out_of_opening};
ghost use Rattle.rl_node.specs.SetupOf.{setup_of};
ghost use Rattle.rl_node.specs.Standing.{HasNotOpened};

use crate::answer::{Opened, Out, Sends};
use crate::laws::openings;
use crate::part::{Lead, Works};
use crate::setup::Setup;
use rl_base::memory::Memory;
use rl_tables::layout::Layout;
use rl_txn::batch::copy_items;
use rl_txn::item::{Item, Items, apply};
use rl_value::map::Map;
use rl_worker::opening::opening_stamps;
use rl_worker::words::Words;
use rl_worker::worker::Worker;
use std::alloc::Global;

impl Lead {
    /// Opens with the history of what is acknowledged, and releases that. `Memory`.
    pub(crate) fn open_epoch(
        &mut self,
        alloc: Global,
        setup: &Setup,
        sends: Sends,
    ) -> Result<Out, Memory>
        requires setup { SetupFits (setup_of setup.now) }
        requires fits { LeadFits (setup_of setup.now) self.old }
        requires closed { HasNotOpened (setup_of setup.now) self.old }
        ensures opened { OnOk result (HasOpened (setup_of setup.now) self.old self.new) }
        ensures out { IfOk result (λ out. out ≡ out_of_opening self.old sends) }
    {
        let items = copy_items(alloc, self.acknowledged.kept_history())?;
        self.works = Some(Works::new(alloc, setup, self.epoch, &items)?);
        let opened = Opened {
            epoch: self.epoch,
            count: items.len() as u32,
        };
        Ok(Out {
            sends,
            opened: Some(opened),
            denied: None,
            released: items,
        })
    }
}

impl Works {
    /// The records and the workers of an epoch that opens with some items.
    fn new(alloc: Global, setup: &Setup, epoch: u32, items: &Items) -> Result<Works, Memory>
        requires setup { SetupFits (setup_of setup.now) }
        requires epoch { IsEpoch epoch }
        requires items { MayOpen (setup_of setup.now) epoch items.now }
        ensures { IfOk result (AreOpening (setup_of setup.now) epoch items.now) }
    {
        openings();
        let layout = Layout::new(alloc, &setup.schema)?;
        let rows = rows_after(&setup.opening, items.as_slice())?;
        let stamps = opening_stamps(alloc, &layout, items)?;
        let words = Words::at(alloc, &layout, &setup.schema, &rows, &stamps)?;
        let workers = workers_at_rest(alloc, setup, epoch, items)?;
        Ok(Works {
            layout,
            words,
            workers,
        })
    }
}

/// The workers of an epoch that opens with some items, each at rest before its next request.
fn workers_at_rest(
    alloc: Global,
    setup: &Setup,
    epoch: u32,
    items: &Items,
) -> Result<Vec<Worker>, Memory>
    requires setup { SetupFits (setup_of setup.now) }
    requires epoch { IsEpoch epoch }
    requires few { length items.now < 2 ^ 32 - 1 }
    ensures { let setup = setup_of setup.now in
        IfOk result (λ workers. AreAtRest setup epoch setup.workers items.now workers.items) }
{
    let mut workers = Vec::with_capacity(alloc, setup.workers as usize)?;
    for before in 0..setup.workers {
        let worker = before + 1;
        let next = next_request(items.as_slice(), worker);
        workers.push(Worker::new(worker, epoch, next))?;
    }
    Ok(workers)
}

/// The items of a list from some one on.
pub fn copy_from(alloc: Global, items: &[Item], from: usize) -> Result<Items, Memory>
    ensures { IfOk result (λ copy. copy ≡ drop from items.now) }
{
    let mut copy = Items::new(alloc);
    for i in from..items.len() {
        copy.push(items[i].copy(alloc)?)?;
    }
    Ok(copy)
}

/// The rows after some items.
pub fn rows_after(rows: &Map, items: &[Item]) -> Result<Map, Memory>
    ensures { IfOk result (λ after. after ≡ rows_after rows.now items.now) }
{
    let mut after = rows.copy()?;
    for item in items {
        apply(&mut after, item)?;
    }
    Ok(after)
}

/// The request of a worker behind its items in an opening list.
pub fn next_request(items: &[Item], worker: u32) -> u32
    requires { length (indexes_of worker items.now) < 2 ^ 32 - 1 }
    ensures { result ≡ next_request items.now worker }
{
    let mut next = 1;
    for item in items {
        if item.worker == worker {
            next += 1;
        }
    }
    next
}
