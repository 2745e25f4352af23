//! What each worker is handed.

ghost use Rattle.std.specs.Prelude.{◌≡◌, ℕ, ◌*◌, ◌≤◌, length, replicate, [], OnOk, IfOk};
ghost use Rattle.rl_progress.specs.Seats.{publishers};
ghost use Rattle.rl_store.specs.Views.{IsAtRest, split_left};
ghost use Rattle.rl_live.specs.Elections.{led_with, with_mark};
ghost use Rattle.rl_live.specs.Handing.{AllFrom, IsFreshAfter, IsReadyAs, IsStage, seat_of};

use crate::election::Led;
use crate::worker::Worker;
use rl_base::memory::Memory;
use rl_net::link::Link;
use rl_progress::progress::Progress;
use rl_progress::seat::{Seat, Seats};
use rl_script::script::Script;
use rl_store::pass::Pass;
use rl_store::store::Store;
use std::alloc::Global;

/// A worker for each stream, with tries from the pass and the seat of the stream.
pub(crate) fn hand_out<'a>(
    alloc: Global,
    script: &'a Script,
    store: &Store,
    progress: &Progress,
    pass: &mut Pass,
    tries: u64,
    leds: Vec<Led>,
    seats: Seats,
) -> Result<Vec<Worker<'a>>, Memory>
    requires stage { IsStage script.now store.now }
    requires fresh { IsFreshAfter store.now tries 0 pass.old pass.old }
    requires enough { script.now.workers * tries ≤ pass.old.view.tries }
    requires leds { leds.items ≡ replicate script.now.workers (led_with store.now.made.epoch script.now.nodes (with_mark store.now.made.epoch [])) }
    requires words { progress.now.words ≡ script.now.workers }
    requires seats { seats ≡ publishers progress.now }
    ensures fresh { OnOk result (IsFreshAfter store.now tries script.now.workers pass.old pass.new) }
    ensures many { IfOk result (λ workers. length workers.items ≡ script.now.workers) }
    ensures ready { IfOk result (λ workers. AllFrom (IsReadyAs script.now store.now progress.now tries) 1 workers.items) }
{
    let mut left = seats.into_vec().into_iter();
    let mut workers = Vec::new(alloc);
    let mut number = 0;
    for led in leds {
        let Some(seat) = left.next() else {
            unreachable!()
        };
        number += 1;
        workers.push(worker_of(script, store, progress, pass, tries, number, led, seat))?;
    }
    Ok(workers)
}

/// A worker with tries from the pass.
fn worker_of<'a>(
    script: &'a Script,
    store: &Store,
    progress: &Progress,
    pass: &mut Pass,
    tries: u64,
    number: u32,
    led: Led,
    seat: Seat,
) -> Worker<'a>
    requires stage { IsStage script.now store.now }
    requires own { pass.old.table ≡ store.now.table }
    requires enough { tries ≤ pass.old.view.tries }
    requires low { 1 ≤ number }
    requires high { number ≤ script.now.workers }
    requires led { led ≡ led_with store.now.made.epoch script.now.nodes (with_mark store.now.made.epoch []) }
    requires seat { (s : ℕ) × (seat ≡ seat_of progress.now s) }
    ensures own { pass.new.table ≡ pass.old.table }
    ensures left { pass.new.view ≡ split_left tries pass.old.view }
    ensures ready { IsReadyAs script.now store.now progress.now tries number result }
{
    let own = pass.split(store, tries);
    let Led { stream, acceptors } = led;
    Worker {
        number,
        lists: &script.lists,
        batch: script.batch,
        pass: own,
        stream,
        acceptors,
        seat,
        link: Link::new(script.seed.wrapping_add(u64::from(number)), script.loss),
    }
}
