//! Random events, written out as the events that their seeds draw.

ghost use Rattle.std.specs.Prelude.{◌≡◌, ◌<◌, ◌≤◌, ℕ, ◌++◌, All, map, sum_by, IfOk, OnOk, IsErrOf, IsTrue, ◌↔◌};
ghost use Rattle.std.specs.List.{flat_map};
ghost use Rattle.rand_core.specs.Steps.{first_words};
ghost use Rattle.rand_core.specs.Stream.{next_u32};
ghost use Rattle.rl_events.specs.Expanded.{event_of_choice, drawn_event, expanded, IsNotRandom};
ghost use Rattle.rl_events.specs.Fits.{EventFits, count_of, elections_of};

use crate::event::{Event, Events};
use rand_core::{Rng, SeedableRng};
use rand_pcg::Lcg64Xsh32;
use rl_base::limit::EVENTS;
use rl_base::memory::Memory;
use std::alloc::Global;
use thiserror::Error;

/// Why random events were not written out.
#[derive(Clone, Copy, Debug, PartialEq, Eq, Error)]
pub enum ExpandError {
    /// The events count as more than the limit.
    #[error("limit events {limit}")]
    TooManyEvents { limit: u32 },
    /// There was no memory left.
    #[error("memory")]
    Memory,
}

impl From<Memory> for ExpandError {
    ghost use Rattle.std.specs.Prelude.{◌≡◌};
    ghost use Rattle.rl_events.specs.declared.expand.ExpandError.TheVariants.{Memory};

    ghost from_gives = { λ _ e. e ≡ Memory };

    fn from(_e: Memory) -> ExpandError {
        ExpandError::Memory
    }
}

/// Whether the events count as more than a script may have.
fn are_too_many(events: &[Event]) -> bool
    ensures { IsTrue result ↔ (EVENTS < sum_by count_of events.now) }
{
    let mut room = EVENTS;
    for event in events {
        let count = event.count();
        if count > room {
            return true;
        }
        room -= count;
    }
    false
}

/// The event of a choice, at a node and one of its workers or streams.
fn event_of_choice(choice: u32, node: u32, worker: u32) -> Event
    ensures { result ≡ event_of_choice choice node worker }
{
    match choice {
        0..=8 => Event::Step {
            node,
            worker,
            count: 1,
        },
        9 => Event::Flush { node, worker },
        10 => Event::Idle { node, worker },
        11..=13 => Event::All,
        14 => Event::Tick { node },
        _ => Event::Play {
            node,
            stream: worker,
        },
    }
}

/// The event that a drawn word stands for.
fn drawn_event(word: u32, nodes: u32, workers: u32) -> Event
    requires nodes { 1 ≤ nodes }
    requires workers { 1 ≤ workers }
    ensures { result ≡ drawn_event nodes workers word }
{
    let node = word / 16 % nodes + 1;
    let worker = word / 256 % workers + 1;
    event_of_choice(word % 16, node, worker)
}

/// Appends the events of the next words of a generator.
fn push_drawn<R: Rng>(
    events: &mut Events,
    rng: &mut R,
    count: u32,
    nodes: u32,
    workers: u32,
) -> Result<(), Memory>
    requires nodes { 1 ≤ nodes }
    requires workers { 1 ≤ workers }
    ensures { let words = first_words next_u32 count (R.stream rng.old) in
        OnOk result (events.new ≡ events.old ++ map (drawn_event nodes workers) words) }
{
    'draws: for draw in 0..count {
        events.push(drawn_event(rng.next_u32(), nodes, workers))?;
    }
    Ok(())
}

/// Appends the events that an event stands for.
fn push_expanded(events: &mut Events, event: &Event, nodes: u32, workers: u32) -> Result<(), Memory>
    requires nodes { 1 ≤ nodes }
    requires workers { 1 ≤ workers }
    ensures { OnOk result (events.new ≡ events.old ++ expanded nodes workers event.now) }
{
    match event {
        Event::Random { seed, count } => {
            let mut rng = Lcg64Xsh32::seed_from_u64(*seed);
            push_drawn(events, &mut rng, *count, nodes, workers)
        }
        _ => events.push(*event),
    }
}

/// What the events stand for, one after another.
fn written_out(alloc: Global, events: &Events, nodes: u32, workers: u32) -> Result<Events, Memory>
    requires nodes { 1 ≤ nodes }
    requires workers { 1 ≤ workers }
    ensures { IfOk result (λ list. list ≡ flat_map (expanded nodes workers) events.now) }
{
    let mut written = Events::new(alloc);
    for event in events.as_slice() {
        push_expanded(&mut written, event, nodes, workers)?;
    }
    Ok(written)
}

/// The events, with those that its seed draws in the place of each random one. There is at least one
/// node and one worker.
///
/// A seed draws the 32-bit words of `Lcg64Xsh32::seed_from_u64(seed)`, one for each event. The word x
/// stands, by x mod 16, from 0 to 8 for one step, 9 for a flush, 10 for an idle mark, 11 to 13 for
/// `All`, 14 for a tick and 15 for a stream that is played, at node x / 16 mod `nodes` + 1, and at the
/// worker or stream x / 256 mod `workers` + 1.
///
/// `TooManyEvents` comes exactly where the events count as more than 100,000, before any memory is
/// taken; else there is `Memory` alone. The events that were handed in stay as they are.
pub fn expand(
    alloc: Global,
    events: &Events,
    nodes: u32,
    workers: u32,
) -> Result<Events, ExpandError>
    requires nodes { 1 ≤ nodes }
    requires workers { 1 ≤ workers }
    ensures expanded { IfOk result (λ list. list ≡ flat_map (expanded nodes workers) events.now) }
    ensures too_many { IsErrOf result (ExpandError.TooManyEvents EVENTS) ↔ (EVENTS < sum_by count_of events.now) }
    ensures the_limit { (n : ℕ) → IsErrOf result (ExpandError.TooManyEvents n) → n ≡ EVENTS }
    ensures not_random { IfOk result (λ list. All IsNotRandom list) }
    ensures fits { All (EventFits nodes workers) events.now → IfOk result (λ list. All (EventFits nodes workers) list) }
    ensures counted { IfOk result (λ list. sum_by count_of list ≡ sum_by count_of events.now) }
    ensures elections { IfOk result (λ list. sum_by elections_of list ≡ sum_by elections_of events.now) }
{
    if are_too_many(events.as_slice()) {
        return Err(ExpandError::TooManyEvents { limit: EVENTS });
    }
    Ok(written_out(alloc, events, nodes, workers)?)
}
