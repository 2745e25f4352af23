//! The printed form of events.

ghost use Rattle.std.specs.Prelude.{◌≡◌, ℕ, ◌++◌, IfOk, OnOk, Ok};
ghost use Rattle.std.specs.String.{string_bytes};
ghost use Rattle.rl_events.specs.Events.{event_in};
ghost use Rattle.rl_events.specs.Fits.{EventFits};
ghost use Rattle.rl_events.specs.Printed.{event_line};

use crate::event::Event;
use rl_base::list::Bytes;
use rl_base::memory::Memory;
use std::alloc::{AllocError, Global};

/// Appends the line of an event, without a line end.
pub fn push_event(out: &mut String, event: &Event) -> Result<(), AllocError>
    ensures { OnOk result (string_bytes out.new ≡ string_bytes out.old ++ event_line event.now) }
{
    push_line(out, event)
}

/// Appends the line of an event. It is read as the event again, where its nodes and workers are
/// there and its numbers in range.
#[tactic(auto, using(crate::proofs::ReadBack::reads_back))]
fn push_line(out: &mut String, event: &Event) -> Result<(), AllocError>
    ensures text { OnOk result (string_bytes out.new ≡ string_bytes out.old ++ event_line event.now) }
    ensures read { (nodes workers : ℕ) → EventFits nodes workers event.now
        → event_in nodes workers (event_line event.now) ≡ Ok event.now }
{
    match *event {
        Event::Step {
            node,
            worker,
            count,
        } => write!(out, "step {node} {worker} {count}"),
        Event::Flush { node, worker } => write!(out, "flush {node} {worker}"),
        Event::Idle { node, worker } => write!(out, "idle {node} {worker}"),
        Event::Dlv { number } => write!(out, "dlv {number}"),
        Event::Discard { number } => write!(out, "drop {number}"),
        Event::All => out.push_str("all"),
        Event::Elect { node } => write!(out, "elect {node}"),
        Event::Tick { node } => write!(out, "tick {node}"),
        Event::Crash { node } => write!(out, "crash {node}"),
        Event::Back { node } => write!(out, "back {node}"),
        Event::Lose { node } => write!(out, "lose {node}"),
        Event::Play { node, stream } => write!(out, "play {node} {stream}"),
        Event::PlayAll { node } => write!(out, "playall {node}"),
        Event::Show { node } => write!(out, "show {node}"),
        Event::Random { seed, count } => write!(out, "random {seed} {count}"),
    }
}

/// The line of an event, without a line end. `parse_event` reads it as the event again, where its
/// nodes and workers are there and its numbers in range.
pub fn print_event(alloc: Global, event: &Event) -> Result<Bytes, Memory>
    ensures text { IfOk result (λ line. line ≡ event_line event.now) }
    ensures read { IfOk result (λ line. (nodes workers : ℕ) → EventFits nodes workers event.now
        → event_in nodes workers line ≡ Ok event.now) }
{
    let mut out = String::new(alloc);
    push_line(&mut out, event)?;
    Ok(Bytes::from_vec(out.into_bytes()))
}
