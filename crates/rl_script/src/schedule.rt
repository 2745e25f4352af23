//! The events of a script so far.

ghost use Rattle.std.specs.Prelude.{◌≡◌, ◌≤◌, [], ◌∷◌, ◌++◌, MatchResult, Ok, IfOk, sum_by};
ghost use Rattle.rl_events.specs.Fits.{count_of, elections_of};
ghost use Rattle.rl_script.specs.Answers.{Fails};
ghost use Rattle.rl_script.specs.Read.{scheduled};

use crate::fault::LineError;
use rl_base::limit::{ELECTIONS, EVENTS, LimitName};
use rl_events::event::{Event, Events};
use std::alloc::Global;
use std::marker::Model;

/// The events so far, which keep the limits of a script. Contracts see their list.
#[derive(Drop)]
pub struct Schedule {
    events: Events,
    elections: u32,
    counted: u32,
}

impl Model for Schedule {
    ghost use Rattle.std.specs.Prelude.{◌≡◌, ◌≤◌, List, sum_by};
    ghost use Rattle.rl_base.specs.declared.limit.TheConstants.{ELECTIONS, EVENTS};
    ghost use Rattle.rl_events.specs.Fits.{count_of, elections_of};
    ghost use Rattle.rl_events.specs.declared.event.Event.{Event};

    ghost Value = { List Event };

    ghost view = { λ s. s.events };

    ghost invariant = { λ s. (s.elections ≡ sum_by elections_of s.events) × (s.elections ≤ ELECTIONS)
        × (s.counted ≡ sum_by count_of s.events) × (s.counted ≤ EVENTS) };
}

impl Schedule {
    /// No events.
    pub fn new(alloc: Global) -> Schedule
        ensures { result ≡ [] }
    {
        Schedule {
            events: Events::new(alloc),
            elections: 0,
            counted: 0,
        }
    }

    /// One more event.
    #[tactic(auto, using(crate::proofs::FitsLemmas::one_more_event))]
    pub fn push(&mut self, event: Event) -> Result<(), LineError>
        ensures scheduled { MatchResult result
            (λ _. scheduled self.old event ≡ Ok self.new)
            (λ e. Fails e (scheduled self.old event)) }
        ensures last { IfOk result (λ _. self.new ≡ self.old ++ event ∷ []) }
        ensures counted { IfOk result (λ _. sum_by count_of self.new ≤ EVENTS) }
        ensures elections { IfOk result (λ _. sum_by elections_of self.new ≤ ELECTIONS) }
    {
        if event.elections() > ELECTIONS - self.elections {
            return Err(LineError::limit(LimitName::Elections, ELECTIONS));
        }
        if event.count() > EVENTS - self.counted {
            return Err(LineError::limit(LimitName::Events, EVENTS));
        }
        self.events.push(event)?;
        self.elections += event.elections();
        self.counted += event.count();
        Ok(())
    }

    /// The events, which keep the limits.
    pub fn into_events(self) -> Events
        ensures events { result ≡ self }
        ensures counted { sum_by count_of result ≤ EVENTS }
        ensures elections { sum_by elections_of result ≤ ELECTIONS }
    {
        self.events
    }
}
