//! Lines that say an event.

ghost use Rattle.std.specs.Prelude.{◌≡◌, ℕ, [], ◌∷◌, map, MatchResult, Ok, Err, IfOk};
ghost use Rattle.rl_events.specs.Events.{event_word, read_event, event_of, event_in};
ghost use Rattle.rl_events.specs.Fits.{IsOneOf, EventFits};

use crate::event::Event;
use crate::kind::Kind;
use crate::word::{number, positive, within};
use rl_base::limit::EVENTS;
use rl_text::text::{first_words, printable};
use thiserror::Error;

/// Which event a line is.
#[derive(Clone, Copy, Debug, PartialEq, Eq)]
pub enum EventWord {
    /// `step`
    Step,
    /// `flush`
    Flush,
    /// `idle`
    Idle,
    /// `dlv`
    Dlv,
    /// `drop`
    Discard,
    /// `all`
    All,
    /// `elect`
    Elect,
    /// `tick`
    Tick,
    /// `crash`
    Crash,
    /// `back`
    Back,
    /// `lose`
    Lose,
    /// `play`
    Play,
    /// `playall`
    PlayAll,
    /// `show`
    Show,
    /// `random`
    Random,
}

/// Why a line is no event: the first rule that it breaks.
#[derive(Clone, Copy, Debug, PartialEq, Eq, Error)]
#[error("{kind:?}")]
pub struct EventFault {
    /// The rule that is broken.
    pub kind: Kind,
}

/// Which event a first word begins, if it begins one.
pub fn event_word(word: &str) -> Option<EventWord>
    ensures { result ≡ event_word word.now }
{
    match word {
        "step" => Some(EventWord::Step),
        "flush" => Some(EventWord::Flush),
        "idle" => Some(EventWord::Idle),
        "dlv" => Some(EventWord::Dlv),
        "drop" => Some(EventWord::Discard),
        "all" => Some(EventWord::All),
        "elect" => Some(EventWord::Elect),
        "tick" => Some(EventWord::Tick),
        "crash" => Some(EventWord::Crash),
        "back" => Some(EventWord::Back),
        "lose" => Some(EventWord::Lose),
        "play" => Some(EventWord::Play),
        "playall" => Some(EventWord::PlayAll),
        "show" => Some(EventWord::Show),
        "random" => Some(EventWord::Random),
        _ => None,
    }
}

/// The event of a word and no more.
fn event_of_none(word: EventWord, nodes: u32, workers: u32) -> Result<Event, Kind>
    ensures event { result ≡ read_event nodes workers word [] }
    ensures fits { IfOk result (λ event. EventFits nodes workers event) }
{
    match word {
        EventWord::All => Ok(Event::All),
        _ => Err(Kind::Count),
    }
}

/// The event of a word and one more, a number or a node.
fn event_of_one(word: EventWord, n: &str, nodes: u32, workers: u32) -> Result<Event, Kind>
    ensures event { result ≡ read_event nodes workers word (n.now ∷ []) }
    ensures fits { IfOk result (λ event. EventFits nodes workers event) }
{
    match word {
        EventWord::Dlv => Ok(Event::Dlv {
            number: positive(n)?,
        }),
        EventWord::Discard => Ok(Event::Discard { number: number(n)? }),
        EventWord::Elect => Ok(Event::Elect {
            node: within(1, nodes, n)?,
        }),
        EventWord::Tick => Ok(Event::Tick {
            node: within(1, nodes, n)?,
        }),
        EventWord::Crash => Ok(Event::Crash {
            node: within(1, nodes, n)?,
        }),
        EventWord::Back => Ok(Event::Back {
            node: within(1, nodes, n)?,
        }),
        EventWord::Lose => Ok(Event::Lose {
            node: within(1, nodes, n)?,
        }),
        EventWord::PlayAll => Ok(Event::PlayAll {
            node: within(1, nodes, n)?,
        }),
        EventWord::Show => Ok(Event::Show {
            node: within(1, nodes, n)?,
        }),
        _ => Err(Kind::Count),
    }
}

/// The event of a word and two more.
fn event_of_two(word: EventWord, a: &str, b: &str, nodes: u32, workers: u32) -> Result<Event, Kind>
    ensures event { result ≡ read_event nodes workers word (a.now ∷ b.now ∷ []) }
    ensures fits { IfOk result (λ event. EventFits nodes workers event) }
{
    match word {
        EventWord::Flush => Ok(Event::Flush {
            node: within(1, nodes, a)?,
            worker: within(1, workers, b)?,
        }),
        EventWord::Idle => Ok(Event::Idle {
            node: within(1, nodes, a)?,
            worker: within(1, workers, b)?,
        }),
        EventWord::Play => Ok(Event::Play {
            node: within(1, nodes, a)?,
            stream: within(1, workers, b)?,
        }),
        EventWord::Random => Ok(Event::Random {
            seed: number(a)?,
            count: within(1, EVENTS, b)?,
        }),
        _ => Err(Kind::Count),
    }
}

/// The event of a word and three more.
fn event_of_three(
    word: EventWord,
    a: &str,
    b: &str,
    c: &str,
    nodes: u32,
    workers: u32,
) -> Result<Event, Kind>
    ensures event { result ≡ read_event nodes workers word (a.now ∷ b.now ∷ c.now ∷ []) }
    ensures fits { IfOk result (λ event. EventFits nodes workers event) }
{
    match word {
        EventWord::Step => Ok(Event::Step {
            node: within(1, nodes, a)?,
            worker: within(1, workers, b)?,
            count: within(1, EVENTS, c)?,
        }),
        _ => Err(Kind::Count),
    }
}

/// The event of a line that begins with an event's word. `words` are those after it.
///
/// The kind of fault is that of the first rule that they break: `Count`, and then, from left to
/// right, `Number` and `Range` of each word.
pub fn read_event(word: EventWord, words: &[&str], nodes: u32, workers: u32) -> Result<Event, Kind>
    ensures event { result ≡ read_event nodes workers word (map (λ w. w.now) words.now) }
    ensures fits { IfOk result (λ event. EventFits nodes workers event) }
{
    match words {
        [] => event_of_none(word, nodes, workers),
        [n] => event_of_one(word, n, nodes, workers),
        [a, b] => event_of_two(word, a, b, nodes, workers),
        [a, b, c] => event_of_three(word, a, b, c, nodes, workers),
        _ => Err(Kind::Count),
    }
}

/// The event that some words are.
fn event_of(words: &[&str], nodes: u32, workers: u32) -> Result<Event, Kind>
    ensures event { result ≡ event_of nodes workers (map (λ w. w.now) words.now) }
    ensures fits { IfOk result (λ event. EventFits nodes workers event) }
{
    let [first, rest @ ..] = words else {
        return Err(Kind::Word);
    };
    let word = event_word(first).ok_or(Kind::Word)?;
    read_event(word, rest, nodes, workers)
}

/// The event that a line is, which comes without its line end. Takes no memory.
///
/// The kind of fault is that of the first rule that the line breaks, in this order: `Byte`; `Word`
/// where its first word is no event's, or it has none; `Count`; then, from left to right, `Number`
/// and `Range` of each word.
pub fn parse_event(line: &[u8], nodes: u32, workers: u32) -> Result<Event, EventFault>
    ensures event { MatchResult result
        (λ event. event_in nodes workers line.now ≡ Ok event)
        (λ e. event_in nodes workers line.now ≡ Err e.kind) }
    ensures fits { IfOk result (λ event. EventFits nodes workers event) }
{
    let Some(text) = printable(line) else {
        return Err(EventFault { kind: Kind::Byte });
    };
    let (words, count) = first_words(text);
    match event_of(&words[..count], nodes, workers) {
        Ok(event) => Ok(event),
        Err(kind) => Err(EventFault { kind }),
    }
}
