//! A script, and how it is read.

ghost use Rattle.std.specs.Prelude.{◌≡◌, ◌<◌, ◌-◌, ◌^◌, ℕ, List, ◌∷◌, Ok, IfOk, MatchResult, length, map};
ghost use Rattle.rl_text.specs.Text.{lines_of};
ghost use Rattle.rl_script.specs.Problems.{FailsAt};
ghost use Rattle.rl_script.specs.Drafts.{DraftFits};
ghost use Rattle.rl_script.specs.Fits.{ScriptFits};
ghost use Rattle.rl_script.specs.Read.{is_header, read_lines, read_text, read, script_of};

use crate::draft::Draft;
use crate::fault::{LineError, ParseError};
use rl_base::list::Seq;
use rl_events::event::Events;
use rl_events::kind::Kind;
use rl_text::text::{first_line, printable, words};
use rl_txn::op::Lists;
use rl_value::map::Map;
use rl_value::schema::Schema;
use std::alloc::Global;

/// One number D for each stop: the leader of that epoch stops behind the seq D + 1.
pub type Stops = Seq<u64>;

/// How many stops a script may have.
pub const MOST_STOPS: usize = 63;

/// A script: its tables with their opening rows, its settings, the requests of each worker, and
/// the events.
#[derive(Drop)]
pub struct Script {
    /// The tables.
    pub schema: Schema,
    /// The opening rows.
    pub rows: Map,
    /// How many nodes there are, 1 to 7.
    pub nodes: u32,
    /// How many workers there are, 1 to 16, each of which has a list.
    pub workers: u32,
    /// How many items a batch has, 1 to 64.
    pub batch: u32,
    /// How many messages of a thousand a link loses, 0 to 999.
    pub loss: u32,
    /// What losses are drawn from.
    pub seed: u64,
    /// At most 63 stops, each 1 to 1,000,000.
    pub stops: Stops,
    /// The requests of each worker, at most 8,192 together.
    pub lists: Lists,
    /// The events, which count as at most 100,000, with at most 64 elections.
    pub events: Events,
}

/// The script that a text is.
///
/// `Fault` and `Limit` name the first line with which something is wrong, and what: of a line that
/// breaks rules the first one, in the order `Byte`, `Header`, `Word`, `Order`, `Count`, then each
/// word from left to right, then `Duplicate`; and where it breaks none, the limit that it passes:
/// `Tables` comes before `Records`, and `Elections` before `Events`. Without memory it is `Memory`.
/// A text that ends inside a transaction is `Unended` at the line behind its last. A text has fewer
/// than 2^32 - 1 bytes.
#[tactic(auto, unfolding(crate::specs::Read::read))]
pub fn parse(alloc: Global, text: &[u8]) -> Result<Script, ParseError>
    requires { length text.now < 2 ^ 32 - 1 }
    ensures script { MatchResult result (λ script. read text.now ≡ Ok script) (λ e. FailsAt e (read text.now)) }
    ensures fits { IfOk result (λ script. ScriptFits script) }
{
    Ok(read_lines(alloc, text)?.into_script())
}

/// What the lines of a text say.
#[tactic(auto, unfolding(crate::specs::Read::read_lines))]
fn read_lines(alloc: Global, text: &[u8]) -> Result<Draft, ParseError>
    requires { length text.now < 2 ^ 32 - 1 }
    ensures read { MatchResult result
        (λ draft. read_text (lines_of text.now) ≡ Ok draft)
        (λ e. FailsAt e (read_text (lines_of text.now))) }
    ensures fits { IfOk result (λ draft. DraftFits draft) }
{
    if text.is_empty() {
        return Err(LineError::from(Kind::Header).at(1));
    }
    let (first, mut rest) = first_line(text);
    let mut draft = begin(alloc, first)?;
    let mut number = 1;
    'lines: while !rest.is_empty() {
        let (line, after) = first_line(rest);
        number += 1;
        if let Err(e) = draft.line(alloc, line) {
            return Err(e.at(number));
        }
        rest = after;
    }
    if draft.current.is_some() {
        return Err(LineError::from(Kind::Unended).at(number + 1));
    }
    Ok(draft)
}

/// The draft behind the first line of a script.
fn begin(alloc: Global, line: &[u8]) -> Result<Draft, ParseError>
    ensures begun { (lines : List (List ℕ)) → MatchResult result
        (λ draft. read_text (line.now ∷ lines) ≡ read_lines 2 draft lines)
        (λ e. FailsAt e (read_text (line.now ∷ lines))) }
    ensures fits { IfOk result (λ draft. DraftFits draft) }
{
    let Some(text) = printable(line) else {
        return Err(LineError::from(Kind::Byte).at(1));
    };
    let words = words(alloc, text)?;
    if !is_header(words.as_slice()) {
        return Err(LineError::from(Kind::Header).at(1));
    }
    Ok(Draft::new(alloc)?)
}

/// Whether these are the words of a script's first line.
fn is_header(words: &[&str]) -> bool
    ensures { result ≡ is_header (map (λ w. w.now) words.now) }
{
    match words {
        [name, version] => *name == "rolis" && *version == "1",
        _ => false,
    }
}

impl Draft {
    /// The script of what the lines say.
    fn into_script(self) -> Script
        requires { DraftFits self }
        ensures script { result ≡ script_of self }
        ensures fits { ScriptFits result }
    {
        let nodes = self.settings.nodes();
        let workers = self.settings.workers();
        Script {
            schema: self.schema,
            rows: self.rows,
            nodes,
            workers,
            batch: self.settings.batch.unwrap_or(1),
            loss: self.settings.loss.unwrap_or(0),
            seed: self.settings.seed.unwrap_or(0),
            stops: self.settings.stops,
            lists: self.lists.into_lists(),
            events: self.events.into_events(),
        }
    }
}
