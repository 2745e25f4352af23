//! Words that must be numbers.

ghost use Rattle.std.specs.Prelude.{◌≡◌, ◌≤◌, IfOk};
ghost use Rattle.rl_events.specs.Words.{number, within};

use crate::kind::Kind;
use rl_text::number::{number_of, number_within};

/// A word that must be a number.
pub fn number(word: &str) -> Result<u64, Kind>
    ensures { result ≡ number word.now }
{
    number_of(word.as_bytes()).ok_or(Kind::Number)
}

/// A word that must be a number from low to high.
pub fn within(low: u32, high: u32, word: &str) -> Result<u32, Kind>
    ensures within { result ≡ within low high word.now }
    ensures low { IfOk result (λ n. low ≤ n) }
    ensures high { IfOk result (λ n. n ≤ high) }
{
    let (low, high) = (u64::from(low), u64::from(high));
    let n = number_within(low, high, Kind::Number, Kind::Range, word.as_bytes())?;
    Ok(n as u32)
}

/// A word that must be a number, and not 0.
pub fn positive(word: &str) -> Result<u64, Kind>
    ensures positive { result ≡ within 1 (u64.MAX) word.now }
    ensures low { IfOk result (λ n. 1 ≤ n) }
{
    number_within(1, u64::MAX, Kind::Number, Kind::Range, word.as_bytes())
}
