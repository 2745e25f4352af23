//! Numbers of one, four and eight bytes, the highest first.

ghost use Rattle.std.specs.Prelude.{◌≤◌, IfOk};
ghost use Rattle.rl_fields.specs.Answers.{IsRead};
ghost use Rattle.rl_fields.specs.Fields.{number, within};

use crate::fault::Fault;
use byteorder::{BigEndian, ByteOrder};
use rl_base::flaw::Flaw;

/// A byte from `low` to `high`, and the bytes after it: else `Short` or `Range` at the first of the bytes.
#[tactic(auto, unfolding(crate::specs::Fields::number, crate::specs::Fields::within))]
pub fn u8_within(low: u8, high: u8, bytes: &[u8]) -> Result<(u8, &[u8]), Fault>
    ensures read { IsRead (λ x. (x.0, x.1.now)) result (within 1 low high bytes.now) }
    ensures low { IfOk result (λ x. low ≤ x.0) }
    ensures high { IfOk result (λ x. x.0 ≤ high) }
{
    let [first, rest @ ..] = bytes else {
        return Err(Fault::at(bytes, Flaw::Short));
    };
    if *first < low || *first > high {
        return Err(Fault::at(bytes, Flaw::Range));
    }
    Ok((*first, rest))
}

/// A number of four bytes, and the bytes after it: else `Short` at the first of the bytes.
#[tactic(auto, unfolding(crate::specs::Fields::number))]
pub fn u32_at(bytes: &[u8]) -> Result<(u32, &[u8]), Fault>
    ensures { IsRead (λ x. (x.0, x.1.now)) result (number 4 bytes.now) }
{
    if bytes.len() < 4 {
        return Err(Fault::at(bytes, Flaw::Short));
    }
    let (_field, rest) = bytes.split_at(4);
    Ok((BigEndian::read_u32(bytes), rest))
}

/// A number of eight bytes, and the bytes after it: else `Short` at the first of the bytes.
#[tactic(auto, unfolding(crate::specs::Fields::number))]
pub fn u64_at(bytes: &[u8]) -> Result<(u64, &[u8]), Fault>
    ensures { IsRead (λ x. (x.0, x.1.now)) result (number 8 bytes.now) }
{
    if bytes.len() < 8 {
        return Err(Fault::at(bytes, Flaw::Short));
    }
    let (_field, rest) = bytes.split_at(8);
    Ok((BigEndian::read_u64(bytes), rest))
}

/// A number of four bytes from `low` to `high`, and the bytes after it: else `Short` or `Range` at the first of the
/// bytes.
#[tactic(auto, unfolding(crate::specs::Fields::within))]
pub fn u32_within(low: u32, high: u32, bytes: &[u8]) -> Result<(u32, &[u8]), Fault>
    ensures read { IsRead (λ x. (x.0, x.1.now)) result (within 4 low high bytes.now) }
    ensures low { IfOk result (λ x. low ≤ x.0) }
    ensures high { IfOk result (λ x. x.0 ≤ high) }
{
    let (x, rest) = u32_at(bytes)?;
    if x < low || x > high {
        return Err(Fault::at(bytes, Flaw::Range));
    }
    Ok((x, rest))
}

/// A number of eight bytes from `low` to `high`, and the bytes after it: else `Short` or `Range` at the first of the
/// bytes.
#[tactic(auto, unfolding(crate::specs::Fields::within))]
pub fn u64_within(low: u64, high: u64, bytes: &[u8]) -> Result<(u64, &[u8]), Fault>
    ensures read { IsRead (λ x. (x.0, x.1.now)) result (within 8 low high bytes.now) }
    ensures low { IfOk result (λ x. low ≤ x.0) }
    ensures high { IfOk result (λ x. x.0 ≤ high) }
{
    let (x, rest) = u64_at(bytes)?;
    if x < low || x > high {
        return Err(Fault::at(bytes, Flaw::Range));
    }
    Ok((x, rest))
}
