//! Byte strings, and the end of all bytes.

ghost use Rattle.std.specs.Prelude.{Ok};
ghost use Rattle.rl_fields.specs.Answers.{IsRead};
ghost use Rattle.rl_fields.specs.Fields.{string, alone};

use crate::fault::Fault;
use rl_base::flaw::Flaw;

/// Some bytes, and those after them: else `Short` at the first of the bytes.
#[tactic(auto, unfolding(crate::specs::Fields::string))]
pub fn string(len: usize, bytes: &[u8]) -> Result<(&[u8], &[u8]), Fault>
    ensures { IsRead (λ x. (x.0.now, x.1.now)) result (string len bytes.now) }
{
    if bytes.len() < len {
        return Err(Fault::at(bytes, Flaw::Short));
    }
    Ok(bytes.split_at(len))
}

/// A value that no byte follows: else `Extra` at the first of the bytes.
pub fn alone<T: Drop>(x: T, bytes: &[u8]) -> Result<T, Fault>
    ensures { IsRead (λ y. y) result (alone x bytes.now) }
{
    if bytes.is_empty() {
        Ok(x)
    } else {
        Err(Fault::at(bytes, Flaw::Extra))
    }
}
