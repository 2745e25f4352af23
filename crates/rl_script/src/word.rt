//! Words that are registers, operands and relations.

ghost use Rattle.std.specs.Prelude.{◌≡◌, ◌<◌, IfOk};
ghost use Rattle.rl_txn.specs.Fits.{OperandFits};
ghost use Rattle.rl_script.specs.Words.{register, operand, relation};

use rl_base::slices::rest_from;
use rl_events::kind::Kind;
use rl_text::number::{number_of, number_within};
use rl_txn::op::{Operand, Rel};

/// A word that must be a register.
#[tactic(auto, unfolding(crate::specs::Words::register))]
pub fn register(word: &str) -> Result<u32, Kind>
    ensures register { result ≡ register word.now }
    ensures fits { IfOk result (λ r. r < 16) }
{
    let word = word.as_bytes();
    if word.is_empty() || word[0] != b'r' {
        return Err(Kind::Register);
    }
    let r = number_within(0, 15, Kind::Register, Kind::Register, rest_from(word, 1))?;
    Ok(r as u32)
}

/// A word that must be a register or a number.
pub fn operand(word: &str) -> Result<Operand, Kind>
    ensures operand { result ≡ operand word.now }
    ensures fits { IfOk result (λ a. OperandFits a) }
{
    if let Ok(r) = register(word) {
        return Ok(Operand::Reg(r));
    }
    match number_of(word.as_bytes()) {
        Some(n) => Ok(Operand::Num(n)),
        None => Err(Kind::Register),
    }
}

/// A word that must be a relation.
pub fn relation(word: &str) -> Result<Rel, Kind>
    ensures { result ≡ relation word.now }
{
    match word {
        "eq" => Ok(Rel::Eq),
        "ne" => Ok(Rel::Ne),
        "lt" => Ok(Rel::Lt),
        "le" => Ok(Rel::Le),
        "gt" => Ok(Rel::Gt),
        "ge" => Ok(Rel::Ge),
        _ => Err(Kind::Relation),
    }
}
