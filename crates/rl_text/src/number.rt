//! Words that are numbers.

ghost use Rattle.std.specs.Prelude.{◌≡◌, ◌<◌, ◌≤◌, ◌^◌, IfOk, true};
ghost use Rattle.std.specs.Option.{SomeIff};
ghost use Rattle.std.specs.List.{list_all};
ghost use Rattle.rl_text.specs.Numbers.{is_digit, value_onto, is_plain, number_of, number_within};

/// Whether a word is `0`, or digits without a zero in front.
fn is_plain(word: &[u8]) -> bool
    ensures { result ≡ is_plain word.now }
{
    are_digits(word) && !word.is_empty() && (word.len() == 1 || word[0] != b'0')
}

/// Whether all bytes are digits.
fn are_digits(word: &[u8]) -> bool
    ensures { result ≡ list_all is_digit word.now }
{
    word.iter().all(|b| *b >= b'0' && *b <= b'9')
}

/// The number that a word is, if it is one: of at most 20 digits, and below 2^64.
pub fn number_of(word: &[u8]) -> Option<u64>
    ensures { result ≡ number_of word.now }
{
    if !is_plain(word) || word.len() > 20 {
        return None;
    }
    value(word)
}

/// What digits stand for, below 2^64.
#[tactic(auto, using(crate::proofs::Digits::digits))]
fn value(digits: &[u8]) -> Option<u64>
    requires { list_all is_digit digits.now ≡ true }
    ensures { SomeIff result (value_onto 0 digits.now < 2 ^ 64) (value_onto 0 digits.now) }
{
    let mut value: u64 = 0;
    for digit in digits {
        value = value
            .checked_mul(10)?
            .checked_add(u64::from(*digit - b'0'))?;
    }
    Some(value)
}

/// The number from low to high that a word is; `none` where it is no number, and `out` where it is
/// another one.
#[tactic(auto, unfolding(crate::specs::Numbers::number_within))]
pub fn number_within<E: Copy>(low: u64, high: u64, none: E, out: E, word: &[u8]) -> Result<u64, E>
    ensures within { result ≡ number_within low high none out word.now }
    ensures low { IfOk result (λ n. low ≤ n) }
    ensures high { IfOk result (λ n. n ≤ high) }
{
    match number_of(word) {
        None => Err(none),
        Some(n) if n < low || n > high => Err(out),
        Some(n) => Ok(n),
    }
}
