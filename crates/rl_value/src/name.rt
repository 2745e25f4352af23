//! Names of tables.

ghost use Rattle.std.specs.Prelude.{◌≡◌, ◌↔◌, IsTrue};
ghost use Rattle.std.specs.List.{list_all};
ghost use Rattle.rl_value.specs.Names.{is_letter, is_name_byte, is_name};

/// Whether a word may name a table: a letter from a to z, and up to 15 such letters, digits and
/// underscores after it.
pub fn is_name(word: &str) -> bool
    ensures { result ≡ is_name word.now }
{
    let word = word.as_bytes();
    !word.is_empty() && word.len() <= 16 && is_letter(word[0]) && are_name_bytes(word)
}

fn is_letter(b: u8) -> bool
    ensures { result ≡ is_letter b }
{
    b.is_ascii_lowercase()
}

fn is_name_byte(b: u8) -> bool
    ensures { result ≡ is_name_byte b }
{
    is_letter(b) || b.is_ascii_digit() || b == b'_'
}

fn are_name_bytes(word: &[u8]) -> bool
    ensures { result ≡ list_all is_name_byte word.now }
{
    word.iter().all(|b| is_name_byte(*b))
}
