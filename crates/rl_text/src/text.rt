//! Lines and words of a text.

ghost use Rattle.std.specs.Prelude.{◌≡◌, ◌<◌, ◌≤◌, ◌∷◌, ◌==◌, length, map, take, IfOk, IfSome, IfNone, position, true, false, if◌then◌else◌};
ghost use Rattle.std.specs.List.{before_first, after_first};
ghost use Rattle.rl_text.specs.Text.{lines_of, words_of, is_printable};

use rl_base::slices::rest_from;
use std::alloc::{AllocError, Global};

/// How many words most lines have at most.
const USUAL_WORDS: usize = 8;

/// The words of a line, which are separated by one or more spaces.
pub fn words(alloc: Global, line: &str) -> Result<Vec<&str>, AllocError>
    ensures { IfOk result (λ words. map (λ w. w.now) words.items ≡ words_of line.now) }
{
    let mut words = Vec::with_capacity(alloc, USUAL_WORDS)?;
    let mut rest = line;
    'words: while !rest.is_empty() {
        let (word, after) = first_piece(rest);
        if !word.is_empty() {
            words.push(word)?;
        }
        rest = after;
    }
    Ok(words)
}

/// Whether all bytes are spaces or printable characters of ASCII.
fn is_printable(line: &[u8]) -> bool
    ensures { result ≡ is_printable line.now }
{
    line.iter().all(|b| *b >= 32 && *b <= 126)
}

/// A line as text, if its bytes may stand in a script.
#[tactic(auto, using(crate::proofs::Printable::printable_text))]
pub fn printable(line: &[u8]) -> Option<&str>
    ensures some { IfSome result (λ text. (text.now ≡ line.now) × (is_printable line.now ≡ true)) }
    ensures none { IfNone result (is_printable line.now ≡ false) }
{
    if !is_printable(line) {
        return None;
    }
    match str::from_utf8(line) {
        Ok(text) => Some(text),
        Err(_) => None,
    }
}

/// The first line of a text that has bytes, and the text after its end: nothing where it has none.
#[tactic(auto, using(crate::proofs::Lines::first_lines))]
pub fn first_line(text: &[u8]) -> (&[u8], &[u8])
    requires { 0 < length text.now }
    ensures line { lines_of text.now ≡ result.0.now ∷ lines_of result.1.now }
    ensures before { result.0.now ≡ before_first (λ b. b == 10) text.now }
    ensures after { result.1.now ≡ after_first (λ b. b == 10) text.now }
    ensures shorter { length result.1.now < length text.now }
{
    match line_end(text) {
        Some(at) => (text.split_at(at).0, rest_from(text, at + 1)),
        None => (text, &[]),
    }
}

/// Where the first line ends, if it has an end.
fn line_end(text: &[u8]) -> Option<usize>
    ensures { result ≡ position (λ b. b == 10) text.now }
{
    text.iter().position(|b| *b == b'\n')
}

/// The text before the first space, and the text after it. Without a space nothing is after it.
fn first_piece(line: &str) -> (&str, &str)
    requires { 0 < length line.now }
    ensures words { words_of line.now ≡ (if length result.0.now == 0 then words_of result.1.now else result.0.now ∷ words_of result.1.now) }
    ensures shorter { length result.1.now < length line.now }
{
    match line.split_once(' ') {
        Some(pieces) => pieces,
        None => (line, ""),
    }
}

/// The first words of a line, up to five of them, and how many they are.
pub fn first_words(line: &str) -> ([&str; 5], usize)
    ensures words { map (λ w. w.now) (take result.1 result.0) ≡ take 5 (words_of line.now) }
    ensures count { result.1 ≤ 5 }
{
    let mut words = [""; 5];
    let mut count = 0;
    let mut rest = line;
    'words: while count < 5 && !rest.is_empty() {
        let (word, after) = first_piece(rest);
        if !word.is_empty() {
            words[count] = word;
            count += 1;
        }
        rest = after;
    }
    (words, count)
}
