//! The lines of a text, and what their words must be.

ghost use Rattle.std.specs.Prelude.{◌≡◌, ◌≤◌, ◌==◌, ◌&&◌, nat_le, [], map, length, drop, IfOk, vec_len};
ghost use Rattle.std.specs.List.{list_all, slice_split};
ghost use Rattle.rl_text.specs.Numbers.{number_within};
ghost use Rattle.rl_report.specs.Answers.{IsRead, IsLineRead};
ghost use Rattle.rl_report.specs.Words.{words_in, lines_in, is_ended, begins, words_behind, short, long, exactly, is_word, name, longs, columns, alone};

use crate::fault::{LineError, ReportFault};
use rl_text::number::number_within;
use rl_text::text::{first_line, printable};
use rl_value::row::Row;
use std::alloc::{AllocError, Global};

/// The words of a line, between single spaces; none where a byte can't be printed.
pub fn words_in(alloc: Global, line: &[u8]) -> Result<Vec<&str>, AllocError>
    ensures { IfOk result (λ words. map (λ w. w.now) words.items ≡ words_in line.now) }
{
    let Some(text) = printable(line) else {
        return Ok(Vec::new(alloc));
    };
    split(alloc, text)
}

/// What stands between the spaces of a line.
fn split(alloc: Global, line: &str) -> Result<Vec<&str>, AllocError>
    ensures { IfOk result (λ words. map (λ w. w.now) words.items ≡ slice_split (λ b. b == 32) line.now) }
{
    line.split(' ').collect(alloc)
}

/// How many lines a text has.
pub fn count_lines(text: &[u8]) -> usize
    ensures count { result ≡ length (lines_in text.now) }
    ensures few { result ≤ length text.now }
{
    let mut count = 0;
    let mut rest = text;
    'lines: while !rest.is_empty() {
        let (_, after) = first_line(rest);
        count += 1;
        rest = after;
    }
    count
}

/// Whether the last line of a text, if there is one, is ended.
pub fn is_ended(text: &[u8]) -> bool
    ensures { result ≡ is_ended text.now }
{
    text.is_empty() || text[text.len() - 1] == b'\n'
}

/// Whether the first word is this one.
pub fn begins(due: &str, words: &[&str]) -> bool
    ensures { result ≡ begins due.now (map (λ w. w.now) words.now) }
{
    match words {
        [first, ..] => *first == due,
        [] => false,
    }
}

/// Whether the word of an index, counted from 0, is this one.
#[tactic(auto, using(crate::proofs::Places::words_by_index))]
pub fn begins_at(due: &str, at: usize, words: &[&str]) -> bool
    ensures { result ≡ begins due.now (drop at (map (λ w. w.now) words.now)) }
{
    match words.get(at) {
        Some(word) => *word == due,
        None => false,
    }
}

/// The words behind this one.
pub fn behind<'a>(due: &str, words: &'a [&'a str]) -> Result<&'a [&'a str], ReportFault>
    ensures { IsRead (λ rest. map (λ w. w.now) rest.now) result (words_behind due.now (map (λ w. w.now) words.now)) }
{
    match words {
        [first, rest @ ..] if *first == due => Ok(rest),
        _ => Err(ReportFault::Form),
    }
}

/// A number of 32 bits, and the words behind it.
#[tactic(auto, unfolding(crate::specs::Words::number))]
pub fn short<'a>(words: &'a [&'a str]) -> Result<(u32, &'a [&'a str]), ReportFault>
    ensures { IsRead (λ x. (x.0, map (λ w. w.now) x.1.now)) result (short (map (λ w. w.now) words.now)) }
{
    let [first, rest @ ..] = words else {
        return Err(ReportFault::Form);
    };
    let n = number_up_to(u64::from(u32::MAX), first)?;
    Ok((n as u32, rest))
}

/// A number of 64 bits, and the words behind it.
#[tactic(auto, unfolding(crate::specs::Words::number))]
pub fn long<'a>(words: &'a [&'a str]) -> Result<(u64, &'a [&'a str]), ReportFault>
    ensures { IsRead (λ x. (x.0, map (λ w. w.now) x.1.now)) result (long (map (λ w. w.now) words.now)) }
{
    let [first, rest @ ..] = words else {
        return Err(ReportFault::Form);
    };
    Ok((number_up_to(u64::MAX, first)?, rest))
}

/// The number up to another that a word is.
fn number_up_to(most: u64, word: &str) -> Result<u64, ReportFault>
    ensures number { result ≡ number_within 0 most ReportFault.Form ReportFault.Form word.now }
    ensures high { IfOk result (λ n. n ≤ most) }
{
    number_within(
        0,
        most,
        ReportFault::Form,
        ReportFault::Form,
        word.as_bytes(),
    )
}

/// The words behind this number of 32 bits.
#[tactic(auto, unfolding(crate::specs::Words::exactly))]
pub fn exactly<'a>(due: u32, words: &'a [&'a str]) -> Result<&'a [&'a str], ReportFault>
    ensures { IsRead (λ rest. (due, map (λ w. w.now) rest.now)) result (exactly due (map (λ w. w.now) words.now)) }
{
    let (n, rest) = short(words)?;
    if n == due {
        Ok(rest)
    } else {
        Err(ReportFault::Form)
    }
}

/// Whether a word has bytes, each of which is seen.
fn is_word(word: &[u8]) -> bool
    ensures { result ≡ is_word word.now }
{
    !word.is_empty() && are_seen(word)
}

/// Whether each byte is seen: printable, and no space.
fn are_seen(bytes: &[u8]) -> bool
    ensures { result ≡ list_all (λ b. nat_le 33 b && nat_le b 126) bytes.now }
{
    bytes.iter().all(|b| *b >= 33 && *b <= 126)
}

/// A name, and the words behind it.
#[tactic(auto, unfolding(crate::specs::Words::name))]
pub fn name<'a>(words: &'a [&'a str]) -> Result<(&'a str, &'a [&'a str]), ReportFault>
    ensures { IsRead (λ x. (x.0.now, map (λ w. w.now) x.1.now)) result (name (map (λ w. w.now) words.now)) }
{
    match words {
        [first, rest @ ..] if is_word(first.as_bytes()) => Ok((*first, rest)),
        _ => Err(ReportFault::Form),
    }
}

/// The numbers that all words are.
#[tactic(auto, using(crate::proofs::NumbersRead::numbers_read))]
pub fn longs(alloc: Global, words: &[&str]) -> Result<Vec<u64>, LineError>
    ensures longs { IsLineRead (λ numbers. (numbers.items, [])) result (longs (map (λ w. w.now) words.now)) }
    ensures count { IfOk result (λ numbers. vec_len numbers ≡ length words.now) }
{
    let mut numbers = Vec::new(alloc);
    for word in words {
        match number_up_to(u64::MAX, word) {
            Ok(n) => numbers.push(n)?,
            Err(kind) => return Err(kind.into()),
        }
    }
    Ok(numbers)
}

/// The one to four numbers that all words are.
#[tactic(auto, unfolding(crate::specs::Words::columns))]
pub fn columns(alloc: Global, words: &[&str]) -> Result<Row, LineError>
    ensures { IsLineRead (λ row. (row, [])) result (columns (map (λ w. w.now) words.now)) }
{
    if words.is_empty() || words.len() > 4 {
        return Err(ReportFault::Form.into());
    }
    let numbers = longs(alloc, words)?;
    Ok(Row::from_slice(numbers.as_slice()))
}

/// A value behind which no words are left.
pub fn alone<T: Drop>(x: T, words: &[&str]) -> Result<T, ReportFault>
    ensures { IsRead (λ y. y) result (alone x (map (λ w. w.now) words.now)) }
{
    match words {
        [] => Ok(x),
        _ => Err(ReportFault::Form),
    }
}
