//! Kinds of lines.

ghost use Rattle.std.specs.Prelude.{◌≡◌};
ghost use Rattle.rl_script.specs.Lines.{op_word, plain_kind, event_kind, line_kind};

use crate::draft::Section;
use crate::settings::{SettingWord, setting_word};
use rl_events::line::{EventWord, event_word};

/// Which op a line in a transaction is.
#[derive(Clone, Copy, Debug, PartialEq, Eq)]
pub enum OpWord {
    Set,
    Add,
    Sub,
    Mul,
    Get,
    Has,
    Put,
    Del,
    Scan,
    Need,
    Skip,
    Out,
}

/// What a line after the first is.
#[derive(Clone, Copy, Debug, PartialEq, Eq)]
pub enum LineKind {
    /// A setting
    Setting(SettingWord),
    /// `table NAME SIZE COLUMNS`
    Table,
    /// `row NAME KEY C0` up to the last column
    Row,
    /// `txn W`, which begins a transaction
    Txn,
    /// `end`, which ends it
    End,
    /// An op of the transaction
    Op(OpWord),
    /// `events`, which begins the events
    Events,
    /// An event
    Event(EventWord),
}

/// Which op a first word begins, if it begins one.
fn op_word(word: &str) -> Option<OpWord>
    ensures { result ≡ op_word word.now }
{
    match word {
        "set" => Some(OpWord::Set),
        "add" => Some(OpWord::Add),
        "sub" => Some(OpWord::Sub),
        "mul" => Some(OpWord::Mul),
        "get" => Some(OpWord::Get),
        "has" => Some(OpWord::Has),
        "put" => Some(OpWord::Put),
        "del" => Some(OpWord::Del),
        "scan" => Some(OpWord::Scan),
        "need" => Some(OpWord::Need),
        "skip" => Some(OpWord::Skip),
        "out" => Some(OpWord::Out),
        _ => None,
    }
}

/// The line that a word begins, of those that have one form each.
fn plain_kind(word: &str) -> Option<LineKind>
    ensures { result ≡ plain_kind word.now }
{
    match word {
        "table" => Some(LineKind::Table),
        "row" => Some(LineKind::Row),
        "txn" => Some(LineKind::Txn),
        "end" => Some(LineKind::End),
        "events" => Some(LineKind::Events),
        _ => None,
    }
}

/// The line of an event, in the section of events alone.
fn event_kind(section: Section, word: &str) -> Option<LineKind>
    ensures { result ≡ event_kind section word.now }
{
    match section {
        Section::Events => Some(LineKind::Event(event_word(word)?)),
        _ => None,
    }
}

/// What the line of a section is that a word begins, if the word can begin one.
pub fn line_kind(section: Section, word: &str) -> Option<LineKind>
    ensures { result ≡ line_kind section word.now }
{
    if let Some(kind) = plain_kind(word) {
        return Some(kind);
    }
    if let Some(setting) = setting_word(word) {
        return Some(LineKind::Setting(setting));
    }
    if let Some(op) = op_word(word) {
        return Some(LineKind::Op(op));
    }
    event_kind(section, word)
}
