//! Where an entry stands in a log.

ghost use Rattle.std.specs.Prelude.{◌≡◌, ℕ, ◌+◌, ◌^◌, ◌<◌, ◌≤◌, length, take, None, MatchOption, IfSome};
ghost use Rattle.rl_replay.specs.Entries.{entries, entries_of, entry_at};
ghost use Rattle.rl_replay.specs.Cursors.{IsEntryAt, FitsCursor};

use rl_txn::batch::Batch;

/// Where an entry stands in a log: in which batch, and where in that batch; both are counted from 0.
#[derive(Clone, Copy, Debug, PartialEq, Eq)]
pub struct Cursor {
    pub batch: usize,
    pub index: usize,
}

/// The batch of the entry at a cursor, and the cursor with the entry's index in that batch; none
/// past the last entry.
pub fn find(log: &[Batch], at: Cursor) -> Option<(&Batch, Cursor)>
    requires { at.batch ≤ length log.now }
    ensures found { let n = length (entries (take at.batch log.now)) + at.index in
        MatchOption result (entry_at log.now n ≡ None) (λ found. IsEntryAt log.now n found.0.now found.1) }
    ensures onward { (n : ℕ) → FitsCursor n at → IfSome result (λ found. FitsCursor n found.1) }
    ensures room { IfSome result (λ found. found.1.index + 1 < 2 ^ 64) }
{
    let mut cursor = at;
    for batch in &log[at.batch..] {
        let len = entries_in(batch);
        if cursor.index < len {
            return Some((batch, cursor));
        }
        cursor = Cursor {
            batch: cursor.batch + 1,
            index: cursor.index - len,
        };
    }
    None
}

/// How many entries a batch has.
fn entries_in(batch: &Batch) -> usize
    ensures { result ≡ length (entries_of batch.now) }
{
    match batch {
        Batch::Items(items) => items.len(),
        Batch::Idle(_) => 1,
        Batch::Opened(_) => 1,
    }
}
