//! The word of a record: the stamp of its newest write, and a lock bit.

ghost use Rattle.std.specs.Prelude.{◌≡◌, ◌<◌, ◌^◌, ◌*◌, ◌/◌, ◌%◌, ◌+◌, ◌↔◌, IsTrue};
ghost use Rattle.rl_base.specs.Words.{stamp_in, with_lock, without_lock, IsLocked};

/// Whether the lock bit is set.
pub fn is_locked(word: u64) -> bool
    ensures { IsTrue result ↔ IsLocked word }
{
    word % 2 == 1
}

/// The packed stamp in a word.
pub fn stamp_of(word: u64) -> u64
    ensures { result ≡ stamp_in word }
{
    word / 2
}

/// The word with the lock bit set.
pub fn locked(word: u64) -> u64
    ensures { result ≡ with_lock word }
{
    word / 2 * 2 + 1
}

/// The word with the lock bit clear.
pub fn unlocked(word: u64) -> u64
    ensures { result ≡ without_lock word }
{
    word / 2 * 2
}

/// The unlocked word of a packed stamp.
pub fn word_of(stamp: u64) -> u64
    requires { stamp < 2 ^ 60 }
    ensures { result ≡ 2 * stamp }
{
    2 * stamp
}
