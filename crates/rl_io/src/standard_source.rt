//! A source over std's readers. As a source it doesn't tell what is left; its value does, where the
//! reader tells it.

ghost use Rattle.std.specs.Prelude.{◌≡◌, ◌≤◌, length, IfOk, OnOk, OnErr};
ghost use Rattle.std.specs.Io.KnownBytes.{ReadConsumes};
ghost use Rattle.rl_io.specs.Faults.{one_more};
ghost use Rattle.rl_io.specs.Standard.{ReaderState};

use crate::source::{Failed, Source};
use std::io::Read;
use std::marker::Model;

/// Reads from a reader of std, and counts its errors. Contracts see the count, and the bytes still
/// to come where the reader tells them.
#[derive(Drop)]
pub struct StdSource<R: Read + Drop> {
    reader: R,
    faults: u64,
}

impl<R: Read + Drop> Model for StdSource<R> {
    ghost use Rattle.rl_io.specs.Standard.{ReaderState};

    ghost Value = { ReaderState };

    ghost view = { λ s. record { remaining = R.remaining s.reader; faults = s.faults } };
}

impl<R: Read + Drop> StdSource<R> {
    /// A source of which nothing is read yet.
    pub fn new(reader: R) -> StdSource<R>
        ensures { result ≡ record { remaining = R.remaining reader; faults = 0 } }
    {
        StdSource { reader, faults: 0 }
    }
}

impl<R: Read + Drop> Source for StdSource<R> {
    ghost use Rattle.std.specs.Prelude.{None};

    ghost faults = { λ s. s.faults };

    ghost left = { λ _. None };

    /// Each error of the reader is a fault. The bytes that it gives are the reader's next ones, no
    /// more and no fewer; none come only at the reader's end.
    fn read(&mut self, buf: &mut [u8]) -> Result<usize, Failed>
        ensures within { IfOk result (λ n. n ≤ length buf.new) }
        ensures ok { OnOk result (self.new.faults ≡ self.old.faults) }
        ensures failed { OnErr result (self.new.faults ≡ one_more self.old.faults) }
        ensures counted { self.old.faults ≤ self.new.faults }
        ensures bytes { ReadConsumes self.old.remaining self.new.remaining result buf.new }
    {
        match self.reader.read(buf) {
            Ok(count) => Ok(count),
            Err(_) => {
                self.faults = self.faults.saturating_add(1);
                Err(Failed)
            }
        }
    }
}
