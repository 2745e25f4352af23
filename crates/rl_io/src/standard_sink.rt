//! A sink over std's writers. As a sink it doesn't tell what it holds; its value does, where the
//! writer tells it.

ghost use Rattle.std.specs.Prelude.{◌≡◌, ◌≢◌, ◌<◌, ◌≤◌, length, Ok, IfOk, OnOk, OnErr};
ghost use Rattle.std.specs.Io.KnownBytes.{WriteAppends};
ghost use Rattle.rl_io.specs.Faults.{one_more};
ghost use Rattle.rl_io.specs.Standard.{WriterState};

use crate::sink::Sink;
use crate::source::Failed;
use std::io::Write;
use std::marker::Model;

/// Writes to a writer of std, and counts its errors. Contracts see the count, and the bytes that the
/// writer holds where it tells them.
#[derive(Drop)]
pub struct StdSink<W: Write + Drop> {
    writer: W,
    faults: u64,
}

impl<W: Write + Drop> Model for StdSink<W> {
    ghost use Rattle.rl_io.specs.Standard.{WriterState};

    ghost Value = { WriterState };

    ghost view = { λ s. record { contents = W.contents s.writer; faults = s.faults } };
}

impl<W: Write + Drop> StdSink<W> {
    /// A sink to which nothing is written yet.
    pub fn new(writer: W) -> StdSink<W>
        ensures { result ≡ record { contents = W.contents writer; faults = 0 } }
    {
        StdSink { writer, faults: 0 }
    }
}

impl<W: Write + Drop> Sink for StdSink<W> {
    ghost use Rattle.std.specs.Prelude.{None};

    ghost faults = { λ s. s.faults };

    ghost held = { λ _. None };

    /// Each error of the writer is a fault, and so is a write that takes no byte of a piece that
    /// has any. The writer took the bytes that are counted, no more and no fewer.
    fn write(&mut self, piece: &[u8]) -> Result<usize, Failed>
        ensures within { IfOk result (λ n. n ≤ length piece.now) }
        ensures some { 0 < length piece.now → result ≢ Ok 0 }
        ensures ok { OnOk result (self.new.faults ≡ self.old.faults) }
        ensures failed { OnErr result (self.new.faults ≡ one_more self.old.faults) }
        ensures counted { self.old.faults ≤ self.new.faults }
        ensures bytes { WriteAppends self.old.contents self.new.contents result piece.now }
    {
        match self.writer.write(piece) {
            Ok(count) if count > 0 || piece.is_empty() => Ok(count),
            _ => {
                self.faults = self.faults.saturating_add(1);
                Err(Failed)
            }
        }
    }
}
