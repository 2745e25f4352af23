//! Where bytes go.

ghost use Rattle.std.specs.Prelude.{◌≡◌, ◌≢◌, ◌<◌, ◌≤◌, ℕ, List, [], Option, Ok, IsOk, length, take, IfOk, OnOk, OnErr};
ghost use Rattle.std.specs.Io.KnownBytes.{append_known};
ghost use Rattle.rl_io.specs.Faults.{Rose};

use crate::source::Failed;
use rl_base::slices::rest_from;

/// A place that takes bytes.
pub trait Sink {
    /// How many of its calls have failed. It never falls.
    ghost faults: { Self → ℕ };

    /// The bytes that it holds, where it tells them.
    ghost held: { Self → Option (List ℕ) };

    /// Takes a prefix of the piece, and answers its length: at least one byte of a piece that has
    /// any. After `Failed` it holds what it held.
    fn write(&mut self, piece: &[u8]) -> Result<usize, Failed>
        ensures within { IfOk result (λ n. n ≤ length piece.now) }
        ensures some { 0 < length piece.now → result ≢ Ok 0 }
        ensures taken { IfOk result
            (λ n. held self.new ≡ append_known (held self.old) (take n piece.now)) }
        ensures kept { OnErr result (held self.new ≡ held self.old) }
        ensures ok { OnOk result (faults self.new ≡ faults self.old) }
        ensures fault { OnErr result (Rose (faults self.old) (faults self.new)) }
        ensures counted { faults self.old ≤ faults self.new };
}

/// A write failed before all was written.
#[derive(Clone, Copy, Debug, PartialEq, Eq)]
pub struct WriteFault;

/// Writes all the bytes: each write is handed all that are still to go. Without bytes it makes none.
///
/// The first write that fails is the last: `WriteFault` comes only where one failed, and a prefix
/// of the bytes is written then; `Ok` only where none did.
#[tactic(auto, using(crate::proofs::Held::held_more))]
pub fn write_whole<K: Sink>(sink: &mut K, bytes: &[u8]) -> Result<(), WriteFault>
    ensures all { OnOk result (K.held sink.new ≡ append_known (K.held sink.old) bytes.now) }
    ensures prefix { OnErr result
        ((n : ℕ) × (K.held sink.new ≡ append_known (K.held sink.old) (take n bytes.now))) }
    ensures none { bytes.now ≡ [] → IsOk result × (sink.new ≡ sink.old) }

    ensures ok { OnOk result (K.faults sink.new ≡ K.faults sink.old) }
    ensures fault { OnErr result (Rose (K.faults sink.old) (K.faults sink.new)) }
    ensures counted { K.faults sink.old ≤ K.faults sink.new }
{
    let mut at = 0;
    while at < bytes.len() {
        match sink.write(rest_from(bytes, at)) {
            Ok(count) => at += count,
            Err(Failed) => return Err(WriteFault),
        }
    }
    Ok(())
}
