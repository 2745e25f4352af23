//! A source in memory, whose calls are short and fail as asked.

ghost use Rattle.std.specs.Prelude.{◌≡◌, ◌↔◌, ◌<◌, ◌≤◌, length, take, drop, [], min, Contains, Ok, Some, IfOk, IsErr, OnOk, OnErr};
ghost use Rattle.std.specs.Io.KnownBytes.{prepend_known};
ghost use Rattle.rl_io.specs.Faults.{one_more, Rose};
ghost use Rattle.rl_io.specs.Memory.{SourceState};

use crate::slices::copy_prefix;
use crate::source::{Failed, Source};
use rl_base::list::{Bytes, Fails};
use rl_base::slices::rest_from;
use std::marker::Model;

/// Gives its bytes, at most `chunk` at a call. Calls are numbered from 1; those whose numbers are
/// in a list fail, and no others.
#[derive(Drop)]
pub struct MemSource {
    bytes: Bytes,
    at: usize,
    chunk: usize,
    fails: Fails,
    calls: u64,
    faults: u64,
}

impl Model for MemSource {
    ghost use Rattle.std.specs.Prelude.{drop, ◌<◌, ◌≤◌, length};
    ghost use Rattle.rl_io.specs.Memory.{SourceState};

    ghost Value = { SourceState };

    ghost view = { λ s. record {
      left = drop s.at s.bytes;
      chunk = s.chunk;
      fails = s.fails;
      calls = s.calls;
      faults = s.faults;
    } };

    ghost invariant = { λ s. (s.at ≤ length s.bytes) × (0 < s.chunk) };
}

impl MemSource {
    /// A source of these bytes, of which nothing is read yet.
    pub fn new(bytes: Bytes, chunk: usize, fails: Fails) -> MemSource
        requires { 0 < chunk }
        ensures { result ≡
            record { left = bytes; chunk = chunk; fails = fails; calls = 0; faults = 0 } }
    {
        MemSource {
            bytes,
            at: 0,
            chunk,
            fails,
            calls: 0,
            faults: 0,
        }
    }
}

impl Source for MemSource {
    ghost use Rattle.std.specs.Prelude.{Some};

    ghost faults = { λ s. s.faults };

    ghost left = { λ s. Some s.left };

    /// Gives the least of what is left, `chunk` and the buffer's length. The rest of the buffer
    /// stays as it was, and after `Failed` all of it.
    fn read(&mut self, buf: &mut [u8]) -> Result<usize, Failed>
        ensures within { IfOk result (λ n. n ≤ length buf.new) }
        ensures given { IfOk result
            (λ n. Some self.old.left ≡ prepend_known (take n buf.new) (Some self.new.left)) }
        ensures end { result ≡ Ok 0 → 0 < length buf.new → self.old.left ≡ [] }
        ensures kept { OnErr result (Some self.new.left ≡ Some self.old.left) }
        ensures ok { OnOk result (self.new.faults ≡ self.old.faults) }
        ensures fault { OnErr result (Rose self.old.faults self.new.faults) }
        ensures counted { self.old.faults ≤ self.new.faults }

        // beyond what every source says
        ensures fails { IsErr result ↔ Contains self.old.fails (one_more self.old.calls) }
        ensures count { IfOk result
            (λ n. n ≡ min (min (length self.old.left) self.old.chunk) (length buf.new)) }
        ensures gave { IfOk result (λ n. self.new ≡
            record self.old { left = drop n self.old.left; calls = one_more self.old.calls }) }
        ensures failed { OnErr result (self.new ≡
            record self.old { calls = one_more self.old.calls; faults = one_more self.old.faults }) }
        ensures rest { IfOk result (λ n. drop n buf.new ≡ drop n buf.old) }
        ensures unread { OnErr result (buf.new ≡ buf.old) }
    {
        self.calls = self.calls.saturating_add(1);
        if self.fails.contains(self.calls) {
            self.faults = self.faults.saturating_add(1);
            return Err(Failed);
        }
        let left = self.bytes.as_slice().len() - self.at;
        let count = left.min(self.chunk).min(buf.len());
        copy_prefix(buf, rest_from(self.bytes.as_slice(), self.at), count);
        self.at += count;
        Ok(count)
    }
}
