//! A sink in memory, whose calls are short and fail as asked.

ghost use Rattle.std.specs.Prelude.{◌≡◌, ◌≢◌, ◌↔◌, ◌<◌, ◌≤◌, ◌-◌, ◌⊎◌, [], ◌++◌, length, take, min, Contains, Ok, Some, IfOk, IsErr, OnOk, OnErr};
ghost use Rattle.std.specs.Io.KnownBytes.{append_known};
ghost use Rattle.rl_io.specs.Faults.{one_more, Rose};
ghost use Rattle.rl_io.specs.Memory.{SinkState};

use crate::sink::Sink;
use crate::source::Failed;
use rl_base::list::Fails;
use rl_base::memory::Memory;
use std::alloc::Global;
use std::marker::Model;

/// Takes at most `chunk` bytes at a call, while there is room. Calls are numbered from 1; those
/// whose numbers are in a list fail, and those for which no room is left, and no others.
#[derive(Drop)]
pub struct MemSink {
    held: Vec<u8>,
    chunk: usize,
    room: usize,
    fails: Fails,
    calls: u64,
    faults: u64,
}

impl Model for MemSink {
    ghost use Rattle.std.specs.Prelude.{◌<◌, ◌≤◌, ◌+◌, vec_len, vec_capacity};
    ghost use Rattle.rl_io.specs.Memory.{SinkState};

    ghost Value = { SinkState };

    ghost view = { λ s. record {
      held = s.held.items;
      chunk = s.chunk;
      room = s.room;
      fails = s.fails;
      calls = s.calls;
      faults = s.faults;
    } };

    ghost invariant = { λ s. (vec_len s.held + s.room ≤ vec_capacity s.held) × (0 < s.chunk) };
}

impl MemSink {
    /// An empty sink with room for `room` bytes. `Memory` where there is none for them.
    pub fn new(alloc: Global, chunk: usize, room: usize, fails: Fails) -> Result<MemSink, Memory>
        requires { 0 < chunk }
        ensures { IfOk result (λ sink. sink ≡ record {
          held = [];
          chunk = chunk;
          room = room;
          fails = fails;
          calls = 0;
          faults = 0;
        }) }
    {
        Ok(MemSink {
            held: Vec::with_capacity(alloc, room)?,
            chunk,
            room,
            fails,
            calls: 0,
            faults: 0,
        })
    }

    /// The bytes that it holds.
    pub fn bytes(&self) -> &[u8]
        ensures { result.now ≡ self.now.held }
    {
        self.held.as_slice()
    }
}

impl Sink for MemSink {
    ghost use Rattle.std.specs.Prelude.{Some};

    ghost faults = { λ s. s.faults };

    ghost held = { λ s. Some s.held };

    /// Takes the least of the piece's length, `chunk` and the room left.
    fn write(&mut self, piece: &[u8]) -> Result<usize, Failed>
        ensures within { IfOk result (λ n. n ≤ length piece.now) }
        ensures some { 0 < length piece.now → result ≢ Ok 0 }
        ensures taken { IfOk result
            (λ n. Some self.new.held ≡ append_known (Some self.old.held) (take n piece.now)) }
        ensures kept { OnErr result (Some self.new.held ≡ Some self.old.held) }
        ensures ok { OnOk result (self.new.faults ≡ self.old.faults) }
        ensures fault { OnErr result (Rose self.old.faults self.new.faults) }
        ensures counted { self.old.faults ≤ self.new.faults }

        // beyond what every sink says
        ensures fails { IsErr result
            ↔ (Contains self.old.fails (one_more self.old.calls) ⊎ (self.old.room ≡ 0)) }
        ensures count { IfOk result
            (λ n. n ≡ min (min (length piece.now) self.old.chunk) self.old.room) }
        ensures took { IfOk result (λ n. self.new ≡ record self.old {
          held = self.old.held ++ take n piece.now;
          room = self.old.room - n;
          calls = one_more self.old.calls;
        }) }
        ensures failed { OnErr result (self.new ≡
            record self.old { calls = one_more self.old.calls; faults = one_more self.old.faults }) }
    {
        self.calls = self.calls.saturating_add(1);
        if self.room == 0 || self.fails.contains(self.calls) {
            self.faults = self.faults.saturating_add(1);
            return Err(Failed);
        }
        let count = piece.len().min(self.chunk).min(self.room);
        self.held
            .extend_from_slice(piece.split_at(count).0)
            .unwrap();
        self.room -= count;
        Ok(count)
    }
}
