ghost use Rattle.std.specs.Prelude.{◌≡◌, ◌-◌, ◌<◌, ◌↔◌, ◌⊎◌, [], Some, IsErr, IsTrue, IfOk, is_err};
ghost use Rattle.std.specs.Prelude.{length, min};
ghost use Rattle.std.specs.Io.{WritesAtMost};
ghost use Rattle.std.specs.Io.KnownBytes.{WriteAppends};
ghost use Rattle.agg_streams.specs.Causes.{HasCause};
ghost use Rattle.agg_streams.specs.Memory.{after_call, is_next_listed, no_calls};

use super::Sink;
use crate::fault::{CallCounter, Failed};
use agg_values::OutOfMemory;
use std::alloc::Global;
use std::marker::Model;

/// Bytes in memory, whose writes fail at listed calls, and where no room is left. Contracts see the
/// bytes that it holds, and the calls.
#[derive(Drop)]
pub struct MemorySink {
    bytes: Vec<u8>,
    calls: CallCounter,
}

impl Model for MemorySink {
    ghost use Rattle.std.specs.Prelude.{◌≡◌, ◌≤◌, vec_capacity, vec_len};
    ghost use Rattle.agg_streams.specs.Memory.{Memory, memory_room};

    ghost Value = { Memory };

    ghost view = { λ sink. record { bytes = sink.bytes.items; calls = sink.calls } };

    ghost invariant = { λ sink.
        (memory_room ≤ vec_capacity sink.bytes) × (vec_len sink.bytes ≤ memory_room) };
}

impl MemorySink {
    /// How many bytes it has room for.
    pub const ROOM: usize = 1_048_576;

    /// An empty sink, which fails at each of the listed calls, counted from 1. All the memory that
    /// it needs is taken here.
    pub fn new(alloc: Global, failing: Vec<u64>) -> Result<MemorySink, OutOfMemory>
        ensures { IfOk result
            (λ sink. sink ≡ record { bytes = []; calls = no_calls failing.items }) }
    {
        Ok(MemorySink {
            bytes: Vec::with_capacity(alloc, MemorySink::ROOM)?,
            calls: CallCounter::new(failing),
        })
    }

    /// The bytes that it holds.
    pub fn bytes(&self) -> &[u8]
        ensures { result.now ≡ self.now.bytes }
    {
        &self.bytes
    }
}

impl Sink for MemorySink {
    ghost contents = { λ sink. Some sink.bytes };

    ghost faults = { λ sink. sink.calls.faults };

    fn write(&mut self, bytes: &[u8]) -> Result<usize, Failed>
        ensures bound { WritesAtMost result bytes.now }
        ensures some { IfOk result (λ count. 0 < length bytes.now → 0 < count) }
        ensures bytes { WriteAppends (Some self.old.bytes) (Some self.new.bytes) result bytes.now }
        ensures cause { HasCause self.old.calls.faults self.new.calls.faults result }

        // It fails at a listed call, and where a piece that isn't empty finds no room.
        ensures fails { IsErr result
            ↔ (IsTrue (is_next_listed self.old.calls)
            ⊎ ((0 < length bytes.now) × (length self.old.bytes ≡ MemorySink.ROOM))) }
        ensures count { IfOk result
            (λ count. count ≡ min (length bytes.now) (MemorySink.ROOM - length self.old.bytes)) }
        ensures calls { self.new.calls ≡ after_call (is_err result) self.old.calls }
    {
        let room = MemorySink::ROOM - self.bytes.len();
        let failed = self.calls.is_next_listed() || (room == 0 && !bytes.is_empty());
        self.calls.count(failed);
        if failed {
            return Err(Failed);
        }
        let count = bytes.len().min(room);
        self.bytes.extend_from_slice(&bytes[..count]).unwrap();
        Ok(count)
    }
}
