ghost use Rattle.std.specs.Prelude.{◌≡◌, ◌↔◌, Some, IsErr, IsTrue, IfOk, is_err, length, min};
ghost use Rattle.std.specs.Io.{ReadsAtMost};
ghost use Rattle.std.specs.Io.KnownBytes.{ReadConsumes};
ghost use Rattle.agg_streams.specs.Causes.{HasCause};
ghost use Rattle.agg_streams.specs.Memory.{after_call, is_next_listed, no_calls};

use super::{Source, SteadySource};
use crate::fault::{CallCounter, Failed};
use std::marker::Model;

/// Bytes in memory, whose reads fail at listed calls. Contracts see the bytes that are left, and
/// the calls.
#[derive(Drop)]
pub struct MemorySource {
    bytes: SteadySource,
    calls: CallCounter,
}

impl Model for MemorySource {
    ghost use Rattle.agg_streams.specs.Memory.{Memory};

    ghost Value = { Memory };

    ghost view = { λ source. record { bytes = source.bytes; calls = source.calls } };
}

impl MemorySource {
    /// A source of these bytes, which fails at each of the listed calls, counted from 1.
    pub fn new(bytes: Vec<u8>, failing: Vec<u64>) -> MemorySource
        ensures { result ≡ record { bytes = bytes.items; calls = no_calls failing.items } }
    {
        MemorySource {
            bytes: SteadySource::new(bytes),
            calls: CallCounter::new(failing),
        }
    }
}

impl Source for MemorySource {
    ghost left = { λ source. Some source.bytes };

    ghost faults = { λ source. source.calls.faults };

    fn read(&mut self, buf: &mut [u8]) -> Result<usize, Failed>
        ensures bound { ReadsAtMost result buf.new }
        ensures bytes { ReadConsumes (Some self.old.bytes) (Some self.new.bytes) result buf.new }
        ensures cause { HasCause self.old.calls.faults self.new.calls.faults result }
        ensures listed { IsErr result ↔ IsTrue (is_next_listed self.old.calls) }
        ensures count { IfOk result
            (λ count. count ≡ min (length buf.old) (length self.old.bytes)) }
        ensures calls { self.new.calls ≡ after_call (is_err result) self.old.calls }
    {
        let failed = self.calls.is_next_listed();
        self.calls.count(failed);
        if failed {
            return Err(Failed);
        }
        self.bytes.read(buf)
    }
}
