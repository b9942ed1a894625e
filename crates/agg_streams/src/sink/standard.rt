ghost use Rattle.std.specs.Prelude.{◌≡◌, ◌≤◌, ◌<◌, ◌⊎◌, ◌↔◌, ℕ, None, Ok, IfOk, IsErr, OnErr};
ghost use Rattle.std.specs.Prelude.{is_err, length, take};
ghost use Rattle.std.specs.Io.{WritesAtMost};
ghost use Rattle.std.specs.Io.KnownBytes.{Appends, WriteAppends};
ghost use Rattle.agg_streams.specs.Causes.{HasCause, faults_after};

use super::Sink;
use crate::fault::Failed;
use std::io::{self, Write};
use std::marker::Model;

/// A writer of std as a sink, which flushes each write and counts those that failed. It tells no
/// bytes, since a failed flush says nothing of what was written. Contracts see the writer and the
/// count.
#[derive(Drop)]
pub struct StdSink<W> {
    writer: W,
    faults: u64,
}

impl<W> Model for StdSink<W> {
    ghost use Rattle.agg_streams.specs.Causes.{Counted};

    ghost Value = { Counted W };

    ghost view = { λ sink. record { inner = sink.writer; faults = sink.faults } };
}

impl<W> StdSink<W> {
    /// A sink over a writer, with no fault counted.
    pub fn new(writer: W) -> StdSink<W>
        ensures { result ≡ record { inner = writer; faults = 0 } }
    {
        StdSink { writer, faults: 0 }
    }

    // The answer for what a write of the piece and its flush answered: the count, or a fault, which
    // is counted. It is one as well where nothing was taken of a piece that isn't empty.
    fn settle(
        &mut self,
        bytes: &[u8],
        written: io::Result<usize>,
        flushed: io::Result<()>,
    ) -> Result<usize, Failed>
        ensures count { IfOk result (λ count. written ≡ Ok count) }
        ensures fails { IsErr result
            ↔ (IsErr written ⊎ (IsErr flushed ⊎ ((written ≡ Ok 0) × (0 < length bytes.now)))) }
        ensures counted { self.new.faults ≡ faults_after (is_err result) self.old.faults }
        ensures later { self.old.faults ≤ self.new.faults }
        ensures writer { self.new.inner ≡ self.old.inner }
    {
        match (written, flushed) {
            (Ok(count), Ok(())) if count > 0 || bytes.is_empty() => Ok(count),
            _ => {
                self.faults = self.faults.saturating_add(1);
                Err(Failed)
            }
        }
    }
}

impl<W: Write> Sink for StdSink<W> {
    ghost contents = { λ _. None };

    ghost faults = { λ sink. sink.faults };

    fn write(&mut self, bytes: &[u8]) -> Result<usize, Failed>
        ensures bound { WritesAtMost result bytes.now }
        ensures some { IfOk result (λ count. 0 < length bytes.now → 0 < count) }
        ensures bytes { WriteAppends None None result bytes.now }
        ensures cause { HasCause self.old.faults self.new.faults result }

        // What the writer is known to hold has grown by what was taken, or by some prefix of the
        // piece where the call failed.
        ensures written { IfOk result (λ count. Appends
            (W.contents self.old.inner) (W.contents self.new.inner) (take count bytes.now)) }
        ensures prefix { OnErr result ((count : ℕ) × Appends
            (W.contents self.old.inner) (W.contents self.new.inner) (take count bytes.now)) }
        ensures counted { self.new.faults ≡ faults_after (is_err result) self.old.faults }
    {
        let written = self.writer.write(bytes);
        let flushed = self.writer.flush();
        self.settle(bytes, written, flushed)
    }
}
