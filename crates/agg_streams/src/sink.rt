//! Where bytes go.
mod memory;
mod standard;
mod writing;

ghost use Rattle.std.specs.Prelude.{List, ℕ, Option, IfOk, ◌<◌, length};
ghost use Rattle.std.specs.Io.{WritesAtMost};
ghost use Rattle.std.specs.Io.KnownBytes.{WriteAppends};
ghost use Rattle.agg_streams.specs.Causes.{HasCause};

use crate::fault::Failed;
pub use memory::MemorySink;
pub use standard::StdSink;
pub use writing::write_all;

/// Where bytes go.
pub trait Sink {
    /// The bytes that it holds, where it tells them.
    ghost contents: { Self → Option (List ℕ) };

    /// How many of its calls failed, as far as it counts.
    ghost faults: { Self → ℕ };

    /// Takes a prefix of the piece, of at least one byte where the piece isn't empty.
    fn write(&mut self, bytes: &[u8]) -> Result<usize, Failed>
        ensures bound { WritesAtMost result bytes.now }
        ensures some { IfOk result (λ count. 0 < length bytes.now → 0 < count) }
        ensures bytes { WriteAppends (contents self.old) (contents self.new) result bytes.now }
        ensures cause { HasCause (faults self.old) (faults self.new) result };
}
