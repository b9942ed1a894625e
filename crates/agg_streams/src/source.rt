//! Where bytes come from.
mod memory;
mod standard;
mod steady;

ghost use Rattle.std.specs.Prelude.{List, ℕ, Option};
ghost use Rattle.std.specs.Io.{ReadsAtMost};
ghost use Rattle.std.specs.Io.KnownBytes.{ReadConsumes};
ghost use Rattle.agg_streams.specs.Causes.{HasCause};

use crate::fault::Failed;
pub use memory::MemorySource;
pub use standard::StdSource;
pub use steady::SteadySource;

/// Where bytes come from.
pub trait Source {
    /// The bytes that it has left, where it tells them.
    ghost left: { Self → Option (List ℕ) };

    /// How many of its calls failed, as far as it counts.
    ghost faults: { Self → ℕ };

    /// Gives the next bytes, at most as many as the buffer holds. An `Ok(0)` on a buffer that isn't
    /// empty is the end.
    fn read(&mut self, buf: &mut [u8]) -> Result<usize, Failed>
        ensures bound { ReadsAtMost result buf.new }
        ensures bytes { ReadConsumes (left self.old) (left self.new) result buf.new }
        ensures cause { HasCause (faults self.old) (faults self.new) result };
}
