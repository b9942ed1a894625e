ghost use Rattle.std.specs.Prelude.{◌≡◌};
ghost use Rattle.agg_engine.specs.declared.snapshot_results.error.SnapshotError.{SnapshotError};

use agg_values::OutOfMemory;
use thiserror::Error;

/// Why a snapshot has no results.
#[derive(Clone, Copy, Debug, PartialEq, Eq, Error)]
pub enum SnapshotError {
    #[error("a bucket starts outside 64 bits")]
    BucketOutOfRange,
    #[error("too many occurrences")]
    TooMany,
    #[error("memory limit exceeded: {limit} bytes allowed, {current} wanted")]
    MemoryExceeded { limit: u64, current: u64 },
    #[error("out of memory")]
    OutOfMemory,
}

impl From<OutOfMemory> for SnapshotError {
    ghost from_gives = { λ _ error. error ≡ SnapshotError.OutOfMemory };

    fn from(_part: OutOfMemory) -> SnapshotError {
        SnapshotError::OutOfMemory
    }
}
