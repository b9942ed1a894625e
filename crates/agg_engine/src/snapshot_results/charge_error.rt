//! Why a tree of collectors isn't charged, or takes no documents.
ghost use Rattle.std.specs.Prelude.{◌≡◌};
ghost use Rattle.agg_engine.specs.snapshot_results.ChargeErrors.{collect_error, setup_error};
ghost use Rattle.agg_engine.specs.snapshot_results.ChargeErrors.{snapshot_error};
ghost use Rattle.agg_engine.specs.declared.snapshot_results.charge_error.ChargeError.{
  ChargeError as Refusal,
};

use crate::snapshot_results::SnapshotError;
use agg_cache::CollectError;
use agg_engine_tree::segment_context::SetupError;
use agg_values::{AggregationError, OutOfMemory};
use thiserror::Error;

/// Why a tree of collectors isn't made, or takes no documents.
#[derive(Clone, Copy, Debug, PartialEq, Eq, Error)]
pub enum ChargeError {
    #[error("memory limit exceeded: {limit} bytes allowed, {current} wanted")]
    MemoryExceeded { limit: u64, current: u64 },
    #[error("out of memory")]
    OutOfMemory,
}

impl From<OutOfMemory> for ChargeError {
    ghost from_gives = { λ _ error. error ≡ Refusal.OutOfMemory };

    fn from(_part: OutOfMemory) -> ChargeError {
        ChargeError::OutOfMemory
    }
}

impl From<ChargeError> for SnapshotError {
    ghost from_gives = { λ given error. error ≡ snapshot_error given };

    fn from(error: ChargeError) -> SnapshotError {
        match error {
            ChargeError::MemoryExceeded { limit, current } => {
                SnapshotError::MemoryExceeded { limit, current }
            }
            ChargeError::OutOfMemory => SnapshotError::OutOfMemory,
        }
    }
}

impl From<ChargeError> for CollectError {
    ghost from_gives = { λ given error. error ≡ collect_error given };

    fn from(error: ChargeError) -> CollectError {
        match error {
            ChargeError::MemoryExceeded { limit, current } => {
                CollectError::Aggregation(AggregationError::MemoryExceeded { limit, current })
            }
            ChargeError::OutOfMemory => CollectError::OutOfMemory,
        }
    }
}

impl From<ChargeError> for SetupError {
    ghost from_gives = { λ given error. error ≡ setup_error given };

    fn from(error: ChargeError) -> SetupError {
        match error {
            ChargeError::MemoryExceeded { limit, current } => {
                SetupError::Aggregation(AggregationError::MemoryExceeded { limit, current })
            }
            ChargeError::OutOfMemory => SetupError::OutOfMemory,
        }
    }
}
