ghost use Rattle.std.specs.Prelude.{◌≡◌};
ghost use Rattle.agg_cache.specs.declared.error.CollectError.{CollectError};

use agg_values::{AggregationError, OutOfMemory, TooMany};
use std::alloc::AllocFailed;
use thiserror::Error;

/// Why a collector refused documents.
#[derive(Debug, Drop, PartialEq, Eq, Error)]
pub enum CollectError {
    #[error("a bucket starts outside 64 bits")]
    BucketOutOfRange,
    #[error("too many occurrences")]
    TooMany,
    #[error(transparent)]
    Aggregation(AggregationError),
    #[error("the collector has failed before")]
    CollectorFailed,
    #[error("out of memory")]
    OutOfMemory,
}

impl From<OutOfMemory> for CollectError {
    ghost from_gives = { λ _ error. error ≡ CollectError.OutOfMemory };

    fn from(_part: OutOfMemory) -> CollectError {
        CollectError::OutOfMemory
    }
}

impl<T: Drop> From<AllocFailed<T>> for CollectError {
    ghost from_gives = { λ _ error. error ≡ CollectError.OutOfMemory };

    fn from(_part: AllocFailed<T>) -> CollectError {
        CollectError::OutOfMemory
    }
}

impl From<AggregationError> for CollectError {
    ghost from_gives = { λ part error. error ≡ CollectError.Aggregation part };

    fn from(part: AggregationError) -> CollectError {
        CollectError::Aggregation(part)
    }
}

impl From<TooMany> for CollectError {
    ghost from_gives = { λ _ error. error ≡ CollectError.TooMany };

    fn from(_part: TooMany) -> CollectError {
        CollectError::TooMany
    }
}
