ghost use Rattle.std.specs.Prelude.{◌≡◌};
ghost use Rattle.agg_results.specs.intermediate_results.FinalError.{error_from_merge};
ghost use Rattle.agg_results.specs.declared.intermediate_results.error.FinalError.TheVariants
    as last;

use crate::metric_results::MergeError;
use agg_values::{AggregationError, OutOfMemory};
use thiserror::Error;

/// Why intermediate results have no final ones.
#[derive(Debug, Drop, PartialEq, Eq, Error)]
pub enum FinalError {
    #[error("a result isn't of the shape that the request asks for")]
    Mismatch,
    #[error("too many occurrences")]
    TooMany,
    #[error("a result has a name that the request doesn't ask for")]
    UnknownAggregation,
    #[error(transparent)]
    Aggregation(AggregationError),
    #[error("out of memory")]
    OutOfMemory,
}

impl From<OutOfMemory> for FinalError {
    ghost from_gives = { λ _ e. e ≡ last.OutOfMemory };

    fn from(_error: OutOfMemory) -> FinalError {
        FinalError::OutOfMemory
    }
}

impl From<MergeError> for FinalError {
    ghost from_gives = { λ m e. e ≡ error_from_merge m };

    fn from(error: MergeError) -> FinalError {
        match error {
            MergeError::Mismatch => FinalError::Mismatch,
            MergeError::TooMany => FinalError::TooMany,
            MergeError::OutOfMemory => FinalError::OutOfMemory,
        }
    }
}
