ghost use Rattle.std.specs.Prelude.{◌≡◌};
ghost use Rattle.agg_values.specs.declared.request_error.AggregationError.{AggregationError};
ghost use Rattle.agg_values.specs.declared.request_error.RequestError.{RequestError};

use crate::{InvalidArgument, OutOfMemory, Text};
use thiserror::Error;

/// A text that is no interval or no offset. `UnitNotRecognized` holds the unit, and each of the
/// others the whole text, without the sign before it in an offset.
#[derive(Debug, Drop, PartialEq, Eq, Error)]
pub enum DateHistogramParseError {
    #[error("unit not recognized: {}", .0.as_str())]
    UnitNotRecognized(Text),
    #[error("number missing: {}", .0.as_str())]
    NumberMissing(Text),
    #[error("unit missing: {}", .0.as_str())]
    UnitMissing(Text),
    #[error("invalid offset: {}", .0.as_str())]
    InvalidOffset(Text),
    #[error("out of bounds: {}", .0.as_str())]
    OutOfBounds(Text),
}

/// An aggregation that cannot be made.
#[derive(Debug, Drop, PartialEq, Eq, Error)]
pub enum AggregationError {
    #[error(transparent)]
    DateHistogramParseError(DateHistogramParseError),
    #[error("memory limit exceeded: {limit} bytes allowed, {current} wanted")]
    MemoryExceeded { limit: u64, current: u64 },
    #[error("bucket limit exceeded: {limit} buckets allowed, {current} made")]
    BucketLimitExceeded { limit: u32, current: u64 },
}

impl From<DateHistogramParseError> for AggregationError {
    ghost from_gives = { λ part error. error ≡ AggregationError.DateHistogramParseError part };

    fn from(part: DateHistogramParseError) -> AggregationError {
        AggregationError::DateHistogramParseError(part)
    }
}

/// A request that is refused.
#[derive(Debug, Drop, PartialEq, Eq, Error)]
pub enum RequestError {
    #[error(transparent)]
    Invalid(InvalidArgument),
    #[error(transparent)]
    Aggregation(AggregationError),
    #[error("out of memory")]
    OutOfMemory,
}

impl From<InvalidArgument> for RequestError {
    ghost from_gives = { λ part error. error ≡ RequestError.Invalid part };

    fn from(part: InvalidArgument) -> RequestError {
        RequestError::Invalid(part)
    }
}

impl From<AggregationError> for RequestError {
    ghost from_gives = { λ part error. error ≡ RequestError.Aggregation part };

    fn from(part: AggregationError) -> RequestError {
        RequestError::Aggregation(part)
    }
}

impl From<OutOfMemory> for RequestError {
    ghost from_gives = { λ _ error. error ≡ RequestError.OutOfMemory };

    fn from(_part: OutOfMemory) -> RequestError {
        RequestError::OutOfMemory
    }
}
