ghost use Rattle.std.specs.Prelude.{◌≡◌};
ghost use Rattle.agg_engine.specs.WalkError.{error_from_request, error_from_setup};
ghost use Rattle.agg_engine.specs.WalkError.{error_from_snapshot, error_name};
ghost use Rattle.agg_engine.specs.WalkError.{aggregation_name, argument_name, parse_name};
ghost use Rattle.agg_engine.specs.declared.walk.error.WalkError.TheVariants.{OutOfMemory as Memory};

use crate::snapshot_results::SnapshotError;
use agg_engine_tree::segment_context::SetupError;
use agg_values::{
    AggregationError, DateHistogramParseError, InvalidArgument, OutOfMemory, RequestError,
};
use thiserror::Error;

/// Why a walk gave no pages.
#[derive(Debug, Drop, PartialEq, Eq, Error)]
pub enum WalkError {
    #[error(transparent)]
    Invalid(InvalidArgument),
    #[error("the name is that of no composite of the request")]
    UnknownComposite,
    #[error("a builder has no query for the schema")]
    QueryBuild,
    #[error("a bucket starts outside 64 bits")]
    BucketOutOfRange,
    #[error("too many occurrences")]
    TooMany,
    #[error(transparent)]
    Aggregation(AggregationError),
    #[error("out of memory")]
    OutOfMemory,
}

impl WalkError {
    /// The name of the innermost variant.
    pub fn name(&self) -> &'static str
        ensures { result.now ≡ error_name self.now }
    {
        match self {
            WalkError::Invalid(argument) => argument_name(argument),
            WalkError::UnknownComposite => "UnknownComposite",
            WalkError::QueryBuild => "QueryBuild",
            WalkError::BucketOutOfRange => "BucketOutOfRange",
            WalkError::TooMany => "TooMany",
            WalkError::Aggregation(error) => aggregation_name(error),
            WalkError::OutOfMemory => "OutOfMemory",
        }
    }
}

fn argument_name(argument: &InvalidArgument) -> &'static str
    ensures { result.now ≡ argument_name argument.now }
{
    match argument {
        InvalidArgument::NoSource => "NoSource",
        InvalidArgument::ZeroSize => "ZeroSize",
        InvalidArgument::TooManySources => "TooManySources",
        InvalidArgument::DuplicateSource => "DuplicateSource",
        InvalidArgument::BadInterval => "BadInterval",
        InvalidArgument::IntervalChoice => "IntervalChoice",
        InvalidArgument::NullAfter => "NullAfter",
        InvalidArgument::AfterType => "AfterType",
    }
}

fn aggregation_name(error: &AggregationError) -> &'static str
    ensures { result.now ≡ aggregation_name error.now }
{
    match error {
        AggregationError::DateHistogramParseError(part) => parse_name(part),
        AggregationError::MemoryExceeded { .. } => "MemoryExceeded",
        AggregationError::BucketLimitExceeded { .. } => "BucketLimitExceeded",
    }
}

fn parse_name(error: &DateHistogramParseError) -> &'static str
    ensures { result.now ≡ parse_name error.now }
{
    match error {
        DateHistogramParseError::UnitNotRecognized(_) => "UnitNotRecognized",
        DateHistogramParseError::NumberMissing(_) => "NumberMissing",
        DateHistogramParseError::UnitMissing(_) => "UnitMissing",
        DateHistogramParseError::InvalidOffset(_) => "InvalidOffset",
        DateHistogramParseError::OutOfBounds(_) => "OutOfBounds",
    }
}

impl From<OutOfMemory> for WalkError {
    ghost from_gives = { λ _ e. e ≡ Memory };

    fn from(_error: OutOfMemory) -> WalkError {
        WalkError::OutOfMemory
    }
}

impl From<RequestError> for WalkError {
    ghost from_gives = { λ r e. e ≡ error_from_request r };

    fn from(error: RequestError) -> WalkError {
        match error {
            RequestError::Invalid(argument) => WalkError::Invalid(argument),
            RequestError::Aggregation(error) => WalkError::Aggregation(error),
            RequestError::OutOfMemory => WalkError::OutOfMemory,
        }
    }
}

impl From<SetupError> for WalkError {
    ghost from_gives = { λ s e. e ≡ error_from_setup s };

    fn from(error: SetupError) -> WalkError {
        match error {
            SetupError::Invalid(argument) => WalkError::Invalid(argument),
            SetupError::QueryBuild => WalkError::QueryBuild,
            SetupError::Aggregation(error) => WalkError::Aggregation(error),
            SetupError::OutOfMemory => WalkError::OutOfMemory,
        }
    }
}

impl From<SnapshotError> for WalkError {
    ghost from_gives = { λ s e. e ≡ error_from_snapshot s };

    fn from(error: SnapshotError) -> WalkError {
        match error {
            SnapshotError::BucketOutOfRange => WalkError::BucketOutOfRange,
            SnapshotError::TooMany => WalkError::TooMany,
            SnapshotError::MemoryExceeded { limit, current } => {
                WalkError::Aggregation(AggregationError::MemoryExceeded { limit, current })
            }
            SnapshotError::OutOfMemory => WalkError::OutOfMemory,
        }
    }
}
