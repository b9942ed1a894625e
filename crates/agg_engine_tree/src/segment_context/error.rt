ghost use Rattle.std.specs.Prelude.{◌≡◌};
ghost use Rattle.agg_engine_tree.specs.segment_context.SetupError.{error_from_builder};
ghost use Rattle.agg_engine_tree.specs.segment_context.SetupError.{error_from_request};
ghost use Rattle.agg_engine_tree.specs.declared.segment_context.error.SetupError.TheVariants
    as error;

use agg_request_tree::QueryBuildError;
use agg_values::{AggregationError, InvalidArgument, OutOfMemory, RequestError};
use thiserror::Error;

/// Why collectors can't be set up for a request.
#[derive(Debug, Drop, PartialEq, Eq, Error)]
pub enum SetupError {
    #[error(transparent)]
    Invalid(InvalidArgument),
    #[error("a builder has no query for the schema")]
    QueryBuild,
    #[error(transparent)]
    Aggregation(AggregationError),
    #[error("out of memory")]
    OutOfMemory,
}

impl From<OutOfMemory> for SetupError {
    ghost from_gives = { λ _ e. e ≡ error.OutOfMemory };

    fn from(_error: OutOfMemory) -> SetupError {
        SetupError::OutOfMemory
    }
}

impl From<RequestError> for SetupError {
    ghost from_gives = { λ r e. e ≡ error_from_request r };

    fn from(error: RequestError) -> SetupError {
        match error {
            RequestError::Invalid(argument) => SetupError::Invalid(argument),
            RequestError::Aggregation(error) => SetupError::Aggregation(error),
            RequestError::OutOfMemory => SetupError::OutOfMemory,
        }
    }
}

impl From<QueryBuildError> for SetupError {
    ghost from_gives = { λ b e. e ≡ error_from_builder b };

    fn from(error: QueryBuildError) -> SetupError {
        match error {
            QueryBuildError::NoTree => SetupError::QueryBuild,
            QueryBuildError::OutOfMemory => SetupError::OutOfMemory,
        }
    }
}
