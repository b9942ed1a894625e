//! Why visits of tuples end early.
ghost use Rattle.std.specs.Prelude.{◌≡◌};
ghost use Rattle.agg_composite.specs.buckets.Refusals.{refused};
ghost use Rattle.agg_composite.specs.declared.buckets.visit_error.VisitError.TheVariants.{
  OutOfMemory as NoMemory,
  TooMany as Many,
};

use agg_cache::CollectError;
use agg_values::{OutOfMemory, TooMany};
use std::alloc::AllocFailed;

/// Why the visits of tuples ended before the last.
#[derive(Clone, Copy, Debug, PartialEq, Eq)]
pub enum VisitError {
    TooMany,
    OutOfMemory,
}

impl From<TooMany> for VisitError {
    ghost from_gives = { λ _ e. e ≡ Many };

    fn from(_error: TooMany) -> VisitError {
        VisitError::TooMany
    }
}

impl From<OutOfMemory> for VisitError {
    ghost from_gives = { λ _ e. e ≡ NoMemory };

    fn from(_error: OutOfMemory) -> VisitError {
        VisitError::OutOfMemory
    }
}

impl<T: Drop> From<AllocFailed<T>> for VisitError {
    ghost from_gives = { λ _ e. e ≡ NoMemory };

    fn from(_error: AllocFailed<T>) -> VisitError {
        VisitError::OutOfMemory
    }
}

impl From<VisitError> for CollectError {
    ghost from_gives = { λ error e. e ≡ refused error };

    /// Why a collector refuses documents, by why the visits of their tuples ended early.
    fn from(error: VisitError) -> CollectError {
        match error {
            VisitError::TooMany => CollectError::TooMany,
            VisitError::OutOfMemory => CollectError::OutOfMemory,
        }
    }
}
