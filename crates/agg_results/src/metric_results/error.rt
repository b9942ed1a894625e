ghost use Rattle.std.specs.Prelude.{◌≡◌};
ghost use Rattle.agg_results.specs.declared.metric_results.error.MergeError.TheVariants as merge;

use agg_values::OutOfMemory;
use std::alloc::AllocFailed;
use thiserror::Error;

/// Why intermediate results can't be merged.
#[derive(Clone, Copy, Debug, PartialEq, Eq, Error)]
pub enum MergeError {
    #[error("the shapes of two results differ")]
    Mismatch,
    #[error("too many occurrences")]
    TooMany,
    #[error("out of memory")]
    OutOfMemory,
}

impl From<OutOfMemory> for MergeError {
    ghost from_gives = { λ _ e. e ≡ merge.OutOfMemory };

    fn from(_error: OutOfMemory) -> MergeError {
        MergeError::OutOfMemory
    }
}

impl<T: Drop> From<AllocFailed<T>> for MergeError {
    ghost from_gives = { λ _ e. e ≡ merge.OutOfMemory };

    fn from(_error: AllocFailed<T>) -> MergeError {
        MergeError::OutOfMemory
    }
}
