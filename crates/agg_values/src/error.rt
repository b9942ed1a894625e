ghost use Rattle.std.specs.Prelude.{◌≡◌};
ghost use Rattle.agg_values.specs.declared.error.KeyTextError.TheVariants.{OutOfMemory};

use std::alloc::{AllocError, AllocFailed};
use thiserror::Error;

/// Memory was refused.
#[derive(Clone, Copy, Debug, PartialEq, Eq, Error)]
#[error("out of memory")]
pub struct OutOfMemory;

impl From<AllocError> for OutOfMemory {
    fn from(_error: AllocError) -> OutOfMemory {
        OutOfMemory
    }
}

impl<T: Drop> From<AllocFailed<T>> for OutOfMemory {
    fn from(_error: AllocFailed<T>) -> OutOfMemory {
        OutOfMemory
    }
}

/// A counter would pass its type, or there are too many occurrences.
#[derive(Clone, Copy, Debug, PartialEq, Eq, Error)]
#[error("too many occurrences")]
pub struct TooMany;

/// A request that cannot be answered as it stands.
#[derive(Clone, Copy, Debug, PartialEq, Eq, Error)]
pub enum InvalidArgument {
    #[error("a composite has no source")]
    NoSource,
    #[error("a page has room for no bucket")]
    ZeroSize,
    #[error("a composite has more than 16 sources")]
    TooManySources,
    #[error("two sources of a composite have one name")]
    DuplicateSource,
    #[error("an interval is below one")]
    BadInterval,
    #[error("a date source takes either a fixed or a calendar interval")]
    IntervalChoice,
    #[error("Null is no after value of a source without a missing bucket")]
    NullAfter,
    #[error("an after value is not of its source's type")]
    AfterType,
}

/// A text that is no after key's.
#[derive(Clone, Copy, Debug, PartialEq, Eq, Error)]
pub enum KeyTextError {
    #[error("there is no colon")]
    NoColon,
    #[error("unknown type")]
    UnknownType,
    #[error("bad value")]
    BadValue,
    #[error("unsupported type")]
    Unsupported,
    #[error("out of memory")]
    OutOfMemory,
}

impl From<OutOfMemory> for KeyTextError {
    ghost from_gives = { λ _ error. error ≡ OutOfMemory };

    fn from(_error: OutOfMemory) -> KeyTextError {
        KeyTextError::OutOfMemory
    }
}
