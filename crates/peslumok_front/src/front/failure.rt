//! Why groups weren't written to their end.
ghost use Rattle.std.specs.Prelude.{◌≡◌};
ghost use Rattle.peslumok_front.specs.front.Codes.{code_of, failure_of_grouping, failure_of_walk};
ghost use Rattle.peslumok_front.specs.declared.front.failure.Failure.TheVariants as failure;

use crate::grouping::GroupingError;
use agg_engine::WalkError;
use agg_streams::Failed;
use agg_values::{OutOfMemory, Text};
use peslumok_records::records::RecordError;
use std::alloc::{AllocError, AllocFailed};
use thiserror::Error;

/// Why groups weren't written to their end. Its text is the message for the user.
#[derive(Debug, Drop, Error)]
pub enum Failure {
    /// The groups that are asked for can't be made.
    #[error("peslumok: {0}")]
    Refused(WalkError),
    /// What is asked can't be read.
    #[error("error: {0}")]
    Usage(GroupingError),
    /// Two columns have one name.
    #[error("error: two columns are called '{}'; --by NAME=FIELD names one", .0.as_str())]
    SameColumn(Text),
    /// A record of this input can't be read.
    #[error("{}:{error}", name.as_str())]
    Record { name: Text, error: RecordError },
    /// The system didn't give the bytes of this input.
    #[error("{}: can't be read", .0.as_str())]
    Unreadable(Text),
    #[error("peslumok: the output can't be written")]
    Unwritten,
    #[error("peslumok: out of memory")]
    OutOfMemory,
}

impl Failure {
    /// The exit code of a run that ends so.
    pub fn code(&self) -> u8
        ensures { result ≡ code_of self.now }
    {
        match self {
            Failure::Refused(_) => 1,
            Failure::Usage(_) | Failure::SameColumn(_) => 2,
            Failure::Record { .. } => 3,
            Failure::Unreadable(_) => 4,
            Failure::Unwritten => 5,
            Failure::OutOfMemory => 6,
        }
    }
}

impl From<OutOfMemory> for Failure {
    ghost from_gives = { λ _ why. why ≡ failure.OutOfMemory };

    fn from(_error: OutOfMemory) -> Failure {
        Failure::OutOfMemory
    }
}

impl From<AllocError> for Failure {
    ghost from_gives = { λ _ why. why ≡ failure.OutOfMemory };

    fn from(_error: AllocError) -> Failure {
        Failure::OutOfMemory
    }
}

impl<T: Drop> From<AllocFailed<T>> for Failure {
    ghost from_gives = { λ _ why. why ≡ failure.OutOfMemory };

    fn from(_error: AllocFailed<T>) -> Failure {
        Failure::OutOfMemory
    }
}

impl From<Failed> for Failure {
    ghost from_gives = { λ _ why. why ≡ failure.Unwritten };

    fn from(_error: Failed) -> Failure {
        Failure::Unwritten
    }
}

impl From<WalkError> for Failure {
    ghost from_gives = { λ error why. why ≡ failure_of_walk error };

    fn from(error: WalkError) -> Failure {
        match error {
            WalkError::OutOfMemory => Failure::OutOfMemory,
            error => Failure::Refused(error),
        }
    }
}

impl From<GroupingError> for Failure {
    ghost from_gives = { λ error why. why ≡ failure_of_grouping error };

    fn from(error: GroupingError) -> Failure {
        match error {
            GroupingError::OutOfMemory => Failure::OutOfMemory,
            error => Failure::Usage(error),
        }
    }
}
