//! Why a grouping can't be asked.
ghost use Rattle.std.specs.Prelude.{◌≡◌};

use crate::grouping::by_fault::ByFault;
use agg_request::json_values::ReadError;
use agg_values::{OutOfMemory, Text};
use peslumok_texts::fields::ValueError;
use std::alloc::{AllocError, AllocFailed};
use thiserror::Error;

/// Why a grouping can't be asked, with the words that are wrong.
#[derive(Debug, Drop, Error)]
pub enum GroupingError {
    /// An interval, an offset or a least value of groups that its field can't have.
    #[error("--by: {}: '{}' {why}", field.as_str(), text.as_str())]
    By {
        field: Text,
        text: Text,
        why: ByFault,
    },
    /// A value that its field can't have.
    #[error("--where: {}: '{}' {why}", field.as_str(), value.as_str())]
    Value {
        field: Text,
        value: Text,
        why: ValueError,
    },
    /// A text that says no query.
    #[error("--query: {0}")]
    Query(QueryFault),
    /// A value of a key to go on after that its field can't have.
    #[error("--after: {}: a value {why}", field.as_str())]
    AfterValue {
        field: Text,
        why: ValueError,
    },
    /// Values of a key after the last source.
    #[error("--after: {} has more values than there are groups by", .0.as_str())]
    ExtraValue(Text),
    /// A field that is said to hold two things.
    #[error("{}: only one of --date, --decimal and --text may name a field", .0.as_str())]
    TwoTypes(Text),
    #[error("out of memory")]
    OutOfMemory,
}

/// What is wrong with the text of a query.
#[derive(Clone, Copy, Debug, PartialEq, Eq, Error)]
pub enum QueryFault {
    #[error("no JSON: line {line}, column {column}")]
    NoJson { line: usize, column: usize },
    #[error("not a query: it is an object with one member: all, empty, term, range, exists or \
        bool")]
    NoQuery,
    #[error("not supported")]
    Unsupported,
}

impl From<OutOfMemory> for GroupingError {
    ghost use Rattle.peslumok_front.specs.declared.grouping.error.GroupingError.TheVariants
        as refusal;

    ghost from_gives = { λ _ error. error ≡ refusal.OutOfMemory };

    fn from(_error: OutOfMemory) -> GroupingError {
        GroupingError::OutOfMemory
    }
}

impl From<AllocError> for GroupingError {
    ghost use Rattle.peslumok_front.specs.declared.grouping.error.GroupingError.TheVariants
        as refusal;

    ghost from_gives = { λ _ error. error ≡ refusal.OutOfMemory };

    fn from(_error: AllocError) -> GroupingError {
        GroupingError::OutOfMemory
    }
}

impl<T: Drop> From<AllocFailed<T>> for GroupingError {
    ghost use Rattle.peslumok_front.specs.declared.grouping.error.GroupingError.TheVariants
        as refusal;

    ghost from_gives = { λ _ error. error ≡ refusal.OutOfMemory };

    fn from(_error: AllocFailed<T>) -> GroupingError {
        GroupingError::OutOfMemory
    }
}

impl From<ReadError> for GroupingError {
    ghost use Rattle.peslumok_front.specs.grouping.Query.{refusal_of};

    ghost from_gives = { λ error refusal. refusal ≡ refusal_of error };

    fn from(error: ReadError) -> GroupingError {
        match error {
            ReadError::Unsupported => GroupingError::Query(QueryFault::Unsupported),
            ReadError::Grammar | ReadError::UnknownBuilder => {
                GroupingError::Query(QueryFault::NoQuery)
            }
            ReadError::OutOfMemory => GroupingError::OutOfMemory,
        }
    }
}
