use thiserror::Error;

/// What is wrong with the text of a date.
#[derive(Clone, Copy, Debug, PartialEq, Eq, Error)]
pub enum DateError {
    /// It is no date, or no date with a time.
    #[error("is not a date of ISO 8601")]
    NotADate,
    /// It names a time zone in brackets.
    #[error("names a time zone in brackets; write the offset, as +02:00")]
    NamesAZone,
    /// It has a 60th second.
    #[error("has a 60th second")]
    SecondSixty,
    /// Its nanoseconds have more than 64 bits.
    #[error("is a date outside of 1677-09-21 to 2262-04-11")]
    OutOfRange,
}
