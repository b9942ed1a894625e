//! What is wrong with the parts of a text of `--by`, by the type of their field. Each message
//! follows the part.
ghost use Rattle.std.specs.Prelude.{◌≡◌};

use peslumok_texts::fields::ValueError;
use thiserror::Error;

/// Which part is wrong, and why.
#[derive(Clone, Copy, Debug, PartialEq, Eq, Error)]
pub enum ByFault {
    #[error("is no interval: {0}")]
    Interval(IntervalFault),
    #[error("is no offset: {0}")]
    Offset(OffsetFault),
    #[error("is no least value: it {0}")]
    Min(ValueError),
}

/// What is wrong with an interval.
#[derive(Clone, Copy, Debug, PartialEq, Eq, Error)]
pub enum IntervalFault {
    #[error("dates are divided by 1d, 12h, 30m, year, month or week")]
    OfDates,
    #[error("numbers are divided by a whole number from 1 on, and --date FIELD reads dates")]
    OfNumbers,
    #[error("it has more decimals than the field, or is not above 0")]
    OfDecimals,
    #[error("a text field has no intervals")]
    OfTexts,
}

/// What is wrong with an offset.
#[derive(Clone, Copy, Debug, PartialEq, Eq, Error)]
pub enum OffsetFault {
    #[error("dates are moved by a sign and a time, such as +6h or -1d")]
    NoTime,
    #[error("only intervals of dates have one")]
    NotOfDates,
}
