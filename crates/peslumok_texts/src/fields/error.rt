ghost use Rattle.std.specs.Prelude.{◌≡◌};

use crate::dates::DateError;
use crate::decimals::{DecimalError, Places};
use agg_values::OutOfMemory;
use std::error::Error;
use std::fmt;

/// Why a text or a number is no value of its field. Its text follows the name of the field.
#[derive(Clone, Copy, Debug, PartialEq, Eq)]
pub enum ValueError {
    /// A number of a plain field is not whole, or has more than 64 bits.
    NotWhole,
    NotADate(DateError),
    /// It is no whole number, where a date is a number of a unit.
    NotANumberOfUnit,
    /// The nanoseconds of a number of a unit have more than 64 bits.
    DateTooLarge,
    NotADecimal(DecimalError, Places),
    OutOfMemory,
}

impl fmt::Display for ValueError {
    fn fmt<W: fmt::Write>(&self, f: &mut fmt::Formatter<W>) -> fmt::Result {
        match self {
            ValueError::NotWhole => {
                write!(
                    f,
                    "is not a whole number of 64 bits; --decimal FIELD=2 reads decimals"
                )
            }
            ValueError::NotADate(error) => write!(f, "{}", *error),
            ValueError::NotANumberOfUnit => write!(f, "is not a whole number"),
            ValueError::DateTooLarge => write!(f, "{}", DateError::OutOfRange),
            ValueError::NotADecimal(error, places) => write_decimal_error(f, *error, *places),
            ValueError::OutOfMemory => write!(f, "{}", OutOfMemory),
        }
    }
}

fn write_decimal_error<W: fmt::Write>(
    f: &mut fmt::Formatter<W>,
    error: DecimalError,
    places: Places,
) -> fmt::Result {
    match (error, places.get()) {
        (DecimalError::NotANumber, _) => write!(f, "is not a decimal number"),
        (DecimalError::TooManyDecimals, 0) => write!(f, "has decimals"),
        (DecimalError::TooManyDecimals, 1) => write!(f, "has more than 1 decimal"),
        (DecimalError::TooManyDecimals, places) => write!(f, "has more than {places} decimals"),
        (DecimalError::TooLarge, 0) => write!(f, "is too large"),
        (DecimalError::TooLarge, 1) => write!(f, "is too large for a number with 1 decimal"),
        (DecimalError::TooLarge, places) => {
            write!(f, "is too large for a number with {places} decimals")
        }
    }
}

impl Error for ValueError {}

impl From<OutOfMemory> for ValueError {
    ghost use Rattle.peslumok_texts.specs.declared.fields.error.ValueError.TheVariants as refusal;

    ghost from_gives = { λ _ error. error ≡ refusal.OutOfMemory };

    fn from(_error: OutOfMemory) -> ValueError {
        ValueError::OutOfMemory
    }
}
