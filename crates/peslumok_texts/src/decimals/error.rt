use thiserror::Error;

/// What is wrong with a decimal text.
#[derive(Clone, Copy, Debug, PartialEq, Eq, Error)]
pub enum DecimalError {
    /// It is no optional minus, digits, and optionally a point and digits.
    #[error("is not a decimal number")]
    NotANumber,
    /// More digits stand after the point than there are places.
    #[error("has too many decimals")]
    TooManyDecimals,
    /// The whole number has more than 63 bits.
    #[error("is too large a number")]
    TooLarge,
}
