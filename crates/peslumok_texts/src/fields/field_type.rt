use crate::dates::DateUnit;
use crate::decimals::Places;

/// What a field of records holds.
#[derive(Clone, Copy, Debug, PartialEq, Eq)]
pub enum FieldType {
    /// Whole numbers and texts.
    Plain,
    /// Texts, also those that look like numbers.
    Text,
    /// Texts of dates.
    Date,
    /// Whole numbers of a unit since 1970.
    DateNumber(DateUnit),
    /// Numbers with decimals.
    Decimal(Places),
}
