//! Decimal texts as whole numbers of their last place, both ways.
pub(crate) mod error;
pub(crate) mod laws;
pub(crate) mod places;
pub(crate) mod read;
pub(crate) mod write;

pub use error::DecimalError;
pub use laws::decimal_texts_are_read_back;
pub use places::Places;
pub use read::read_decimal;
pub use write::write_decimal;
