//! Texts of ISO 8601 dates and times as nanoseconds since 1970, both ways, and the units of numbers
//! that are dates.
pub(crate) mod error;
pub(crate) mod laws;
pub(crate) mod read;
pub(crate) mod unit;
pub(crate) mod write;

pub use error::DateError;
pub use laws::date_texts_are_read_back;
pub use read::read_date;
pub use unit::DateUnit;
pub use write::write_date;
