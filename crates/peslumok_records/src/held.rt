//! Records in the making: the fields that are asked for, the documents that were read of them, and
//! why and where records can't be read.
pub(crate) mod asked;
pub(crate) mod error;
pub(crate) mod place;
pub(crate) mod records;
pub(crate) mod scalars;

pub use asked::{AskedField, AskedFields};
pub use error::{RecordCause, RecordError};
pub use place::line_of;
pub use records::Records;
pub use scalars::value_or_cause;
