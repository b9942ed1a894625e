//! The keys after which pages begin, as texts of the command line: read and written.
pub(crate) mod key;
pub(crate) mod read;
pub(crate) mod values;
pub(crate) mod written;

pub use read::after_of;
pub use written::write_after;
