//! Looking into JSON values, why readers refuse them, and queries from JSON.
pub mod json_value;
pub(crate) mod laws;
pub mod members;
pub(crate) mod query;
pub(crate) mod read_error;

pub use laws::read_error_equality_is_sameness;
pub use query::read_query;
pub use read_error::ReadError;
