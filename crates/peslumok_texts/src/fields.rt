//! What the fields of records hold, the values that their texts and numbers stand for, and how
//! values are shown.
pub(crate) mod error;
pub(crate) mod field_type;
pub(crate) mod field_types;
pub(crate) mod laws;
pub(crate) mod read;
pub(crate) mod shown;
pub(crate) mod whole;

pub use error::ValueError;
pub use field_type::FieldType;
pub use field_types::FieldTypes;
pub use laws::{shown_values_are_read_back, whole_numbers_are_as_they_are_written};
pub use read::{value_of_number, value_of_string, value_of_text};
pub use shown::{write_number, write_shown_key, write_value};
