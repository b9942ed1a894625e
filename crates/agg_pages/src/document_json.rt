//! Documents from the lines of an input.
pub(crate) mod document;
pub(crate) mod input_error;
pub(crate) mod line_value;
pub(crate) mod plain;
pub(crate) mod token_reader;
pub(crate) mod tokens;

pub use document::read_document;
pub use input_error::InputError;
pub use line_value::parse;
pub use tokens::LineRoom;
