//! The input: a header and then snapshots, a line each.
pub(crate) mod header;
pub(crate) mod input;
pub(crate) mod laws;
pub(crate) mod line;
pub(crate) mod lines;
pub(crate) mod snapshots;

pub use crate::document_json::InputError;
pub use header::Header;
pub use input::{Input, MAX_INPUT_BYTES, read_input};
pub use laws::{a_printed_after_key_gives_its_bound, bytes_are_at_most_one_input};
