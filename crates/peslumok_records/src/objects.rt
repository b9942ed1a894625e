//! Records of JSON: objects, each on a line of its own, or in one array.
pub(crate) mod array;
pub(crate) mod lines;
pub(crate) mod members;
pub(crate) mod objects;
pub(crate) mod place;
pub(crate) mod scalars;
pub(crate) mod tokens;

pub use array::read_array;
pub use lines::read_lines;
