//! What is wrong with the lines of an input of `walk`, each by itself: in words, at its place.
pub(crate) mod finding;
pub(crate) mod findings;
pub(crate) mod grammar;
pub(crate) mod lines;
pub(crate) mod object;
pub(crate) mod path;
pub(crate) mod scalar;
pub(crate) mod words;

pub use finding::{Finding, Severity};
pub use lines::{check_lines, header_line};
pub use path::Path;
