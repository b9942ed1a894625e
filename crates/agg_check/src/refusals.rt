//! Refusals of walks in words, and where in a request they come from.
pub(crate) mod place;
pub(crate) mod words;

pub use place::{RefusedComposite, refused_composite, refused_source};
pub use words::write_refusal;
