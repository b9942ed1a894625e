//! An input for measurements, generated from a seed.
pub(crate) mod documents;
pub(crate) mod draws;
pub(crate) mod input;
pub(crate) mod request;
pub(crate) mod snapshots;

pub use draws::Generator;
pub use input::generated_input;
