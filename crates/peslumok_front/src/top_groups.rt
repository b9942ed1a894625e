//! The groups with the most documents.
pub(crate) mod groups;

pub use groups::TopGroups;
