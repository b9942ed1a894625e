//! Records as the one snapshot of their documents, and what is told of them.
pub(crate) mod format;
pub(crate) mod index;
pub(crate) mod report;

pub use format::format_of;
pub use index::Index;
pub use report::Report;
