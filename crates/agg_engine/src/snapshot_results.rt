//! The intermediate results of a request over the segments of a snapshot.
pub(crate) mod charge;
pub(crate) mod charge_error;
pub(crate) mod charged_tree;
pub(crate) mod checks;
pub(crate) mod context;
pub(crate) mod error;
pub(crate) mod listed;
pub(crate) mod lone;
pub(crate) mod matching;
pub(crate) mod segment;
pub(crate) mod snapshot;
pub(crate) mod taking;

pub use charge_error::ChargeError;
pub use charged_tree::ChargedTree;
pub use context::PageRequest;
pub use error::SnapshotError;
pub use snapshot::snapshot_results;
