//! Segments in the making, segments of documents as columns, and the queries that match them.
#![tactic(auto)]

mod builder;
mod gatherings;
mod laws;
mod query;
mod schema;
mod segment;
mod signs;
mod snapshot;
pub mod storage;

pub use crate::storage::{
    Column, ColumnType, Document, FieldValue, OrdHit, by_class_keeps_the_keys,
    values_types_and_hits_are_equal_by_content,
};
pub use builder::{BuildError, MAX_DOCUMENTS, SegmentBuilder};
pub use laws::build_errors_are_equal_by_variant;
pub use query::{Matches, QueryTree, RangeBound, classes_match_in_any_order};
pub use schema::Schema;
pub use segment::SegmentReader;
pub use snapshot::Snapshot;
