//! The walk that pages over snapshots, the results of a snapshot that it asks for, and the
//! collectors that users hold.
#![tactic(auto)]

pub mod collectors;
mod laws;
pub mod snapshot_results;
mod walk;

pub use crate::collectors::{
    AggregationCollector, AggregationSegmentCollector, DistributedAggregationCollector,
    SegmentAggregationCollector,
};
pub use agg_engine_tree::segment_context::{
    AggContextParams, AggKind, AggRefNode, AggTreeViewNode, AggregationsSegmentCtx,
    PerRequestAggSegCtx, SetupError,
};
pub use agg_segment::Snapshot;
pub use laws::{
    a_full_page_shows_its_after_key, a_walk_over_no_snapshot_has_no_page,
    each_request_has_one_walk, settled_snapshots_are_refused_exactly,
    what_has_to_be_refused_may_be_refused,
};
pub use walk::{Walk, WalkError, walk_pages};
