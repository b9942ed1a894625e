//! The collectors that users hold: of a request in a segment, and of a request over segments.
pub(crate) mod collector;
pub(crate) mod distributed;
pub(crate) mod empty;
pub(crate) mod merging;
pub(crate) mod segment;
pub(crate) mod tree;

pub use collector::AggregationCollector;
pub use distributed::DistributedAggregationCollector;
pub use segment::AggregationSegmentCollector;
pub use tree::SegmentAggregationCollector;
