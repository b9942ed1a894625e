//! The collectors of a request's aggregations in a segment, as a tree.
pub(crate) mod call;
pub(crate) mod composite;
pub(crate) mod filter;
pub(crate) mod filter_collector;
pub(crate) mod growing;
pub(crate) mod handing;
pub(crate) mod metric;
pub(crate) mod preparing;
pub(crate) mod tree;

pub use call::Call;
pub use filter_collector::{FilterCollector, Place};
pub use growing::tree_for;
pub use handing::hand;
pub use preparing::prepare;
pub use tree::SegmentCollectorTree;
