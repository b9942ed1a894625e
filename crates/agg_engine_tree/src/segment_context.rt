//! What the aggregations of a request are asked in a segment, and the tree of these.
pub(crate) mod context;
pub(crate) mod error;
pub(crate) mod node;
pub(crate) mod paged;
pub(crate) mod params;
pub(crate) mod segment;
pub(crate) mod view;

pub use context::{AggregationsSegmentCtx, PerRequestAggSegCtx};
pub use error::SetupError;
pub use node::{AggKind, AggRefNode};
pub use paged::check_paged;
pub use params::{AggContextParams, Page};
pub use segment::segment_context;
pub use view::AggTreeViewNode;
