//! Intermediate results of metrics, how they merge, and why merging is refused.
pub(crate) mod error;
pub(crate) mod metric;
pub(crate) mod shown;

pub use error::MergeError;
pub use metric::{
    IntermediateCount, IntermediateMax, IntermediateMetricResult, IntermediateMin, IntermediateSum,
    add_counts, greatest, least,
};
pub use shown::shown_metric;
