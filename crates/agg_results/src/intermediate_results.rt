//! Intermediate results of segments, which merge, and the final results that they become.
pub(crate) mod composite;
pub(crate) mod empty;
pub(crate) mod entry;
pub(crate) mod error;
pub(crate) mod final_results;
pub(crate) mod merged;
pub(crate) mod merging;
pub(crate) mod parts;
pub(crate) mod results;

pub use crate::metric_results::{
    IntermediateCount, IntermediateMax, IntermediateMetricResult, IntermediateMin, IntermediateSum,
    MergeError, greatest, least,
};
pub use composite::IntermediateCompositeBucketResult;
pub use entry::{IntermediateCompositeBucketEntry, IntermediateTermBucketEntry};
pub use error::FinalError;
pub use results::{
    IntermediateAggregationResult, IntermediateAggregationResults, IntermediateBucketResult,
    IntermediateFilterBucketResult,
};
