//! Final results, as they are shown, and their text as JSON.
pub(crate) mod bucket_count;
pub(crate) mod ending_text;
pub(crate) mod json_text;
pub(crate) mod own_members;
pub(crate) mod quoted;
pub(crate) mod result_text;
pub(crate) mod types;

pub use types::{
    AggregationResult, AggregationResults, BucketResult, CompositeBucketEntry, FilterBucketResult,
    MetricResult, SingleMetricResult,
};
