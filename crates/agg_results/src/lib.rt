//! Intermediate results, which merge, final results and their text, and the documents that both
//! stand for.
#![tactic(auto)]

pub mod final_results;
pub mod intermediate_results;
mod laws;
pub mod metric_results;
mod term_buckets;

pub use crate::final_results::{
    AggregationResult, AggregationResults, BucketResult, CompositeBucketEntry, FilterBucketResult,
    MetricResult, SingleMetricResult,
};
pub use crate::intermediate_results::{
    FinalError, IntermediateAggregationResult, IntermediateAggregationResults,
    IntermediateBucketResult, IntermediateCompositeBucketEntry, IntermediateCompositeBucketResult,
    IntermediateCount, IntermediateFilterBucketResult, IntermediateMax, IntermediateMetricResult,
    IntermediateMin, IntermediateSum, IntermediateTermBucketEntry, MergeError,
};
pub use laws::{
    a_page_stands_for_its_documents, each_request_has_one_result,
    final_results_are_those_of_the_documents, merging_in_any_order_is_final_alike,
    merging_joins_the_documents, the_empty_result_stands_for_none,
};
pub use term_buckets::IntermediateTermBucketResult;
